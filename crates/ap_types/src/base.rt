ghost use Rattle.std.specs.Prelude.{◌≡◌};
ghost use Rattle.ap_world.specs.Narrowing.{cut};

use crate::facts::cut;
use crate::places::{Places, place_of, places_of};
use ap_term::Term;
use ap_world::masks;
use std::marker::Model;

/// The fewest nodes of a term for which it is noted of which places the facts speak: one of fewer is sooner compared
/// with each fact.
const FEWEST_NODES: u32 = 4;

/// The facts that a term is asked under, with the places of the terms of which they say something, where these are
/// noted. Contracts see the facts; its type keeps that they say nothing of a term at another place.
#[derive(Drop)]
pub(crate) struct Base<'a> {
    facts: &'a [(Term, bool)],
    spoken_of: Option<Places>,
}

impl<'a> Model for Base<'a> {
    ghost use Rattle.std.specs.Coded.{codes};
    ghost use Rattle.ap_term.specs.contracts.term.Term as term;
    ghost use Rattle.ap_world.specs.Facts.{Facts};
    ghost use Rattle.ap_types.specs.Spoken.{Notes};

    ghost Value = { Facts };

    ghost coded = { Prim.hlevel (codes, term.the_row.coded) };

    ghost view = { λ b. b.facts.now };

    ghost invariant = { λ b. Notes b.facts.now b.spoken_of };
}

impl<'a> Base<'a> {
    /// Facts, as they are.
    pub(crate) fn plain(facts: &'a [(Term, bool)]) -> Base<'a>
        ensures { result ≡ facts.now }
    {
        Base {
            facts,
            spoken_of: None,
        }
    }

    /// Facts under which a term is asked.
    pub(crate) fn new(facts: &'a [(Term, bool)], t: &Term) -> Base<'a>
        ensures { result ≡ facts.now }
    {
        if facts.is_empty() || t.nodes_up_to() < FEWEST_NODES {
            return Base::plain(facts);
        }
        Base {
            facts,
            spoken_of: Some(places_of(facts)),
        }
    }

    /// A mask of a term cut by the facts on it.
    pub(crate) fn cut(&self, t: &Term, mask: u16) -> u16
        ensures { result ≡ cut self.now t.now mask }
    {
        if self.facts.is_empty() {
            return mask;
        }
        match &self.spoken_of {
            Some(spoken_of) if !spoken_of[place_of(t)] => mask & masks::ALL,
            _ => cut(self.facts, t, mask),
        }
    }
}
