ghost use Rattle.std.specs.Prelude.{◌≡◌, [], length, take, OnOk};
ghost use Rattle.ap_world.specs.Facts.{Facts};
ghost use Rattle.ap_world.specs.Assume.{assume};
ghost use Rattle.ap_world.specs.Narrowing.{cut};
ghost use Rattle.ap_types.specs.Scopes.{entered, in_scope};
ghost use Rattle.ap_types.specs.Spoken.{left_alone};

use crate::base::Base;
use crate::facts::cut;
use crate::places::{PLACES, Places, mark_facts, place_of};
use ap_kernel::{Ctx, assume};
use ap_list::{NoMemory, Seq};
use ap_term::Term;
use ap_world::masks;
use std::alloc::Global;
use std::marker::Model;

/// Contexts that are entered, one after another, with the places of the terms of which they say something. Contracts
/// see the contexts; the type keeps that they say nothing of a term at another place.
#[derive(Drop)]
pub(crate) struct Scopes {
    contexts: Seq<Ctx>,
    spoken_of: Places,
}

impl Model for Scopes {
    ghost use Rattle.std.specs.Prelude.{List};
    ghost use Rattle.std.specs.Coded.{codes};
    ghost use Rattle.ap_term.specs.contracts.term.Term as term;
    ghost use Rattle.ap_kernel.specs.declared.objects.Ctx.{Ctx};
    ghost use Rattle.ap_types.specs.Scopes.{entered};
    ghost use Rattle.ap_types.specs.Spoken.{Unspoken};

    ghost Value = { List Ctx };

    ghost coded = { Prim.hlevel (codes, term.the_row.coded) };

    ghost view = { λ s. s.contexts };

    ghost invariant = { λ s. Unspoken s.spoken_of (entered s.contexts) };
}

/// A mask that contexts leave alone, though they may have facts.
fn cut_by_none(contexts: &[Ctx], mask: u16) -> u16
    ensures { result ≡ left_alone (entered contexts.now) mask }
{
    for context in contexts {
        if !context.facts().is_empty() {
            return mask & masks::ALL;
        }
    }
    mask
}

/// A mask of a term cut by the facts of each context.
fn cut_by_all(contexts: &[Ctx], t: &Term, mask: u16) -> u16
    ensures { result ≡ cut (entered contexts.now) t.now mask }
{
    let mut out = mask;
    for context in contexts {
        out = cut(context.facts(), t, out);
    }
    out
}

impl Scopes {
    /// No context.
    pub(crate) fn new(alloc: Global) -> Scopes
        ensures { result ≡ [] }
    {
        Scopes {
            contexts: Seq::new(alloc),
            spoken_of: [false; PLACES],
        }
    }

    /// How many contexts are entered.
    pub(crate) fn len(&self) -> usize
        ensures { result ≡ length self.now }
    {
        self.contexts.len()
    }

    /// Adds a context of the facts that a test and its sign stand for; those before it are neither copied nor
    /// changed.
    pub(crate) fn enter(&mut self, alloc: Global, test: &Term, sign: bool) -> Result<(), NoMemory>
        ensures facts { OnOk result ((fs : Facts) → in_scope fs self.new ≡ assume (in_scope fs self.old) test.now sign) }
        ensures kept { OnOk result (take (length self.old) self.new ≡ self.old) }
    {
        let nothing = Ctx::new(alloc, Seq::new(alloc))?;
        let scope = assume(alloc, &nothing, test, sign)?;
        mark_facts(&mut self.spoken_of, scope.facts());
        self.contexts.push(scope)
    }

    /// Takes all contexts away but the first ones. What was noted of the others stays noted.
    pub(crate) fn leave(&mut self, kept: usize)
        ensures { self.new ≡ take kept self.old }
    {
        self.contexts.truncate(kept);
    }

    /// A mask of a term cut by the facts of each context.
    fn cut(&self, t: &Term, mask: u16) -> u16
        ensures { result ≡ cut (entered self.now) t.now mask }
    {
        let contexts = self.contexts.as_slice();
        if contexts.is_empty() {
            return mask;
        }
        if self.spoken_of[place_of(t)] {
            cut_by_all(contexts, t, mask)
        } else {
            cut_by_none(contexts, mask)
        }
    }
}

/// A mask of a term cut by the facts that it is asked under, and by those of each context.
pub(crate) fn cut_by_each(base: &Base<'_>, scopes: &Scopes, t: &Term, mask: u16) -> u16
    ensures { result ≡ cut (in_scope base.now scopes.now) t.now mask }
{
    scopes.cut(t, base.cut(t, mask))
}
