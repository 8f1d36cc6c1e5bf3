ghost use Rattle.std.specs.Prelude.{◌≡◌, ◌<◌, true, false};
ghost use Rattle.ap_term.specs.Equal.{term_eq};
ghost use Rattle.ap_types.specs.Spoken.{place, Marks, AreSilent, AreApart, IsSilent, IsSilentSide, Unspoken};

use ap_term::{Shape, Term};

/// How many places terms have, by their hashes.
pub(crate) const PLACES: usize = 256;

/// At which places terms are of which something is said.
pub(crate) type Places = [bool; PLACES];

/// The place of a term: that of equal terms is one.
#[tactic(auto, unfolding(crate::specs::Spoken::place))]
pub(crate) fn place_of(t: &Term) -> usize
    ensures is { result ≡ place t.now }
    ensures small { result < 256 }
{
    (t.hash() % 256) as usize
}

/// Notes that something is said of a term.
fn mark(spoken_of: &mut Places, t: &Term)
    ensures { Marks spoken_of.old spoken_of.new (λ u. term_eq t.now u ≡ false) }
{
    spoken_of[place_of(t)] = true;
}

/// Notes that something is said of a term that is a side of an equation or an inequality, where the other side is a
/// constant.
#[tactic(auto, using(ap_term::proofs::Seen::trees))]
fn mark_side(spoken_of: &mut Places, a: &Term, b: &Term)
    ensures { Marks spoken_of.old spoken_of.new (IsSilentSide a.now b.now) }
{
    if let Shape::Quote(_) = &b.shape {
        mark(spoken_of, a);
    }
}

/// Notes of which arguments of a call something is said by the fact that it is.
fn mark_arguments(spoken_of: &mut Places, ts: &[Term])
    ensures { Marks spoken_of.old spoken_of.new (AreSilent ts.now) }
{
    match ts {
        [a] => mark(spoken_of, a),
        [a, b] => {
            mark_side(spoken_of, a, b);
            mark_side(spoken_of, b, a);
        }
        _ => {}
    }
}

/// Notes of which terms a fact says something.
fn mark_fact(spoken_of: &mut Places, fact: &Term)
    ensures { Marks spoken_of.old spoken_of.new (IsSilent fact.now) }
{
    mark(spoken_of, fact);
    match &fact.shape {
        Shape::Var(_) => {}
        Shape::Quote(_) => {}
        Shape::Call(_, ts) => mark_arguments(spoken_of, ts.as_slice()),
    }
}

/// Notes of which terms facts say something.
pub(crate) fn mark_facts(spoken_of: &mut Places, facts: &[(Term, bool)])
    ensures { Marks spoken_of.old spoken_of.new (AreApart facts.now) }
{
    for (fact, _) in facts {
        mark_fact(spoken_of, fact);
    }
}

/// The places of the terms of which facts say something.
pub(crate) fn places_of(facts: &[(Term, bool)]) -> Places
    ensures { Unspoken result facts.now }
{
    let mut spoken_of = [false; PLACES];
    mark_facts(&mut spoken_of, facts);
    spoken_of
}
