ghost use Rattle.std.specs.Prelude.{◌≡◌, ◌≤◌, OnOk, ◌++◌, length};
ghost use Rattle.std.specs.Option.{option_copied};
ghost use Rattle.ap_induct.specs.Choosing.{calls_of, calls_among, score, better, best, best_call};

use crate::symbols::are_same;
use ap_list::{NoMemory, Seq};
use ap_term::{Shape, Term, copy_term};
use ap_value::Symbol;
use std::alloc::Global;

/// Adds the calls of a term, in preorder.
#[cycle(calls)]
#[tactic(auto, using(ap_term::proofs::Seen::trees))]
fn push_calls(alloc: Global, t: &Term, out: &mut Seq<Term>) -> Result<(), NoMemory>
    ensures { OnOk result (out.new ≡ out.old ++ calls_of t.now) }
{
    match &t.shape {
        Shape::Call(_, ts) => {
            out.push(copy_term(alloc, t)?)?;
            push_all_calls(alloc, ts.as_slice(), out)
        }
        Shape::Var(_) => Ok(()),
        Shape::Quote(_) => Ok(()),
    }
}

/// Adds the calls of some terms, in preorder, each as often as it occurs. The only error is want of memory.
#[cycle(calls)]
pub fn push_all_calls(alloc: Global, ts: &[Term], out: &mut Seq<Term>) -> Result<(), NoMemory>
    ensures { OnOk result (out.new ≡ out.old ++ calls_among ts.now) }
{
    for t in ts {
        push_calls(alloc, t, out)?;
    }
    Ok(())
}

/// A candidate's score among these: how many of them replace the same measured variables. Takes no memory.
fn score(all: &[(Term, Seq<Symbol>)], names: &[Symbol]) -> usize
    ensures is { result ≡ score all.now names.now }
    ensures most { result ≤ length all.now }
{
    let mut count: usize = 0;
    for (_, other) in all {
        if are_same(names, other.as_slice()) {
            count += 1;
        }
    }
    count
}

/// Of a candidate and the best of those behind it the better one: the first, where its score isn't lower. Takes
/// no memory.
fn better<'a>(
    all: &[(Term, Seq<Symbol>)],
    p: &'a (Term, Seq<Symbol>),
    behind: Option<&'a (Term, Seq<Symbol>)>,
) -> Option<&'a (Term, Seq<Symbol>)>
    ensures { option_copied result ≡ better all.now p.now (option_copied behind.entry) }
{
    let Some(q) = behind else {
        return Some(p);
    };
    if score(all, q.1.as_slice()) <= score(all, p.1.as_slice()) {
        Some(p)
    } else {
        Some(q)
    }
}

/// The first candidate of the highest score. Takes no memory.
fn best(all: &[(Term, Seq<Symbol>)]) -> Option<&(Term, Seq<Symbol>)>
    ensures { option_copied result ≡ best all.now all.now }
{
    let mut found: Option<&(Term, Seq<Symbol>)> = None;
    let mut i = all.len();
    while i > 0 {
        i -= 1;
        found = better(all, &all[i], found);
    }
    found
}

/// The call of the first candidate of the highest score. Takes no memory.
pub(crate) fn best_call(all: &[(Term, Seq<Symbol>)]) -> Option<&Term>
    ensures { option_copied result ≡ best_call all.now }
{
    match best(all) {
        Some(candidate) => Some(&candidate.0),
        None => None,
    }
}
