ghost use Rattle.std.specs.Prelude.{◌≡◌, ◌≤◌, ◌-◌, IsTrue, IfOk, IfSome};
ghost use Rattle.std.specs.Option.{option_copied};
ghost use Rattle.ap_rewrite.specs.ByCost.{Fits};
ghost use Rattle.ap_rewrite.specs.Serving.{Charges, Suits, Serves};

use ap_kernel::{Equiv, Mode, NoMemory, Term, copy_equiv};
use ap_term::same_term;
use std::alloc::Global;

/// What a term became, what that cost, and within how many hypotheses.
#[derive(Drop)]
pub(crate) struct Known {
    pub answer: Equiv,
    pub cost: u32,
    pub chain: u32,
}

/// What is known of a term by the steps that are left: what it becomes, with the steps that are left then; that they
/// run out; or nothing.
#[derive(Drop)]
pub enum Recalled {
    Known(Equiv, u32),
    Out,
    Unknown,
}

/// Whether two modes are one. Takes no memory.
fn same_mode(a: Mode, b: Mode) -> bool
    ensures { IsTrue result → a ≡ b }
{
    match (a, b) {
        (Mode::Equal, Mode::Equal) => true,
        (Mode::Iff, Mode::Iff) => true,
        _ => false,
    }
}

/// Whether so many steps can't tell two numbers of hypotheses around a term apart.
fn fits(cost: u32, kept: u32, here: u32) -> bool
    ensures { IsTrue result → Fits cost kept here }
{
    if kept == here {
        return true;
    }
    let cost = u64::from(cost);
    cost + u64::from(kept) < 10 && cost + u64::from(here) < 10
}

/// The fewest steps that an answer costs which is kept: a cheaper one is sooner found anew than kept and let go.
const LEAST_COST: u32 = 5;

/// What steps cost, where some were left that were there, and it is enough that the answer is kept.
pub(crate) fn cost_of(before: u32, after: u32) -> Option<u32>
    ensures { IfSome result (λ c. c ≡ before - after) }
{
    if before < after {
        return None;
    }
    let cost = before - after;
    if cost < LEAST_COST {
        return None;
    }
    Some(cost)
}

/// What is kept of an answer.
pub(crate) fn known_of(
    alloc: Global,
    answer: &Equiv,
    cost: u32,
    chain: u32,
) -> Result<Known, NoMemory>
    ensures { IfOk result (λ k. k ≡ record { answer = answer.now; cost = cost; chain = chain }) }
{
    let answer = copy_equiv(alloc, answer)?;
    Ok(Known {
        answer,
        cost,
        chain,
    })
}

/// Whether an entry is of this term and mode, and serves where so many levels are left, within so many hypotheses.
fn suits(known: &Known, levels: u32, mode: Mode, chain: u32, t: &Term) -> bool
    ensures { IsTrue result → Suits known.now levels mode chain t.now }
{
    known.cost <= levels
        && same_mode(known.answer.mode(), mode)
        && fits(known.cost, known.chain, chain)
        && same_term(known.answer.lhs(), t)
}

/// What an entry that is found serves: by the steps that are left its answer or none.
fn served(alloc: Global, known: &Known, left: u32) -> Result<Recalled, NoMemory>
    ensures { IfOk result (Charges known.now left) }
{
    if left < known.cost {
        return Ok(Recalled::Out);
    }
    let answer = copy_equiv(alloc, &known.answer)?;
    Ok(Recalled::Known(answer, left - known.cost))
}

/// What is recalled where an entry is found, or none is.
pub(crate) fn recall_from(
    alloc: Global,
    found: Option<&Known>,
    levels: u32,
    mode: Mode,
    chain: u32,
    t: &Term,
    left: u32,
) -> Result<Recalled, NoMemory>
    ensures { IfOk result (Serves (option_copied found.entry) levels mode chain t.now left) }
{
    match found {
        None => Ok(Recalled::Unknown),
        Some(known) => {
            if !suits(known, levels, mode, chain, t) {
                return Ok(Recalled::Unknown);
            }
            served(alloc, known, left)
        }
    }
}

/// Whether something is known. Takes no memory.
pub(crate) fn is_hit(recalled: &Recalled) -> bool {
    match recalled {
        Recalled::Known(_, _) => true,
        Recalled::Out => true,
        Recalled::Unknown => false,
    }
}
