// What is tried on a call whose arguments are rewritten, in order.
ghost use Rattle.std.specs.Prelude.{◌≡◌, IsTrue, IfOk, IfSome, Some};
ghost use Rattle.std.specs.Option.{option_map};
ghost use Rattle.ap_term.specs.declared.term.Term.{Call};
ghost use Rattle.ap_term.specs.Metered.{first_that};
ghost use Rattle.ap_world.specs.Facts.{KnownFacts};
ghost use Rattle.ap_world.specs.Sound.{known};
ghost use Rattle.ap_rewrite.specs.declared.rewriter.Tried.TheVariants.{Applied};
ghost use Rattle.ap_rewrite.specs.Rewriting.{led, equate, tried};
ghost use Rattle.ap_rewrite.specs.Answering.{defs_in, where_applied, setting_of, inner_of, seen_at, got_any, From, Here, IsLevel};

use crate::arithmetic::by_arithmetic;
use crate::branching::go_on;
use crate::equating::is_quoted;
use crate::opening::by_definition;
use crate::rewriter::{Below, Level, Place, Run, Tried};
use crate::rows::{equates, ran, settles};
use crate::rules::by_rules;
use ap_kernel::{Equiv, LinearOracle, Mode, NoMemory, Symbol, Term, TypeOracle};

/// Where an equation leads: that is the answer where it is a constant, and else it is rewritten in its turn.
fn lead<O: TypeOracle, F: Below>(
    l: &Level<'_, '_, O, F>,
    steps: &mut Run<'_>,
    mode: Mode,
    at: &Place<'_>,
    first: Equiv,
) -> Result<Option<Tried<Equiv>>, NoMemory>
    requires level { IsLevel (F.may l.now.below.now) (F.gives l.now.below.now) l.now.r.now l.now.levels }
    requires facts { KnownFacts (defs_in l.now.r.now) at.now.ctx.now.0 }
    requires first { From l.now.r.now.w.now mode at.now.ctx.now first.says.lhs first }
    requires here { Here l.now.r.now at.now steps.old.memo }
    ensures is { IfOk result (λ o. got_any o steps.new.left ≡ led (setting_of l.now.r.now) (inner_of l.now.r.now l.now.levels) mode (seen_at at.now) (Some first.says.rhs) steps.old.left) }
    ensures from { IfOk result (λ o. IfSome o (λ a. IfSome (where_applied a) (From l.now.r.now.w.now mode at.now.ctx.now first.says.lhs))) }
    ensures kept { steps.new.memo ≡ steps.old.memo }
{
    if is_quoted(first.rhs()) {
        return Ok(Some(Tried::Applied(first)));
    }
    let found = go_on(l, steps, mode, at, first)?;
    Ok(answered(found))
}

/// An answer that is there, where the steps haven't run out. Takes no memory.
pub fn answered(found: Option<Equiv>) -> Option<Tried<Equiv>>
    ensures { result ≡ option_map Applied found }
{
    match found {
        Some(q) => Some(Tried::Applied(q)),
        None => None,
    }
}

/// An equation: of one term, by a fact, or part by part.
fn equate<O: TypeOracle, F: Below>(
    l: &Level<'_, '_, O, F>,
    steps: &mut Run<'_>,
    mode: Mode,
    at: &Place<'_>,
    t: &Term,
) -> Result<Option<Tried<Equiv>>, NoMemory>
    requires level { IsLevel (F.may l.now.below.now) (F.gives l.now.below.now) l.now.r.now l.now.levels }
    requires facts { KnownFacts (defs_in l.now.r.now) at.now.ctx.now.0 }
    requires term { IsTrue (known (defs_in l.now.r.now) t.now) }
    requires here { Here l.now.r.now at.now steps.old.memo }
    ensures is { IfOk result (λ o. got_any o steps.new.left ≡ equate (setting_of l.now.r.now) (inner_of l.now.r.now l.now.levels) mode (seen_at at.now) t.now steps.old.left) }
    ensures from { IfOk result (λ o. IfSome o (λ a. IfSome (where_applied a) (From l.now.r.now.w.now mode at.now.ctx.now t.now))) }
    ensures kept { steps.new.memo ≡ steps.old.memo }
{
    match equates(l.r, at.ctx, mode, t)? {
        None => Ok(Some(Tried::PassedBy)),
        Some(first) => lead(l, steps, mode, at, first),
    }
}

/// What is tried on a call: running it, settling it by its type, leading an equation on, linear arithmetic, rules, its
/// definition; the first that applies.
pub fn tried<O: TypeOracle + LinearOracle, F: Below>(
    l: &Level<'_, '_, O, F>,
    steps: &mut Run<'_>,
    mode: Mode,
    at: &Place<'_>,
    t: &Term,
    f: &Symbol,
    us: &[Term],
) -> Result<Option<Tried<Equiv>>, NoMemory>
    requires level { IsLevel (F.may l.now.below.now) (F.gives l.now.below.now) l.now.r.now l.now.levels }
    requires facts { KnownFacts (defs_in l.now.r.now) at.now.ctx.now.0 }
    requires term { IsTrue (known (defs_in l.now.r.now) t.now) }
    requires call { t.now ≡ Call f.now us.now }
    requires here { Here l.now.r.now at.now steps.old.memo }
    ensures is { IfOk result (λ o. got_any o steps.new.left ≡ first_that (tried (setting_of l.now.r.now) (inner_of l.now.r.now l.now.levels) mode (seen_at at.now) f.now us.now) steps.old.left) }
    ensures from { IfOk result (λ o. IfSome o (λ a. IfSome (where_applied a) (From l.now.r.now.w.now mode at.now.ctx.now t.now))) }
    ensures kept { steps.new.memo ≡ steps.old.memo }
{
    if let Some(q) = ran(l.r, at.ctx, mode, t, f, us)? {
        return Ok(Some(Tried::Applied(q)));
    }
    if let Some(q) = settles(l.r, at.ctx, mode, t)? {
        return Ok(Some(Tried::Applied(q)));
    }
    match equate(l, steps, mode, at, t)? {
        None => return Ok(None),
        Some(Tried::Applied(q)) => return Ok(Some(Tried::Applied(q))),
        Some(Tried::PassedBy) => {}
    }
    match by_arithmetic(l, steps, mode, at, t, f, us)? {
        None => return Ok(None),
        Some(Tried::Applied(q)) => return Ok(Some(Tried::Applied(q))),
        Some(Tried::PassedBy) => {}
    }
    match by_rules(l, steps, mode, at, t, f, us)? {
        None => return Ok(None),
        Some(Tried::Applied(q)) => return Ok(Some(Tried::Applied(q))),
        Some(Tried::PassedBy) => {}
    }
    by_definition(l, steps, mode, at, t, f, us)
}
