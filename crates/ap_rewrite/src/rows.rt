// The kernel's rows, by what is asked and answered here: from a term, under facts and a mode.
ghost use Rattle.std.specs.Prelude.{◌≡◌, ◌∷◌, [], IsTrue, IfOk, IfSome, Some, None, true, false, is_some};
ghost use Rattle.ap_term.specs.declared.term.Term.{Term, Quote, Call};
ghost use Rattle.ap_world.specs.Assume.{assume};
ghost use Rattle.ap_world.specs.Clauses.{not_of};
ghost use Rattle.ap_world.specs.Facts.{KnownFacts};
ghost use Rattle.ap_world.specs.Sound.{known};
ghost use Rattle.ap_kernel.specs.Answers.{if_of};
ghost use Rattle.ap_kernel.specs.declared.objects.Mode.TheVariants.{Equal, Iff};
ghost use Rattle.ap_kernel.specs.Equations.{equation_leads};
ghost use Rattle.ap_kernel.specs.Opening.{opened};
ghost use Rattle.ap_rewrite.specs.Rewriting.{truth_of, shaped, negated, constant_in, run, settle, settled};
ghost use Rattle.ap_rewrite.specs.Answering.{defs_in, Ready, setting_of, right_of, From};

use crate::equating::equated;
use crate::facts::not_equiv;
use crate::rewriter::Rewriter;
use crate::running;
use crate::settling::{constant_equiv, in_mode, settle, settled};
use crate::shaping::{negated, shaped};
use ap_kernel::{
    Ctx, Equiv, Mode, NoMemory, Symbol, Term, TypeOracle, Value, branch, open_def, refl, trans,
};

/// From a term to itself.
pub fn stay<O: TypeOracle>(
    r: &Rewriter<'_, O>,
    ctx: &Ctx,
    mode: Mode,
    t: &Term,
) -> Result<Equiv, NoMemory>
    requires facts { KnownFacts (defs_in r.now) ctx.now.0 }
    requires term { IsTrue (known (defs_in r.now) t.now) }
    ensures is { IfOk result (λ q. q.says.rhs ≡ t.now) }
    ensures from { IfOk result (From r.now.w.now mode ctx.now t.now) }
{
    let q = refl(r.alloc, r.w, ctx, mode, t)?;
    Ok(q)
}

/// One equivalence and then another, from where the first one leads.
pub fn follow<O: TypeOracle>(
    r: &Rewriter<'_, O>,
    ctx: &Ctx,
    mode: Mode,
    a: Equiv,
    b: Equiv,
) -> Result<Equiv, NoMemory>
    requires first { From r.now.w.now mode ctx.now a.says.lhs a }
    requires second { From r.now.w.now mode ctx.now a.says.rhs b }
    ensures is { IfOk result (λ q. q.says.rhs ≡ b.says.rhs) }
    ensures from { IfOk result (From r.now.w.now mode ctx.now a.says.lhs) }
{
    let q = trans(r.alloc, r.w, a, b)?;
    Ok(q)
}

/// From an `if` to the `if` of what its parts lead to.
pub fn join<O: TypeOracle>(
    r: &Rewriter<'_, O>,
    ctx: &Ctx,
    mode: Mode,
    test: Equiv,
    yes: Equiv,
    no: Equiv,
) -> Result<Equiv, NoMemory>
    requires ready { Ready r.now }
    requires test { From r.now.w.now Iff ctx.now test.says.lhs test }
    requires yes { From r.now.w.now mode (record { 0 = assume ctx.now.0 test.says.rhs true }) yes.says.lhs yes }
    requires no { From r.now.w.now mode (record { 0 = assume ctx.now.0 test.says.rhs false }) no.says.lhs no }
    ensures is { IfOk result (λ q. q.says.rhs ≡ if_of test.says.rhs yes.says.rhs no.says.rhs) }
    ensures from { IfOk result (From r.now.w.now mode ctx.now (if_of test.says.lhs yes.says.lhs no.says.lhs)) }
{
    let q = branch(r.alloc, r.w, mode, test, yes, no)?;
    Ok(q)
}

/// From an `if` whose test is no constant to its simplest shape.
pub fn simplest<O: TypeOracle>(
    r: &Rewriter<'_, O>,
    ctx: &Ctx,
    mode: Mode,
    t: &Term,
) -> Result<Equiv, NoMemory>
    requires ready { Ready r.now }
    requires facts { KnownFacts (defs_in r.now) ctx.now.0 }
    requires term { IsTrue (known (defs_in r.now) t.now) }
    requires choice { (a : Term) × (b : Term) × (c : Term) × (t.now ≡ if_of a b c) × (truth_of a ≡ None) }
    ensures is { IfOk result (λ q. (a b c : Term) → t.now ≡ if_of a b c → q.says.rhs ≡ shaped (setting_of r.now) mode ctx.now.0 a b c) }
    ensures from { IfOk result (From r.now.w.now mode ctx.now t.now) }
{
    let q = shaped(r.alloc, r.w, r.oracle, ctx, mode, t)?;
    Ok(q)
}

/// From a negation to the negation of what its argument leads to.
pub fn negate<O: TypeOracle>(
    r: &Rewriter<'_, O>,
    ctx: &Ctx,
    mode: Mode,
    q: Equiv,
) -> Result<Equiv, NoMemory>
    requires ready { Ready r.now }
    requires facts { KnownFacts (defs_in r.now) ctx.now.0 }
    requires argument { From r.now.w.now Iff ctx.now q.says.lhs q }
    ensures is { IfOk result (λ a. a.says.rhs ≡ not_of q.says.rhs) }
    ensures from { IfOk result (From r.now.w.now mode ctx.now (not_of q.says.lhs)) }
{
    let equal = not_equiv(r.alloc, r.w, ctx, q)?;
    let answer = in_mode(r.alloc, r.w, equal, mode)?;
    Ok(answer)
}

/// From a negation to what it is by what its argument is.
pub fn plainest<O: TypeOracle>(
    r: &Rewriter<'_, O>,
    ctx: &Ctx,
    mode: Mode,
    t: &Term,
) -> Result<Equiv, NoMemory>
    requires ready { Ready r.now }
    requires facts { KnownFacts (defs_in r.now) ctx.now.0 }
    requires term { IsTrue (known (defs_in r.now) t.now) }
    requires negation { (a : Term) × (t.now ≡ not_of a) }
    ensures is { IfOk result (λ q. (a : Term) → t.now ≡ not_of a → q.says.rhs ≡ negated (setting_of r.now) mode ctx.now.0 a (truth_of a)) }
    ensures from { IfOk result (From r.now.w.now mode ctx.now t.now) }
{
    let q = negated(r.alloc, r.w, r.oracle, ctx, mode, t)?;
    Ok(q)
}

/// From a call of a defined function to the instance of its body, under a mode.
pub fn opened<O: TypeOracle>(
    r: &Rewriter<'_, O>,
    ctx: &Ctx,
    mode: Mode,
    t: &Term,
) -> Result<Equiv, NoMemory>
    requires facts { KnownFacts (defs_in r.now) ctx.now.0 }
    requires term { IsTrue (known (defs_in r.now) t.now) }
    requires defined { IsTrue (is_some (opened (defs_in r.now) t.now)) }
    ensures is { IfOk result (λ q. Some q.says.rhs ≡ opened (defs_in r.now) t.now) }
    ensures from { IfOk result (From r.now.w.now mode ctx.now t.now) }
{
    let equal = open_def(r.alloc, r.w, ctx, t)?;
    let q = in_mode(r.alloc, r.w, equal, mode)?;
    Ok(q)
}

/// From a call of constants to its value, where it is run and gives one.
pub fn ran<O: TypeOracle>(
    r: &Rewriter<'_, O>,
    ctx: &Ctx,
    mode: Mode,
    t: &Term,
    f: &Symbol,
    us: &[Term],
) -> Result<Option<Equiv>, NoMemory>
    requires ready { Ready r.now }
    requires facts { KnownFacts (defs_in r.now) ctx.now.0 }
    requires term { IsTrue (known (defs_in r.now) t.now) }
    requires call { t.now ≡ Call f.now us.now }
    ensures is { IfOk result (λ o. right_of o ≡ run (setting_of r.now) mode f.now us.now) }
    ensures from { IfOk result (λ o. IfSome o (From r.now.w.now mode ctx.now t.now)) }
{
    let found = running::run(r.alloc, r.w, r.theory, ctx, mode, t)?;
    Ok(found)
}

/// From a term to what its mask settles, where that is another term.
pub fn settles<O: TypeOracle>(
    r: &Rewriter<'_, O>,
    ctx: &Ctx,
    mode: Mode,
    t: &Term,
) -> Result<Option<Equiv>, NoMemory>
    requires ready { Ready r.now }
    requires facts { KnownFacts (defs_in r.now) ctx.now.0 }
    requires term { IsTrue (known (defs_in r.now) t.now) }
    ensures is { IfOk result (λ o. right_of o ≡ settle (setting_of r.now) mode (record { facts = ctx.now.0; closed = []; chain = 0 }) t.now) }
    ensures from { IfOk result (λ o. IfSome o (From r.now.w.now mode ctx.now t.now)) }
{
    let found = settle(r.alloc, r.w, r.oracle, ctx, mode, t)?;
    Ok(found)
}

/// From an equation to where it leads.
pub fn equates<O: TypeOracle>(
    r: &Rewriter<'_, O>,
    ctx: &Ctx,
    mode: Mode,
    t: &Term,
) -> Result<Option<Equiv>, NoMemory>
    requires ready { Ready r.now }
    requires facts { KnownFacts (defs_in r.now) ctx.now.0 }
    requires term { IsTrue (known (defs_in r.now) t.now) }
    ensures is { IfOk result (λ o. right_of o ≡ equation_leads ctx.now.0 t.now) }
    ensures from { IfOk result (λ o. IfSome o (From r.now.w.now mode ctx.now t.now)) }
{
    let found = equated(r.alloc, r.w, ctx, mode, t)?;
    Ok(found)
}

/// From a term to what its mask settles, which may be the term itself.
pub fn settled_by_type<O: TypeOracle>(
    r: &Rewriter<'_, O>,
    ctx: &Ctx,
    mode: Mode,
    t: &Term,
) -> Result<Equiv, NoMemory>
    requires ready { Ready r.now }
    requires facts { KnownFacts (defs_in r.now) ctx.now.0 }
    requires term { IsTrue (known (defs_in r.now) t.now) }
    ensures is { IfOk result (λ q. q.says.rhs ≡ settled (setting_of r.now) mode ctx.now.0 t.now) }
    ensures from { IfOk result (From r.now.w.now mode ctx.now t.now) }
{
    let found = settled(r.alloc, r.w, r.oracle, ctx, mode, t)?;
    Ok(found)
}

/// From a constant to what it is under a mode.
pub fn as_constant<O: TypeOracle>(
    r: &Rewriter<'_, O>,
    ctx: &Ctx,
    mode: Mode,
    t: &Term,
    v: &Value,
) -> Result<Equiv, NoMemory>
    requires ready { Ready r.now }
    requires facts { KnownFacts (defs_in r.now) ctx.now.0 }
    requires term { IsTrue (known (defs_in r.now) t.now) }
    requires constant { t.now ≡ Quote v.now }
    ensures is { IfOk result (λ q. q.says.rhs ≡ constant_in mode v.now) }
    ensures from { IfOk result (From r.now.w.now mode ctx.now t.now) }
{
    let found = constant_equiv(r.alloc, r.w, ctx, mode, t, v)?;
    Ok(found)
}
