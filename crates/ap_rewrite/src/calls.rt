// A call: its arguments one level deeper, then what is tried on it.
ghost use Rattle.std.specs.Prelude.{◌≡◌, IsTrue, IfOk, IfSome, length, unwrap_or};
ghost use Rattle.ap_list.specs.Lists.{Each};
ghost use Rattle.std.specs.Option.{ForSome};
ghost use Rattle.ap_term.specs.declared.term.Term.{Call};
ghost use Rattle.ap_world.specs.Facts.{KnownFacts};
ghost use Rattle.ap_world.specs.Primitives.{prim_of};
ghost use Rattle.ap_world.specs.Sound.{known, is_head};
ghost use Rattle.ap_kernel.specs.Answers.{said, lefts, rights};
ghost use Rattle.ap_kernel.specs.declared.objects.Mode.TheVariants.{Equal};
ghost use Rattle.ap_rewrite.specs.Rewriting.{rewrite_args, rewrite_call};
ghost use Rattle.ap_rewrite.specs.Answering.{defs_in, where_applied, Ready, setting_of, inner_of, seen_at, got, got_all, right_of, Leads, From, Here, IsLevel};

use crate::engines::tried;
use crate::rewriter::{Below, Level, Place, Rewriter, Run, Tried, deeper};
use crate::rows::{follow, stay};
use crate::settling::in_mode;
use ap_kernel::{Ctx, Equiv, LinearOracle, Mode, NoMemory, Seq, Symbol, Term, TypeOracle, cong};
use ap_term::Shape;

/// The arguments of a call, from left to right, under equality.
fn rewrite_args<O: TypeOracle, F: Below>(
    l: &Level<'_, '_, O, F>,
    steps: &mut Run<'_>,
    at: &Place<'_>,
    us: &[Term],
) -> Result<Option<Seq<Equiv>>, NoMemory>
    requires level { IsLevel (F.may l.now.below.now) (F.gives l.now.below.now) l.now.r.now l.now.levels }
    requires facts { KnownFacts (defs_in l.now.r.now) at.now.ctx.now.0 }
    requires terms { Each (λ u. IsTrue (known (defs_in l.now.r.now) u)) us.now }
    requires here { Here l.now.r.now at.now steps.old.memo }
    ensures is { IfOk result (λ o. got_all o steps.new.left ≡ rewrite_args (setting_of l.now.r.now) (inner_of l.now.r.now l.now.levels) (seen_at at.now) us.now steps.old.left) }
    ensures from { IfOk result (λ o. IfSome o (λ qs. (lefts (said qs) ≡ us.now) × Each (Leads l.now.r.now.w.now Equal at.now.ctx.now) qs)) }
    ensures kept { steps.new.memo ≡ steps.old.memo }
{
    let mut out = Seq::with_capacity(l.r.alloc, us.len())?;
    for u in us {
        let Some(q) = deeper(l, steps, Mode::Equal, at, u)? else {
            return Ok(None);
        };
        out.push(q)?;
    }
    Ok(Some(out))
}

/// From a call to the call on what its arguments lead to, under a mode: both are built.
fn rebuilt<O: TypeOracle>(
    r: &Rewriter<'_, O>,
    ctx: &Ctx,
    mode: Mode,
    f: &Symbol,
    args: Seq<Equiv>,
) -> Result<Equiv, NoMemory>
    requires ready { Ready r.now }
    requires facts { KnownFacts (defs_in r.now) ctx.now.0 }
    requires head { IsTrue (is_head (defs_in r.now) f.now (prim_of f.now) (length args)) }
    requires args { Each (Leads r.now.w.now Equal ctx.now) args }
    ensures is { IfOk result (λ q. q.says.rhs ≡ Call f.now (rights (said args))) }
    ensures from { IfOk result (From r.now.w.now mode ctx.now (Call f.now (lefts (said args)))) }
{
    let equal = cong(r.alloc, r.w, ctx, f, args.as_slice())?;
    let q = in_mode(r.alloc, r.w, equal, mode)?;
    Ok(q)
}

/// From a call to the call on what its arguments lead to, under a mode. Where none of them changed the call stays,
/// and nothing is built.
fn on_arguments<O: TypeOracle>(
    r: &Rewriter<'_, O>,
    ctx: &Ctx,
    mode: Mode,
    t: &Term,
    f: &Symbol,
    args: Seq<Equiv>,
) -> Result<Equiv, NoMemory>
    requires ready { Ready r.now }
    requires facts { KnownFacts (defs_in r.now) ctx.now.0 }
    requires term { IsTrue (known (defs_in r.now) t.now) }
    requires call { t.now ≡ Call f.now (lefts (said args)) }
    requires head { IsTrue (is_head (defs_in r.now) f.now (prim_of f.now) (length args)) }
    requires args { Each (Leads r.now.w.now Equal ctx.now) args }
    ensures is { IfOk result (λ q. q.says.rhs ≡ Call f.now (rights (said args))) }
    ensures from { IfOk result (From r.now.w.now mode ctx.now (Call f.now (lefts (said args)))) }
{
    let same = Equiv::are_unchanged(args.as_slice());
    if same {
        let q = stay(r, ctx, mode, t)?;
        return Ok(q);
    }
    rebuilt(r, ctx, mode, f, args)
}

/// One equivalence, and a second one where there is one.
fn followed<O: TypeOracle>(
    r: &Rewriter<'_, O>,
    ctx: &Ctx,
    mode: Mode,
    first: Equiv,
    second: Tried<Equiv>,
) -> Result<Equiv, NoMemory>
    requires first { From r.now.w.now mode ctx.now first.says.lhs first }
    requires second { ForSome (where_applied second) (From r.now.w.now mode ctx.now first.says.rhs) }
    ensures is { IfOk result (λ q. q.says.rhs ≡ unwrap_or (right_of (where_applied second)) first.says.rhs) }
    ensures from { IfOk result (From r.now.w.now mode ctx.now first.says.lhs) }
{
    match second {
        Tried::PassedBy => Ok(first),
        Tried::Applied(more) => {
            let q = follow(r, ctx, mode, first, more)?;
            Ok(q)
        }
    }
}

/// A call that is no `if` and no negation.
#[tactic(auto, using(ap_term::proofs::Seen::trees))]
pub fn rewrite_call<O: TypeOracle + LinearOracle, F: Below>(
    l: &Level<'_, '_, O, F>,
    steps: &mut Run<'_>,
    mode: Mode,
    at: &Place<'_>,
    t: &Term,
    f: &Symbol,
    us: &[Term],
) -> Result<Option<Equiv>, NoMemory>
    requires level { IsLevel (F.may l.now.below.now) (F.gives l.now.below.now) l.now.r.now l.now.levels }
    requires facts { KnownFacts (defs_in l.now.r.now) at.now.ctx.now.0 }
    requires term { t.now ≡ Call f.now us.now }
    requires call { IsTrue (known (defs_in l.now.r.now) (Call f.now us.now)) }
    requires here { Here l.now.r.now at.now steps.old.memo }
    ensures is { IfOk result (λ o. got o steps.new.left ≡ rewrite_call (setting_of l.now.r.now) (inner_of l.now.r.now l.now.levels) mode (seen_at at.now) f.now us.now steps.old.left) }
    ensures from { IfOk result (λ o. IfSome o (From l.now.r.now.w.now mode at.now.ctx.now (Call f.now us.now))) }
    ensures kept { steps.new.memo ≡ steps.old.memo }
{
    let Some(args) = rewrite_args(l, steps, at, us)? else {
        return Ok(None);
    };
    let first = on_arguments(l.r, at.ctx, mode, t, f, args)?;
    let call = first.rhs();
    let Shape::Call(g, vs) = &call.shape else {
        unreachable!()
    };
    let Some(found) = tried(l, steps, mode, at, call, g, vs.as_slice())? else {
        return Ok(None);
    };
    let q = followed(l.r, at.ctx, mode, first, found)?;
    Ok(Some(q))
}
