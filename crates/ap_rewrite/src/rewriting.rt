// A term by what it is, and the levels.
ghost use Rattle.std.specs.Prelude.{◌≡◌, IsTrue, IfOk, IfSome};
ghost use Rattle.ap_term.specs.declared.term.Term.{out-Term};
ghost use Rattle.ap_world.specs.Facts.{KnownFacts};
ghost use Rattle.ap_world.specs.Shapes.{shape_of};
ghost use Rattle.ap_world.specs.Sound.{known};
ghost use Rattle.ap_rewrite.specs.Rewriting.{rewrite_parts, rewrite_shape};
ghost use Rattle.ap_rewrite.specs.Answering.{defs_in, Ready, setting_of, inner_of, seen_at, got, steps_after, From, Here, IsLevel};

use crate::branching::{rewrite_if, rewrite_not};
use crate::calls::rewrite_call;
use crate::known::Recalled;
use crate::rewriter::{Below, Level, Place, Rewriter, Run};
use crate::rows::{as_constant, settled_by_type, stay};
use ap_kernel::{Equiv, LinearOracle, Mode, NoMemory, ShapeRef, Term, TypeOracle, shape_of};
use ap_term::{Shape, size};

/// A variable, a constant, or a call that is no `if` and no negation.
#[tactic(auto, using(ap_term::proofs::Seen::trees))]
fn rewrite_parts<O: TypeOracle + LinearOracle, F: Below>(
    l: &Level<'_, '_, O, F>,
    steps: &mut Run<'_>,
    mode: Mode,
    at: &Place<'_>,
    t: &Term,
) -> Result<Option<Equiv>, NoMemory>
    requires level { IsLevel (F.may l.now.below.now) (F.gives l.now.below.now) l.now.r.now l.now.levels }
    requires facts { KnownFacts (defs_in l.now.r.now) at.now.ctx.now.0 }
    requires term { IsTrue (known (defs_in l.now.r.now) t.now) }
    requires here { Here l.now.r.now at.now steps.old.memo }
    ensures is { IfOk result (λ o. got o steps.new.left ≡ rewrite_parts (setting_of l.now.r.now) (inner_of l.now.r.now l.now.levels) mode (seen_at at.now) t.now (out-Term t.now) steps.old.left) }
    ensures from { IfOk result (λ o. IfSome o (From l.now.r.now.w.now mode at.now.ctx.now t.now)) }
    ensures kept { steps.new.memo ≡ steps.old.memo }
{
    match &t.shape {
        Shape::Var(_) => {
            let q = settled_by_type(l.r, at.ctx, mode, t)?;
            Ok(Some(q))
        }
        Shape::Quote(v) => {
            let q = as_constant(l.r, at.ctx, mode, t, v)?;
            Ok(Some(q))
        }
        Shape::Call(f, us) => rewrite_call(l, steps, mode, at, t, f, us.as_slice()),
    }
}

/// A term by what it is.
fn rewrite_shape<O: TypeOracle + LinearOracle, F: Below>(
    l: &Level<'_, '_, O, F>,
    steps: &mut Run<'_>,
    mode: Mode,
    at: &Place<'_>,
    t: &Term,
) -> Result<Option<Equiv>, NoMemory>
    requires level { IsLevel (F.may l.now.below.now) (F.gives l.now.below.now) l.now.r.now l.now.levels }
    requires facts { KnownFacts (defs_in l.now.r.now) at.now.ctx.now.0 }
    requires term { IsTrue (known (defs_in l.now.r.now) t.now) }
    requires here { Here l.now.r.now at.now steps.old.memo }
    ensures is { IfOk result (λ o. got o steps.new.left ≡ rewrite_shape (setting_of l.now.r.now) (inner_of l.now.r.now l.now.levels) mode (seen_at at.now) t.now (shape_of t.now) steps.old.left) }
    ensures from { IfOk result (λ o. IfSome o (From l.now.r.now.w.now mode at.now.ctx.now t.now)) }
    ensures kept { steps.new.memo ≡ steps.old.memo }
{
    match shape_of(t) {
        ShapeRef::If(a, b, c) => rewrite_if(l, steps, mode, at, t, a, b, c),
        ShapeRef::Not(a) => rewrite_not(l, steps, mode, at, t, a),
        _ => rewrite_parts(l, steps, mode, at, t),
    }
}

/// The fewest and the most nodes of a call of which it is kept what it became: of a smaller one it costs more to be
/// known again than to be rewritten, and of a larger one the key costs too much.
const FEWEST_NODES: u64 = 3;

const MOST_NODES: u64 = 64;

/// Whether it may pay to keep what a term became. Takes no memory.
#[tactic(auto, using(ap_term::proofs::Seen::trees))]
fn is_worth_keeping(t: &Term) -> bool {
    match &t.shape {
        Shape::Call(_, _) => match size(t) {
            Some(nodes) => FEWEST_NODES <= nodes && nodes <= MOST_NODES,
            None => false,
        },
        _ => false,
    }
}

/// A term with so many levels left, of which nothing is known: a step is spent first. `None` where the steps run out.
#[cycle(rewriting)]
fn rewrite_anew<O: TypeOracle + LinearOracle>(
    r: &Rewriter<'_, O>,
    steps: &mut Run<'_>,
    levels: u32,
    mode: Mode,
    at: &Place<'_>,
    t: &Term,
) -> Result<Option<Equiv>, NoMemory>
    requires ready { Ready r.now }
    requires facts { KnownFacts (defs_in r.now) at.now.ctx.now.0 }
    requires term { IsTrue (known (defs_in r.now) t.now) }
    requires here { Here r.now at.now steps.old.memo }
    ensures is { IfOk result (λ o. got o steps.new.left ≡ inner_of r.now levels mode (seen_at at.now) t.now steps.old.left) }
    ensures from { IfOk result (λ o. IfSome o (From r.now.w.now mode at.now.ctx.now t.now)) }
    ensures kept { steps.new.memo ≡ steps.old.memo }
{
    if steps.left == 0 {
        return Ok(None);
    }
    steps.left -= 1;
    if levels == 0 {
        let q = stay(&*r, at.ctx, mode, &*t)?;
        return Ok(Some(q));
    }
    let less = levels - 1;
    let below = |steps: &mut Run<'_>, mode: Mode, at: &Place<'_>, t: &Term| -> Result<
        Option<Equiv>,
        NoMemory,
    >
        requires ready { Ready r.now }
        requires facts { KnownFacts (defs_in r.now) at.now.ctx.now.0 }
        requires term { IsTrue (known (defs_in r.now) t.now) }
        requires here { Here r.now at.now steps.old.memo }
        ensures is { IfOk result (λ o. got o steps.new.left ≡ inner_of r.entry.now less mode (seen_at at.now) t.now steps.old.left) }
        ensures from { IfOk result (λ o. IfSome o (From r.entry.now.w.now mode at.now.ctx.now t.now)) }
        ensures kept { steps.new.memo ≡ steps.old.memo }
    { rewrite_levels(&*r, steps, less, mode, &*at, &*t) };
    let l = Level {
        r: &*r,
        levels: less,
        below: &below,
    };
    rewrite_shape(&l, steps, mode, &*at, &*t)
}

/// A term of which nothing is known yet: what it becomes is kept. `None` where the steps run out.
#[cycle(rewriting)]
fn rewrite_and_keep<O: TypeOracle + LinearOracle>(
    r: &Rewriter<'_, O>,
    steps: &mut Run<'_>,
    levels: u32,
    mode: Mode,
    at: &Place<'_>,
    t: &Term,
) -> Result<Option<Equiv>, NoMemory>
    requires ready { Ready r.now }
    requires facts { KnownFacts (defs_in r.now) at.now.ctx.now.0 }
    requires term { IsTrue (known (defs_in r.now) t.now) }
    requires here { Here r.now at.now steps.old.memo }
    ensures is { IfOk result (λ o. got o steps.new.left ≡ inner_of r.now levels mode (seen_at at.now) t.now steps.old.left) }
    ensures from { IfOk result (λ o. IfSome o (From r.now.w.now mode at.now.ctx.now t.now)) }
    ensures kept { steps.new.memo ≡ steps.old.memo }
{
    let before = steps.left;
    let Some(q) = rewrite_anew(r, steps, levels, mode, at, t)? else {
        return Ok(None);
    };
    steps
        .memo
        .keep(r.alloc, levels, mode, at, t, before, &q, steps.left)?;
    Ok(Some(q))
}

/// A term with so many levels left: as it is known, or anew. `None` where the steps run out.
#[cycle(rewriting)]
fn rewrite_levels<O: TypeOracle + LinearOracle>(
    r: &Rewriter<'_, O>,
    steps: &mut Run<'_>,
    levels: u32,
    mode: Mode,
    at: &Place<'_>,
    t: &Term,
) -> Result<Option<Equiv>, NoMemory>
    requires ready { Ready r.now }
    requires facts { KnownFacts (defs_in r.now) at.now.ctx.now.0 }
    requires term { IsTrue (known (defs_in r.now) t.now) }
    requires here { Here r.now at.now steps.old.memo }
    ensures is { IfOk result (λ o. got o steps.new.left ≡ inner_of r.now levels mode (seen_at at.now) t.now steps.old.left) }
    ensures from { IfOk result (λ o. IfSome o (From r.now.w.now mode at.now.ctx.now t.now)) }
    ensures kept { steps.new.memo ≡ steps.old.memo }
{
    if !is_worth_keeping(t) {
        return rewrite_anew(r, steps, levels, mode, at, t);
    }
    match steps.memo.recall(r.alloc, levels, mode, at, t, steps.left)? {
        Recalled::Known(q, left) => {
            steps.left = left;
            Ok(Some(q))
        }
        Recalled::Out => Ok(None),
        Recalled::Unknown => rewrite_and_keep(r, steps, levels, mode, at, t),
    }
}

/// A term with so many levels left: each term that is rewritten spends a step first. `None` exactly where the steps run
/// out, and then none is left. The only error is want of memory.
pub fn rewrite<O: TypeOracle + LinearOracle>(
    r: &Rewriter<'_, O>,
    steps: &mut Run<'_>,
    levels: u32,
    mode: Mode,
    at: &Place<'_>,
    t: &Term,
) -> Result<Option<Equiv>, NoMemory>
    requires ready { Ready r.now }
    requires facts { KnownFacts (defs_in r.now) at.now.ctx.now.0 }
    requires term { IsTrue (known (defs_in r.now) t.now) }
    requires here { Here r.now at.now steps.old.memo }
    ensures is { IfOk result (λ o. got o steps.new.left ≡ inner_of r.now levels mode (seen_at at.now) t.now steps.old.left) }
    ensures steps { IfOk result (λ o. steps.new.left ≡ steps_after (inner_of r.now levels mode (seen_at at.now) t.now steps.old.left)) }
    ensures from { IfOk result (λ o. IfSome o (From r.now.w.now mode at.now.ctx.now t.now)) }
    ensures kept { steps.new.memo ≡ steps.old.memo }
{
    let Some(q) = rewrite_levels(r, steps, levels, mode, at, t)? else {
        steps.left = 0;
        return Ok(None);
    };
    Ok(Some(q))
}
