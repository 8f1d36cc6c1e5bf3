// The definition of a function that is called.
ghost use Rattle.std.specs.Prelude.{◌≡◌, ℕ, ◌*◌, nat_le, false, ◌∷◌, zip, IsTrue, IfOk, IfSome, Some, None, cond};
ghost use Rattle.ap_list.specs.Lists.{Each, is_among};
ghost use Rattle.ap_value.specs.Values.{symbol_eq};
ghost use Rattle.ap_term.specs.declared.term.Term.{Term, Call};
ghost use Rattle.ap_term.specs.Equal.{term_eq};
ghost use Rattle.ap_term.specs.Terms.{subst_of, term_size};
ghost use Rattle.ap_world.specs.declared.theory.Rune.TheVariants as rune;
ghost use Rattle.ap_world.specs.Theories.{is_enabled};
ghost use Rattle.ap_world.specs.Facts.{KnownFacts};
ghost use Rattle.ap_world.specs.Sound.{known};
ghost use Rattle.ap_kernel.specs.Answers.{if_of};
ghost use Rattle.ap_kernel.specs.declared.objects.Mode.TheVariants.{Iff};
ghost use Rattle.ap_kernel.specs.Opening.{body_at, opened};
ghost use Rattle.ap_rewrite.specs.Settings.{closing};
ghost use Rattle.ap_rewrite.specs.Rewriting.{most_nodes, truth_of, is_recursive, both, walk, answered, open_instance, opened as opening, by_definition};
ghost use Rattle.ap_rewrite.specs.Answering.{defs_in, where_applied, Ready, setting_of, inner_of, seen_at, got, got_any, leaf_on, ends_on, past_if, open_within, open_closed, From, Here, IsLevel};

use crate::branching::{both, choose, go_on};
use crate::engines::answered;
use crate::rewriter::{Below, Level, Place, Rewriter, Run, Tried, deeper};
use crate::rows::{follow, opened};
use crate::sizes::{has_small_instance, is_small, truth_of};
use ap_kernel::{
    Ctx, Equiv, Mode, NoMemory, Seq, ShapeRef, Symbol, Term, TypeOracle, pairs_of, shape_of, subst,
};
use ap_term::{copy_term, is_among, is_term_among};
use ap_value::copy_symbol;
use ap_world::{Function, RuneKind};
use std::alloc::Global;

/// The way down the body of a function that recurs: under which mode, from where the call stands, to where its body
/// does, in which the function is closed; and whether a branch was taken.
#[derive(Clone, Copy)]
struct Way<'a> {
    mode: Mode,
    at: &'a Place<'a>,
    inner: &'a Place<'a>,
    taken: bool,
}

/// A call: the term, its head and its arguments.
#[derive(Clone, Copy)]
struct Called<'a> {
    t: &'a Term,
    f: &'a Symbol,
    us: &'a [Term],
}

/// A list of symbols with one more in front.
fn closing(alloc: Global, f: &Symbol, closed: &[Symbol]) -> Result<Seq<Symbol>, NoMemory>
    ensures { IfOk result (λ fs. fs ≡ f.now ∷ closed.now) }
{
    let mut out = Seq::new(alloc);
    out.push(copy_symbol(alloc, f)?)?;
    for g in closed {
        out.push(copy_symbol(alloc, g)?)?;
    }
    Ok(out)
}

/// On from an `if` into the branch that the constant chooses which its test has become.
fn step_down<O: TypeOracle>(
    r: &Rewriter<'_, O>,
    way: &Way<'_>,
    sofar: Equiv,
    test: Equiv,
    sign: bool,
    b: &Term,
    c: &Term,
) -> Result<Equiv, NoMemory>
    requires ready { Ready r.now }
    requires facts { KnownFacts (defs_in r.now) way.now.at.now.ctx.now.0 }
    requires sofar { From r.now.w.now way.now.mode way.now.at.now.ctx.now sofar.says.lhs sofar }
    requires test { From r.now.w.now Iff way.now.at.now.ctx.now test.says.lhs test }
    requires sign { truth_of test.says.rhs ≡ Some sign }
    requires choice { sofar.says.rhs ≡ if_of test.says.lhs b.now c.now }
    ensures is { IfOk result (λ q. q.says.rhs ≡ cond sign b.now c.now) }
    ensures from { IfOk result (From r.now.w.now way.now.mode way.now.at.now.ctx.now sofar.says.lhs) }
{
    let branch = choose(r, way.at.ctx, way.mode, test, sign, b, c)?;
    let next = follow(r, way.at.ctx, way.mode, sofar, branch)?;
    Ok(next)
}

/// Down the body, past an `if` whose test has become what `test` leads to: into the branch that a constant chooses;
/// else the `if` is the answer, where a branch was taken before.
#[cycle(walking)]
fn walk_on<O: TypeOracle, F: Below>(
    l: &Level<'_, '_, O, F>,
    steps: &mut Run<'_>,
    way: &Way<'_>,
    sofar: Equiv,
    test: Equiv,
    b: &Term,
    c: &Term,
) -> Result<Option<Tried<Equiv>>, NoMemory>
    requires level { IsLevel (F.may l.now.below.now) (F.gives l.now.below.now) l.now.r.now l.now.levels }
    requires facts { KnownFacts (defs_in l.now.r.now) way.now.at.now.ctx.now.0 }
    requires inner { way.now.inner.now.ctx.now ≡ way.now.at.now.ctx.now }
    requires sofar { From l.now.r.now.w.now way.now.mode way.now.at.now.ctx.now sofar.says.lhs sofar }
    requires test { From l.now.r.now.w.now Iff way.now.at.now.ctx.now test.says.lhs test }
    requires choice { sofar.says.rhs ≡ if_of test.says.lhs b.now c.now }
    requires here { Here l.now.r.now way.now.at.now steps.old.memo }
    ensures is { IfOk result (λ o. got_any o steps.new.left
        ≡ past_if (setting_of l.now.r.now) (inner_of l.now.r.now l.now.levels) way.now.mode
        (seen_at way.now.at.now) (seen_at way.now.inner.now) way.now.taken test.says.rhs b.now c.now
        steps.old.left) }
    ensures from { IfOk result (λ o. IfSome o
        (λ a. IfSome (where_applied a) (From l.now.r.now.w.now way.now.mode way.now.at.now.ctx.now sofar.says.lhs))) }
    ensures kept { steps.new.memo ≡ steps.old.memo }
{
    match truth_of(test.rhs()) {
        Some(sign) => {
            let next = step_down(l.r, way, sofar, test, sign, b, c)?;
            let on = Way {
                mode: way.mode,
                at: way.at,
                inner: way.inner,
                taken: true,
            };
            walk(l, steps, &on, next)
        }
        None => walk_ends(l, steps, way, sofar, test, b, c),
    }
}

/// Both branches of an `if` whose test has become no constant, as it stands within.
fn both_within<O: TypeOracle, F: Below>(
    l: &Level<'_, '_, O, F>,
    steps: &mut Run<'_>,
    way: &Way<'_>,
    t: &Term,
    test: Equiv,
    b: &Term,
    c: &Term,
) -> Result<Option<Equiv>, NoMemory>
    requires level { IsLevel (F.may l.now.below.now) (F.gives l.now.below.now) l.now.r.now l.now.levels }
    requires facts { KnownFacts (defs_in l.now.r.now) way.now.inner.now.ctx.now.0 }
    requires term { t.now ≡ if_of test.says.lhs b.now c.now }
    requires test { From l.now.r.now.w.now Iff way.now.inner.now.ctx.now test.says.lhs test }
    requires open { truth_of test.says.rhs ≡ None }
    requires yes { IsTrue (known (defs_in l.now.r.now) b.now) }
    requires no { IsTrue (known (defs_in l.now.r.now) c.now) }
    requires here { Here l.now.r.now way.now.at.now steps.old.memo }
    ensures is { IfOk result (λ o. got o steps.new.left ≡ both (setting_of l.now.r.now) (inner_of l.now.r.now l.now.levels) way.now.mode (seen_at way.now.inner.now) test.says.rhs b.now c.now steps.old.left) }
    ensures from { IfOk result (λ o. IfSome o (From l.now.r.now.w.now way.now.mode way.now.inner.now.ctx.now (if_of test.says.lhs b.now c.now))) }
    ensures kept { steps.new.memo ≡ steps.old.memo }
{
    steps.memo.enter(l.r.alloc, way.inner)?;
    let found = both(l, steps, way.mode, way.inner, t, test, b, c);
    steps.memo.leave();
    found
}

/// Both branches of the `if` at which the walk ends.
fn follow_both<O: TypeOracle, F: Below>(
    l: &Level<'_, '_, O, F>,
    steps: &mut Run<'_>,
    way: &Way<'_>,
    sofar: Equiv,
    test: Equiv,
    b: &Term,
    c: &Term,
) -> Result<Option<Tried<Equiv>>, NoMemory>
    requires level { IsLevel (F.may l.now.below.now) (F.gives l.now.below.now) l.now.r.now l.now.levels }
    requires facts { KnownFacts (defs_in l.now.r.now) way.now.inner.now.ctx.now.0 }
    requires sofar { From l.now.r.now.w.now way.now.mode way.now.inner.now.ctx.now sofar.says.lhs sofar }
    requires test { From l.now.r.now.w.now Iff way.now.inner.now.ctx.now test.says.lhs test }
    requires open { truth_of test.says.rhs ≡ None }
    requires choice { sofar.says.rhs ≡ if_of test.says.lhs b.now c.now }
    requires here { Here l.now.r.now way.now.at.now steps.old.memo }
    ensures is { IfOk result (λ o. got_any o steps.new.left
        ≡ answered (both (setting_of l.now.r.now) (inner_of l.now.r.now l.now.levels) way.now.mode
        (seen_at way.now.inner.now) test.says.rhs b.now c.now steps.old.left)) }
    ensures from { IfOk result (λ o. IfSome o
        (λ a. IfSome (where_applied a) (From l.now.r.now.w.now way.now.mode way.now.inner.now.ctx.now sofar.says.lhs))) }
    ensures kept { steps.new.memo ≡ steps.old.memo }
{
    let Some(more) = both_within(l, steps, way, sofar.rhs(), test, b, c)? else {
        return Ok(None);
    };
    let q = follow(l.r, way.inner.ctx, way.mode, sofar, more)?;
    Ok(Some(Tried::Applied(q)))
}

/// The walk ends at an `if` whose test has become no constant: at both branches, where a branch was taken.
fn walk_ends<O: TypeOracle, F: Below>(
    l: &Level<'_, '_, O, F>,
    steps: &mut Run<'_>,
    way: &Way<'_>,
    sofar: Equiv,
    test: Equiv,
    b: &Term,
    c: &Term,
) -> Result<Option<Tried<Equiv>>, NoMemory>
    requires level { IsLevel (F.may l.now.below.now) (F.gives l.now.below.now) l.now.r.now l.now.levels }
    requires facts { KnownFacts (defs_in l.now.r.now) way.now.inner.now.ctx.now.0 }
    requires sofar { From l.now.r.now.w.now way.now.mode way.now.inner.now.ctx.now sofar.says.lhs sofar }
    requires test { From l.now.r.now.w.now Iff way.now.inner.now.ctx.now test.says.lhs test }
    requires open { truth_of test.says.rhs ≡ None }
    requires choice { sofar.says.rhs ≡ if_of test.says.lhs b.now c.now }
    requires here { Here l.now.r.now way.now.at.now steps.old.memo }
    ensures is { IfOk result (λ o. got_any o steps.new.left
        ≡ ends_on (setting_of l.now.r.now) (inner_of l.now.r.now l.now.levels) way.now.mode
        (seen_at way.now.inner.now) way.now.taken test.says.rhs b.now c.now steps.old.left) }
    ensures from { IfOk result (λ o. IfSome o
        (λ a. IfSome (where_applied a) (From l.now.r.now.w.now way.now.mode way.now.inner.now.ctx.now sofar.says.lhs))) }
    ensures kept { steps.new.memo ≡ steps.old.memo }
{
    if way.taken {
        return follow_both(l, steps, way, sofar, test, b, c);
    }
    Ok(Some(Tried::PassedBy))
}

/// Down the body, which is lent: at an `if` its test under `iff`, and on by what that has become.
#[cycle(walking)]
fn walk_body<O: TypeOracle, F: Below>(
    l: &Level<'_, '_, O, F>,
    steps: &mut Run<'_>,
    way: &Way<'_>,
    sofar: Equiv,
    body: &Term,
) -> Result<Option<Tried<Equiv>>, NoMemory>
    requires level { IsLevel (F.may l.now.below.now) (F.gives l.now.below.now) l.now.r.now l.now.levels }
    requires facts { KnownFacts (defs_in l.now.r.now) way.now.at.now.ctx.now.0 }
    requires inner { way.now.inner.now.ctx.now ≡ way.now.at.now.ctx.now }
    requires sofar { From l.now.r.now.w.now way.now.mode way.now.at.now.ctx.now sofar.says.lhs sofar }
    requires body { body.now ≡ sofar.says.rhs }
    requires here { Here l.now.r.now way.now.at.now steps.old.memo }
    ensures is { IfOk result (λ o. got_any o steps.new.left
        ≡ walk (setting_of l.now.r.now) (inner_of l.now.r.now l.now.levels) way.now.mode (seen_at way.now.at.now)
        (seen_at way.now.inner.now) sofar.says.rhs way.now.taken steps.old.left) }
    ensures from { IfOk result (λ o. IfSome o
        (λ a. IfSome (where_applied a) (From l.now.r.now.w.now way.now.mode way.now.at.now.ctx.now sofar.says.lhs))) }
    ensures kept { steps.new.memo ≡ steps.old.memo }
{
    match shape_of(body) {
        ShapeRef::If(a, b, c) => match deeper(l, steps, Mode::Iff, way.at, a)? {
            None => Ok(None),
            Some(test) => walk_on(l, steps, way, sofar, test, b, c),
        },
        _ => walk_stops(l, steps, way, sofar),
    }
}

/// Down the body of a function that recurs, while it is an `if` whose test becomes a constant. There is an answer
/// where one was, at least once.
#[cycle(walking)]
fn walk<O: TypeOracle, F: Below>(
    l: &Level<'_, '_, O, F>,
    steps: &mut Run<'_>,
    way: &Way<'_>,
    sofar: Equiv,
) -> Result<Option<Tried<Equiv>>, NoMemory>
    requires level { IsLevel (F.may l.now.below.now) (F.gives l.now.below.now) l.now.r.now l.now.levels }
    requires facts { KnownFacts (defs_in l.now.r.now) way.now.at.now.ctx.now.0 }
    requires inner { way.now.inner.now.ctx.now ≡ way.now.at.now.ctx.now }
    requires sofar { From l.now.r.now.w.now way.now.mode way.now.at.now.ctx.now sofar.says.lhs sofar }
    requires here { Here l.now.r.now way.now.at.now steps.old.memo }
    ensures is { IfOk result (λ o. got_any o steps.new.left
        ≡ walk (setting_of l.now.r.now) (inner_of l.now.r.now l.now.levels) way.now.mode (seen_at way.now.at.now)
        (seen_at way.now.inner.now) sofar.says.rhs way.now.taken steps.old.left) }
    ensures from { IfOk result (λ o. IfSome o
        (λ a. IfSome (where_applied a) (From l.now.r.now.w.now way.now.mode way.now.at.now.ctx.now sofar.says.lhs))) }
    ensures kept { steps.new.memo ≡ steps.old.memo }
{
    let body = copy_term(l.r.alloc, sofar.rhs())?;
    walk_body(l, steps, way, sofar, &body)
}

/// The walk ends at what is no `if`: it is rewritten, where a branch was taken.
fn walk_stops<O: TypeOracle, F: Below>(
    l: &Level<'_, '_, O, F>,
    steps: &mut Run<'_>,
    way: &Way<'_>,
    sofar: Equiv,
) -> Result<Option<Tried<Equiv>>, NoMemory>
    requires level { IsLevel (F.may l.now.below.now) (F.gives l.now.below.now) l.now.r.now l.now.levels }
    requires facts { KnownFacts (defs_in l.now.r.now) way.now.at.now.ctx.now.0 }
    requires sofar { From l.now.r.now.w.now way.now.mode way.now.at.now.ctx.now sofar.says.lhs sofar }
    requires here { Here l.now.r.now way.now.at.now steps.old.memo }
    ensures is { IfOk result (λ o. got_any o steps.new.left
        ≡ leaf_on (inner_of l.now.r.now l.now.levels) way.now.mode (seen_at way.now.at.now) sofar.says.rhs
        way.now.taken steps.old.left) }
    ensures from { IfOk result (λ o. IfSome o
        (λ a. IfSome (where_applied a) (From l.now.r.now.w.now way.now.mode way.now.at.now.ctx.now sofar.says.lhs))) }
    ensures kept { steps.new.memo ≡ steps.old.memo }
{
    if !way.taken {
        return Ok(Some(Tried::PassedBy));
    }
    let found = go_on(l, steps, way.mode, way.at, sofar)?;
    Ok(answered(found))
}

/// On from where an equivalence leads: that term is rewritten in its turn, as it stands within.
fn go_on_within<O: TypeOracle, F: Below>(
    l: &Level<'_, '_, O, F>,
    steps: &mut Run<'_>,
    mode: Mode,
    at: &Place<'_>,
    inner: &Place<'_>,
    first: Equiv,
) -> Result<Option<Equiv>, NoMemory>
    requires level { IsLevel (F.may l.now.below.now) (F.gives l.now.below.now) l.now.r.now l.now.levels }
    requires facts { KnownFacts (defs_in l.now.r.now) inner.now.ctx.now.0 }
    requires first { From l.now.r.now.w.now mode inner.now.ctx.now first.says.lhs first }
    requires here { Here l.now.r.now at.now steps.old.memo }
    ensures is { IfOk result (λ o. got o steps.new.left ≡ inner_of l.now.r.now l.now.levels mode (seen_at inner.now) first.says.rhs steps.old.left) }
    ensures from { IfOk result (λ o. IfSome o (From l.now.r.now.w.now mode inner.now.ctx.now first.says.lhs)) }
    ensures kept { steps.new.memo ≡ steps.old.memo }
{
    steps.memo.enter(l.r.alloc, inner)?;
    let found = go_on(l, steps, mode, inner, first);
    steps.memo.leave();
    found
}

/// The instance of the body of a function that recurs: of a call that is to be opened it is rewritten as it stands
/// within, else it is walked down.
fn open_within<O: TypeOracle, F: Below>(
    l: &Level<'_, '_, O, F>,
    steps: &mut Run<'_>,
    mode: Mode,
    at: &Place<'_>,
    inner: &Place<'_>,
    first: Equiv,
) -> Result<Option<Tried<Equiv>>, NoMemory>
    requires level { IsLevel (F.may l.now.below.now) (F.gives l.now.below.now) l.now.r.now l.now.levels }
    requires facts { KnownFacts (defs_in l.now.r.now) at.now.ctx.now.0 }
    requires inner { inner.now.ctx.now ≡ at.now.ctx.now }
    requires first { From l.now.r.now.w.now mode at.now.ctx.now first.says.lhs first }
    requires here { Here l.now.r.now at.now steps.old.memo }
    ensures is { IfOk result (λ o. got_any o steps.new.left
        ≡ open_within (setting_of l.now.r.now) (inner_of l.now.r.now l.now.levels) mode (seen_at at.now)
        (seen_at inner.now) first.says.lhs first.says.rhs steps.old.left) }
    ensures from { IfOk result (λ o. IfSome o
        (λ a. IfSome (where_applied a) (From l.now.r.now.w.now mode at.now.ctx.now first.says.lhs))) }
    ensures kept { steps.new.memo ≡ steps.old.memo }
{
    if is_term_among(first.lhs(), l.r.expand.as_slice()) {
        let found = go_on_within(l, steps, mode, at, inner, first)?;
        return Ok(answered(found));
    }
    let way = Way {
        mode,
        at,
        inner,
        taken: false,
    };
    walk(l, steps, &way, first)
}

/// The instance of the body of a function that recurs, where the function isn't opened again: of a call that is to be
/// opened it is rewritten, else it is walked down.
fn open_recursive<O: TypeOracle, F: Below>(
    l: &Level<'_, '_, O, F>,
    steps: &mut Run<'_>,
    mode: Mode,
    at: &Place<'_>,
    f: &Symbol,
    first: Equiv,
) -> Result<Option<Tried<Equiv>>, NoMemory>
    requires level { IsLevel (F.may l.now.below.now) (F.gives l.now.below.now) l.now.r.now l.now.levels }
    requires facts { KnownFacts (defs_in l.now.r.now) at.now.ctx.now.0 }
    requires first { From l.now.r.now.w.now mode at.now.ctx.now first.says.lhs first }
    requires here { Here l.now.r.now at.now steps.old.memo }
    ensures is { IfOk result (λ o. got_any o steps.new.left
        ≡ open_closed (setting_of l.now.r.now) (inner_of l.now.r.now l.now.levels) mode (seen_at at.now) f.now
        first.says.lhs first.says.rhs steps.old.left) }
    ensures from { IfOk result (λ o. IfSome o
        (λ a. IfSome (where_applied a) (From l.now.r.now.w.now mode at.now.ctx.now first.says.lhs))) }
    ensures kept { steps.new.memo ≡ steps.old.memo }
{
    let closed = closing(l.r.alloc, f, at.closed)?;
    let inner = Place {
        ctx: at.ctx,
        closed: closed.as_slice(),
        chain: at.chain,
    };
    open_within(l, steps, mode, at, &inner, first)
}

/// The instance of a function's body to which a call leads.
fn open_instance<O: TypeOracle, F: Below>(
    l: &Level<'_, '_, O, F>,
    steps: &mut Run<'_>,
    mode: Mode,
    at: &Place<'_>,
    f: &Symbol,
    g: &Function,
    first: Equiv,
) -> Result<Option<Tried<Equiv>>, NoMemory>
    requires level { IsLevel (F.may l.now.below.now) (F.gives l.now.below.now) l.now.r.now l.now.levels }
    requires facts { KnownFacts (defs_in l.now.r.now) at.now.ctx.now.0 }
    requires first { From l.now.r.now.w.now mode at.now.ctx.now first.says.lhs first }
    requires here { Here l.now.r.now at.now steps.old.memo }
    ensures is { IfOk result (λ o. got_any o steps.new.left
        ≡ open_instance (setting_of l.now.r.now) (inner_of l.now.r.now l.now.levels) mode (seen_at at.now)
        first.says.lhs f.now g.now first.says.rhs steps.old.left) }
    ensures from { IfOk result (λ o. IfSome o
        (λ a. IfSome (where_applied a) (From l.now.r.now.w.now mode at.now.ctx.now first.says.lhs))) }
    ensures kept { steps.new.memo ≡ steps.old.memo }
{
    if g.measure.is_some() {
        return open_recursive(l, steps, mode, at, f, first);
    }
    let found = go_on(l, steps, mode, at, first)?;
    Ok(answered(found))
}

/// A call of a defined function that may be opened, by its body's instance, where that isn't too large.
fn open_at_once<O: TypeOracle, F: Below>(
    l: &Level<'_, '_, O, F>,
    steps: &mut Run<'_>,
    mode: Mode,
    at: &Place<'_>,
    call: &Called<'_>,
    g: &Function,
) -> Result<Option<Tried<Equiv>>, NoMemory>
    requires level { IsLevel (F.may l.now.below.now) (F.gives l.now.below.now) l.now.r.now l.now.levels }
    requires facts { KnownFacts (defs_in l.now.r.now) at.now.ctx.now.0 }
    requires term { IsTrue (known (defs_in l.now.r.now) call.now.t.now) }
    requires call { call.now.t.now ≡ Call call.now.f.now call.now.us.now }
    requires function { defs_in l.now.r.now call.now.f.now ≡ Some g.now }
    requires enabled { IsTrue (is_enabled l.now.r.now.theory.now (rune.Definition call.now.f.now)) }
    requires free { is_among symbol_eq call.now.f.now at.now.closed.now ≡ false }
    requires here { Here l.now.r.now at.now steps.old.memo }
    ensures is { IfOk result (λ o. got_any o steps.new.left
        ≡ opening (setting_of l.now.r.now) (inner_of l.now.r.now l.now.levels) mode (seen_at at.now)
        call.now.t.now call.now.f.now call.now.us.now (Some g.now) steps.old.left) }
    ensures from { IfOk result (λ o. IfSome o
        (λ a. IfSome (where_applied a) (From l.now.r.now.w.now mode at.now.ctx.now call.now.t.now))) }
    ensures kept { steps.new.memo ≡ steps.old.memo }
{
    let first = opened(l.r, at.ctx, mode, call.t)?;
    if !is_small(first.rhs()) {
        return Ok(Some(Tried::PassedBy));
    }
    open_instance(l, steps, mode, at, call.f, g, first)
}

/// The instance of a part of a function's body at these arguments.
fn part_at(alloc: Global, g: &Function, us: &[Term], part: &Term) -> Result<Term, NoMemory>
    ensures { IfOk result (λ u. u ≡ subst_of (zip g.now.formals us.now) part.now) }
{
    let pairs = pairs_of(alloc, g.formals.as_slice(), us)?;
    let instance = subst(alloc, part, &pairs)?;
    Ok(instance)
}

/// The instance of the test of a function's body, rewritten under `iff`.
fn rewrite_test<O: TypeOracle, F: Below>(
    l: &Level<'_, '_, O, F>,
    steps: &mut Run<'_>,
    at: &Place<'_>,
    us: &[Term],
    g: &Function,
    a: &Term,
) -> Result<Option<Equiv>, NoMemory>
    requires level { IsLevel (F.may l.now.below.now) (F.gives l.now.below.now) l.now.r.now l.now.levels }
    requires facts { KnownFacts (defs_in l.now.r.now) at.now.ctx.now.0 }
    requires arguments { Each (λ u. IsTrue (known (defs_in l.now.r.now) u)) us.now }
    requires test { IsTrue (known (defs_in l.now.r.now) a.now) }
    requires here { Here l.now.r.now at.now steps.old.memo }
    ensures is { IfOk result (λ o. got o steps.new.left
        ≡ inner_of l.now.r.now l.now.levels Iff (seen_at at.now) (subst_of (zip g.now.formals us.now) a.now)
        steps.old.left) }
    ensures from { IfOk result (λ o. IfSome o
        (From l.now.r.now.w.now Iff at.now.ctx.now (subst_of (zip g.now.formals us.now) a.now))) }
    ensures kept { steps.new.memo ≡ steps.old.memo }
{
    let instance = part_at(l.r.alloc, g, us, a)?;
    let found = deeper(l, steps, Mode::Iff, at, &instance)?;
    Ok(found)
}

/// Down a body's instance from the `if` at its top, whose test has led to this already, from some number of steps.
fn walk_past<O: TypeOracle, F: Below>(
    l: &Level<'_, '_, O, F>,
    steps: &mut Run<'_>,
    way: &Way<'_>,
    first: Equiv,
    test: Equiv,
) -> Result<Option<Tried<Equiv>>, NoMemory>
    requires level { IsLevel (F.may l.now.below.now) (F.gives l.now.below.now) l.now.r.now l.now.levels }
    requires facts { KnownFacts (defs_in l.now.r.now) way.now.at.now.ctx.now.0 }
    requires inner { way.now.inner.now.ctx.now ≡ way.now.at.now.ctx.now }
    requires first { From l.now.r.now.w.now way.now.mode way.now.at.now.ctx.now first.says.lhs first }
    requires test { From l.now.r.now.w.now Iff way.now.at.now.ctx.now test.says.lhs test }
    requires choice { (b : Term) × (c : Term) × (first.says.rhs ≡ if_of test.says.lhs b c) }
    requires here { Here l.now.r.now way.now.at.now steps.old.memo }
    ensures is { IfOk result (λ o. (n : ℕ)
        → Some (test.says.rhs, steps.old.left)
        ≡ inner_of l.now.r.now l.now.levels Iff (seen_at way.now.at.now) test.says.lhs n
        → got_any o steps.new.left
        ≡ walk (setting_of l.now.r.now) (inner_of l.now.r.now l.now.levels) way.now.mode
        (seen_at way.now.at.now) (seen_at way.now.inner.now) first.says.rhs way.now.taken n) }
    ensures from { IfOk result (λ o. IfSome o
        (λ a. IfSome (where_applied a) (From l.now.r.now.w.now way.now.mode way.now.at.now.ctx.now first.says.lhs))) }
    ensures kept { steps.new.memo ≡ steps.old.memo }
{
    let body = copy_term(l.r.alloc, first.rhs())?;
    match shape_of(&body) {
        ShapeRef::If(_, b, c) => walk_on(l, steps, way, first, test, b, c),
        _ => unreachable!(),
    }
}

/// A call of a function whose body is an `if`, where the instance of its test has led to this already: its body's
/// instance is made, and walked down where the function is closed.
fn open_tested<O: TypeOracle, F: Below>(
    l: &Level<'_, '_, O, F>,
    steps: &mut Run<'_>,
    mode: Mode,
    at: &Place<'_>,
    t: &Term,
    f: &Symbol,
    test: Equiv,
) -> Result<Option<Tried<Equiv>>, NoMemory>
    requires level { IsLevel (F.may l.now.below.now) (F.gives l.now.below.now) l.now.r.now l.now.levels }
    requires facts { KnownFacts (defs_in l.now.r.now) at.now.ctx.now.0 }
    requires term { IsTrue (known (defs_in l.now.r.now) t.now) }
    requires test { From l.now.r.now.w.now Iff at.now.ctx.now test.says.lhs test }
    requires choice { (b : Term) × (c : Term) × (opened (defs_in l.now.r.now) t.now ≡ Some (if_of test.says.lhs b c)) }
    requires here { Here l.now.r.now at.now steps.old.memo }
    ensures is { IfOk result (λ o. (v : Term) (n : ℕ)
        → opened (defs_in l.now.r.now) t.now ≡ Some v
        → Some (test.says.rhs, steps.old.left)
        ≡ inner_of l.now.r.now l.now.levels Iff (seen_at at.now) test.says.lhs n
        → got_any o steps.new.left
        ≡ walk (setting_of l.now.r.now) (inner_of l.now.r.now l.now.levels) mode (seen_at at.now)
        (closing f.now (seen_at at.now)) v false n) }
    ensures from { IfOk result (λ o. IfSome o (λ a. IfSome (where_applied a) (From l.now.r.now.w.now mode at.now.ctx.now t.now))) }
    ensures kept { steps.new.memo ≡ steps.old.memo }
{
    let first = opened(l.r, at.ctx, mode, t)?;
    let closed = closing(l.r.alloc, f, at.closed)?;
    let inner = Place {
        ctx: at.ctx,
        closed: closed.as_slice(),
        chain: at.chain,
    };
    let way = Way {
        mode,
        at,
        inner: &inner,
        taken: false,
    };
    walk_past(l, steps, &way, first, test)
}

/// A call of a function whose body is an `if`: the instance of its test alone is made and rewritten, and the body's
/// where the test becomes a constant.
fn open_by_test<O: TypeOracle, F: Below>(
    l: &Level<'_, '_, O, F>,
    steps: &mut Run<'_>,
    mode: Mode,
    at: &Place<'_>,
    call: &Called<'_>,
    g: &Function,
    a: &Term,
) -> Result<Option<Tried<Equiv>>, NoMemory>
    requires level { IsLevel (F.may l.now.below.now) (F.gives l.now.below.now) l.now.r.now l.now.levels }
    requires facts { KnownFacts (defs_in l.now.r.now) at.now.ctx.now.0 }
    requires term { IsTrue (known (defs_in l.now.r.now) call.now.t.now) }
    requires call { call.now.t.now ≡ Call call.now.f.now call.now.us.now }
    requires function { defs_in l.now.r.now call.now.f.now ≡ Some g.now }
    requires choice { (b : Term) × (c : Term) × (g.now.body ≡ if_of a.now b c) }
    requires here { Here l.now.r.now at.now steps.old.memo }
    ensures is { IfOk result (λ o. got_any o steps.new.left
        ≡ walk (setting_of l.now.r.now) (inner_of l.now.r.now l.now.levels) mode (seen_at at.now)
        (closing call.now.f.now (seen_at at.now)) (body_at g.now call.now.us.now) false steps.old.left) }
    ensures from { IfOk result (λ o. IfSome o
        (λ a. IfSome (where_applied a) (From l.now.r.now.w.now mode at.now.ctx.now call.now.t.now))) }
    ensures kept { steps.new.memo ≡ steps.old.memo }
{
    l.r.w.recall_sound();
    let Some(test) = rewrite_test(l, steps, at, call.us, g, a)? else {
        return Ok(None);
    };
    match truth_of(test.rhs()) {
        None => Ok(Some(Tried::PassedBy)),
        Some(_) => open_tested(l, steps, mode, at, call.t, call.f, test),
    }
}

/// The test of an `if`.
fn test_of(t: &Term) -> Option<&Term>
    ensures { IfSome result (λ a. (b : Term) × (c : Term) × (t.now ≡ if_of a.now b c)) }
{
    match shape_of(t) {
        ShapeRef::If(a, _, _) => Some(a),
        _ => None,
    }
}

/// The test of the `if` that is the body of a function that recurs, where a bound says that the body's instance is
/// small and the call isn't among those that are to be opened.
fn first_test<'a>(expand: &[Term], t: &Term, g: &'a Function) -> Option<&'a Term>
    ensures recurs { IfSome result (λ a. IsTrue (is_recursive g.now)) }
    ensures walked { IfSome result (λ a. is_among term_eq t.now expand.now ≡ false) }
    ensures small { IfSome result (λ a. IsTrue (nat_le (term_size g.now.body * term_size t.now) most_nodes)) }
    ensures choice { IfSome result (λ a. (b : Term) × (c : Term) × (g.now.body ≡ if_of a.now b c)) }
{
    if g.measure.is_none() {
        return None;
    }
    if is_term_among(t, expand) {
        return None;
    }
    if !has_small_instance(&g.body, t) {
        return None;
    }
    test_of(&g.body)
}

/// A call of a defined function, which is opened where the theory enables its definition, it isn't closed, and the
/// instance of its body isn't too large: by its test alone first, where the function recurs and a bound says that the
/// instance is small.
fn open_call<O: TypeOracle, F: Below>(
    l: &Level<'_, '_, O, F>,
    steps: &mut Run<'_>,
    mode: Mode,
    at: &Place<'_>,
    call: &Called<'_>,
    g: &Function,
) -> Result<Option<Tried<Equiv>>, NoMemory>
    requires level { IsLevel (F.may l.now.below.now) (F.gives l.now.below.now) l.now.r.now l.now.levels }
    requires facts { KnownFacts (defs_in l.now.r.now) at.now.ctx.now.0 }
    requires term { IsTrue (known (defs_in l.now.r.now) call.now.t.now) }
    requires call { call.now.t.now ≡ Call call.now.f.now call.now.us.now }
    requires function { defs_in l.now.r.now call.now.f.now ≡ Some g.now }
    requires here { Here l.now.r.now at.now steps.old.memo }
    ensures is { IfOk result (λ o. got_any o steps.new.left
        ≡ opening (setting_of l.now.r.now) (inner_of l.now.r.now l.now.levels) mode (seen_at at.now)
        call.now.t.now call.now.f.now call.now.us.now (Some g.now) steps.old.left) }
    ensures from { IfOk result (λ o. IfSome o
        (λ a. IfSome (where_applied a) (From l.now.r.now.w.now mode at.now.ctx.now call.now.t.now))) }
    ensures kept { steps.new.memo ≡ steps.old.memo }
{
    if !l.r.theory.is_enabled(RuneKind::Definition, call.f) || is_among(call.f, at.closed) {
        return Ok(Some(Tried::PassedBy));
    }
    match first_test(l.r.expand.as_slice(), call.t, g) {
        Some(a) => open_by_test(l, steps, mode, at, call, g, a),
        None => open_at_once(l, steps, mode, at, call, g),
    }
}

/// The definition, of a function that may be opened.
pub fn by_definition<O: TypeOracle, F: Below>(
    l: &Level<'_, '_, O, F>,
    steps: &mut Run<'_>,
    mode: Mode,
    at: &Place<'_>,
    t: &Term,
    f: &Symbol,
    us: &[Term],
) -> Result<Option<Tried<Equiv>>, NoMemory>
    requires level { IsLevel (F.may l.now.below.now) (F.gives l.now.below.now) l.now.r.now l.now.levels }
    requires facts { KnownFacts (defs_in l.now.r.now) at.now.ctx.now.0 }
    requires term { IsTrue (known (defs_in l.now.r.now) t.now) }
    requires call { t.now ≡ Call f.now us.now }
    requires here { Here l.now.r.now at.now steps.old.memo }
    ensures is { IfOk result (λ o. got_any o steps.new.left
        ≡ by_definition (setting_of l.now.r.now) (inner_of l.now.r.now l.now.levels) mode (seen_at at.now) f.now
        us.now steps.old.left) }
    ensures from { IfOk result (λ o. IfSome o (λ a. IfSome (where_applied a) (From l.now.r.now.w.now mode at.now.ctx.now t.now))) }
    ensures kept { steps.new.memo ≡ steps.old.memo }
{
    match l.r.w.lookup_fun(f) {
        None => Ok(Some(Tried::PassedBy)),
        Some(g) => {
            let call = Called { t, f, us };
            open_call(l, steps, mode, at, &call, g)
        }
    }
}
