//! The rows on theorems, definitions and constants.
ghost use Rattle.std.specs.Prelude.{◌≡◌, IfSome, IsTrue, [], ◌∷◌};
ghost use Rattle.ap_list.specs.Lists.{Each};
ghost use Rattle.ap_value.specs.Values.{val_of};
ghost use Rattle.ap_world.specs.Ground.{two, x};
ghost use Rattle.ap_world.specs.Facts.{KnownFacts};
ghost use Rattle.ap_world.specs.Holding.{KnownPairs};
ghost use Rattle.ap_world.specs.Meaning.{HasValue};
ghost use Rattle.ap_world.specs.Sound.{known};
ghost use Rattle.ap_world.specs.Names.{implies_name, x_name};
ghost use Rattle.ap_world.specs.Units.{metered};
ghost use Rattle.ap_world.specs.World.{function_of};
ghost use Rattle.ap_kernel.specs.Rows.{gives_value};
ghost use Rattle.ap_kernel.specs.Standing.{DefinesNot, Stands};

use crate::given::{first_world, symbol, term};
use ap_eval::{Env, eval, is_known};
use ap_kernel::{
    Ctx, Equiv, Subst, Term, World, apply_theorem, are_relieved, by_fact, can_open, fold,
    is_constant_call, open_def,
};
use ap_list::Seq;
use ap_reader::Form;
use ap_term::copy_term;
use ap_value::Value;
use std::alloc::Global;
use std::process::Abort;

/// `(implies h h)`
#[tactic(auto, unfolding(ap_world::specs::Names::implies_name))]
fn implies_itself(rt: &impl Abort, alloc: Global, h: &Term) -> Term
    ensures { result ≡ two implies_name h.now h.now }
{
    let mut parts = Seq::new(alloc);
    parts
        .push(copy_term(alloc, h).expect(rt, "memory"))
        .expect(rt, "memory");
    parts
        .push(copy_term(alloc, h).expect(rt, "memory"))
        .expect(rt, "memory");
    Term::call(alloc, symbol(rt, alloc, b"IMPLIES"), parts).expect(rt, "memory")
}

/// The ground world with the theorem `rule`, `(implies h h)`.
fn world_with(rt: &impl Abort, alloc: Global, form: &Form) -> World
    ensures { DefinesNot (function_of result.entries) }
{
    let mut world = first_world(rt, alloc);
    let h = term(rt, alloc, &world, form);
    let t = implies_itself(rt, alloc, &h);
    assert!(rt; is_known(&world, &t));
    world.recall_sound();
    let added = world.add_theorem(alloc, symbol(rt, alloc, b"RULE"), t, Seq::new(alloc));
    added.expect(rt, "a new name");
    world
}

/// The facts that these terms are true.
fn facts(rt: &impl Abort, alloc: Global, w: &World, forms: &[Form]) -> Ctx
    ensures { KnownFacts (function_of w.now.entries) result.0 }
{
    let mut out = Seq::new(alloc);
    for form in forms {
        out.push((term(rt, alloc, w, form), true))
            .expect(rt, "memory");
    }
    Ctx::new(alloc, out).expect(rt, "memory")
}

/// Each fact as an equivalence.
fn all_facts(rt: &impl Abort, alloc: Global, w: &World, ctx: &Ctx) -> Seq<Equiv>
    requires facts { KnownFacts (function_of w.now.entries) ctx.now.0 }
    ensures { Each (Stands w.now) result }
{
    let mut out = Seq::new(alloc);
    for i in 0..ctx.facts().len() {
        out.push(by_fact(alloc, w, ctx, i).expect(rt, "memory"))
            .expect(rt, "memory");
    }
    out
}

/// The pair that takes `x` to a form's term.
#[tactic(auto, unfolding(ap_world::specs::Names::x_name))]
fn for_x(rt: &impl Abort, alloc: Global, w: &World, form: &Form) -> Subst
    ensures { KnownPairs (function_of w.now.entries) result.0 }
{
    let mut pairs = Seq::new(alloc);
    pairs
        .push((symbol(rt, alloc, b"X"), term(rt, alloc, w, form)))
        .expect(rt, "memory");
    Subst(pairs)
}

/// The part of `rule` applied under facts which are its hypotheses, relieved; nothing where it can't be.
fn applied(
    rt: &impl Abort,
    alloc: Global,
    w: &World,
    ctx: &Ctx,
    part: u32,
    s: &Subst,
) -> Option<Equiv>
    requires ground { DefinesNot (function_of w.now.entries) }
    requires facts { KnownFacts (function_of w.now.entries) ctx.now.0 }
    requires pairs { KnownPairs (function_of w.now.entries) s.now.0 }
{
    let name = symbol(rt, alloc, b"RULE");
    let hyps = all_facts(rt, alloc, w, ctx);
    let relieved = are_relieved(alloc, w, ctx, &name, part, s, hyps.as_slice());
    if !relieved.expect(rt, "memory") {
        return None;
    }
    let answer = apply_theorem(alloc, w, ctx, &name, part, s, hyps);
    Some(answer.expect(rt, "memory"))
}

/// The part of `rule` for a form as `x`, under the facts that the others are true.
fn in_world(
    rt: &impl Abort,
    alloc: Global,
    w: &World,
    part: u32,
    form: &Form,
    others: &[Form],
) -> Option<Equiv>
    requires ground { DefinesNot (function_of w.now.entries) }
{
    let s = for_x(rt, alloc, w, form);
    let ctx = facts(rt, alloc, w, others);
    applied(rt, alloc, w, &ctx, part, &s)
}

/// A part of the theorem `(implies h h)` for a form as `x`, under the facts that the others are true.
pub(crate) fn by_theorem(rt: &impl Abort, alloc: Global, part: u32, row: &[Form]) -> Option<Equiv> {
    let [h, form, others @ ..] = row else {
        return None;
    };
    let w = world_with(rt, alloc, h);
    in_world(rt, alloc, &w, part, form, others)
}

/// A call opened, where it can be.
pub(crate) fn opened(rt: &impl Abort, alloc: Global, w: &World, form: &Form) -> Option<Equiv> {
    let t = term(rt, alloc, w, form);
    if !can_open(w, &t) {
        return None;
    }
    let ctx = facts(rt, alloc, w, &[]);
    Some(open_def(alloc, w, &ctx, &t).expect(rt, "memory"))
}

/// The value of a term without variables, where running finds it.
fn value_of(alloc: Global, w: &World, t: &Term) -> Option<Value>
    requires term { IsTrue (known (function_of w.now.entries) t.now) }
    ensures meant { IfSome result (λ v. HasValue (function_of w.now.entries) t.now [] (val_of v)) }
    ensures run { IfSome result (λ v. IsTrue (gives_value v (metered (function_of w.now.entries) t.now [] 2000))) }
{
    let env = Env(Seq::new(alloc));
    let Ok(value) = eval(alloc, w, t, &env, 2000) else {
        return None;
    };
    Some(value)
}

/// A call on constants folded to its value, where it has one.
pub(crate) fn folded(rt: &impl Abort, alloc: Global, w: &World, form: &Form) -> Option<Equiv> {
    let t = term(rt, alloc, w, form);
    if !is_constant_call(&t) {
        return None;
    }
    let value = value_of(alloc, w, &t)?;
    let ctx = facts(rt, alloc, w, &[]);
    Some(fold(alloc, w, &ctx, &t, value).expect(rt, "memory"))
}
