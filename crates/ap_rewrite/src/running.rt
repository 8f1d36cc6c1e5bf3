// Calls of constants, which are run.
ghost use Rattle.std.specs.Prelude.{◌≡◌, ◌&&◌, IsTrue, IfOk, IfSome, List, []};
ghost use Rattle.std.specs.Option.{option_map};
ghost use Rattle.ap_value.specs.declared.symbol.Symbol.{Symbol};
ghost use Rattle.ap_value.specs.Values.{val_of};
ghost use Rattle.ap_term.specs.declared.term.Term.{Term, Call};
ghost use Rattle.ap_world.specs.declared.theory.Rune.TheVariants as rune;
ghost use Rattle.ap_world.specs.Meaning.{HasValue};
ghost use Rattle.ap_world.specs.Sound.{known};
ghost use Rattle.ap_world.specs.Theories.{is_enabled};
ghost use Rattle.ap_world.specs.Units.{metered};
ghost use Rattle.ap_world.specs.World.{function_of};
ghost use Rattle.ap_world.specs.Facts.{KnownFacts};
ghost use Rattle.ap_kernel.specs.Opening.{is_constant_call};
ghost use Rattle.ap_kernel.specs.Rows.{gives_value};
ghost use Rattle.ap_kernel.specs.Standing.{DefinesNot, Stands};
ghost use Rattle.ap_rewrite.specs.InWorld.{value_in, most_units};
ghost use Rattle.ap_rewrite.specs.Leading.{leads_made, said_of, plain_in, run_by};
ghost use Rattle.ap_rewrite.specs.Rewriting.{constant_in, run};

use crate::settling::{becomes_true, to_true, value_equiv};
use ap_eval::{Env, EvalStop, eval};
use ap_kernel::{Ctx, Equiv, Mode, NoMemory, Seq, Symbol, Term, Value, World, is_constant_call};
use ap_term::Shape;
use ap_world::{RuneKind, Theory};
use std::alloc::{AllocError, Global};

/// The value that running gives a term without variables, with 2,000 units.
fn value_of(alloc: Global, w: &World, t: &Term) -> Result<Option<Value>, NoMemory>
    requires { IsTrue (known (function_of w.now.entries) t.now) }
    ensures is { IfOk result (λ o. o ≡ value_in (metered (function_of w.now.entries) t.now [] most_units)) }
    ensures run { IfOk result (λ o. IfSome o (λ v. IsTrue (gives_value v (metered (function_of w.now.entries) t.now [] 2000)))) }
    ensures meant { IfOk result (λ o. IfSome o (λ v. HasValue (function_of w.now.entries) t.now [] (val_of v))) }
{
    let env = Env(Seq::new(alloc));
    match eval(alloc, w, t, &env, 2000) {
        Ok(value) => Ok(Some(value)),
        Err(EvalStop::Wide { call: _, values: _ }) => Ok(None),
        Err(EvalStop::Spent) => Ok(None),
        Err(EvalStop::Large) => Ok(None),
        Err(EvalStop::NoMemory) => Err(AllocError),
    }
}

/// From a call of constants to its value, under a mode.
fn folded(
    alloc: Global,
    w: &World,
    ctx: &Ctx,
    mode: Mode,
    t: &Term,
    value: Value,
) -> Result<Equiv, NoMemory>
    requires ground { DefinesNot (function_of w.now.entries) }
    requires facts { KnownFacts (function_of w.now.entries) ctx.now.0 }
    requires term { IsTrue (known (function_of w.now.entries) t.now) }
    requires constants { IsTrue (is_constant_call t.now) }
    requires value { HasValue (function_of w.now.entries) t.now [] (val_of value) }
    requires run { IsTrue (gives_value value (metered (function_of w.now.entries) t.now [] 2000)) }
    ensures stands { IfOk result (λ q. Stands w.now q) }
    ensures made { IfOk result (λ q. q.says ≡ leads_made ctx.now mode t.now (constant_in mode value)) }
{
    let becomes = becomes_true(mode, &value);
    let q = value_equiv(alloc, w, ctx, mode, t, value)?;
    if becomes {
        let truth = to_true(alloc, w, q)?;
        return Ok(truth);
    }
    Ok(q)
}

/// From a call of constants to the value that running gives, where it gives one.
fn run_constants(
    alloc: Global,
    w: &World,
    ctx: &Ctx,
    mode: Mode,
    t: &Term,
) -> Result<Option<Equiv>, NoMemory>
    requires ground { DefinesNot (function_of w.now.entries) }
    requires facts { KnownFacts (function_of w.now.entries) ctx.now.0 }
    requires term { IsTrue (known (function_of w.now.entries) t.now) }
    requires constants { IsTrue (is_constant_call t.now) }
    ensures stands { IfOk result (λ o. IfSome o (λ q. Stands w.now q)) }
    ensures made { IfOk result (λ o. said_of o ≡ option_map (leads_made ctx.now mode t.now) (option_map (constant_in mode) (value_in (metered (function_of w.now.entries) t.now [] most_units)))) }
{
    match value_of(alloc, w, t)? {
        Some(value) => {
            let q = folded(alloc, w, ctx, mode, t, value)?;
            Ok(Some(q))
        }
        None => Ok(None),
    }
}

/// Whether a call is one of constants whose executable counterpart the theory enables.
fn can_run(theory: &Theory, f: &Symbol, t: &Term) -> bool
    ensures { result ≡ (is_constant_call t.now && is_enabled theory.now (rune.Executable f.now)) }
{
    is_constant_call(t) && theory.is_enabled(RuneKind::Executable, f)
}

/// From a call of this head, where it is one of constants whose executable counterpart the theory enables.
fn run_call(
    alloc: Global,
    w: &World,
    theory: &Theory,
    ctx: &Ctx,
    mode: Mode,
    t: &Term,
    f: &Symbol,
) -> Result<Option<Equiv>, NoMemory>
    requires ground { DefinesNot (function_of w.now.entries) }
    requires facts { KnownFacts (function_of w.now.entries) ctx.now.0 }
    requires term { IsTrue (known (function_of w.now.entries) t.now) }
    ensures stands { IfOk result (λ o. IfSome o (λ q. Stands w.now q)) }
    ensures made { IfOk result (λ o. said_of o ≡ option_map (leads_made ctx.now mode t.now) (run_by w.now theory.now mode f.now t.now)) }
{
    let may = can_run(theory, f, t);
    if may {
        let o = run_constants(alloc, w, ctx, mode, t)?;
        return Ok(o);
    }
    Ok(None)
}

/// From a call of constants whose executable counterpart the theory enables to the value that running gives with
/// 2,000 units, where it gives one; under `iff` one that isn't `nil` is `'T`. See the manual's topic
/// `executable-counterpart`.
#[tactic(auto, using(ap_term::proofs::Seen::trees))]
pub fn run(
    alloc: Global,
    w: &World,
    theory: &Theory,
    ctx: &Ctx,
    mode: Mode,
    t: &Term,
) -> Result<Option<Equiv>, NoMemory>
    requires ground { DefinesNot (function_of w.now.entries) }
    requires facts { KnownFacts (function_of w.now.entries) ctx.now.0 }
    requires term { IsTrue (known (function_of w.now.entries) t.now) }
    ensures stands { IfOk result (λ o. IfSome o (λ q. Stands w.now q)) }
    ensures made { IfOk result (λ o. (f : Symbol) (us : List Term) → t.now ≡ Call f us → said_of o ≡ option_map (leads_made ctx.now mode t.now) (run (plain_in w.now theory.now) mode f us)) }
{
    match &t.shape {
        Shape::Call(f, _) => {
            let o = run_call(alloc, w, theory, ctx, mode, t, f)?;
            Ok(o)
        }
        Shape::Var(_) => Ok(None),
        Shape::Quote(_) => Ok(None),
    }
}
