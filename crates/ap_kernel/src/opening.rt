ghost use Rattle.std.specs.Prelude.{◌≡◌, [], IsTrue, IfOk, IfSome, is_some, map};
ghost use Rattle.ap_list.specs.Lists.{all_true};
ghost use Rattle.ap_value.specs.Values.{val_of};
ghost use Rattle.ap_term.specs.declared.term.Term.TheVariants.{Quote};
ghost use Rattle.ap_world.specs.Meaning.{HasValue};
ghost use Rattle.ap_world.specs.Facts.{KnownFacts};
ghost use Rattle.ap_world.specs.Units.{metered};
ghost use Rattle.ap_world.specs.Sound.{known};
ghost use Rattle.ap_world.specs.World.{function_of};
ghost use Rattle.ap_kernel.specs.Standing.{Stands};
ghost use Rattle.ap_kernel.specs.Equations.{equation_made};
ghost use Rattle.ap_kernel.specs.Opening.{opened, is_quoted, is_constant_call};
ghost use Rattle.ap_kernel.specs.Rows.{gives_value};
ghost use Rattle.ap_kernel.specs.Deriving.{node};
ghost use Rattle.ap_kernel.specs.declared.derivations.Row.TheVariants.{OpenDef, Fold};

use crate::derivations::{Derivation, Row};
use crate::objects::{Ctx, Equiv, Mode};
use ap_list::{NoMemory, Shared};
use ap_term::{Shape, Term, copy_term, pairs_of, subst};
use ap_value::{Value, copy};
use ap_world::World;
use std::alloc::Global;

/// Whether a term is a constant.
#[tactic(auto, using(ap_term::proofs::Seen::trees))]
fn is_quoted(t: &Term) -> bool
    ensures { result ≡ is_quoted t.now }
{
    match &t.shape {
        Shape::Quote(_) => true,
        Shape::Var(_) => false,
        Shape::Call(_, _) => false,
    }
}

/// Whether each term is a constant.
fn are_quoted(ts: &[Term]) -> bool
    ensures { result ≡ all_true (map is_quoted ts.now) }
{
    for t in ts {
        if !is_quoted(t) {
            return false;
        }
    }
    true
}

/// Whether a term is a call whose arguments are constants. Takes no memory.
#[tactic(auto, using(ap_term::proofs::Seen::trees))]
pub fn is_constant_call(t: &Term) -> bool
    ensures { result ≡ is_constant_call t.now }
{
    match &t.shape {
        Shape::Call(_, ts) => are_quoted(ts.as_slice()),
        Shape::Var(_) => false,
        Shape::Quote(_) => false,
    }
}

/// Whether a term is a call of a function that the world defines. Takes no memory.
#[tactic(auto, using(ap_term::proofs::Seen::trees))]
pub fn can_open(w: &World, t: &Term) -> bool
    ensures { result ≡ is_some (opened (function_of w.now.entries) t.now) }
{
    match &t.shape {
        Shape::Call(f, _) => w.lookup_fun(f).is_some(),
        Shape::Var(_) => false,
        Shape::Quote(_) => false,
    }
}

/// The body's instance, of a call of a function that the world defines.
#[tactic(auto, using(ap_term::proofs::Seen::trees))]
fn opened(alloc: Global, w: &World, t: &Term) -> Result<Option<Term>, NoMemory>
    ensures { IfOk result (λ o. o ≡ opened (function_of w.now.entries) t.now) }
{
    let Shape::Call(f, ts) = &t.shape else {
        return Ok(None);
    };
    let Some(function) = w.lookup_fun(f) else {
        return Ok(None);
    };
    let pairs = pairs_of(alloc, function.formals.as_slice(), ts.as_slice())?;
    Ok(Some(subst(alloc, &function.body, &pairs)?))
}

/// How a call of a defined function is opened.
fn open_why(alloc: Global, ctx: &Ctx, call: &Term) -> Result<Shared<Derivation>, NoMemory>
    ensures { IfOk result (λ d. d ≡ node (OpenDef ctx.now call.now) []) }
{
    let ctx = ctx.share()?;
    let call = copy_term(alloc, call)?;
    let answer = Derivation::leaf(alloc, Row::OpenDef(ctx, call))?;
    Ok(answer)
}

/// From a call of a defined function, under equality, to its body with the arguments for the formals. It
/// copies the names of the formals; all else that isn't changed is shared. See the manual's topic
/// `definition`.
pub fn open_def(alloc: Global, w: &World, ctx: &Ctx, call: &Term) -> Result<Equiv, NoMemory>
    requires facts { KnownFacts (function_of w.now.entries) ctx.now.0 }
    requires term { IsTrue (known (function_of w.now.entries) call.now) }
    requires defined { IsTrue (is_some (opened (function_of w.now.entries) call.now)) }
    ensures stands { IfOk result (λ q. Stands w.now q) }
    ensures made { IfOk result (λ q. IfSome (opened (function_of w.now.entries) call.now) (λ u. q.says ≡ equation_made ctx.now call.now u)) }
{
    w.recall_sound();
    w.recall_distinct_names();
    let Some(rhs) = opened(alloc, w, call)? else {
        unreachable!()
    };
    let why = open_why(alloc, ctx, call)?;
    let answer = Equiv::from_copy(alloc, ctx, Mode::Equal, call, rhs, why)?;
    Ok(answer)
}

/// How a call on constants is led to its value.
fn fold_why(
    alloc: Global,
    ctx: &Ctx,
    call: &Term,
    value: &Value,
) -> Result<Shared<Derivation>, NoMemory>
    ensures { IfOk result (λ d. d ≡ node (Fold ctx.now call.now value.now) []) }
{
    let ctx = ctx.share()?;
    let value = copy(alloc, value)?;
    let call = copy_term(alloc, call)?;
    let answer = Derivation::leaf(alloc, Row::Fold(ctx, call, value))?;
    Ok(answer)
}

/// From a call on constants, under equality, to its value as a constant. That the value is the call's, and that
/// running it with 2,000 units gives it, is proved by the caller, as who runs it knows. See the manual's topic `executable-counterpart`.
pub fn fold(
    alloc: Global,
    w: &World,
    ctx: &Ctx,
    call: &Term,
    value: Value,
) -> Result<Equiv, NoMemory>
    requires facts { KnownFacts (function_of w.now.entries) ctx.now.0 }
    requires term { IsTrue (known (function_of w.now.entries) call.now) }
    requires constants { IsTrue (is_constant_call call.now) }
    requires value { HasValue (function_of w.now.entries) call.now [] (val_of value) }
    requires run { IsTrue (gives_value value (metered (function_of w.now.entries) call.now [] 2000)) }
    ensures stands { IfOk result (λ q. Stands w.now q) }
    ensures made { IfOk result (λ q. q.says ≡ equation_made ctx.now call.now (Quote value)) }
{
    w.recall_sound();
    let why = fold_why(alloc, ctx, call, &value)?;
    let answer = Equiv::from_copy(alloc, ctx, Mode::Equal, call, Term::quote(value), why)?;
    Ok(answer)
}
