ghost use Rattle.std.specs.Prelude.{◌≡◌, ◌<◌, [], IfOk, IfSome, length, slice_get, Some, false};
ghost use Rattle.ap_world.specs.World.{function_of};
ghost use Rattle.ap_world.specs.Facts.{KnownFacts};
ghost use Rattle.ap_kernel.specs.Standing.{Stands};
ghost use Rattle.ap_kernel.specs.Answers.{fact_made};
ghost use Rattle.ap_kernel.specs.Deriving.{node};
ghost use Rattle.ap_kernel.specs.declared.derivations.Row.TheVariants.{ByFact};

use crate::derivations::{Derivation, Row};
use crate::objects::{Ctx, Equiv, Mode};
use ap_list::{NoMemory, Shared};
use ap_term::Term;
use ap_world::{World, nil_term, t_term};
use std::alloc::Global;

/// The fact at a place, lent.
fn fact_at(facts: &[(Term, bool)], index: usize) -> &(Term, bool)
    requires { index < length facts.now }
    ensures { slice_get facts.now index ≡ Some result.now }
{
    &facts[index]
}

/// How a fact is made an equivalence.
fn fact_why(alloc: Global, ctx: &Ctx, index: usize) -> Result<Shared<Derivation>, NoMemory>
    ensures { IfOk result (λ d. d ≡ node (ByFact ctx.now index) []) }
{
    let ctx = ctx.share()?;
    let answer = Derivation::leaf(alloc, Row::ByFact(ctx, index))?;
    Ok(answer)
}

/// A fact as an equivalence.
fn fact_equiv(
    alloc: Global,
    ctx: &Ctx,
    t: &Term,
    sign: bool,
    why: Shared<Derivation>,
) -> Result<Equiv, NoMemory>
    ensures says { IfOk result (λ q. q.says ≡ fact_made ctx.now t.now sign) }
    ensures why { IfOk result (λ q. q.why ≡ Some why) }
{
    if sign {
        return Equiv::from_copy(alloc, ctx, Mode::Iff, t, t_term(), why);
    }
    Equiv::from_copy(alloc, ctx, Mode::Equal, t, nil_term(), why)
}

/// The fact at this place: a true fact's term leads under `iff` to `'T`, a false fact's under equality to
/// `'NIL`. It copies the fact's term, since an equivalence owns its sides.
pub fn by_fact(alloc: Global, w: &World, ctx: &Ctx, index: usize) -> Result<Equiv, NoMemory>
    requires facts { KnownFacts (function_of w.now.entries) ctx.now.0 }
    requires place { index < length ctx.now.0 }
    ensures stands { IfOk result (λ q. Stands w.now q) }
    ensures made { IfOk result (λ q. IfSome (slice_get ctx.now.0 index) (λ f. q.says ≡ fact_made ctx.now f.0 f.1)) }
{
    w.recall_sound();
    let fact = fact_at(ctx.facts(), index);
    let why = fact_why(alloc, ctx, index)?;
    let answer = fact_equiv(alloc, ctx, &fact.0, fact.1, why)?;
    Ok(answer)
}
