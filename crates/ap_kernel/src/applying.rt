ghost use Rattle.std.specs.Prelude.{◌≡◌, IfOk, IfSome, is_some, map};
ghost use Rattle.std.specs.Option.{option_copied};
ghost use Rattle.ap_list.specs.Lists.{Each};
ghost use Rattle.ap_world.specs.Holding.{KnownPairs, part_of};
ghost use Rattle.ap_world.specs.World.{function_of, theorem_of};
ghost use Rattle.ap_world.specs.Facts.{KnownFacts};
ghost use Rattle.ap_kernel.specs.Standing.{DefinesNot, Stands};
ghost use Rattle.ap_kernel.specs.Deriving.{listed, why_of};
ghost use Rattle.ap_kernel.specs.declared.derivations.Row.TheVariants.{ApplyTheorem};
ghost use Rattle.ap_kernel.specs.Applying.{conjunct_at, applied_made, PartRelieved};

use crate::derivations::{Derivation, Row, copy_subst, whys_of};
use crate::objects::{Ctx, Equiv};
use crate::parts::{conclusion_part, instances};
use ap_list::{NoMemory, Seq, Shared};
use ap_term::{Subst, Term};
use ap_value::{Symbol, copy_symbol};
use ap_world::World;
use std::alloc::Global;

/// The conjunct that a part of a theorem is read from, where the world has a theorem of the name with so many.
fn conjunct_of<'a>(w: &'a World, name: &Symbol, part: u32) -> Option<&'a Term>
    ensures { option_copied result ≡ conjunct_at part (theorem_of w.now.entries name.now) }
{
    match w.lookup_thm(name) {
        Some(theorem) => conclusion_part(&theorem.term, part),
        None => None,
    }
}

/// Whether the world has a theorem of this name that has this part. Takes no memory.
pub fn has_part(w: &World, name: &Symbol, part: u32) -> bool
    ensures { result ≡ is_some (part_of w.now.entries name.now part) }
{
    conjunct_of(w, name, part).is_some()
}

/// How a theorem's part is applied.
fn apply_why(
    alloc: Global,
    ctx: &Ctx,
    name: &Symbol,
    part: u32,
    s: &Subst,
    hyps: &[Equiv],
) -> Result<Shared<Derivation>, NoMemory>
    ensures { IfOk result (λ d. d ≡ listed (ApplyTheorem ctx.now name.now part s.now) (map why_of hyps.now)) }
{
    let from = whys_of(alloc, hyps)?;
    let ctx = ctx.share()?;
    let name = copy_symbol(alloc, name)?;
    let s = copy_subst(alloc, s)?;
    let answer = Derivation::of_list(alloc, Row::ApplyTheorem(ctx, name, part, s), from)?;
    Ok(answer)
}

/// From the instance of the left side of a theorem's part to that of its right side, where the instance of
/// each hypothesis leads under these facts to `'T`: `hyps` has one equivalence for each, in their order.
pub fn apply_theorem(
    alloc: Global,
    w: &World,
    ctx: &Ctx,
    name: &Symbol,
    part: u32,
    s: &Subst,
    hyps: Seq<Equiv>,
) -> Result<Equiv, NoMemory>
    requires ground { DefinesNot (function_of w.now.entries) }
    requires facts { KnownFacts (function_of w.now.entries) ctx.now.0 }
    requires pairs { KnownPairs (function_of w.now.entries) s.now.0 }
    requires hyps { Each (Stands w.now) hyps }
    requires relieved { PartRelieved ctx.now s.now.0 (part_of w.now.entries name.now part) hyps }
    ensures stands { IfOk result (λ q. Stands w.now q) }
    ensures made { IfOk result (λ q. IfSome (part_of w.now.entries name.now part) (λ g. q.says ≡ applied_made ctx.now s.now.0 g)) }
{
    w.recall_sound();
    let Some(conjunct) = conjunct_of(w, name, part) else {
        unreachable!()
    };
    let why = apply_why(alloc, ctx, name, part, s, hyps.as_slice())?;
    let ctx = ctx.share()?;
    let (mode, lhs, rhs) = instances(alloc, conjunct, s)?;
    Ok(Equiv::made(ctx, mode, lhs, rhs, Some(why)))
}
