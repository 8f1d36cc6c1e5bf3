ghost use Rattle.std.specs.Prelude.{◌≡◌, IsTrue, IfOk, false};
ghost use Rattle.ap_value.specs.Values.{V};
ghost use Rattle.ap_world.specs.Meaning.{Env, HasValue};
ghost use Rattle.ap_world.specs.Types.{Has};
ghost use Rattle.ap_world.specs.Sound.{known};
ghost use Rattle.ap_world.specs.World.{function_of, has_name};
ghost use Rattle.ap_world.specs.KeptTypes.{body_types, settled, kept_types};
ghost use Rattle.ap_kernel.specs.Standing.{DefinesNot};

use crate::base::Base;
use crate::calls::{Own, Setting};
use crate::scopes::Scopes;
use crate::typing::types_at;
use ap_list::NoMemory;
use ap_term::Term;
use ap_value::Symbol;
use ap_world::{Mask, World, masks};
use std::alloc::Global;

/// What a body gives back where the calls of its function have this mask.
fn body_types(
    alloc: Global,
    w: &World,
    name: &Symbol,
    body: &Term,
    mask: u16,
) -> Result<u16, NoMemory>
    ensures { IfOk result (λ m. m ≡ body_types w.now name.now body.now mask) }
{
    let mut nothing = Scopes::new(alloc);
    let setting = Setting {
        alloc,
        w,
        base: Base::plain(&[]),
        own: Some(Own { name, mask }),
    };
    types_at(&setting, &mut nothing, body)
}

/// The first mask that is given back as it was, in so many rounds.
fn settled(
    alloc: Global,
    w: &World,
    name: &Symbol,
    body: &Term,
    rounds: u32,
    mask: u16,
) -> Result<u16, NoMemory>
    ensures { IfOk result (λ m. m ≡ settled (body_types w.now name.now body.now) rounds mask) }
{
    if rounds == 0 {
        return Ok(masks::ALL);
    }
    let next = body_types(alloc, w, name, body, mask)?;
    if next == mask {
        return Ok(mask);
    }
    settled(alloc, w, name, body, rounds - 1, next)
}

/// The mask that a function of this name and body keeps when it is added to the world: the one that
/// the body's mask gives back, reached by rounds from the empty mask, with formals of any type; all types where eleven
/// rounds reach none. A call of the function
/// in its own body has the mask of the round. Where the name is free and the body has no call of it, the
/// mask has the type of the body's value under every assignment; for a function that calls itself the law
/// is [`crate::laws::kept_masks_hold`].
pub fn kept_mask(alloc: Global, w: &World, name: &Symbol, body: &Term) -> Result<Mask, NoMemory>
    ensures made { IfOk result (λ m. m ≡ record { 0 = kept_types w.now name.now body.now }) }
    ensures holds { IfOk result (λ m. DefinesNot (function_of w.now.entries) → has_name w.now.entries name.now ≡ false → IsTrue (known (function_of w.now.entries) body.now) → (e : Env) (v : V) → HasValue (function_of w.now.entries) body.now e v → Has m v) }
{
    w.recall_sound();
    Ok(Mask(settled(alloc, w, name, body, 11, 0)?))
}
