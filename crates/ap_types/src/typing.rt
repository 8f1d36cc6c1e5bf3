ghost use Rattle.std.specs.Prelude.{◌≡◌, true, false, [], ◌∷◌, map, IfOk, OnOk};
ghost use Rattle.std.specs.Option.{option_map};
ghost use Rattle.ap_world.specs.Primitives.{prim_of};
ghost use Rattle.ap_world.specs.Assume.{assume};
ghost use Rattle.ap_world.specs.Kinds.{if_so};
ghost use Rattle.ap_world.specs.Narrowing.{cut};
ghost use Rattle.ap_world.specs.Typing.{if_parts, call_types, head_types, types_by, chosen_types};
ghost use Rattle.ap_types.specs.Scopes.{in_scope};
ghost use Rattle.ap_types.specs.Settings.{types_in};

use crate::calls::{Setting, call_types};
use crate::constants::kind_of;
use crate::kinds::{bit, meets, without};
use crate::scopes::{Scopes, cut_by_each};
use ap_list::{NoMemory, Seq};
use ap_term::{Shape, Term};
use ap_value::Symbol;
use ap_world::{Primitive, masks, primitive_of};

/// The types of a term under the setting's facts and those of the contexts. On the way contexts are added and taken
/// away again.
#[cycle(typing)]
pub(crate) fn types_at(s: &Setting<'_, '_>, scopes: &mut Scopes, t: &Term) -> Result<u16, NoMemory>
    ensures is { IfOk result (λ m. m ≡ types_by (types_in s.now.w.now s.now.own) t.now (in_scope s.now.base scopes.old)) }
    ensures scopes { OnOk result (scopes.new ≡ scopes.old) }
{
    let mask = form_types(s, scopes, t)?;
    Ok(cut_by_each(&s.base, scopes, t, mask))
}

/// The types of a term by its form; the facts on the term itself cut them.
#[cycle(typing)]
#[tactic(auto, using(ap_term::proofs::Seen::trees))]
fn form_types(s: &Setting<'_, '_>, scopes: &mut Scopes, t: &Term) -> Result<u16, NoMemory>
    ensures is { IfOk result (λ m. cut (in_scope s.now.base scopes.old) t.now m ≡ types_by (types_in s.now.w.now s.now.own) t.now (in_scope s.now.base scopes.old)) }
    ensures scopes { OnOk result (scopes.new ≡ scopes.old) }
{
    match &t.shape {
        Shape::Var(_) => Ok(masks::ALL),
        Shape::Quote(v) => Ok(bit(kind_of(v))),
        Shape::Call(f, ts) => head_types(s, scopes, f, ts.as_slice()),
    }
}

/// The parts of an `if`.
fn if_parts(p: Option<Primitive>, ts: &[Term]) -> Option<(&Term, &Term, &Term)>
    ensures { option_map (λ q. (q.0.now, q.1.now, q.2.now)) result ≡ if_parts p ts.now }
{
    match (p, ts) {
        (Some(Primitive::If), [a, b, c]) => Some((a, b, c)),
        _ => None,
    }
}

/// The types of a call.
#[cycle(typing)]
fn head_types(
    s: &Setting<'_, '_>,
    scopes: &mut Scopes,
    f: &Symbol,
    ts: &[Term],
) -> Result<u16, NoMemory>
    ensures is { IfOk result (λ m. m ≡ head_types (types_in s.now.w.now s.now.own) f.now (prim_of f.now) (map (λ u. (u, types_by (types_in s.now.w.now s.now.own) u)) ts.now) (in_scope s.now.base scopes.old)) }
    ensures scopes { OnOk result (scopes.new ≡ scopes.old) }
{
    let p = primitive_of(f);
    match ts {
        [a] => call_of_one(s, scopes, f, p, ts, a),
        [a, b] => call_of_two(s, scopes, f, p, ts, a, b),
        _ => other_call(s, scopes, f, p, ts),
    }
}

/// The types of a call by the mask of its one argument.
#[cycle(typing)]
fn call_of_one(
    s: &Setting<'_, '_>,
    scopes: &mut Scopes,
    f: &Symbol,
    p: Option<Primitive>,
    ts: &[Term],
    a: &Term,
) -> Result<u16, NoMemory>
    ensures is { IfOk result (λ m. m ≡ call_types (types_in s.now.w.now s.now.own) f.now p ts.now (types_by (types_in s.now.w.now s.now.own) a.now (in_scope s.now.base scopes.old) ∷ [])) }
    ensures scopes { OnOk result (scopes.new ≡ scopes.old) }
{
    let mask = types_at(s, scopes, a)?;
    Ok(call_types(s, f, p, ts, &[mask]))
}

/// The types of a call by the masks of its two arguments.
#[cycle(typing)]
fn call_of_two(
    s: &Setting<'_, '_>,
    scopes: &mut Scopes,
    f: &Symbol,
    p: Option<Primitive>,
    ts: &[Term],
    a: &Term,
    b: &Term,
) -> Result<u16, NoMemory>
    ensures is { IfOk result (λ m. m ≡ call_types (types_in s.now.w.now s.now.own) f.now p ts.now (types_by (types_in s.now.w.now s.now.own) a.now (in_scope s.now.base scopes.old) ∷ types_by (types_in s.now.w.now s.now.own) b.now (in_scope s.now.base scopes.old) ∷ [])) }
    ensures scopes { OnOk result (scopes.new ≡ scopes.old) }
{
    let first = types_at(s, scopes, a)?;
    let second = types_at(s, scopes, b)?;
    Ok(call_types(s, f, p, ts, &[first, second]))
}

/// The types of another call: an `if`, or one whose masks are listed.
#[cycle(typing)]
fn other_call(
    s: &Setting<'_, '_>,
    scopes: &mut Scopes,
    f: &Symbol,
    p: Option<Primitive>,
    ts: &[Term],
) -> Result<u16, NoMemory>
    ensures is { IfOk result (λ m. m ≡ head_types (types_in s.now.w.now s.now.own) f.now p (map (λ u. (u, types_by (types_in s.now.w.now s.now.own) u)) ts.now) (in_scope s.now.base scopes.old)) }
    ensures scopes { OnOk result (scopes.new ≡ scopes.old) }
{
    match if_parts(p, ts) {
        Some((a, b, c)) => if_types(s, scopes, a, b, c),
        None => {
            let masks = masks_of(s, scopes, ts)?;
            Ok(call_types(s, f, p, ts, masks.as_slice()))
        }
    }
}

/// The types of an `if`: a branch that its test never chooses isn't looked at.
#[cycle(typing)]
fn if_types(
    s: &Setting<'_, '_>,
    scopes: &mut Scopes,
    a: &Term,
    b: &Term,
    c: &Term,
) -> Result<u16, NoMemory>
    ensures is { IfOk result (λ m. m ≡ chosen_types (types_by (types_in s.now.w.now s.now.own) a.now (in_scope s.now.base scopes.old)) (types_by (types_in s.now.w.now s.now.own) b.now (assume (in_scope s.now.base scopes.old) a.now true)) (types_by (types_in s.now.w.now s.now.own) c.now (assume (in_scope s.now.base scopes.old) a.now false))) }
    ensures scopes { OnOk result (scopes.new ≡ scopes.old) }
{
    let test = types_at(s, scopes, a)?;
    let yes = types_under(s, scopes, meets(test, without(masks::NIL)), a, true, b)?;
    let no = types_under(s, scopes, meets(test, masks::NIL), a, false, c)?;
    Ok(yes | no)
}

/// The types of a branch under its test, none where the test never chooses it. While the branch is looked
/// at, the test's facts stand behind the others.
#[cycle(typing)]
fn types_under(
    s: &Setting<'_, '_>,
    scopes: &mut Scopes,
    chosen: bool,
    test: &Term,
    sign: bool,
    t: &Term,
) -> Result<u16, NoMemory>
    ensures is { IfOk result (λ m. m ≡ if_so chosen (types_by (types_in s.now.w.now s.now.own) t.now (assume (in_scope s.now.base scopes.old) test.now sign))) }
    ensures scopes { OnOk result (scopes.new ≡ scopes.old) }
{
    if !chosen {
        return Ok(0);
    }
    let kept = scopes.len();
    scopes.enter(s.alloc, test, sign)?;
    let mask = types_at(s, scopes, t)?;
    scopes.leave(kept);
    Ok(mask)
}

/// The masks of a call's arguments.
#[cycle(typing)]
fn masks_of(s: &Setting<'_, '_>, scopes: &mut Scopes, ts: &[Term]) -> Result<Seq<u16>, NoMemory>
    ensures is { IfOk result (λ ms. ms ≡ map (λ u. types_by (types_in s.now.w.now s.now.own) u (in_scope s.now.base scopes.old)) ts.now) }
    ensures scopes { OnOk result (scopes.new ≡ scopes.old) }
{
    let mut masks = Seq::new(s.alloc);
    for t in ts {
        masks.push(types_at(s, scopes, t)?)?;
    }
    Ok(masks)
}
