ghost use Rattle.std.specs.Prelude.{◌≡◌, ◌∷◌, ◌++◌, [], None, Some, false, IfOk};
ghost use Rattle.ap_world.specs.declared.entry.Entry.TheVariants as entry;
ghost use Rattle.ap_world.specs.Recursion.{has_no_call};
ghost use Rattle.ap_world.specs.Sound.{HasFunctions, Sound};
ghost use Rattle.ap_world.specs.World.{added, function_of, has_name};
ghost use Rattle.ap_admit.specs.Condition.{function_by, admitted, IsAdmissible, IsPaid};

use ap_kernel::Clause;
use ap_list::{NoMemory, Seq};
use ap_terminate::has_no_call;
use ap_types::kept_mask;
use ap_world::{AddError, Defun, Function, Mask, Measure, World};
use std::alloc::{AllocError, Global};

/// The function of a definition that doesn't call itself: it keeps no measure and no cases.
fn plain(alloc: Global, d: Defun, mask: Mask) -> Function
    ensures { result ≡ record { name = d.name; formals = d.formals; body = d.body; measure = None; cases = []; mask = mask } }
{
    Function {
        name: d.name,
        formals: d.formals,
        body: d.body,
        measure: None,
        cases: Seq::new(alloc),
        mask,
    }
}

/// The function of a definition that calls itself.
fn recursive(d: Defun, m: Measure, mask: Mask) -> Function
    ensures { result ≡ record { name = d.name; formals = d.formals; body = d.body; measure = Some m; cases = d.cases; mask = mask } }
{
    Function {
        name: d.name,
        formals: d.formals,
        body: d.body,
        measure: Some(m),
        cases: d.cases,
        mask,
    }
}

/// The function of a definition.
fn function(alloc: Global, d: Defun, m: Measure, mask: Mask) -> Function
    ensures { result ≡ function_by (has_no_call d.name d.body) d m mask }
{
    if has_no_call(&d.name, &d.body) {
        plain(alloc, d, mask)
    } else {
        recursive(d, m, mask)
    }
}

/// Adds a function whose name is free, and with which the world is sound.
fn add(alloc: Global, w: World, function: Function) -> Result<World, NoMemory>
    requires free { has_name w.entries function.name ≡ false }
    requires sound { Sound (w.entries ++ entry.Function function ∷ []) }
    ensures made { IfOk result (λ r. r ≡ added w (entry.Function function)) }
{
    let mut world = w;
    match world.add_function(alloc, function) {
        Ok(()) => Ok(world),
        Err(AddError::NoMemory) => Err(AllocError),
        Err(AddError::NameTaken) => unreachable!(),
    }
}

/// The world with the function of a definition at its end. The definition may call itself: then the measure
/// is its given or chosen one ([`ap_terminate::measure_for`]), its cases are those of its body, and the
/// clauses are its obligations ([`ap_terminate::obligations`]), which are valid in the world as it is; the
/// measure and the clauses of one that doesn't are passed over. Its name is free, its formals are distinct and
/// hold the variables of body and given measure, and each call in these is of a primitive or a function of the
/// world, or in the body of the function itself, with its number of arguments. The function's mask is the one
/// that its body gives back. The only error is want of memory. See the manual's topic `defun`.
pub fn admit(
    alloc: Global,
    w: &World,
    d: Defun,
    m: Measure,
    obligations: &Seq<Clause>,
) -> Result<World, NoMemory>
    requires functions { HasFunctions (function_of w.now.entries) }
    requires admissible { IsAdmissible w.now d m }
    requires paid { has_no_call d.name d.body ≡ false → IsPaid w.now d m obligations.now }
    ensures made { IfOk result (λ r. r ≡ added w.now (entry.Function (admitted w.now d m))) }
    ensures sound { IfOk result (λ r. Sound r.entries) }
{
    w.recall_sound();
    let _ = obligations;
    let mask = kept_mask(alloc, w, &d.name, &d.body)?;
    let world = w.copy_world(alloc)?;
    let world = add(alloc, world, function(alloc, d, m, mask))?;
    world.recall_sound();
    Ok(world)
}
