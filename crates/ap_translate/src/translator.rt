ghost use Rattle.std.specs.Prelude.{◌≡◌, ◌≤◌, IfOk, IfSome, IsTrue, option_map};
ghost use Rattle.ap_term.specs.Terms.{term_size};
ghost use Rattle.ap_world.specs.World.{function_of};
ghost use Rattle.ap_world.specs.Sound.{known, speaks_of};
ghost use Rattle.ap_translate.specs.Answers.{Gives};
ghost use Rattle.ap_translate.specs.Table.{translated};
ghost use Rattle.ap_translate.specs.Laws.{HasMacroFunctions};

use crate::fault::{TransError, TransKind, refused_at};
use crate::scope::Bound;
use crate::table::term;
use ap_list::{NoMemory, Seq};
use ap_reader::Form;
use ap_term::{Term, copy_symbols};
use ap_value::Symbol;
use ap_world::World;
use std::alloc::Global;

/// How many lists and marks may be nested within each other in a form: as many as a text may have.
pub(crate) const MOST_NESTED: usize = 400;

fn bound_by(alloc: Global, bound: Option<&Seq<Symbol>>) -> Result<Bound, NoMemory>
    ensures { IfOk result (λ b. b.names ≡ option_map (λ xs. xs.now) bound.entry) }
{
    match bound {
        None => Ok(Bound { names: None }),
        Some(names) => Ok(Bound {
            names: Some(copy_symbols(alloc, names.as_slice())?),
        }),
    }
}

/// The same, of the bound variables as the table has them.
fn translate_in(alloc: Global, w: &World, f: &Form, bound: &Bound) -> Result<Term, TransError>
    ensures { Gives result (translated w.now.entries bound.now.names f.now) }
{
    match term(alloc, w, MOST_NESTED, bound, f)? {
        Some(term) => Ok(term),
        None => Err(refused_at(f.place, TransKind::TermTooLarge)),
    }
}

/// The term that a form is in a world, where these variables are bound, or with `None` each variable may
/// stand. Else the first form in preorder that is none, with its place and why; `TermTooLarge` comes last,
/// with the place of the whole form. `NoMemory` where memory is wanting.
pub fn translate(
    alloc: Global,
    w: &World,
    f: &Form,
    bound: Option<&Seq<Symbol>>,
) -> Result<Term, TransError>
    ensures made { Gives result (translated w.now.entries (option_map (λ xs. xs.now) bound.entry) f.now) }
    ensures known { HasMacroFunctions (function_of w.now.entries) → IfOk result (λ u. IsTrue (known (function_of w.now.entries) u)) }
    ensures speaks { IfOk result (λ u. IfSome bound.entry (λ xs. IsTrue (speaks_of xs.now u))) }
    ensures small { IfOk result (λ u. term_size u ≤ 4096) }
{
    let bound = bound_by(alloc, bound)?;
    translate_in(alloc, w, f, &bound)
}
