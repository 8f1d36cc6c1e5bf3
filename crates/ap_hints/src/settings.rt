//! What a hint says that holds for a goal and all below it: the theory, and the processes that don't apply.
ghost use Rattle.std.specs.Prelude.{◌≡◌};
ghost use Rattle.ap_hints.specs.Answers.{Gives, each};
ghost use Rattle.ap_hints.specs.Hinted.{theory_in, process_in, processes_in};

use crate::changes::{changed_theory, changes_by};
use crate::fault::HintError;
use ap_list::Seq;
use ap_reader::{Form, is_symbol, items, quoted};
use ap_walk::Process;
use ap_world::{Theory, World};
use std::alloc::Global;

/// The theory of `:in-theory`.
#[tactic(auto, unfolding(crate::specs::Hinted::theory_in))]
pub(crate) fn theory(alloc: Global, w: &World, form: &Form) -> Result<Theory, HintError>
    ensures { Gives result (theory_in w.now form.now) }
{
    let Some(changes) = changes_by(form) else {
        return Err(HintError::UnknownKeyword);
    };
    match changed_theory(alloc, w, &changes)? {
        Some(theory) => Ok(theory),
        None => Err(HintError::UnknownRune),
    }
}

/// The process that a name is.
#[tactic(auto, unfolding(crate::specs::Hinted::process_in))]
fn process(form: &Form) -> Result<Process, HintError>
    ensures { Gives result (process_in form.now) }
{
    if is_symbol(form, b"GENERALIZE") {
        Ok(Process::Generalize)
    } else if is_symbol(form, b"FERTILIZE") {
        Ok(Process::Fertilize)
    } else if is_symbol(form, b"ELIMINATE-DESTRUCTORS") {
        Ok(Process::Elim)
    } else if is_symbol(form, b"ELIMINATE-IRRELEVANCE") {
        Ok(Process::Irrelevance)
    } else {
        Err(HintError::UnknownKeyword)
    }
}

/// The processes that names are.
fn all_processes(alloc: Global, forms: &[Form]) -> Result<Seq<Process>, HintError>
    ensures { Gives result (each process_in forms.now) }
{
    let mut processes = Seq::new(alloc);
    for form in forms {
        processes.push(process(form)?)?;
    }
    Ok(processes)
}

/// The processes of `:do-not`.
#[tactic(auto, unfolding(crate::specs::Hinted::processes_in))]
pub(crate) fn processes(alloc: Global, form: &Form) -> Result<Seq<Process>, HintError>
    ensures { Gives result (processes_in form.now) }
{
    let Some(names) = quoted(form) else {
        return Err(HintError::UnknownKeyword);
    };
    match items(names) {
        Some(forms) => all_processes(alloc, forms),
        None => Err(HintError::UnknownKeyword),
    }
}
