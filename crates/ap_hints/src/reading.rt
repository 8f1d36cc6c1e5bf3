//! The hints of an event, from their form.
ghost use Rattle.std.specs.Prelude.{◌≡◌, ◌∷◌, ◌++◌, [], IfOk, map};
ghost use Rattle.ap_list.specs.Lists.{is_among};
ghost use Rattle.ap_names.specs.Names.{name_eq, root};
ghost use Rattle.ap_translate.specs.Laws.{HasMacroFunctions};
ghost use Rattle.ap_reader.specs.Tops.{items_in};
ghost use Rattle.ap_world.specs.World.{function_of};
ghost use Rattle.ap_hints.specs.Answers.{Gives};
ghost use Rattle.ap_hints.specs.Hinted.{goal_of, goal_in, with_hint, hint_said, hinted, entry_by, entries_in, hints_in};
ghost use Rattle.ap_hints.specs.Known.{KnownHints, no_hints};

use crate::fault::HintError;
use crate::hint::{Hint, Hints, no_hints};
use crate::said::{Said, all_said, hint_of};
use ap_list::{NoMemory, Seq};
use ap_names::{GoalName, is_name, parse};
use ap_reader::{Form, items, string};
use ap_world::World;
use std::alloc::Global;

/// The goal's name that a string is.
#[tactic(auto, unfolding(crate::specs::Hinted::goal_in))]
fn goal(alloc: Global, form: &Form) -> Result<GoalName, HintError>
    ensures { Gives result (goal_in form.now) }
{
    let Some(text) = string(form) else {
        return Err(HintError::BadGoalName);
    };
    match parse(alloc, text)? {
        Some(name) => Ok(name),
        None => Err(HintError::BadGoalName),
    }
}

/// Whether a name is `Goal`.
fn is_root(alloc: Global, goal: &GoalName) -> bool
    ensures { result ≡ name_eq goal.now root }
{
    let root = GoalName {
        induction: Seq::new(alloc),
        case: None,
        path: Seq::new(alloc),
        primes: 0,
    };
    is_name(goal, &root)
}

/// Whether one of the hints is for a goal.
fn has_goal(goal: &GoalName, hints: &[Hint]) -> bool
    ensures { result ≡ is_among name_eq goal.now (map goal_of hints.now) }
{
    for hint in hints {
        if is_name(goal, &hint.goal) {
            return true;
        }
    }
    false
}

/// Adds the hint that is said of a goal.
fn with_hint(alloc: Global, mut hints: Hints, goal: GoalName, said: Said) -> Result<Hints, NoMemory>
    ensures { IfOk result (λ hs. hs ≡ with_hint hints goal said) }
{
    if said.no_induction {
        hints.do_not_induct = true;
    }
    let hint = hint_of(alloc, goal, said);
    hints.list.push(hint)?;
    Ok(hints)
}

/// Adds the hint that keys and their values say of a goal.
fn hint_said(
    alloc: Global,
    w: &World,
    hints: Hints,
    forms: &[Form],
    goal: GoalName,
) -> Result<Hints, HintError>
    ensures { Gives result (hint_said w.now hints forms.now goal) }
{
    let at_goal = is_root(alloc, &goal);
    let said = all_said(alloc, w, at_goal, forms)?;
    let hints = with_hint(alloc, hints, goal, said)?;
    Ok(hints)
}

/// Adds the hint of a goal, where it has none so far.
fn hinted(
    alloc: Global,
    w: &World,
    hints: Hints,
    forms: &[Form],
    goal: GoalName,
) -> Result<Hints, HintError>
    ensures { Gives result (hinted w.now hints forms.now goal) }
{
    if has_goal(&goal, hints.list.as_slice()) {
        Err(HintError::Repeated)
    } else {
        hint_said(alloc, w, hints, forms, goal)
    }
}

/// Adds the hint of one entry.
fn entry(alloc: Global, w: &World, hints: Hints, form: &Form) -> Result<Hints, HintError>
    ensures { Gives result (entry_by w.now hints (items_in form.now)) }
{
    match items(form) {
        Some([name, rest @ ..]) => {
            let goal = goal(alloc, name)?;
            hinted(alloc, w, hints, rest, goal)
        }
        _ => Err(HintError::BadGoalName),
    }
}

/// The hints of entries, in their order.
fn entries(alloc: Global, w: &World, forms: &[Form]) -> Result<Hints, HintError>
    ensures { Gives result (entries_in w.now no_hints forms.now) }
{
    let mut hints = no_hints(alloc);
    for form in forms {
        hints = entry(alloc, w, hints, form)?;
    }
    Ok(hints)
}

/// The hints that a form is.
#[tactic(auto, unfolding(crate::specs::Hinted::hints_in))]
fn read(alloc: Global, w: &World, form: &Form) -> Result<Hints, HintError>
    ensures { Gives result (hints_in w.now form.now) }
{
    match items(form) {
        Some(forms) => entries(alloc, w, forms),
        None => Err(HintError::UnknownKeyword),
    }
}

/// The hints of an event in a world, from their form: `(("NAME" :key value ..) ..)`. The first of these in reading
/// order is refused. `BadGoalName`: an entry isn't a list, doesn't begin with a string, or the string is no goal's
/// name. `UnknownKeyword`: the form isn't a list; a key is none of a hint's or has no value; or a value isn't of its
/// key's shape. `UnknownRune`: a name or a rune of `:in-theory` isn't known. `BadInstance`: a term isn't one; a theorem
/// of `:use` isn't known; or a variable isn't the theorem's, or has its replacement already. `Repeated`: a goal or a key
/// is given twice. `NoMemory` where memory is wanting.
pub fn hints_of(alloc: Global, w: &World, f: &Form) -> Result<Hints, HintError>
    requires functions { HasMacroFunctions (function_of w.now.entries) }
    ensures made { Gives result (hints_in w.now f.now) }
    ensures known { IfOk result (KnownHints w.now.entries) }
{
    read(alloc, w, f)
}
