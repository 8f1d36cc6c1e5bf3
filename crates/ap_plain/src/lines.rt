//! The lines of an attempt, and its checkpoints.
ghost use Rattle.std.specs.Prelude.{◌≡◌, ◌++◌, ◌+◌, ◌≤◌, ◌<◌, ◌^◌, length, codes, OnOk, IfOk};
ghost use Rattle.ap_stated.specs.Texts.{line};
ghost use Rattle.ap_names.specs.Printed.{name_text};
ghost use Rattle.ap_attempt.specs.Laws.{mark_count};
ghost use Rattle.ap_plain.specs.Lines.{stop_text, counted_text, push_text, call_text, induct_text, process_text, limited_text, mark_text, marks_text, end_text, walk_text, walks_text, is_checkpoint, checkpoint_text, checkpoints_of, checkpoints_in, headed, checkpoints_text};

use ap_induct::chosen;
use ap_list::{Bytes, NoMemory};
use ap_names::GoalName;
use ap_print::{print_clause, print_term};
use ap_strategy::{Planned, Task};
use ap_term::Term;
use ap_walk::{End, Mark, Process, Walked};
use itoa::Buffer;
use std::alloc::Global;

/// Adds a goal's name.
fn put_name(alloc: Global, text: &mut Bytes, name: &GoalName) -> Result<(), NoMemory>
    ensures { OnOk result (text.new ≡ text.old ++ name_text name.now) }
{
    text.extend(name.print(alloc)?.as_slice())
}

/// Adds a word and a number.
fn put_counted(text: &mut Bytes, word: &[u8], n: u32) -> Result<(), NoMemory>
    ensures { OnOk result (text.new ≡ text.old ++ counted_text word.now n) }
{
    let mut number = Buffer::new();
    text.extend(word)?;
    text.extend(number.format(n).as_bytes())
}

/// Why a walk stopped, by the number that the mark has.
#[tactic(auto, unfolding(crate::specs::Lines::stop_text))]
fn stop_word(number: u32) -> &'static [u8]
    ensures { result.now ≡ stop_text number }
{
    match number {
        1 => b"noscheme",
        2 => b"empty",
        4 => b"deep",
        _ => b"toodeep",
    }
}

/// Adds `push` and the name that a goal gets where its walk pushes it as number `k`.
fn put_push(alloc: Global, text: &mut Bytes, name: &GoalName, k: u32) -> Result<(), NoMemory>
    requires { 1 ≤ k }
    ensures { OnOk result (text.new ≡ text.old ++ push_text name.now k) }
{
    text.extend(b"push ")?;
    put_name(alloc, text, &name.pushed(alloc, k)?)
}

/// Adds the call that an induction goes by, where there is one.
fn put_call(alloc: Global, text: &mut Bytes, call: &Option<Term>) -> Result<(), NoMemory>
    ensures { OnOk result (text.new ≡ text.old ++ call_text call.now) }
{
    let Some(call) = call else {
        return Ok(());
    };
    text.extend(b" ")?;
    text.extend(print_term(alloc, call)?.as_slice())
}

/// Adds `induct`, the number of cases of a goal's induction, and the call that it goes by.
fn put_induct<J: Planned>(
    alloc: Global,
    text: &mut Bytes,
    task: &Task<'_, J>,
    cases: u32,
) -> Result<(), NoMemory>
    ensures { OnOk result (text.new ≡ text.old ++ induct_text task.now cases) }
{
    put_counted(text, b"induct ", cases)?;
    let w = task.plan.world.world();
    let theory = &task.settings.theory;
    let literals = task.clause.0.as_slice();
    let call = chosen(alloc, w, theory, literals, task.scheme.as_ref())?;
    put_call(alloc, text, &call)
}

/// Adds what a process did to a goal: its number of children, the name that the push gets which is the walk's
/// `k`-th, or why the walk stopped.
#[tactic(auto, unfolding(crate::specs::Lines::process_text))]
fn put_process<J: Planned>(
    alloc: Global,
    text: &mut Bytes,
    task: &Task<'_, J>,
    k: u32,
    process: Process,
    children: u32,
) -> Result<(), NoMemory>
    requires { 1 ≤ k }
    ensures { OnOk result (text.new ≡ text.old ++ process_text task.now k process children) }
{
    match process {
        Process::Hint => put_counted(text, b"hint ", children),
        Process::Simplify => put_counted(text, b"simplify ", children),
        Process::Elim => put_counted(text, b"elim ", children),
        Process::Fertilize => put_counted(text, b"fertilize ", children),
        Process::Generalize => put_counted(text, b"generalize ", children),
        Process::Irrelevance => put_counted(text, b"irrelevance ", children),
        Process::Induct => put_induct(alloc, text, task, children),
        Process::Push => put_push(alloc, text, &task.name, k),
        Process::Stop => text.extend(stop_word(children)),
    }
}

/// Adds a line where simplification ran out of steps.
#[tactic(auto, unfolding(crate::specs::Lines::limited_text))]
fn put_limited(
    alloc: Global,
    text: &mut Bytes,
    name: &GoalName,
    limited: bool,
) -> Result<(), NoMemory>
    ensures { OnOk result (text.new ≡ text.old ++ limited_text name.now limited) }
{
    if !limited {
        return Ok(());
    }
    put_name(alloc, text, name)?;
    text.extend(b" steplimit\n")
}

/// Adds the lines of a mark. Where it is a push, it is the walk's `k`-th.
fn put_mark<J: Planned>(
    alloc: Global,
    text: &mut Bytes,
    k: u32,
    mark: &Mark<Task<'_, J>>,
) -> Result<(), NoMemory>
    requires { 1 ≤ k }
    ensures { OnOk result (text.new ≡ text.old ++ mark_text k mark.now) }
{
    let task = &mark.task;
    put_limited(alloc, text, &task.name, mark.act.limited)?;
    put_name(alloc, text, &task.name)?;
    text.extend(b" ")?;
    put_process(alloc, text, task, k, mark.act.process, mark.children)?;
    text.push(10)
}

/// Adds the lines of a walk's marks.
fn put_marks<J: Planned>(
    alloc: Global,
    text: &mut Bytes,
    marks: &[Mark<Task<'_, J>>],
) -> Result<(), NoMemory>
    requires { length marks.now + 1 < 2 ^ 32 }
    ensures { OnOk result (text.new ≡ text.old ++ marks_text 1 marks.now) }
{
    let mut k = 1;
    for mark in marks {
        put_mark(alloc, text, k, mark)?;
        if let Process::Push = mark.act.process {
            k += 1;
        }
    }
    Ok(())
}

/// Adds the line of a walk that reverted: its pushes are the revert count.
fn put_revert(text: &mut Bytes, pushes: u32) -> Result<(), NoMemory>
    ensures { OnOk result (text.new ≡ text.old ++ line (counted_text (codes "Revert ") pushes)) }
{
    put_counted(text, b"Revert ", pushes)?;
    text.push(10)
}

/// Adds a line where a walk reverted, with its pushes, or came to the limit on goals.
#[tactic(auto, unfolding(crate::specs::Lines::end_text))]
fn put_end(text: &mut Bytes, pushes: u32, end: End) -> Result<(), NoMemory>
    ensures { OnOk result (text.new ≡ text.old ++ end_text pushes end) }
{
    match end {
        End::Revert => put_revert(text, pushes),
        End::Limit => text.extend(b"Goal limit\n"),
        End::Through => Ok(()),
        End::Stopped(_) => Ok(()),
    }
}

/// Adds the lines of a walk.
fn put_walk<J: Planned>(
    alloc: Global,
    text: &mut Bytes,
    walked: &Walked<Task<'_, J>>,
) -> Result<(), NoMemory>
    requires { length walked.now.marks + 1 < 2 ^ 32 }
    ensures { OnOk result (text.new ≡ text.old ++ walk_text walked.now) }
{
    put_marks(alloc, text, walked.marks.as_slice())?;
    put_end(text, walked.tally.pushes, walked.end)
}

/// The lines of an attempt's walks.
pub(crate) fn walk_lines<J: Planned>(
    alloc: Global,
    walks: &[Walked<Task<'_, J>>],
) -> Result<Bytes, NoMemory>
    requires { mark_count walks.now + 1 < 2 ^ 32 }
    ensures { IfOk result (λ text. text ≡ walks_text walks.now) }
{
    let mut text = Bytes::new(alloc);
    let mut left = walks;
    while let [walked, rest @ ..] = left {
        put_walk(alloc, &mut text, walked)?;
        left = rest;
    }
    Ok(text)
}

/// Whether a mark is a checkpoint: simplification left the goal as it was, and no goal above it on its path.
fn is_checkpoint<J: Planned>(mark: &Mark<Task<'_, J>>) -> bool
    ensures { result ≡ is_checkpoint mark.now }
{
    mark.act.missed && !mark.task.under
}

/// Adds the line of a checkpoint, where a mark is one.
fn put_checkpoint<J: Planned>(
    alloc: Global,
    text: &mut Bytes,
    mark: &Mark<Task<'_, J>>,
) -> Result<(), NoMemory>
    ensures { OnOk result (text.new ≡ text.old ++ checkpoint_text mark.now) }
{
    if !is_checkpoint(mark) {
        return Ok(());
    }
    put_name(alloc, text, &mark.task.name)?;
    text.extend(b": ")?;
    text.extend(print_clause(alloc, &mark.task.clause)?.as_slice())?;
    text.push(10)
}

/// Adds the checkpoints among marks.
fn put_checkpoints<J: Planned>(
    alloc: Global,
    text: &mut Bytes,
    marks: &[Mark<Task<'_, J>>],
) -> Result<(), NoMemory>
    ensures { OnOk result (text.new ≡ text.old ++ checkpoints_of marks.now) }
{
    for mark in marks {
        put_checkpoint(alloc, text, mark)?;
    }
    Ok(())
}

/// The checkpoints of walks, in order.
fn checkpoints_in<J: Planned>(
    alloc: Global,
    walks: &[Walked<Task<'_, J>>],
) -> Result<Bytes, NoMemory>
    ensures { IfOk result (λ text. text ≡ checkpoints_in walks.now) }
{
    let mut text = Bytes::new(alloc);
    let mut left = walks;
    while let [walked, rest @ ..] = left {
        put_checkpoints(alloc, &mut text, walked.marks.as_slice())?;
        left = rest;
    }
    Ok(text)
}

/// Adds lines below a heading, which is left out where there are none.
fn put_headed(text: &mut Bytes, heading: &[u8], lines: &[u8]) -> Result<(), NoMemory>
    ensures { OnOk result (text.new ≡ text.old ++ headed heading.now lines.now) }
{
    match lines {
        [] => Ok(()),
        _ => {
            text.extend(heading)?;
            text.push(10)?;
            text.extend(lines)
        }
    }
}

/// The checkpoints of an attempt: those of its first walk, and those of the inductions.
#[tactic(auto, unfolding(crate::specs::Lines::checkpoints_text))]
pub(crate) fn checkpoint_lines<J: Planned>(
    alloc: Global,
    walks: &[Walked<Task<'_, J>>],
) -> Result<Bytes, NoMemory>
    ensures { IfOk result (λ text. text ≡ checkpoints_text walks.now) }
{
    let mut text = Bytes::new(alloc);
    let [first, later @ ..] = walks else {
        return Ok(text);
    };
    let mut before = Bytes::new(alloc);
    put_checkpoints(alloc, &mut before, first.marks.as_slice())?;
    put_headed(
        &mut text,
        b"Checkpoints before induction",
        before.as_slice(),
    )?;
    let under = checkpoints_in(alloc, later)?;
    put_headed(&mut text, b"Checkpoints under induction", under.as_slice())?;
    Ok(text)
}
