//! The rows of the goal table, on one thread.
ghost use Rattle.std.specs.Prelude.{◌≡◌, ◌≤◌, ◌∷◌, ◌++◌, [], Option, List, IfOk, OnOk, IfSome, IsTrue, length};
ghost use Rattle.ap_list.specs.Lists.{Each};
ghost use Rattle.ap_walk.specs.Visits.{out_children};
ghost use Rattle.ap_word.specs.Seats.{TableId, seat_table, seat_view};
ghost use Rattle.ap_table.specs.Seated.{HasLooked};
ghost use Rattle.ap_table.specs.Worded.{IsOf, WordsStay};
ghost use Rattle.ap_tests_workers.specs.Held.{SeatsOf, AreHeld, ComesOf, ats};

use crate::trees::{Tree, Trees};
use ap_table::*;
use ap_walk::{End, Mark, NoMemory, Out, Rule, Seq, Step, Stepped, serial};
use std::alloc::{AllocError, Global};
use std::mem;
use std::process::Abort;

/// An initial walk without the switch.
const RULE: Rule = Rule {
    initial: true,
    otf: false,
    revert: 2,
    goal_limit: 100,
};

/// What is done with a table and with the last of the jobs that are held, and what is to come of it.
#[derive(Clone, Copy)]
enum Act {
    /// A node is claimed, which has this number.
    Claim(u32),
    /// The job is expanded into a family: its number, that of its first node, and how many these are.
    Expand(u32, u32, u32),
    /// The serial walk of the job's task is put, after a look for each of its marks, and is kept or not. Where it isn't, the
    /// job is held again.
    Put(bool),
    /// The job's node is dropped by the family of the root's children and this place, which is kept or not.
    Drop(u32, bool),
    /// The job's seat looks at its family's word.
    See(u64),
    /// The job is that of this node, and its one seat that of this family and this place.
    Job(u32, u32, u32),
    /// The last job, which has no seats, is held of the other table.
    Hand,
    /// The last two jobs exchange their seats.
    Swap,
    /// The last job is the one before it now.
    Turn,
    /// These steps were taken.
    History(&'static [Entry]),
    /// So many steps were taken, and the root isn't done.
    Open(usize),
}

/// Whether a task splits into two or more.
pub(crate) fn splits(stepped: &Stepped<Tree>) -> bool
    ensures { IsTrue result → 2 ≤ length (out_children stepped.now.out) }
{
    match &stepped.out {
        Out::Split(children) => children.len() >= 2,
        _ => false,
    }
}

/// The family of a node that was expanded: its number, that of its first node, and how many these are.
pub(crate) fn family_of(grown: Grown<Tree>) -> Option<(u32, u32, u32)> {
    match grown {
        Grown::Family {
            family,
            first,
            count,
        } => Some((family, first, count)),
        _ => None,
    }
}

/// Looks at a family's word, so often and once more. Answers what was seen last.
pub(crate) fn look(seat: &mut AncestorSeat, times: usize) -> u64
    ensures looks { times ≤ (seat_view seat.new.seat).looks }
    ensures low { (seat_view seat.new.seat).low ≡ result }
    ensures same { (seat.new.place ≡ seat.old.place) × (seat.new.family ≡ seat.old.family) × (seat_table seat.new.seat ≡ seat_table seat.old.seat) }
{
    let mut found = seat.look();
    for i in 0..times {
        found = seat.look();
    }
    found
}

/// Looks so often at the word of the family above a job's node, if there is one. There is no answer where that
/// stops before the job's place.
pub(crate) fn looked(job: Job<Tree>, times: usize) -> Result<Option<Job<Tree>>, NoMemory>
    ensures looked { IfOk result (λ o. IfSome o (λ j. (j.task ≡ job.task) × (j.rule ≡ job.rule) × Each (HasLooked times) j.seats)) }
    ensures same { IfOk result (λ o. IfSome o (λ j. ats j.seats ≡ ats job.seats)) }
{
    let Job {
        task,
        rule,
        node,
        mut seats,
    } = job;
    if let Some(mut seat) = seats.pop() {
        let found = look(&mut seat, times);
        if found < seat.place() as u64 {
            return Ok(None);
        }
        if !seats.is_empty() {
            return Ok(None);
        }
        seats.push(seat)?;
    }
    Ok(Some(Job {
        task,
        rule,
        node,
        seats,
    }))
}

/// Whether a table kept what it was handed. Else the job is held again.
fn is_kept(jobs: &mut Seq<Job<Tree>>, taken: Taken<Tree>) -> Result<bool, NoMemory>
    ensures { (ws : List (Option TableId)) → ComesOf ws taken → AreHeld ws jobs.old → OnOk result (AreHeld ws jobs.new) }
{
    match taken {
        Taken::Kept => Ok(true),
        Taken::Stranger(job) => {
            jobs.push(job)?;
            Ok(false)
        }
    }
}

/// Claims a node. Answers its number.
fn claim(table: &mut TableState<Trees>, jobs: &mut Seq<Job<Tree>>) -> Result<Option<u32>, NoMemory>
    requires { AreHeld table.old.words jobs.old }
    ensures { OnOk result (AreHeld table.new.words jobs.new) }
{
    let Claim::Found(job) = table.claim_step() else {
        return Ok(None);
    };
    let node = job.node;
    jobs.push(job)?;
    Ok(Some(node))
}

/// Expands a job's node into its children.
fn expand(
    alloc: Global,
    table: &mut TableState<Trees>,
    job: Job<Tree>,
) -> Result<Option<(u32, u32, u32)>, NoMemory>
    ensures { WordsStay table.old.words table.new.words }
{
    let stepped = Trees.step(alloc, &job.task)?;
    if !splits(&stepped) {
        return Ok(None);
    }
    Ok(family_of(table.expand_step(alloc, &Trees, job, stepped)))
}

/// Puts the serial walk of a job's task, after a look for each of its marks.
fn put(
    alloc: Global,
    table: &mut TableState<Trees>,
    job: Job<Tree>,
) -> Result<Taken<Tree>, NoMemory>
    requires { SeatsOf table.old.words job }
    ensures words { table.new.words ≡ table.old.words }
    ensures back { IfOk result (ComesOf table.old.words) }
{
    let walked = serial(alloc, &Trees, &job.task, job.rule)?;
    let found = looked(job, walked.marks.len())?;
    let Some(job) = found else {
        return Err(AllocError);
    };
    Ok(table.put_step(&Trees, job, walked))
}

/// What one look by a job's seat answers.
fn seen(job: &mut Job<Tree>) -> Result<u64, NoMemory>
    ensures { OnOk result (ats job.new.seats ≡ ats job.old.seats) }
{
    let Some(mut seat) = job.seats.pop() else {
        return Err(AllocError);
    };
    let found = look(&mut seat, 0);
    job.seats.push(seat)?;
    Ok(found)
}

/// Whether a job is that of this node, and its one seat that of this family and this place.
fn is_seated(job: &Job<Tree>, node: u32, family: u32, place: u32) -> bool {
    match job.seats.as_slice() {
        [seat] => (job.node, seat.family(), seat.place()) == (node, family, place),
        _ => false,
    }
}

/// The last of the jobs.
fn last(jobs: &mut Seq<Job<Tree>>) -> Result<Job<Tree>, NoMemory>
    ensures { IfOk result (λ job. jobs.old ≡ jobs.new ++ job ∷ []) }
{
    jobs.pop().ok_or(AllocError)
}

/// Exchanges two jobs, or their seats alone.
fn swap(a: &mut Job<Tree>, b: &mut Job<Tree>, are_seats: bool)
    ensures { (ws : List (Option TableId)) → SeatsOf ws a.old → SeatsOf ws b.old → SeatsOf ws a.new × SeatsOf ws b.new }
{
    if are_seats {
        mem::swap(&mut a.seats, &mut b.seats);
    } else {
        mem::swap(a, b);
    }
}

/// Exchanges the last two jobs, or their seats alone.
fn exchange(jobs: &mut Seq<Job<Tree>>, are_seats: bool) -> Result<(), NoMemory>
    ensures { (ws : List (Option TableId)) → AreHeld ws jobs.old → OnOk result (AreHeld ws jobs.new) }
{
    let mut b = last(jobs)?;
    let mut a = last(jobs)?;
    swap(&mut a, &mut b, are_seats);
    jobs.push(a)?;
    jobs.push(b)
}

/// What one look by the last job's seat answers.
fn see(jobs: &mut Seq<Job<Tree>>) -> Result<u64, NoMemory>
    ensures { (ws : List (Option TableId)) → AreHeld ws jobs.old → OnOk result (AreHeld ws jobs.new) }
{
    let mut job = last(jobs)?;
    let found = seen(&mut job)?;
    jobs.push(job)?;
    Ok(found)
}

/// Whether these steps were taken.
fn are_entries(found: &[Entry], wanted: &[Entry]) -> bool {
    for (entry, row) in found.iter().zip(wanted) {
        if *entry != *row {
            return false;
        }
    }
    found.len() == wanted.len()
}

/// Expands the last job's node into its children.
fn expand_last(
    alloc: Global,
    table: &mut TableState<Trees>,
    jobs: &mut Seq<Job<Tree>>,
) -> Result<Option<(u32, u32, u32)>, NoMemory>
    requires { AreHeld table.old.words jobs.old }
    ensures { OnOk result (AreHeld table.new.words jobs.new) }
{
    let job = last(jobs)?;
    expand(alloc, table, job)
}

/// Puts the serial walk of the last job's task. Answers whether it was kept; else the job is held again.
fn put_last(
    alloc: Global,
    table: &mut TableState<Trees>,
    jobs: &mut Seq<Job<Tree>>,
) -> Result<bool, NoMemory>
    requires { AreHeld table.old.words jobs.old }
    ensures { OnOk result (AreHeld table.new.words jobs.new) }
{
    let job = last(jobs)?;
    let taken = put(alloc, table, job)?;
    is_kept(jobs, taken)
}

/// Drops the last job's node. Answers whether that was kept; else the job is held again.
fn drop_last(
    table: &mut TableState<Trees>,
    jobs: &mut Seq<Job<Tree>>,
    license: License,
) -> Result<bool, NoMemory>
    requires { AreHeld table.old.words jobs.old }
    ensures { OnOk result (AreHeld table.new.words jobs.new) }
{
    let job = last(jobs)?;
    let taken = table.drop_step(&Trees, job, license);
    is_kept(jobs, taken)
}

/// Whether what is done comes to what it is to.
fn goes(
    alloc: Global,
    table: &mut TableState<Trees>,
    jobs: &mut Seq<Job<Tree>>,
    act: Act,
) -> Result<bool, NoMemory>
    requires { AreHeld table.old.words jobs.old }
    ensures { OnOk result (AreHeld table.new.words jobs.new) }
{
    match act {
        Act::Claim(node) => Ok(claim(table, jobs)? == Some(node)),
        Act::Expand(family, first, count) => {
            Ok(expand_last(alloc, table, jobs)? == Some((family, first, count)))
        }
        Act::Put(kept) => Ok(put_last(alloc, table, jobs)? == kept),
        Act::Drop(index, kept) => {
            Ok(drop_last(table, jobs, License { family: 0, index })? == kept)
        }
        Act::See(wanted) => Ok(see(jobs)? == wanted),
        Act::Job(node, family, place) => match jobs.as_slice().last() {
            Some(job) => Ok(is_seated(job, node, family, place)),
            None => Ok(false),
        },
        Act::Hand => Ok(false),
        Act::Swap => {
            exchange(jobs, true)?;
            Ok(true)
        }
        Act::Turn => {
            exchange(jobs, false)?;
            Ok(true)
        }
        Act::History(wanted) => Ok(are_entries(table.history(), wanted)),
        Act::Open(length) => {
            let done = table.root_done(&Trees, &Tree::Three, RULE);
            Ok(table.history().len() == length && !done)
        }
    }
}

/// Holds the last of some jobs among others, where it has no seats.
fn hand(jobs: &mut Seq<Job<Tree>>, others: &mut Seq<Job<Tree>>) -> Result<bool, NoMemory>
    ensures from { (ws : List (Option TableId)) → AreHeld ws jobs.old → OnOk result (AreHeld ws jobs.new) }
    ensures to { (ws : List (Option TableId)) → AreHeld ws others.old → OnOk result (AreHeld ws others.new) }
{
    let job = last(jobs)?;
    if !job.seats.is_empty() {
        return Ok(false);
    }
    others.push(job)?;
    Ok(true)
}

/// The same, where the last job may be held of the other table.
fn goes_by(
    alloc: Global,
    table: &mut TableState<Trees>,
    jobs: &mut Seq<Job<Tree>>,
    others: &mut Seq<Job<Tree>>,
    act: Act,
) -> Result<bool, NoMemory>
    requires { AreHeld table.old.words jobs.old }
    ensures jobs { OnOk result (AreHeld table.new.words jobs.new) }
    ensures others { (ws : List (Option TableId)) → AreHeld ws others.old → OnOk result (AreHeld ws others.new) }
{
    match act {
        Act::Hand => hand(jobs, others),
        _ => goes(alloc, table, jobs, act),
    }
}

/// Whether marks are of these tasks, each with its children.
fn are_marks(marks: &[Mark<Tree>], wanted: &[(Tree, u32)]) -> bool {
    for (mark, (task, children)) in marks.iter().zip(wanted) {
        if mark.task != *task || mark.children != *children {
            return false;
        }
    }
    marks.len() == wanted.len()
}

/// Whether notes have these names, by their primes, each with the place of its licence.
fn are_notes(notes: &[DropNote], wanted: &[(u32, u32, u32)]) -> bool {
    for (note, row) in notes.iter().zip(wanted) {
        if (note.dropped.primes, note.stopped.primes, note.license.index) != *row {
            return false;
        }
    }
    notes.len() == wanted.len()
}

/// Whether a table ends with these marks and notes, and its walk pushes two and reverts.
fn ends(
    alloc: Global,
    table: TableState<Trees>,
    root: Tree,
    marks: &[(Tree, u32)],
    dropped: &[(u32, u32, u32)],
) -> Result<bool, NoMemory> {
    if !table.root_done(&Trees, &root, RULE) {
        return Ok(false);
    }
    let (walked, notes) = table.finish(alloc, &Trees)?;
    Ok(
        are_marks(walked.marks.as_slice(), marks)
            && (walked.tally.pushes, walked.end) == (2, End::Revert)
            && are_notes(notes.as_slice(), dropped),
    )
}

const THREE: &[(Tree, u32)] = &[
    (Tree::Three, 3),
    (Tree::Left, 0),
    (Tree::Empty, 0),
    (Tree::Right, 0),
];

const DEEP: &[(Tree, u32)] = &[
    (Tree::Deep, 3),
    (Tree::Over, 1),
    (Tree::Pair, 2),
    (Tree::Left, 0),
    (Tree::Right, 0),
];

const ONE_PUT: &[Entry] = &[
    Entry::Claimed(0),
    Entry::Expanded(0),
    Entry::Claimed(1),
    Entry::Put(1),
];

const ONE_STOPS: &[Entry] = &[
    Entry::Claimed(0),
    Entry::Expanded(0),
    Entry::Claimed(1),
    Entry::Put(1),
    Entry::Marked(0, 0),
];

const TWO_PUT: &[Entry] = &[
    Entry::Claimed(0),
    Entry::Expanded(0),
    Entry::Claimed(1),
    Entry::Put(1),
    Entry::Claimed(2),
    Entry::Claimed(3),
    Entry::Put(3),
    Entry::Marked(0, 2),
];

/// The marks and the notes that a table ends with.
type Ending = (&'static [(Tree, u32)], &'static [(u32, u32, u32)]);

/// A script: the root of the table and what is done, on it, or on another table of the root `Left`; and what the table ends
/// with, if that is looked at.
type Script = (Tree, &'static [(bool, Act)], Option<Ending>);

/// The first node of the root's three is put.
const BEGUN: &[(bool, Act)] = &[
    (true, Act::Claim(0)),
    (true, Act::Expand(0, 1, 3)),
    (true, Act::Claim(1)),
    (true, Act::Put(true)),
];

/// Each begins with the first node of the root's three, which is put.
const ON_THREE: &[Script] = &[
    // Three walks out of order make the serial one.
    (
        Tree::Three,
        &[
            (true, Act::History(ONE_PUT)),
            (true, Act::Claim(2)),
            (true, Act::Claim(3)),
            (true, Act::Put(true)),
            (true, Act::History(TWO_PUT)),
            (true, Act::See(2)),
            (true, Act::Open(8)),
            (true, Act::Put(true)),
        ],
        Some((THREE, &[])),
    ),
    // What lies behind a stop is dropped.
    (
        Tree::Deep,
        &[
            (true, Act::History(ONE_STOPS)),
            (true, Act::Claim(2)),
            (true, Act::See(0)),
            (true, Act::Claim(3)),
            (true, Act::Drop(1, true)),
            (true, Act::Drop(0, true)),
        ],
        Some((DEEP, &[(2, 1, 1), (1, 5, 0)])),
    ),
    // Nothing is dropped before a stop is known.
    (
        Tree::Three,
        &[
            (true, Act::History(ONE_PUT)),
            (true, Act::Claim(2)),
            (true, Act::Drop(0, false)),
            (true, Act::Open(5)),
            (true, Act::Put(true)),
        ],
        None,
    ),
    // A job has a seat for each family above it.
    (
        Tree::Three,
        &[
            (true, Act::History(ONE_PUT)),
            (false, Act::Claim(0)),
            (false, Act::Hand),
            (true, Act::Claim(2)),
            (true, Act::Job(2, 0, 1)),
            (true, Act::Swap),
            (true, Act::Put(false)),
            (true, Act::Open(5)),
            (true, Act::Swap),
            (true, Act::Put(true)),
        ],
        None,
    ),
    // A seat of another place is a stranger's.
    (
        Tree::Three,
        &[
            (true, Act::History(ONE_PUT)),
            (true, Act::Claim(2)),
            (true, Act::Claim(3)),
            (true, Act::Swap),
            (true, Act::Turn),
            (true, Act::Put(false)),
            (true, Act::Job(2, 0, 2)),
            (true, Act::Turn),
            (true, Act::Put(false)),
            (true, Act::Job(3, 0, 1)),
            (true, Act::Open(6)),
        ],
        None,
    ),
];

/// Each begins with a new table.
const ALONE: &[Script] = &[
    // A root that can be expanded is not put.
    (
        Tree::Three,
        &[
            (true, Act::Claim(0)),
            (true, Act::Put(false)),
            (true, Act::Open(1)),
            (true, Act::Expand(0, 1, 3)),
        ],
        None,
    ),
    // A job of another table is a stranger.
    (
        Tree::Empty,
        &[
            (true, Act::Claim(0)),
            (false, Act::Claim(0)),
            (false, Act::Hand),
            (true, Act::Put(false)),
            (true, Act::Open(1)),
            (true, Act::Hand),
            (false, Act::Put(true)),
            (true, Act::Put(true)),
        ],
        None,
    ),
];

/// Whether what is done, on a table or on the other, comes to what it is to.
fn one_goes(
    alloc: Global,
    table: &mut TableState<Trees>,
    jobs: &mut Seq<Job<Tree>>,
    other: &mut TableState<Trees>,
    others: &mut Seq<Job<Tree>>,
    is_first: bool,
    act: Act,
) -> Result<bool, NoMemory>
    requires jobs { AreHeld table.old.words jobs.old }
    requires others { AreHeld other.old.words others.old }
    ensures jobs { OnOk result (AreHeld table.new.words jobs.new) }
    ensures others { OnOk result (AreHeld other.new.words others.new) }
{
    if is_first {
        return goes_by(alloc, table, jobs, others, act);
    }
    goes_by(alloc, other, others, jobs, act)
}

/// Whether all that is done, on a table or on the other, comes to what it is to.
fn all_go(
    alloc: Global,
    table: &mut TableState<Trees>,
    jobs: &mut Seq<Job<Tree>>,
    other: &mut TableState<Trees>,
    others: &mut Seq<Job<Tree>>,
    acts: &[(bool, Act)],
) -> Result<bool, NoMemory>
    requires jobs { AreHeld table.old.words jobs.old }
    requires others { AreHeld other.old.words others.old }
    ensures jobs { OnOk result (AreHeld table.new.words jobs.new) }
    ensures others { OnOk result (AreHeld other.new.words others.new) }
{
    for (is_first, act) in acts {
        if !one_goes(alloc, table, jobs, other, others, *is_first, *act)? {
            return Ok(false);
        }
    }
    Ok(true)
}

/// The same on a new one, behind what was begun.
fn go_behind(
    alloc: Global,
    table: &mut TableState<Trees>,
    begun: &[(bool, Act)],
    acts: &[(bool, Act)],
) -> Result<bool, NoMemory> {
    let mut other = first(alloc, &Trees, Tree::Left, RULE)?;
    let mut jobs = Seq::new(alloc);
    let mut others = Seq::new(alloc);
    if !all_go(alloc, table, &mut jobs, &mut other, &mut others, begun)? {
        return Ok(false);
    }
    all_go(alloc, table, &mut jobs, &mut other, &mut others, acts)
}

/// Whether a script goes as it says.
fn plays(alloc: Global, begun: &[(bool, Act)], script: &Script) -> Result<bool, NoMemory> {
    let (root, acts, ending) = *script;
    let mut table = first(alloc, &Trees, root, RULE)?;
    if !go_behind(alloc, &mut table, begun, acts)? {
        return Ok(false);
    }
    match ending {
        Some((marks, dropped)) => ends(alloc, table, root, marks, dropped),
        None => Ok(true),
    }
}

fn expect_scripts(
    rt: &impl Abort,
    alloc: Global,
    begun: &[(bool, Act)],
    scripts: &[Script],
) -> Result<(), NoMemory> {
    for (i, script) in scripts.iter().enumerate() {
        assert!(rt; plays(alloc, begun, script)?, "{i}");
    }
    Ok(())
}

#[test]
fn each_script_goes_as_it_says(rt: HostRuntime) -> Result<(), NoMemory> {
    expect_scripts(&rt, rt.alloc(), BEGUN, ON_THREE)?;
    expect_scripts(&rt, rt.alloc(), &[], ALONE)
}
