//! What a step does to the seats.
ghost use Rattle.std.specs.Prelude.{◌≡◌, ℕ, ◌+◌, ◌≤◌, ◌<◌, ◌∷◌, ◌++◌, Some, List, length, take, drop, IfOk, IsTrue, ◌↔◌, vec_capacity};
ghost use Rattle.std.specs.List.{slice_get};
ghost use Rattle.ap_list.specs.Lists.{AnyOf, Each};
ghost use Rattle.ap_word.specs.Words.{IsStop, made};
ghost use Rattle.ap_table.specs.declared.seats.AncestorSeat.{AncestorSeat};
ghost use Rattle.ap_table.specs.declared.seats.Beside.{Beside};
ghost use Rattle.ap_table.specs.declared.link.Link.{Link};
ghost use Rattle.ap_table.specs.Kept.{Kept};
ghost use Rattle.ap_table.specs.Core.{Node, numbers_of, root, replay_from};
ghost use Rattle.ap_table.specs.Shown.{turns, nodes_of};
ghost use Rattle.ap_table.specs.Seated.{IsCut, AreCut, AreRows, HasSeat, Gives, GiveAll, kept_at, amend, without_job, with_kept, with_mark, true_family, AreSeated, IsMark};
ghost use Rattle.ap_table.specs.Worded.{words_of, AreWorded};

use crate::link::Link;
use crate::nodes::Nodes;
use crate::seats::{AncestorSeat, Beside, KeptSeat};
use crate::stored::Entry;
use ap_list::{NoMemory, Seq};
use ap_walk::{Rule, Step};
use ap_word::Tallies;
use std::alloc::Global;
use std::marker::PhantomData;
use std::mem;

/// A value that means the true tallies of a task's children.
#[derive(Clone, Copy)]
struct Children<'a, S: Step> {
    task: &'a S::Task,
    rule: Rule,
    of: PhantomData<S>,
}

impl<'a, S: Step> Tallies for Children<'a, S> {
    ghost use Rattle.ap_table.specs.Core.{tallies, children};

    ghost tallies = { λ c. tallies S.step_of S.depth c.rule (children S.step_of S.depth c.rule c.task.now) };
}

/// The pushes at which a walk under a rule reverts, if it does.
fn revert_of(rule: Rule) -> Option<u32>
    ensures { result ≡ (numbers_of rule).revert }
{
    if !rule.initial {
        return None;
    }
    if rule.otf {
        return None;
    }
    Some(rule.revert)
}

/// Whether a seat is that of a family, with the place there.
fn is_at(seat: &AncestorSeat, link: Link) -> bool
    ensures { IsTrue result ↔ ((seat.now.family ≡ link.family) × (seat.now.place ≡ link.place)) }
{
    if seat.family != link.family {
        return false;
    }
    seat.place == link.place
}

/// Whether seats give a family, with the place there.
fn gives(seats: &[AncestorSeat], link: Link) -> bool
    ensures { IsTrue result ↔ Gives seats.now link }
{
    for (i, seat) in seats.iter().enumerate() {
        if is_at(seat, link) {
            return true;
        }
    }
    false
}

/// A link of a path.
fn link_at(path: &[Link], i: usize) -> Link
    requires { i < length path.now }
    ensures { slice_get path.now i ≡ Some result }
{
    path[i]
}

/// Whether seats give just the families of a path, each once and with the place there.
pub(crate) fn give_all(seats: &[AncestorSeat], path: &[Link]) -> bool
    ensures { IsTrue result ↔ GiveAll path.now seats.now }
{
    if seats.len() != path.len() {
        return false;
    }
    for i in 0..path.len() {
        if !gives(seats, link_at(path, i)) {
            return false;
        }
    }
    true
}

/// Takes the seats for a free node's job.
pub(crate) fn take_seats(seats: &mut Vec<Beside>, i: usize) -> Seq<AncestorSeat>
    requires { (b : Beside) × (ss : List AncestorSeat) × (slice_get seats.old.items i ≡ Some b) × (b.job ≡ Some ss) }
    ensures seats { seats.new.items ≡ amend seats.old.items i without_job }
    ensures job { (b : Beside) → slice_get seats.old.items i ≡ Some b → b.job ≡ Some result }
{
    let beside = &mut seats[i];
    let Some(job) = mem::replace(&mut beside.job, None) else {
        unreachable!()
    };
    job
}

/// Marks the word of a family.
fn mark_at(seats: &mut Vec<Beside>, i: usize, place: u64)
    requires { (k : Kept) × (kept_at seats.old.items i ≡ Some k) × IsStop k.view.family place }
    ensures { seats.new.items ≡ amend seats.old.items i (with_mark place) }
{
    let beside = &mut seats[i];
    let Some(kept) = &mut beside.kept else {
        unreachable!()
    };
    kept.mark(place);
}

/// A seat for a job, cut from the one that is kept of a family.
fn cut_at(seats: &mut Vec<Beside>, link: Link) -> Result<AncestorSeat, NoMemory>
    requires { HasSeat seats.old.items link }
    ensures same { seats.new.items ≡ seats.old.items }
    ensures seat { IfOk result (λ s. (k : Kept) × (kept_at seats.old.items link.family ≡ Some k) × IsCut k link s) }
{
    let beside = &mut seats[link.family as usize];
    let Some(kept) = &mut beside.kept else {
        unreachable!()
    };
    kept.cut(link)
}

/// Seats for a job: one that was cut, and behind it one for each family of a path.
fn cut_all(
    alloc: Global,
    seats: &mut Vec<Beside>,
    first: AncestorSeat,
    path: &[Link],
) -> Result<Seq<AncestorSeat>, NoMemory>
    requires { Each (HasSeat seats.old.items) path.now }
    ensures same { seats.new.items ≡ seats.old.items }
    ensures seats { IfOk result (λ ss. (rest : List AncestorSeat) × (ss ≡ first ∷ rest) × AreCut seats.old.items path.now rest) }
{
    let mut cut = Seq::new(alloc);
    cut.push(first)?;
    for at in 0..path.len() {
        let seat = cut_at(seats, link_at(path, at))?;
        cut.push(seat)?;
    }
    Ok(cut)
}

/// What is kept beside the new children of a node.
fn rows(
    alloc: Global,
    seats: &mut Vec<Beside>,
    own: &mut KeptSeat,
    family: u32,
    path: &[Link],
    count: usize,
) -> Result<Vec<Beside>, NoMemory>
    requires above { Each (HasSeat seats.old.items) path.now }
    requires few { count ≤ 1000000 }
    ensures same { (seats.new.items ≡ seats.old.items) × (own.new ≡ own.old) }
    ensures rows { IfOk result (λ v. AreRows seats.old.items path.now family own.old v.items) }
    ensures long { IfOk result (λ v. length v.items ≡ count) }
{
    let mut rows = Vec::new(alloc);
    for place in 0..count {
        let first = own.cut(Link {
            family,
            place: place as u32,
        })?;
        let job = cut_all(alloc, seats, first, path)?;
        rows.push(Beside {
            job: Some(job),
            kept: None,
        })?;
    }
    Ok(rows)
}

/// The seat of the word of a task's children, and what is kept beside these; and room for it.
pub(crate) fn new_family<S: Step>(
    alloc: Global,
    seats: &mut Vec<Beside>,
    task: &S::Task,
    rule: Rule,
    family: u32,
    path: &[Link],
    count: usize,
) -> Result<(KeptSeat, Vec<Beside>), NoMemory>
    requires above { Each (HasSeat seats.old.items) path.now }
    requires few { count ≤ 1000000 }
    ensures same { seats.new.items ≡ seats.old.items }
    ensures own { IfOk result (λ r. r.0.view ≡ made (true_family S.step_of S.depth rule task.now)) }
    ensures rows { IfOk result (λ r. AreRows seats.old.items path.now family r.0 r.1.items) }
    ensures long { IfOk result (λ r. length r.1.items ≡ count) }
    ensures room { IfOk result (λ r. length seats.new.items + count ≤ vec_capacity seats.new) }
{
    let children = Children::<S> {
        task,
        rule,
        of: PhantomData,
    };
    let mut own = KeptSeat::new(alloc, &children, revert_of(rule), rule.goal_limit)?;
    let rows = rows(alloc, seats, &mut own, family, path, count)?;
    seats.reserve(count)?;
    Ok((own, rows))
}

/// Keeps the seat of a node's children's word, and what stands beside them.
pub(crate) fn adopt(seats: &mut Vec<Beside>, i: usize, own: KeptSeat, rows: Vec<Beside>)
    requires there { i < length seats.old.items }
    requires room { length seats.old.items + length rows.items ≤ vec_capacity seats.old }
    ensures { seats.new.items ≡ amend seats.old.items i (with_kept own) ++ rows.items }
{
    let mut rows = rows;
    let beside = &mut seats[i];
    beside.kept = Some(own);
    let Ok(()) = seats.append(&mut rows) else {
        unreachable!()
    };
}

/// Marks the words of families by the marks that stand in the history from a place on.
pub(crate) fn mark_words<S: Step>(nodes: &Nodes<S>, seats: &mut Vec<Beside>, from: usize)
    requires within { from ≤ length nodes.now.history }
    requires marks { Each IsMark (drop from nodes.now.history) }
    requires seated { AreSeated S.step_of S.depth nodes.now.rule (replay_from S.step_of S.depth nodes.now.rule (root nodes.now.root) (turns (take from nodes.now.history))) seats.old.items }
    ensures seated { AreSeated S.step_of S.depth nodes.now.rule (nodes_of S.step_of S.depth nodes.now) seats.new.items }
    ensures words { words_of seats.new.items ≡ words_of seats.old.items }
    ensures worded { (ns : List (Node S.Task)) → AreWorded ns seats.old.items → AreWorded ns seats.new.items }
{
    nodes.recall_allowed();
    let history = nodes.history();
    for at in from..history.len() {
        if let Entry::Marked(family, place) = history[at] {
            mark_at(seats, family as usize, place as u64);
        }
    }
}
