ghost use Rattle.std.specs.Prelude.{◌≡◌, ◌≤◌, ◌⊎◌, true, false, cond, not, [], ◌∷◌, ◌++◌, List, IfOk, OnOk, OnErr};
ghost use Rattle.ap_list.specs.Lists.{Each};
ghost use Rattle.ap_world.specs.declared.entry.Entry.{Entry};
ghost use Rattle.ap_world.specs.Sound.{Sound, HasFunctions};
ghost use Rattle.ap_world.specs.World.{function_of, are_distinct};
ghost use Rattle.ap_books.specs.Bodies.{Shows};
ghost use Rattle.ap_plain.specs.Drops.{DividedWalks};
ghost use Rattle.ap_plain.specs.Ends.{goals_in, walks_in};
ghost use Rattle.ap_events.specs.Backing.{Backed};
ghost use Rattle.ap_events.specs.Books.{worked_again};
ghost use Rattle.ap_session.specs.Admitting.{notes_in, last_world, left_in, IsTold, Behind};
ghost use Rattle.ap_session.specs.Session.{kept_by};
ghost use Rattle.ap_session.specs.Working.{working_in, begin, admits, ends, has_failed, second_after, start, IfSoFar, Stands};

use crate::second::Second;
use crate::start::{once_more, starting_world};
use ap_attempt::{DropNote, Gate};
use ap_books::Ended;
use ap_events::{KeptBook, Limits, Outcome, Ruled, again_is_covered, work, worlds_grow};
use ap_list::{Bytes, NoMemory, Seq};
use ap_reader::Form;
use ap_world::World;
use std::alloc::Global;
use std::marker::Model;
use std::mem;
use std::sync::Wait;
use std::thread::Threads;

/// What an event came to: what it printed, whether it was refused, and how many goals its attempts visited.
#[derive(Drop)]
pub(crate) struct Turn {
    pub(crate) text: Bytes,
    pub(crate) refused: bool,
    pub(crate) goals: usize,
}

/// What works the events of books: the world of the first pass, and whether it is still the one that was made at the start,
/// for the first book that is begun; the second pass, the kept worlds of the certified books before, and whether the last
/// book is among these; the limits of attempts, how many goals are worked at a time, and the
/// gate that workers pass; and what was dropped, in the last event and before.
#[derive(Drop)]
pub(crate) struct Admitting<'a, G> {
    world: Ruled,
    fresh: bool,
    second: Second,
    earlier: Seq<KeptBook>,
    kept: bool,
    limits: Limits,
    workers: u32,
    gate: &'a G,
    noted: Vec<DropNote>,
    last: Vec<DropNote>,
}

impl<'a, G> Model for Admitting<'a, G> {
    ghost use Rattle.std.specs.Coded.{codes};
    ghost use Rattle.ap_term.specs.contracts.term.Term as term;
    ghost use Rattle.ap_value.specs.contracts.value.Value as value;
    ghost use Rattle.ap_session.specs.Working.{working_in};
    ghost use Rattle.ap_session.specs.Admitting.{AdmittingSeen, Ready};

    ghost Value = { AdmittingSeen };

    ghost coded = { Prim.hlevel (codes, term.the_row.coded, value.the_row.coded) };

    ghost view = { λ a. record { working = working_in a.limits a.earlier a.world a.second; kept = a.kept; workers = a.workers; noted = a.noted.items; last = a.last.items } };

    ghost invariant = { λ a. Ready (working_in a.limits a.earlier a.world a.second) a.fresh };
}

/// A world is sound by its type.
fn recall_sound(world: &Ruled)
    ensures { Sound world.now.entries }
{
    world.world().recall_sound();
}

/// Does an event again, where the first pass admitted it.
fn pass_on(
    second: &mut Second,
    alloc: Global,
    earlier: &[KeptBook],
    form: &Form,
    admitted: bool,
) -> Result<(), NoMemory>
    requires functions { IfSoFar (λ v. HasFunctions (function_of v.entries)) second.old }
    requires backed { admitted ≡ true → IfSoFar (λ v. (U : List Entry) × Backed (worked_again earlier.now v form.now) v U) second.old }
    ensures ok { OnOk result (second.new ≡ cond admitted (second_after earlier.now form.now second.old) second.old) }
    ensures err { OnErr result (second.new ≡ second.old) }
    ensures functions { IfSoFar (λ v. HasFunctions (function_of v.entries)) second.new }
{
    if admitted {
        second.do_again(alloc, earlier, form)
    } else {
        Ok(())
    }
}

/// Works an event in the first pass, and in the second one where it is admitted. Where memory is wanting the world is as
/// it was, or the next one; the session ends there.
fn work_both<R: Threads + Wait + Sync, G: Gate + Sync>(
    rt: &R,
    alloc: Global,
    world: &mut Ruled,
    second: &mut Second,
    earlier: &[KeptBook],
    form: &Form,
    limits: &Limits,
    workers: u32,
    gate: &G,
) -> Result<Outcome, NoMemory>
    requires stands { Stands (working_in limits.now earlier.now world.old second.old) }
    ensures text { IfOk result (λ e. (admits (working_in limits.now earlier.now world.old second.old) form.now).text ≡ e.text) }
    ensures refused { IfOk result (λ e. (admits (working_in limits.now earlier.now world.old second.old) form.now).refused ≡ not e.admitted) }
    ensures next { OnOk result ((admits (working_in limits.now earlier.now world.old second.old) form.now).next ≡ working_in limits.now earlier.now world.new second.new) }
    ensures goals { IfOk result (λ e. e.goals ≡ goals_in (admits (working_in limits.now earlier.now world.old second.old) form.now).log) }
    ensures left { (world.new ≡ world.old) ⊎ IsTold (admits (working_in limits.now earlier.now world.old second.old) form.now).log world.new }
    ensures drops { IfOk result (λ e. DividedWalks e.drops (walks_in (admits (working_in limits.now earlier.now world.old second.old) form.now).log)) }
    ensures alone { IfOk result (λ e. workers ≤ 1 → e.drops ≡ []) }
    ensures stands { Stands (working_in limits.now earlier.now world.new second.new) }
{
    again_is_covered();
    worlds_grow();
    let done = work(rt, alloc, world, earlier, form, limits, workers, gate)?;
    recall_sound(world);
    pass_on(second, alloc, earlier, form, done.admitted)?;
    Ok(done)
}

/// Keeps a book's world behind those of the books before.
fn keep_world(earlier: &mut Seq<KeptBook>, name: Bytes, world: World) -> Result<(), NoMemory>
    requires functions { HasFunctions (function_of world.entries) }
    ensures ok { OnOk result (earlier.new ≡ earlier.old ++ (name, world) ∷ []) }
    ensures err { OnErr result (earlier.new ≡ earlier.old) }
    ensures distinct { Each (λ p. are_distinct p.1.entries ≡ true) earlier.old → Each (λ p. are_distinct p.1.entries ≡ true) earlier.new }
{
    world.recall_distinct_names();
    earlier.push(KeptBook::new(name, world))
}

/// The last of these books' worlds, or a given one where there is none.
#[tactic(auto, using(crate::proofs::Leading::last_kept))]
fn last_world(mut earlier: Seq<KeptBook>, world: Ruled) -> World
    ensures { result ≡ last_world earlier world }
{
    match earlier.pop() {
        Some(book) => book.into_world(),
        None => world.into_world(),
    }
}

impl<'a, G> Admitting<'a, G> {
    /// What works events under these limits, from the world that a book begins with. Nothing is kept or noted yet, and no
    /// book is begun.
    pub(crate) fn new(
        alloc: Global,
        limits: Limits,
        workers: u32,
        world: Ruled,
        gate: &'a G,
    ) -> Admitting<'a, G>
        requires begun { world ≡ start }
        requires functions { HasFunctions (function_of world.entries) }
        ensures limits { result.working.limits ≡ limits }
        ensures earlier { result.working.earlier ≡ [] }
        ensures left { left_in result ≡ world }
        ensures workers { result.workers ≡ workers }
        ensures notes { notes_in result ≡ [] }
    {
        Admitting {
            world,
            fresh: true,
            second: Second::Failed(Bytes::new(alloc)),
            earlier: Seq::new(alloc),
            kept: false,
            limits,
            workers,
            gate,
            noted: Vec::new(alloc),
            last: Vec::new(alloc),
        }
    }

    /// Begins a book: both passes begin with the world that each book begins with, which the first book takes over. Where
    /// memory is wanting all stays.
    pub(crate) fn begin(&mut self, alloc: Global) -> Result<(), NoMemory>
        ensures ok { OnOk result (self.new ≡ record self.old { working = begin self.old.working.limits self.old.working.earlier; kept = false }) }
        ensures err { OnErr result (self.new ≡ self.old) }
    {
        if self.fresh {
            let again = once_more(alloc, &self.world)?;
            self.second = Second::SoFar(again);
            self.fresh = false;
            self.kept = false;
            return Ok(());
        }
        let world = starting_world(alloc)?;
        let again = once_more(alloc, &world)?;
        self.world = world;
        self.second = Second::SoFar(again);
        self.kept = false;
        Ok(())
    }

    /// What the book's end prints, and whether it refuses the book.
    pub(crate) fn end(&self, alloc: Global) -> Result<Ended, NoMemory>
        ensures { IfOk result (λ e. Shows (ends self.now.working) e.text e.refused self.now.working) }
    {
        self.second.end(alloc)
    }

    /// Keeps the world of a book's second pass under the book's name. Where memory is wanting nothing is kept.
    #[tactic(auto, using(crate::proofs::Leading::last_kept))]
    pub(crate) fn keep(&mut self, alloc: Global, name: &[u8]) -> Result<(), NoMemory>
        requires { has_failed self.old.working.second ≡ false }
        ensures earlier { OnOk result (self.new.working.earlier ≡ self.old.working.earlier ++ (name.now, kept_by self.old.working.second self.old.working.world) ∷ []) }
        ensures left { OnOk result (left_in self.new ≡ kept_by self.old.working.second self.old.working.world) }
        ensures err { OnErr result (left_in self.new ≡ left_in self.old) }
        ensures limits { self.new.working.limits ≡ self.old.working.limits }
        ensures notes { notes_in self.new ≡ notes_in self.old }
        ensures workers { self.new.workers ≡ self.old.workers }
    {
        let name = Bytes::from_slice(alloc, name)?;
        let second = mem::replace(&mut self.second, Second::Failed(Bytes::new(alloc)));
        match second.into_world() {
            Some(world) => {
                keep_world(&mut self.earlier, name, world)?;
                self.kept = true;
                Ok(())
            }
            None => Ok(()),
        }
    }

    /// What was dropped, in order: the notes are taken. Where memory is wanting they stay.
    pub(crate) fn take_notes(&mut self, alloc: Global) -> Result<Seq<DropNote>, NoMemory>
        ensures notes { IfOk result (λ notes. notes ≡ notes_in self.old) }
        ensures kept { OnErr result (notes_in self.new ≡ notes_in self.old) }
        ensures left { left_in self.new ≡ left_in self.old }
    {
        self.noted.append(&mut self.last)?;
        Ok(Seq::from_vec(mem::replace(&mut self.noted, Vec::new(alloc))))
    }

    /// The world that is left: where the last book is certified, the one that it keeps.
    pub(crate) fn into_world(self) -> World
        ensures { result ≡ left_in self.entry }
    {
        let Admitting {
            world,
            earlier,
            kept,
            ..
        } = self;
        if kept {
            last_world(earlier, world)
        } else {
            world.into_world()
        }
    }
}

impl<G: Gate + Sync> Admitting<'_, G> {
    /// Works an event, in both passes.
    #[tactic(auto, using(crate::proofs::Leading::notes_same))]
    pub(crate) fn admit<R: Threads + Wait + Sync>(
        &mut self,
        rt: &R,
        alloc: Global,
        form: &Form,
    ) -> Result<Turn, NoMemory>
        ensures turn { IfOk result (λ d. Shows (admits self.old.working form.now) d.text d.refused self.new.working) }
        ensures goals { IfOk result (λ d. d.goals ≡ goals_in (admits self.old.working form.now).log) }
        ensures behind { Behind self.old self.new (admits self.old.working form.now).log }
    {
        self.noted.append(&mut self.last)?;
        self.fresh = false;
        let done = work_both(
            rt,
            alloc,
            &mut self.world,
            &mut self.second,
            self.earlier.as_slice(),
            form,
            &self.limits,
            self.workers,
            self.gate,
        )?;
        self.last = done.drops.into_vec();
        Ok(Turn {
            text: done.text,
            refused: !done.admitted,
            goals: done.goals,
        })
    }
}
