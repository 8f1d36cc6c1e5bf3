//! The second pass of a book, which is made beside the first one, event by event.
ghost use Rattle.std.specs.Prelude.{◌≡◌, cond, Some, None, List, IfOk, OnOk, OnErr};
ghost use Rattle.ap_world.specs.declared.entry.Entry.{Entry};
ghost use Rattle.ap_world.specs.Sound.{HasFunctions};
ghost use Rattle.ap_world.specs.World.{function_of};
ghost use Rattle.ap_events.specs.Backing.{Backed};
ghost use Rattle.ap_events.specs.Books.{worked_again};
ghost use Rattle.ap_session.specs.Working.{IfSoFar, second_after, end_text, has_failed, world_of, Leaves};

use ap_books::Ended;
use ap_events::{KeptBook, Outcome, Ruled, second_text, work_again};
use ap_list::{Bytes, NoMemory};
use ap_reader::Form;
use ap_world::World;
use std::alloc::Global;

/// The second pass of the events so far: the world that it gave, or what it printed of the event that it refused.
#[derive(Drop)]
pub(crate) enum Second {
    SoFar(Ruled),
    Failed(Bytes),
}

/// What an event printed that was done again, where it was refused.
fn refused_text(done: Outcome) -> Option<Bytes>
    ensures { result ≡ cond done.admitted None (Some done.text) }
{
    let Outcome { text, admitted, .. } = done;
    if admitted { None } else { Some(text) }
}

/// Does an event again. Answers what it printed, where it was refused; the world is then as it was.
fn again(
    alloc: Global,
    world: &mut Ruled,
    earlier: &[KeptBook],
    form: &Form,
) -> Result<Option<Bytes>, NoMemory>
    requires functions { HasFunctions (function_of world.old.entries) }
    requires backed { (U : List Entry) × Backed (worked_again earlier.now world.old form.now) world.old U }
    ensures ok { IfOk result (λ o. Leaves (worked_again earlier.now world.old form.now) world.new o) }
    ensures err { OnErr result (world.new ≡ world.old) }
    ensures functions { HasFunctions (function_of world.new.entries) }
{
    let done = work_again(alloc, world, earlier, form)?;
    Ok(refused_text(done))
}

impl Second {
    /// Does an event of the book again: the second pass goes on, or ends where the event is refused. Where memory is
    /// wanting it is as it was.
    pub(crate) fn do_again(
        &mut self,
        alloc: Global,
        earlier: &[KeptBook],
        form: &Form,
    ) -> Result<(), NoMemory>
        requires functions { IfSoFar (λ v. HasFunctions (function_of v.entries)) self.old }
        requires backed { IfSoFar (λ v. (U : List Entry) × Backed (worked_again earlier.now v form.now) v U) self.old }
        ensures ok { OnOk result (self.new ≡ second_after earlier.now form.now self.old) }
        ensures err { OnErr result (self.new ≡ self.old) }
        ensures functions { IfSoFar (λ v. HasFunctions (function_of v.entries)) self.new }
    {
        match self {
            Second::SoFar(world) => match again(alloc, world, earlier, form)? {
                Some(text) => {
                    *self = Second::Failed(text);
                    Ok(())
                }
                None => Ok(()),
            },
            Second::Failed(_) => Ok(()),
        }
    }

    /// What is printed at the book's end, and whether that refuses the book: the line `Second pass` and that of the
    /// refused event, where there is one.
    pub(crate) fn end(&self, alloc: Global) -> Result<Ended, NoMemory>
        ensures text { IfOk result (λ e. e.text ≡ end_text self.now) }
        ensures refused { IfOk result (λ e. e.refused ≡ has_failed self.now) }
    {
        match self {
            Second::SoFar(_) => Ok(Ended {
                text: Bytes::new(alloc),
                refused: false,
            }),
            Second::Failed(refused) => {
                let text = second_text(alloc, refused.as_slice())?;
                Ok(Ended {
                    text,
                    refused: true,
                })
            }
        }
    }

    /// The world that it gave, where it refused nothing.
    pub(crate) fn into_world(self) -> Option<World>
        ensures { result ≡ world_of self }
    {
        match self {
            Second::SoFar(world) => Some(world.into_world()),
            Second::Failed(_) => None,
        }
    }
}
