ghost use Rattle.std.specs.Prelude.{◌≡◌, IfOk};
ghost use Rattle.ap_books.specs.Bodies.{begins_well, events_behind, events_read, events_in, forms_in};
ghost use Rattle.ap_books.specs.Texts.{absent_text, too_long_text};

use crate::package::is_package;
use crate::reading::read_whole;
use crate::texts;
use ap_list::{Bytes, NoMemory, Seq};
use ap_outside::BookRead;
use ap_reader::{Form, ReadError};
use std::alloc::{AllocError, Global};
use std::marker::Model;

/// The events of a book: the forms behind its first one, which names the package. Contracts see their list.
#[derive(Drop)]
pub struct Events {
    forms: Seq<Form>,
}

impl Model for Events {
    ghost use Rattle.std.specs.Prelude.{List};
    ghost use Rattle.std.specs.Coded.{codes};
    ghost use Rattle.ap_reader.specs.contracts.form.Body as body;
    ghost use Rattle.ap_reader.specs.declared.form.Form.{Form};
    ghost use Rattle.ap_books.specs.Bodies.{behind};

    ghost Value = { List Form };

    ghost coded = { Prim.hlevel (codes, body.the_row.coded) };

    ghost view = { λ e. behind e.forms };
}

impl Events {
    /// The events in order, lent.
    pub fn as_slice(&self) -> &[Form]
        ensures { result.now ≡ self.now }
    {
        let forms = self.forms.as_slice();
        match forms {
            [_, events @ ..] => events,
            [] => forms,
        }
    }
}

/// Whether the first of these forms names the package.
fn begins_well(forms: &[Form]) -> bool
    ensures { result ≡ begins_well forms.now }
{
    match forms {
        [first, ..] => is_package(first),
        [] => false,
    }
}

/// The events among the forms of a book, or what is printed of a book that has none.
#[tactic(auto, unfolding(crate::specs::Texts::no_package_text))]
fn events_behind(alloc: Global, forms: Seq<Form>) -> Result<Result<Events, Bytes>, NoMemory>
    ensures { IfOk result (λ events. events ≡ events_behind forms) }
{
    if begins_well(forms.as_slice()) {
        return Ok(Ok(Events { forms }));
    }
    let text = Bytes::from_slice(alloc, b"IN-PACKAGE refused 12 NoInPackage\n")?;
    Ok(Err(text))
}

/// Reads a book whole: its events, or what is printed of a book that has none.
fn read_events(alloc: Global, book: &[u8]) -> Result<Result<Events, Bytes>, NoMemory>
    ensures { IfOk result (λ events. events ≡ events_read (forms_in book.now)) }
{
    match read_whole(alloc, book) {
        Ok(forms) => events_behind(alloc, forms),
        Err(ReadError::Fault { place, kind }) => {
            let text = texts::read_error(alloc, place, kind)?;
            Ok(Err(text))
        }
        Err(ReadError::NoMemory) => Err(AllocError),
    }
}

/// The body of a book that isn't there.
#[tactic(auto, unfolding(crate::specs::Texts::absent_text))]
fn absent(alloc: Global) -> Result<Bytes, NoMemory>
    ensures { IfOk result (λ text. text ≡ absent_text) }
{
    Bytes::from_slice(alloc, b"Absent\n")
}

/// The body of a book that is too long.
#[tactic(auto, unfolding(crate::specs::Texts::too_long_text))]
fn too_long(alloc: Global) -> Result<Bytes, NoMemory>
    ensures { IfOk result (λ text. text ≡ too_long_text) }
{
    Bytes::from_slice(alloc, b"Too long\n")
}

/// The events of a book that was read, or what is printed of a book that has none: one that isn't there, is too long,
/// has a fault of reading, or doesn't begin with its package.
pub fn events_in(alloc: Global, read: &BookRead) -> Result<Result<Events, Bytes>, NoMemory>
    ensures { IfOk result (λ events. events ≡ events_in read.now) }
{
    match read {
        BookRead::Absent => Ok(Err(absent(alloc)?)),
        BookRead::TooLong => Ok(Err(too_long(alloc)?)),
        BookRead::Found(book) => read_events(alloc, book.0.as_slice()),
    }
}
