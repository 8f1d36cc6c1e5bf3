//! What forms hold, counted without doing them.
ghost use Rattle.std.specs.Prelude.{◌≡◌, ◌++◌, IfOk, OnOk, option_map};
ghost use Rattle.ap_events.specs.Held.{as_list, named_in, with_single, with_all, with_form, held_in};

use crate::nesting::{Nesting, nesting_of};
use ap_list::{Bytes, NoMemory, Seq};
use ap_reader::{Form, is_symbol, items, string};
use std::alloc::{AllocError, Global};

/// How many single events forms hold, and the names of the books that these include, in their order.
#[derive(Drop)]
pub struct Held {
    pub events: usize,
    pub books: Seq<Bytes>,
}

/// The book that a single event includes, if it includes one. Takes no memory.
fn named_in(form: &Form) -> Option<&[u8]>
    ensures { option_map (λ n. n.now) result ≡ named_in form.now }
{
    match items(form) {
        Some([head, name]) if is_symbol(head, b"INCLUDE-BOOK") => string(name),
        _ => None,
    }
}

/// Adds a name, where there is one.
fn add_name(alloc: Global, name: Option<&[u8]>, books: &mut Seq<Bytes>) -> Result<(), NoMemory>
    ensures { OnOk result (books.new ≡ books.old ++ as_list (option_map (λ n. n.now) name.entry)) }
{
    match name {
        Some(name) => books.push(Bytes::from_slice(alloc, name)?),
        None => Ok(()),
    }
}

/// Adds a single event. More of them than a machine word counts is taken for want of memory.
fn add_single(alloc: Global, form: &Form, held: &mut Held) -> Result<(), NoMemory>
    ensures { OnOk result (held.new ≡ with_single form.now held.old) }
{
    let Some(events) = held.events.checked_add(1) else {
        return Err(AllocError);
    };
    add_name(alloc, named_in(form), &mut held.books)?;
    held.events = events;
    Ok(())
}

/// Adds what a form holds, in which at most so many events hold each other.
#[cycle(held)]
fn add_form(alloc: Global, depth: u32, form: &Form, held: &mut Held) -> Result<(), NoMemory>
    ensures { OnOk result (held.new ≡ with_form depth form.now held.old) }
{
    if depth == 0 {
        return add_single(alloc, form, held);
    }
    match nesting_of(form) {
        Nesting::Plain => add_single(alloc, form, held),
        Nesting::Hidden(event) => add_form(alloc, depth - 1, event, held),
        Nesting::Group(forms) => add_all(alloc, depth - 1, forms, held),
        Nesting::Closed(forms) => add_all(alloc, depth - 1, forms, held),
    }
}

/// Adds what forms hold, one after another.
#[cycle(held)]
fn add_all(alloc: Global, depth: u32, forms: &[Form], held: &mut Held) -> Result<(), NoMemory>
    ensures { OnOk result (held.new ≡ with_all (with_form depth) forms.now held.old) }
{
    for form in forms {
        add_form(alloc, depth, form, held)?;
    }
    Ok(())
}

/// What forms hold: each form that is no `local`, `progn` or `encapsulate` is a single event, and so is one of these with a
/// bad shape. The only error is want of memory, for which more events than a machine word counts is taken too.
pub fn held_in(alloc: Global, forms: &[Form]) -> Result<Held, NoMemory>
    ensures { IfOk result (λ held. held ≡ held_in forms.now) }
{
    let mut held = Held {
        events: 0,
        books: Seq::new(alloc),
    };
    add_all(alloc, 400, forms, &mut held)?;
    Ok(held)
}
