//! The printed lines of events. The only error is want of memory.
ghost use Rattle.std.specs.Prelude.{◌≡◌, IfOk};
ghost use Rattle.ap_term.specs.Printed.{symbol_text};
ghost use Rattle.ap_stated.specs.Texts.{title, said_line, refused_line, event_text, measure_term, measure_line, obligation_line};

use crate::refusing::{Refusal, refusal_text};
use ap_list::{Bytes, NoMemory};
use ap_print::print_term;
use ap_term::{Term, copy_term, copy_terms};
use ap_value::{Symbol, acl2, copy_symbol};
use itoa::Buffer;
use std::alloc::Global;

/// The printed bytes of a symbol.
#[tactic(auto, using(crate::proofs::Symbols::variable_text))]
pub fn printed(alloc: Global, symbol: &Symbol) -> Result<Bytes, NoMemory>
    ensures { IfOk result (λ text. text ≡ symbol_text symbol.now) }
{
    let term = Term::var(copy_symbol(alloc, symbol)?);
    print_term(alloc, &term)
}

/// The title of an event with a name: its head and the name.
#[tactic(auto, unfolding(crate::specs::Texts::title))]
pub fn title(alloc: Global, head: &[u8], name: &Symbol) -> Result<Bytes, NoMemory>
    ensures { IfOk result (λ text. text ≡ title head.now name.now) }
{
    let mut text = Bytes::from_slice(alloc, head)?;
    text.extend(b" ")?;
    text.extend(printed(alloc, name)?.as_slice())?;
    Ok(text)
}

/// The last line of an event, by its title and what became of it.
#[tactic(auto, unfolding(crate::specs::Texts::said_line))]
pub fn said_line(alloc: Global, title: &[u8], said: &[u8]) -> Result<Bytes, NoMemory>
    ensures { IfOk result (λ text. text ≡ said_line title.now said.now) }
{
    let mut text = Bytes::from_slice(alloc, title)?;
    text.extend(said)?;
    text.push(10)?;
    Ok(text)
}

/// The last line of a refused event.
#[tactic(auto, unfolding(crate::specs::Texts::refused_line))]
pub fn refused_line(alloc: Global, title: &[u8], refusal: Refusal) -> Result<Bytes, NoMemory>
    ensures { IfOk result (λ text. text ≡ refused_line title.now refusal) }
{
    let mut text = Bytes::from_slice(alloc, title)?;
    text.extend(b" refused ")?;
    text.extend(refusal_text(alloc, refusal)?.as_slice())?;
    text.push(10)?;
    Ok(text)
}

/// What an event with a name prints: a line of its title, other lines, and the last.
pub fn event_text(alloc: Global, title: &[u8], lines: &[u8], last: &[u8]) -> Result<Bytes, NoMemory>
    ensures { IfOk result (λ text. text ≡ event_text title.now lines.now last.now) }
{
    let mut text = Bytes::from_slice(alloc, title)?;
    text.push(10)?;
    text.extend(lines)?;
    text.extend(last)?;
    Ok(text)
}

/// A measure as a term: its one component, or `(LEX m1 .. mk)`.
fn measure_term(alloc: Global, components: &[Term]) -> Result<Term, NoMemory>
    ensures { IfOk result (λ t. t ≡ measure_term components.now) }
{
    match components {
        [component] => copy_term(alloc, component),
        _ => {
            let head = acl2(alloc, b"LEX")?;
            Term::call(alloc, head, copy_terms(alloc, components)?)
        }
    }
}

/// The line of a measure.
#[tactic(auto, unfolding(crate::specs::Texts::measure_line))]
pub(crate) fn measure_line(alloc: Global, components: &[Term]) -> Result<Bytes, NoMemory>
    ensures { IfOk result (λ text. text ≡ measure_line components.now) }
{
    let term = measure_term(alloc, components)?;
    let mut text = Bytes::from_slice(alloc, b"Measure ")?;
    text.extend(print_term(alloc, &term)?.as_slice())?;
    text.push(10)?;
    Ok(text)
}

/// The line of an obligation, by its number.
#[tactic(auto, unfolding(crate::specs::Texts::obligation_line))]
pub(crate) fn obligation_line(alloc: Global, k: usize) -> Result<Bytes, NoMemory>
    ensures { IfOk result (λ text. text ≡ obligation_line k) }
{
    let mut number = Buffer::new();
    let mut text = Bytes::from_slice(alloc, b"Obligation ")?;
    text.extend(number.format(k).as_bytes())?;
    text.push(10)?;
    Ok(text)
}
