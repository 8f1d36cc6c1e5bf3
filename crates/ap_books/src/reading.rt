ghost use Rattle.std.specs.Prelude.{◌≡◌, ◌↔◌, ℕ, List, Ok, Err};
ghost use Rattle.ap_tokens.specs.Gaps.{at};
ghost use Rattle.ap_reader.specs.declared.form.Form.{Form};
ghost use Rattle.ap_reader.specs.Faults.{ReadFault, Gives};
ghost use Rattle.ap_reader.specs.Grammar.{Reads};
ghost use Rattle.ap_reader.specs.Breaks.{Faults};
ghost use Rattle.ap_books.specs.Bodies.{forms_in};

use ap_list::Seq;
use ap_reader::{Form, ReadError, forms};
use std::alloc::Global;

/// Reads a book whole: its forms, or its first fault.
#[tactic(auto, using(crate::proofs::Grammars::grammars))]
pub(crate) fn read_whole(alloc: Global, book: &[u8]) -> Result<Seq<Form>, ReadError>
    ensures { Gives (λ fs. fs) result (forms_in book.now) }
{
    let read = forms(alloc, book);
    read
}

/// What is read of a book is what the reader's grammar has: these forms, or this first fault.
#[tactic(auto, using(crate::proofs::Grammars::grammars))]
pub fn books_are_read_by_the_grammar()
    ensures forms { (t : List ℕ) (fs : List Form) → Reads (at 0 t) fs ↔ (forms_in t ≡ Ok fs) }
    ensures fault { (t : List ℕ) (e : ReadFault) → Faults (at 0 t) e ↔ (forms_in t ≡ Err e) }
{}
