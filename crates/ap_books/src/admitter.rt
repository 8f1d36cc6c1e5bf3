ghost use Rattle.std.specs.Prelude.{◌≡◌, IfOk, OnOk, OnErr, List};
ghost use Rattle.ap_reader.specs.declared.form.Form.{Form};
ghost use Rattle.ap_books.specs.Bodies.{Turn, Shows};

use ap_list::{Bytes, NoMemory};
use ap_outside::BookRead;
use ap_reader::Form;
use ap_value::BookName;
use std::alloc::Global;
use std::sync::Wait;
use std::thread::Threads;

/// A book that was read, as the read answered.
#[derive(Debug, Drop)]
pub struct BookSeen {
    pub name: BookName,
    pub read: BookRead,
}

/// What a call of an admitter printed, and whether it refused.
#[derive(Drop)]
pub struct Ended {
    pub text: Bytes,
    pub refused: bool,
}

/// Why a book's work ended before its end.
#[derive(Clone, Copy, Debug, PartialEq, Eq)]
pub enum BookFault {
    /// The sink failed, which it counted.
    Write,
    NoMemory,
}

/// What works the forms of a book, one after another. What a form prints and whether it is refused is a meaning of
/// the form and of the admitter's state; so are the state after it and what is told of it besides.
pub trait Admitter {
    /// What is determined of an admitter.
    ghost State: { Type 0 };

    ghost state: { Self → State };

    /// What is told of its work besides.
    ghost Log: { Type 0 };

    /// What a form gives.
    ghost admits: { State → Form → Turn State Log };

    /// What the book's end gives.
    ghost ends: { State → Turn State Log };

    /// What holds of an admitter before and after a form, where that isn't determined.
    ghost links: { Self → Form → Self → Type 0 };

    /// The same where no form was worked.
    ghost rests: { Self → Self → Type 0 };

    /// Works a form behind the book's first one. Where memory is wanting the state is as it was.
    fn admit_form<R: Threads + Wait + Sync>(
        &mut self,
        rt: &R,
        alloc: Global,
        form: &Form,
    ) -> Result<Ended, NoMemory>
        ensures turn { IfOk result (λ e. Shows (admits (state self.old) form.now) e.text e.refused (state self.new)) }
        ensures links { OnOk result (links self.old form.now self.new) }
        ensures kept { OnErr result (state self.new ≡ state self.old) }
        ensures rests { OnErr result (rests self.old self.new) };

    /// Ends the book, of which each form was admitted. Where memory is wanting the state is as it was.
    fn end_book<R: Threads + Wait + Sync>(
        &mut self,
        rt: &R,
        alloc: Global,
    ) -> Result<Ended, NoMemory>
        ensures turn { IfOk result (λ e. Shows (ends (state self.old)) e.text e.refused (state self.new)) }
        ensures kept { OnErr result (state self.new ≡ state self.old) }
        ensures rests { rests self.old self.new };
}
