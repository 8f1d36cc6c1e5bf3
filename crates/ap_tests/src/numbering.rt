ghost use Rattle.std.specs.Prelude.{◌≡◌, [], ◌∷◌, IfOk};

use ap_books::{Admitter, Ended};
use ap_list::{Bytes, NoMemory};
use ap_reader::Form;
use std::alloc::Global;
use std::sync::Wait;
use std::thread::Threads;

/// Numbers the forms that it is handed: each prints its number as a byte, and the one numbered `last` is refused. The
/// book's end prints a point.
#[derive(Drop)]
pub(crate) struct Numbering {
    pub(crate) next: u8,
    pub(crate) last: u8,
}

/// A text of one byte.
fn one_byte(alloc: Global, byte: u8) -> Result<Bytes, NoMemory>
    ensures { IfOk result (λ text. text ≡ byte ∷ []) }
{
    let mut text = Bytes::new(alloc);
    text.push(byte)?;
    Ok(text)
}

impl Admitter for Numbering {
    ghost use Rattle.std.specs.Prelude.{ℕ};
    ghost use Rattle.ap_tests.specs.Numbering.{Numbers, numbered, ended};

    ghost State = { Numbers };

    ghost Log = { ℕ };

    ghost state = { λ s. record { next = s.next; last = s.last } };

    ghost admits = { λ s _. numbered s };

    ghost ends = { ended };

    ghost links = { λ _ _ _. Unit {0} };

    ghost rests = { λ _ _. Unit {0} };

    fn admit_form<R: Threads + Wait + Sync>(
        &mut self,
        _rt: &R,
        alloc: Global,
        _form: &Form,
    ) -> Result<Ended, NoMemory> {
        let text = one_byte(alloc, self.next)?;
        let refused = self.next == self.last;
        self.next = self.next.saturating_add(1);
        Ok(Ended { text, refused })
    }

    fn end_book<R: Threads + Wait + Sync>(
        &mut self,
        _rt: &R,
        alloc: Global,
    ) -> Result<Ended, NoMemory> {
        let text = one_byte(alloc, 46)?;
        Ok(Ended {
            text,
            refused: false,
        })
    }
}
