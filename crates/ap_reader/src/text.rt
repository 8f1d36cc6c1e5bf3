ghost use Rattle.std.specs.Prelude.{◌≡◌, List, Ok, Err, IfOk, IfErr, ◌⊎◌};
ghost use Rattle.ap_tokens.specs.Gaps.{At, at};
ghost use Rattle.ap_reader.specs.declared.form.Form.{Form};
ghost use Rattle.ap_reader.specs.Faults.{ReadFault, Gives, OnFault};
ghost use Rattle.ap_reader.specs.Grammar.{Reads};
ghost use Rattle.ap_reader.specs.Breaks.{Faults};

use crate::fault::ReadError;
use crate::form::Form;
use crate::reading::all;
use ap_value::Seq;
use std::alloc::Global;

/// The forms of a text, in their order, as the manual's topic `reader` has them on this fragment. What is
/// answered is spelled so, and what is spelled so is answered unless memory runs out. Else the answer is
/// the first fault in reading order, at the first byte of its token. Up to 400 lists, quote marks,
/// backquotes and commas may stand within each other; the tokens are gone through once.
#[tactic(auto, using(crate::proofs::Answered::answered))]
pub fn forms(alloc: Global, text: &[u8]) -> Result<Seq<Form>, ReadError>
    ensures found { IfOk result (λ fs. Reads (at 0 text.now) fs) }
    ensures only { (fs : List Form) → Reads (at 0 text.now) fs → Gives (λ gs. gs) result (Ok fs) }
    ensures fault { IfErr result (λ e. OnFault e (λ f. Faults (at 0 text.now) f)) }
    ensures only_fault { (f : ReadFault) → Faults (at 0 text.now) f → Gives (λ gs. gs) result (Err f) }
{
    all(alloc, text)
}

/// A text, from any place on, has one list of forms or one first fault, and not both.
pub fn one_answer()
    ensures once { (a : At) (fs gs : List Form) → Reads a fs → Reads a gs → fs ≡ gs }
    ensures first { (a : At) (e f : ReadFault) → Faults a e → Faults a f → e ≡ f }
    ensures apart { (a : At) (fs : List Form) (e : ReadFault) → Reads a fs → Faults a e → ⊥ }
    ensures some { (a : At) → ((fs : List Form) × Reads a fs) ⊎ ((e : ReadFault) × Faults a e) }
{}
