ghost use Rattle.std.specs.Prelude.{◌≡◌};
ghost use Rattle.ap_plain.specs.Events.{kind_of};

use ap_value::{Symbol, is_named};

/// The kinds of events. `defthmd` and `defund` make what `defthm` and `defun` make, and disable it.
#[derive(Clone, Copy, Debug)]
pub enum Kind {
    Theorem,
    DisabledTheorem,
    Function,
    DisabledFunction,
    Constant,
    Theory,
}

/// The kind of an event by the symbol at its head; `None` where it isn't built. Takes no memory.
#[tactic(auto, unfolding(crate::specs::Events::kind_of))]
pub fn kind_of(head: &Symbol) -> Option<Kind>
    ensures { result ≡ kind_of head.now }
{
    if is_named(head, b"DEFTHM") {
        Some(Kind::Theorem)
    } else if is_named(head, b"DEFTHMD") {
        Some(Kind::DisabledTheorem)
    } else if is_named(head, b"DEFUN") {
        Some(Kind::Function)
    } else if is_named(head, b"DEFUND") {
        Some(Kind::DisabledFunction)
    } else if is_named(head, b"DEFCONST") {
        Some(Kind::Constant)
    } else if is_named(head, b"IN-THEORY") {
        Some(Kind::Theory)
    } else {
        None
    }
}
