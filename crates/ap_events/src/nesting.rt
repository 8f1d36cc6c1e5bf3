//! What forms hold events.
ghost use Rattle.std.specs.Prelude.{◌≡◌, ◌∷◌, Some};
ghost use Rattle.ap_reader.specs.Tops.{items_in};
ghost use Rattle.ap_events.specs.Lent.{as_nesting};
ghost use Rattle.ap_events.specs.Nested.{hidden_in, closed_by, closed_in, nesting_by, nesting_of};

use ap_reader::{Form, is_symbol, items};

/// What a form holds: `(local E)`, `(progn E ..)`, `(encapsulate () E ..)`. Another form holds no events.
#[derive(Clone, Copy)]
pub(crate) enum Nesting<'a> {
    Plain,
    Hidden(&'a Form),
    Group(&'a [Form]),
    Closed(&'a [Form]),
}

/// What a `local` holds, by what follows its head.
fn hidden_in(rest: &[Form]) -> Nesting<'_>
    ensures { as_nesting result ≡ hidden_in rest.now }
{
    match rest {
        [event] => Nesting::Hidden(event),
        _ => Nesting::Plain,
    }
}

/// What an `encapsulate` holds, by what is in place of its signatures and what follows.
fn closed_by<'a>(signatures: &Form, events: &'a [Form]) -> Nesting<'a>
    ensures { as_nesting result ≡ closed_by (items_in signatures.now) events.now }
{
    match items(signatures) {
        Some([]) => Nesting::Closed(events),
        _ => Nesting::Plain,
    }
}

/// What an `encapsulate` holds, by what follows its head.
fn closed_in(rest: &[Form]) -> Nesting<'_>
    ensures { as_nesting result ≡ closed_in rest.now }
{
    match rest {
        [signatures, events @ ..] => closed_by(signatures, events),
        [] => Nesting::Plain,
    }
}

/// What a list holds, by its head and what follows.
fn headed<'a>(head: &Form, rest: &'a [Form]) -> Nesting<'a>
    ensures { as_nesting result ≡ nesting_by (Some (head.now ∷ rest.now)) }
{
    if is_symbol(head, b"LOCAL") {
        hidden_in(rest)
    } else if is_symbol(head, b"PROGN") {
        Nesting::Group(rest)
    } else if is_symbol(head, b"ENCAPSULATE") {
        closed_in(rest)
    } else {
        Nesting::Plain
    }
}

/// What a form holds. Takes no memory.
#[tactic(auto, unfolding(crate::specs::Nested::nesting_of))]
pub(crate) fn nesting_of(form: &Form) -> Nesting<'_>
    ensures { as_nesting result ≡ nesting_of form.now }
{
    match items(form) {
        Some([head, rest @ ..]) => headed(head, rest),
        _ => Nesting::Plain,
    }
}
