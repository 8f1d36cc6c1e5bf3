//! Changes of the current theory, as the event `in-theory` and the hint `:in-theory` write them.
ghost use Rattle.std.specs.Prelude.{◌≡◌, IfOk, option_map};
ghost use Rattle.ap_reader.specs.Tops.{items_in};
ghost use Rattle.ap_hints.specs.Changes.{as_changed, both_lists, changes_by, kind_of, known_rune, rune_by, item_runes, all_runes, changed_theory};

use crate::runes::{changed_runes, knows_kind, rune_of, runes_named};
use ap_list::{NoMemory, Seq};
use ap_reader::{Form, is_keyword, is_symbol, items, symbol};
use ap_value::Symbol;
use ap_world::{Rune, RuneKind, Theory, World};
use std::alloc::Global;

/// What an `in-theory` enables, and what it then disables, lent.
#[derive(Clone, Copy)]
pub struct Changes<'a> {
    pub enabled: &'a [Form],
    pub disabled: &'a [Form],
}

/// The two lists of `(e/d (R ..) (R ..))`.
fn both_lists(forms: &[Form]) -> Option<Changes<'_>>
    ensures { option_map as_changed result ≡ both_lists forms.now }
{
    match forms {
        [first, second] => {
            let enabled = items(first)?;
            let disabled = items(second)?;
            Some(Changes { enabled, disabled })
        }
        _ => None,
    }
}

/// What `(enable R ..)`, `(disable R ..)` or `(e/d (R ..) (R ..))` changes.
pub fn changes_by(form: &Form) -> Option<Changes<'_>>
    ensures { option_map as_changed result ≡ changes_by (items_in form.now) }
{
    match items(form) {
        Some([head, rest @ ..]) => {
            if is_symbol(head, b"ENABLE") {
                Some(Changes {
                    enabled: rest,
                    disabled: &[],
                })
            } else if is_symbol(head, b"DISABLE") {
                Some(Changes {
                    enabled: &[],
                    disabled: rest,
                })
            } else if is_symbol(head, b"E/D") {
                both_lists(rest)
            } else {
                None
            }
        }
        _ => None,
    }
}

/// The kind of runes that a keyword names.
#[tactic(auto, unfolding(crate::specs::Changes::kind_of))]
fn kind_of(form: &Form) -> Option<RuneKind>
    ensures { result ≡ kind_of form.now }
{
    if is_keyword(form, b"DEFINITION") {
        Some(RuneKind::Definition)
    } else if is_keyword(form, b"EXECUTABLE-COUNTERPART") {
        Some(RuneKind::Executable)
    } else if is_keyword(form, b"TYPE-PRESCRIPTION") {
        Some(RuneKind::TypePrescription)
    } else if is_keyword(form, b"INDUCTION") {
        Some(RuneKind::Induction)
    } else if is_keyword(form, b"REWRITE") {
        Some(RuneKind::Rewrite)
    } else if is_keyword(form, b"LINEAR") {
        Some(RuneKind::Linear)
    } else if is_keyword(form, b"ELIM") {
        Some(RuneKind::Elim)
    } else {
        None
    }
}

/// The rune of a kind and a name alone, where the world knows it.
fn known_rune(
    alloc: Global,
    w: &World,
    kind: RuneKind,
    name: &Symbol,
) -> Result<Option<Seq<Rune>>, NoMemory>
    ensures { IfOk result (λ o. o ≡ known_rune w.now.entries kind name.now) }
{
    if !knows_kind(w, kind, name) {
        return Ok(None);
    }
    let mut out = Seq::new(alloc);
    out.push(rune_of(alloc, kind, name)?)?;
    Ok(Some(out))
}

/// The rune that `(KIND NAME)` is, where the world knows it.
fn rune_by(alloc: Global, w: &World, form: &Form) -> Result<Option<Seq<Rune>>, NoMemory>
    ensures { IfOk result (λ o. o ≡ rune_by w.now.entries (items_in form.now)) }
{
    match items(form) {
        Some([kind, name]) => match (kind_of(kind), symbol(name)) {
            (Some(kind), Some(name)) => known_rune(alloc, w, kind, name),
            _ => Ok(None),
        },
        _ => Ok(None),
    }
}

/// The runes that a name or a rune stands for, where the world knows it.
fn item_runes(alloc: Global, w: &World, form: &Form) -> Result<Option<Seq<Rune>>, NoMemory>
    ensures { IfOk result (λ o. o ≡ item_runes w.now.entries form.now) }
{
    match symbol(form) {
        Some(name) => runes_named(alloc, w, name),
        None => rune_by(alloc, w, form),
    }
}

/// The runes that names and runes stand for, or `None` where one isn't known.
fn all_runes(alloc: Global, w: &World, forms: &[Form]) -> Result<Option<Seq<Rune>>, NoMemory>
    ensures { IfOk result (λ o. o ≡ all_runes w.now.entries forms.now) }
{
    let mut out = Seq::new(alloc);
    for form in forms {
        let Some(runes) = item_runes(alloc, w, form)? else {
            return Ok(None);
        };
        out.append(runes)?;
    }
    Ok(Some(out))
}

/// The theory that changes make of the current one, or `None` where a name or a rune isn't known.
pub fn changed_theory(
    alloc: Global,
    w: &World,
    changes: &Changes<'_>,
) -> Result<Option<Theory>, NoMemory>
    ensures { IfOk result (λ o. o ≡ changed_theory w.now (as_changed changes.now)) }
{
    let Some(enabled) = all_runes(alloc, w, changes.enabled)? else {
        return Ok(None);
    };
    let Some(disabled) = all_runes(alloc, w, changes.disabled)? else {
        return Ok(None);
    };
    let theory = changed_runes(alloc, enabled.as_slice(), disabled.as_slice(), w.theory())?;
    Ok(Some(theory))
}
