//! What a book's world adds to a world: the entries whose names aren't there, and what its theory disables
//! besides.
ghost use Rattle.std.specs.Prelude.{◌≡◌, [], ◌∷◌, ◌++◌, OnOk, OnErr, IfOk, false, true, is_some};
ghost use Rattle.ap_world.specs.Including.{missing, is_other, has_clash, with_missing, besides, merged};
ghost use Rattle.ap_world.specs.Primitives.{prim_of};
ghost use Rattle.ap_world.specs.World.{name_in, entry_of, are_distinct};

use crate::entries::Entries;
use crate::entry::Entry;
use crate::same::alike_entry;
use crate::theory::{Rune, Theory, copy_rune, copy_theory};
use ap_list::{NoMemory, Seq};
use std::alloc::Global;

/// Whether another entry than this one stands under its name, masks aside.
fn is_other(entries: &Entries, entry: &Entry) -> bool
    ensures { result ≡ is_other (entry_of entries.now (name_in entry.now)) entry.now }
{
    match entries.find(entry.name()) {
        Some(found) => !alike_entry(entry, found),
        None => false,
    }
}

/// Whether another entry stands under a name of the list, masks aside: a look-up for each entry of it. Takes
/// no memory.
pub(crate) fn has_clash(entries: &Entries, list: &[Entry]) -> bool
    ensures { result ≡ has_clash entries.now list.now }
{
    let mut left = list;
    while let [first, rest @ ..] = left {
        if is_other(entries, first) {
            return true;
        }
        left = rest;
    }
    false
}

/// Adds a copy of an entry at the end, unless its name, which is no primitive's, is there. Where memory is
/// refused the entries stay as they were.
fn add_new(alloc: Global, entries: &mut Entries, entry: &Entry) -> Result<(), NoMemory>
    requires { is_some (prim_of (name_in entry.now)) ≡ false }
    ensures ok { OnOk result (entries.new ≡ with_missing entries.old (entry.now ∷ [])) }
    ensures err { OnErr result (entries.new ≡ entries.old) }
{
    if entries.has(entry.name()) {
        return Ok(());
    }
    entries.push_copy(alloc, entry)
}

/// Adds copies of the entries whose names aren't there at the end, in their order: a look-up for each entry
/// of the list. Where memory is refused the entries stay as they were.
pub(crate) fn add_missing(
    alloc: Global,
    entries: &mut Entries,
    list: &[Entry],
) -> Result<(), NoMemory>
    requires { are_distinct list.now ≡ true }
    ensures ok { OnOk result (entries.new ≡ with_missing entries.old list.now) }
    ensures err { OnErr result (entries.new ≡ entries.old) }
{
    let count = entries.len();
    for entry in list {
        if let Err(error) = add_new(alloc, entries, entry) {
            entries.truncate(count);
            return Err(error);
        }
    }
    Ok(())
}

/// A copy of a list of runes.
fn copy_runes(alloc: Global, runes: &[Rune]) -> Result<Seq<Rune>, NoMemory>
    ensures { IfOk result (λ r. r ≡ runes.now) }
{
    let mut out = Seq::new(alloc);
    for rune in runes {
        out.push(copy_rune(alloc, rune)?)?;
    }
    Ok(out)
}

/// Adds a copy of a rune at the end, where a theory enables it.
fn push_enabled(
    alloc: Global,
    theory: &Theory,
    out: &mut Seq<Rune>,
    rune: &Rune,
) -> Result<(), NoMemory>
    ensures { OnOk result (out.new ≡ out.old ++ besides theory.now.disabled (rune.now ∷ [])) }
{
    if !theory.enables(rune) {
        return Ok(());
    }
    let copied = copy_rune(alloc, rune)?;
    out.push(copied)?;
    Ok(())
}

/// Copies of those runes of a list that a theory enables, in their order.
fn besides(alloc: Global, theory: &Theory, runes: &[Rune]) -> Result<Seq<Rune>, NoMemory>
    ensures { IfOk result (λ r. r ≡ besides theory.now.disabled runes.now) }
{
    let mut out = Seq::new(alloc);
    for rune in runes {
        push_enabled(alloc, theory, &mut out, rune)?;
    }
    Ok(out)
}

/// A theory with what another one disables besides, at its end and in the other's order: a look-up for each
/// of those runes. Where there is none the runes are shared.
pub(crate) fn merged(alloc: Global, theory: &Theory, other: &Theory) -> Result<Theory, NoMemory>
    ensures { IfOk result (λ t. t ≡ merged theory.now other.now) }
{
    let more = besides(alloc, theory, other.disabled())?;
    if more.is_empty() {
        return copy_theory(alloc, theory);
    }
    let mut runes = copy_runes(alloc, theory.disabled())?;
    runes.append(more)?;
    Theory::disabling(alloc, runes)
}
