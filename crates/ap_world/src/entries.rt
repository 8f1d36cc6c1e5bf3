ghost use Rattle.std.specs.Prelude.{◌≡◌, ◌-◌, ◌<◌, [], ◌∷◌, ◌++◌, false, true, is_some, length, take, map, slice_get, IfOk, OnOk, OnErr, OnSome};
ghost use Rattle.std.specs.Option.{option_copied, option_map};
ghost use Rattle.ap_value.specs.declared.symbol.Symbol.{Symbol};
ghost use Rattle.ap_world.specs.Kept.{prescribed_in};
ghost use Rattle.ap_world.specs.Prescribing.{theorems_about};
ghost use Rattle.ap_world.specs.World.{name_in, entry_of, as_theorem, has_name, are_distinct, are_taken};

use crate::entry::{Entry, Function, Theorem, copy_entry};
use crate::prescribing::prescribed_in;
use crate::tables::Tables;
use ap_list::{NoMemory, Seq};
use ap_value::{Symbol, copy_symbol};
use std::alloc::Global;
use std::marker::Model;

/// The entries of a world in their order, with tables by which they are found without a scan. Contracts see
/// the list. Its type keeps that their names are distinct, and no primitive's.
pub(crate) struct Entries {
    list: Seq<Entry>,
    tables: Tables,
}

// One call wherever entries are let go, whatever their tables hold.
impl Drop for Entries {
    fn drop(self) {
        let Entries {
            list: _list,
            tables: _tables,
        } = self;
    }
}

impl Model for Entries {
    ghost use Rattle.std.specs.Prelude.{List};
    ghost use Rattle.std.specs.Coded.{coded_list};
    ghost use Rattle.ap_world.specs.declared.entry.Entry.{Entry};
    ghost use Rattle.ap_world.specs.contracts.entry.Entry as entry;
    ghost use Rattle.ap_world.specs.Kept.{Tabled};

    ghost Value = { List Entry };

    ghost coded = { coded_list entry.the_row.coded };

    ghost view = { λ entries. entries.list };

    ghost invariant = { λ entries. Tabled entries.list entries.tables.names entries.tables.places };
}

/// The theorem, where the entry is one.
fn as_theorem(entry: Option<&Entry>) -> Option<&Theorem>
    ensures { option_copied result ≡ as_theorem (option_copied entry.entry) }
{
    match entry {
        Some(Entry::Theorem(theorem)) => Some(theorem),
        _ => None,
    }
}

/// A copy of a name, where there is one.
fn copy_name(alloc: Global, name: Option<&Symbol>) -> Result<Option<Symbol>, NoMemory>
    ensures { IfOk result (λ copy. copy ≡ option_copied name.entry) }
{
    match name {
        None => Ok(None),
        Some(name) => Ok(Some(copy_symbol(alloc, name)?)),
    }
}

/// The names by which an entry is found: its own, and that of the function that it is a type prescription
/// about.
#[derive(Drop)]
struct Names {
    name: Symbol,
    about: Option<Symbol>,
}

/// Copies of the names by which an entry is found.
fn names_in(alloc: Global, entry: &Entry) -> Result<Names, NoMemory>
    ensures { IfOk result (λ names. names ≡ record { name = name_in entry.now; about = prescribed_in entry.now }) }
{
    let about = copy_name(alloc, prescribed_in(entry))?;
    let name = copy_symbol(alloc, entry.name())?;
    Ok(Names { name, about })
}

impl Entries {
    /// No entries. Takes no memory.
    pub(crate) fn new(alloc: Global) -> Entries
        ensures { result ≡ [] }
    {
        Entries {
            list: Seq::new(alloc),
            tables: Tables::new(alloc),
        }
    }

    /// The number of entries.
    pub(crate) fn len(&self) -> usize
        ensures { result ≡ length self.now }
    {
        self.list.len()
    }

    /// The names are distinct, and no primitive's. Costs nothing: a caller's proof learns it so.
    pub(crate) fn recall_distinct_names(&self)
        ensures { are_distinct self.now ≡ true }
    {
        let _ = &self.list;
    }

    /// The entries, lent.
    pub(crate) fn as_slice(&self) -> &[Entry]
        ensures { result.now ≡ self.now }
    {
        self.list.as_slice()
    }

    /// The entry at a place, or `None` past the end.
    pub(crate) fn get(&self, place: usize) -> Option<&Entry>
        ensures value { option_copied result ≡ slice_get self.now place }
        ensures within { OnSome result (place < length self.now) }
    {
        self.list.get(place)
    }

    /// The entry of a name.
    pub(crate) fn find(&self, name: &Symbol) -> Option<&Entry>
        ensures { option_copied result ≡ entry_of self.now name.now }
    {
        let place = self.tables.names.place_of(name)?;
        self.list.get(place)
    }

    /// Whether an entry has this name.
    pub(crate) fn has(&self, name: &Symbol) -> bool
        ensures { result ≡ is_some (entry_of self.now name.now) }
    {
        self.find(name).is_some()
    }

    /// The theorem with this number of the type prescriptions about a function.
    pub(crate) fn prescription(&self, function: &Symbol, number: usize) -> Option<&Theorem>
        ensures { option_copied result ≡ slice_get (theorems_about function.now self.now) number }
    {
        let place = self.tables.places.place_of(function, number)?;
        as_theorem(self.list.get(place))
    }

    /// Adds an entry whose name is free at the end. Where memory is refused the entries stay as they were.
    pub(crate) fn push(&mut self, alloc: Global, entry: Entry) -> Result<(), NoMemory>
        requires { has_name self.old (name_in entry) ≡ false }
        ensures ok { OnOk result (self.new ≡ self.old ++ entry ∷ []) }
        ensures err { OnErr result (self.new ≡ self.old) }
    {
        let names = names_in(alloc, &entry)?;
        self.push_named(alloc, entry, names)
    }

    /// Adds an entry with copies of the names by which it is found.
    fn push_named(&mut self, alloc: Global, entry: Entry, names: Names) -> Result<(), NoMemory>
        requires free { has_name self.old (name_in entry) ≡ false }
        requires named { names ≡ record { name = name_in entry; about = prescribed_in entry } }
        ensures ok { OnOk result (self.new ≡ self.old ++ entry ∷ []) }
        ensures err { OnErr result (self.new ≡ self.old) }
    {
        let count = self.list.len();
        self.list.push(entry)?;
        if let Err(error) = self.tables.add(alloc, names.name, names.about) {
            self.list.truncate(count);
            return Err(error);
        }
        Ok(())
    }

    /// Adds a copy of an entry whose name is free at the end. Where memory is refused the entries stay as
    /// they were.
    pub(crate) fn push_copy(&mut self, alloc: Global, entry: &Entry) -> Result<(), NoMemory>
        requires { has_name self.old (name_in entry.now) ≡ false }
        ensures ok { OnOk result (self.new ≡ self.old ++ entry.now ∷ []) }
        ensures err { OnErr result (self.new ≡ self.old) }
    {
        let copied = copy_entry(alloc, entry)?;
        self.push(alloc, copied)
    }

    /// Adds functions whose names are free and distinct at the end, in their order. Where memory is refused
    /// the entries stay as they were.
    pub(crate) fn push_functions(
        &mut self,
        alloc: Global,
        list: Seq<Function>,
    ) -> Result<(), NoMemory>
        requires { are_taken self.old list ≡ false }
        ensures ok { OnOk result (self.new ≡ self.old ++ map Entry.Function list) }
        ensures err { OnErr result (self.new ≡ self.old) }
    {
        let count = self.len();
        for function in list.into_vec() {
            if let Err(error) = self.push(alloc, Entry::Function(function)) {
                self.truncate(count);
                return Err(error);
            }
        }
        Ok(())
    }

    /// Takes the last entry away. Takes no memory.
    fn remove_last(&mut self)
        ensures { self.new ≡ take (length self.old - 1) self.old }
    {
        let kept = self.list.len().saturating_sub(1);
        if let Some(entry) = self.list.get(kept) {
            self.tables.remove_last(prescribed_in(entry));
        }
        self.list.truncate(kept);
    }

    /// Keeps the first `count` entries. Takes no memory.
    pub(crate) fn truncate(&mut self, count: usize)
        ensures { self.new ≡ take count self.old }
    {
        while self.len() > count {
            self.remove_last();
        }
    }

    /// A copy of the entries.
    pub(crate) fn copy(&self, alloc: Global) -> Result<Entries, NoMemory>
        ensures { IfOk result (λ entries. entries ≡ self.now) }
    {
        self.recall_distinct_names();
        let mut out = Entries::new(alloc);
        for entry in self.as_slice() {
            out.push_copy(alloc, entry)?;
        }
        Ok(out)
    }
}
