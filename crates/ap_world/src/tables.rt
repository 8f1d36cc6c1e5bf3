ghost use Rattle.std.specs.Prelude.{◌≡◌, ◌-◌, [], ◌∷◌, ◌++◌, ℕ, List, false, length, take, OnOk, OnErr};
ghost use Rattle.std.specs.List.{list_any};
ghost use Rattle.std.specs.Option.{option_copied};
ghost use Rattle.ap_value.specs.declared.symbol.Symbol.{Symbol};
ghost use Rattle.ap_value.specs.Values.{symbol_eq};
ghost use Rattle.ap_world.specs.Kept.{places_at, with_place};
ghost use Rattle.ap_world.specs.Prescribing.{is_name};

use crate::names::NameTable;
use crate::prescribing::PlaceTable;
use ap_list::NoMemory;
use ap_value::Symbol;
use std::alloc::Global;

/// The tables of a world's entries: their names, and the places of those that are type prescriptions.
#[derive(Drop)]
pub(crate) struct Tables {
    pub(crate) names: NameTable,
    pub(crate) places: PlaceTable,
}

impl Tables {
    /// The tables of no entries. Takes no memory.
    pub(crate) fn new(alloc: Global) -> Tables
        ensures { result ≡ record { names = []; places = [] } }
    {
        Tables {
            names: NameTable::new(alloc),
            places: PlaceTable::new(alloc),
        }
    }

    /// Adds the name of one entry more, which comes last, and its place, where it is a type prescription about
    /// a function. Where memory is refused the tables have what they had.
    pub(crate) fn add(
        &mut self,
        alloc: Global,
        name: Symbol,
        about: Option<Symbol>,
    ) -> Result<(), NoMemory>
        requires { list_any (symbol_eq name) self.old.names ≡ false }
        ensures ok { OnOk result (self.new.names ≡ self.old.names ++ name ∷ []) }
        ensures ok_places { OnOk result ((f : Symbol) → places_at self.new.places f ≡ with_place (is_name f about) (length self.old.names) (places_at self.old.places f)) }
        ensures err { OnErr result (self.new.names ≡ self.old.names) }
        ensures err_places { OnErr result ((f : Symbol) → places_at self.new.places f ≡ places_at self.old.places f) }
    {
        let place = self.names.len();
        self.names.add(name)?;
        let added = match about {
            None => Ok(()),
            Some(function) => self.places.add(alloc, function, place),
        };
        if added.is_err() {
            self.names.remove_last();
        }
        added
    }

    /// Takes the last entry's name away, and its place, where it is a type prescription about a function.
    /// Takes no memory.
    pub(crate) fn remove_last(&mut self, about: Option<&Symbol>)
        ensures names { self.new.names ≡ take (length self.old.names - 1) self.old.names }
        ensures places { (f : Symbol) (places : List ℕ) (place : ℕ) → places_at self.old.places f ≡ with_place (is_name f (option_copied about.entry)) place places → places_at self.new.places f ≡ places }
    {
        self.names.remove_last();
        if let Some(function) = about {
            self.places.remove_last(function);
        }
    }
}
