ghost use Rattle.std.specs.Prelude.{◌≡◌, [], List, slice_get, OnOk, OnErr};
ghost use Rattle.std.specs.Option.{option_copied};
ghost use Rattle.ap_term.specs.declared.term.Term.{out-Term};
ghost use Rattle.ap_value.specs.Values.{symbol_eq};
ghost use Rattle.ap_world.specs.Prescribing.{prescribes, called, argument_called, prescribed};
ghost use Rattle.ap_world.specs.Kept.{prescribed_in};

use crate::entry::{Entry, RuleClass, Theorem};
use ap_list::{NoMemory, Seq};
use ap_term::{Shape, Term};
use ap_value::Symbol;
use indexmap::IndexMap;
use std::alloc::Global;
use std::marker::Model;

/// Whether the classes have that of type prescriptions.
pub(crate) fn prescribes(classes: &[RuleClass]) -> bool
    ensures { result ≡ prescribes classes.now }
{
    let mut left = classes;
    while let [first, rest @ ..] = left {
        if matches!(first, RuleClass::TypePrescription) {
            return true;
        }
        left = rest;
    }
    false
}

/// The name that a call calls.
fn called(t: &Term) -> Option<&Symbol>
    ensures { option_copied result ≡ called (out-Term t.now) }
{
    match &t.shape {
        Shape::Call(f, _) => Some(f),
        _ => None,
    }
}

/// The name that the argument calls, of a call of one argument.
fn argument_called(t: &Term) -> Option<&Symbol>
    ensures { option_copied result ≡ argument_called (out-Term t.now) }
{
    match &t.shape {
        Shape::Call(_, ts) => match ts.as_slice() {
            [a] => called(a),
            _ => None,
        },
        _ => None,
    }
}

/// The function that a theorem of the class of type prescriptions is about.
pub(crate) fn prescribed(theorem: &Theorem) -> Option<&Symbol>
    ensures { option_copied result ≡ prescribed theorem.now }
{
    if prescribes(theorem.classes.as_slice()) {
        argument_called(&theorem.term)
    } else {
        None
    }
}

/// The function that an entry is a type prescription about.
pub(crate) fn prescribed_in(entry: &Entry) -> Option<&Symbol>
    ensures { option_copied result ≡ prescribed_in entry.now }
{
    match entry {
        Entry::Theorem(theorem) => prescribed(theorem),
        _ => None,
    }
}

/// The places of the type prescriptions about each function, in the order of the entries.
#[derive(Drop)]
pub(crate) struct PlaceTable {
    places: IndexMap<Symbol, Seq<usize>>,
}

impl Model for PlaceTable {
    ghost use Rattle.std.specs.Coded.{coded_list, coded×, coded_ℕ};
    ghost use Rattle.ap_value.specs.contracts.symbol.Symbol as symbol;
    ghost use Rattle.ap_world.specs.Kept.{Places};

    ghost Value = { Places };

    ghost coded = { coded_list (coded× symbol.the_row.coded (coded_list coded_ℕ)) };

    ghost view = { λ table. table.places.entries };
}

impl PlaceTable {
    ghost use Rattle.std.specs.Prelude.{ℕ, cond};
    ghost use Rattle.ap_value.specs.declared.symbol.Symbol.{Symbol};
    ghost use Rattle.ap_world.specs.Kept.{places_at, with_place};

    /// No places. Takes no memory.
    pub(crate) fn new(alloc: Global) -> PlaceTable
        ensures { result ≡ [] }
    {
        PlaceTable {
            places: IndexMap::new(alloc),
        }
    }

    /// The place with this number of those of a function.
    pub(crate) fn place_of(&self, function: &Symbol, number: usize) -> Option<usize>
        ensures { result ≡ slice_get (places_at self.now function.now) number }
    {
        let places = self.places.get(function)?;
        let place = places.get(number)?;
        Some(*place)
    }

    /// Adds a place to those of a function. Where memory is refused all have the places that they had.
    pub(crate) fn add(
        &mut self,
        alloc: Global,
        function: Symbol,
        place: usize,
    ) -> Result<(), NoMemory>
        ensures ok { OnOk result ((f : Symbol) → places_at self.new f ≡ with_place (symbol_eq function f) place (places_at self.old f)) }
        ensures err { OnErr result ((f : Symbol) → places_at self.new f ≡ places_at self.old f) }
    {
        match self.places.get_mut(&function) {
            Some(places) => places.push(place),
            None => {
                let mut places = Seq::new(alloc);
                places.push(place)?;
                self.places.insert(function, places)?;
                Ok(())
            }
        }
    }

    /// Takes the last place of a function away. Takes no memory.
    pub(crate) fn remove_last(&mut self, function: &Symbol)
        ensures { (f : Symbol) (places : List ℕ) (place : ℕ) → places_at self.old f ≡ with_place (symbol_eq function.now f) place places → places_at self.new f ≡ places }
    {
        if let Some(places) = self.places.get_mut(function) {
            places.pop();
        }
    }
}
