ghost use Rattle.std.specs.Prelude.{◌≡◌, ◌-◌, [], ◌∷◌, ◌++◌, ◌<◌, false, length, take, IfSome, OnOk, OnErr};
ghost use Rattle.std.specs.List.{position, list_any};
ghost use Rattle.ap_value.specs.Values.{symbol_eq};

use ap_list::NoMemory;
use ap_value::{Symbol, same_symbol};
use indexmap::IndexSet;
use std::alloc::Global;
use std::marker::Model;

/// The names of a world's entries in their order, by which an entry is found without a scan.
#[derive(Drop)]
pub(crate) struct NameTable {
    names: IndexSet<Symbol>,
}

impl Model for NameTable {
    ghost use Rattle.std.specs.Prelude.{List};
    ghost use Rattle.std.specs.Coded.{coded_list};
    ghost use Rattle.ap_value.specs.declared.symbol.Symbol.{Symbol};
    ghost use Rattle.ap_value.specs.contracts.symbol.Symbol as symbol;

    ghost Value = { List Symbol };

    ghost coded = { coded_list symbol.the_row.coded };

    ghost view = { λ table. table.names.keys };
}

impl NameTable {
    /// No names. Takes no memory.
    pub(crate) fn new(alloc: Global) -> NameTable
        ensures { result ≡ [] }
    {
        NameTable {
            names: IndexSet::new(alloc),
        }
    }

    /// The place of a name, if it is there.
    pub(crate) fn place_of(&self, name: &Symbol) -> Option<usize>
        ensures place { result ≡ position (symbol_eq name.now) self.now }
        ensures within { IfSome result (λ i. i < length self.now) }
    {
        self.names.get_index_of(name)
    }

    /// Adds a name at the end. Where memory is refused the table stays as it was.
    pub(crate) fn add(&mut self, name: Symbol) -> Result<(), NoMemory>
        requires { list_any (symbol_eq name) self.old ≡ false }
        ensures ok { OnOk result (self.new ≡ self.old ++ name ∷ []) }
        ensures err { OnErr result (self.new ≡ self.old) }
    {
        self.names.insert(name)?;
        Ok(())
    }

    /// The number of names.
    pub(crate) fn len(&self) -> usize
        ensures { result ≡ length self.now }
    {
        self.names.len()
    }

    /// Takes the last name away. Takes no memory.
    pub(crate) fn remove_last(&mut self)
        ensures { self.new ≡ take (length self.old - 1) self.old }
    {
        let kept = self.names.len().saturating_sub(1);
        self.names.truncate(kept);
    }
}

/// Whether two names are one, as the definitions test it.
pub(crate) fn is_same_name(a: &Symbol, b: &Symbol) -> bool
    ensures { result ≡ symbol_eq a.now b.now }
{
    same_symbol(a, b)
}
