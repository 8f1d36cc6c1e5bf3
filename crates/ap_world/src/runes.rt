ghost use Rattle.std.specs.Prelude.{◌≡◌, [], ◌||◌, ◌&&◌, IfOk, OnOk, OnErr};
ghost use Rattle.ap_list.specs.Lists.{is_among};
ghost use Rattle.ap_value.specs.declared.symbol.Symbol.{Symbol};
ghost use Rattle.ap_value.specs.Values.{symbol_eq};
ghost use Rattle.ap_world.specs.declared.theory.RuneKind.{RuneKind};
ghost use Rattle.ap_world.specs.Theories.{rune_of, kind_in, symbol_in, kind_eq, rune_eq};
ghost use Rattle.ap_world.specs.RuneTables.{has_kind, with_kind, no_kinds, has_rune};

use crate::theory::{Rune, RuneKind};
use ap_list::{NoMemory, Seq};
use ap_value::{Symbol, copy_symbol};
use indexmap::IndexMap;
use std::alloc::Global;
use std::marker::Model;

/// Kinds of runes, each marked or not.
#[derive(Clone, Copy, Debug)]
pub(crate) struct Kinds {
    definition: bool,
    executable: bool,
    type_prescription: bool,
    induction: bool,
    rewrite: bool,
    linear: bool,
    elimination: bool,
}

impl Kinds {
    /// No kind.
    fn none() -> Kinds
        ensures { result ≡ no_kinds }
    {
        Kinds {
            definition: false,
            executable: false,
            type_prescription: false,
            induction: false,
            rewrite: false,
            linear: false,
            elimination: false,
        }
    }

    /// Whether a kind is marked.
    fn has(self, kind: RuneKind) -> bool
        ensures { result ≡ has_kind self kind }
    {
        match kind {
            RuneKind::Definition => self.definition,
            RuneKind::Executable => self.executable,
            RuneKind::TypePrescription => self.type_prescription,
            RuneKind::Induction => self.induction,
            RuneKind::Rewrite => self.rewrite,
            RuneKind::Linear => self.linear,
            RuneKind::Elim => self.elimination,
        }
    }

    /// The kinds with one marked too.
    fn with(self, kind: RuneKind) -> Kinds
        ensures { result ≡ with_kind self kind }
    {
        let mut kinds = self;
        match kind {
            RuneKind::Definition => kinds.definition = true,
            RuneKind::Executable => kinds.executable = true,
            RuneKind::TypePrescription => kinds.type_prescription = true,
            RuneKind::Induction => kinds.induction = true,
            RuneKind::Rewrite => kinds.rewrite = true,
            RuneKind::Linear => kinds.linear = true,
            RuneKind::Elim => kinds.elimination = true,
        }
        kinds
    }
}

/// For each name the kinds of its runes that are in a list.
#[derive(Debug)]
struct RuneTable {
    kinds: IndexMap<Symbol, Kinds>,
}

// One call wherever a table is let go.
impl Drop for RuneTable {
    fn drop(self) {
        let RuneTable { kinds: _kinds } = self;
    }
}

impl Model for RuneTable {
    ghost use Rattle.std.specs.Coded.{codes};
    ghost use Rattle.ap_value.specs.contracts.symbol.Symbol as symbol;
    ghost use Rattle.ap_world.specs.RuneTables.{RuneTable as Table};

    ghost Value = { Table };

    ghost coded = { Prim.hlevel (codes, symbol.the_row.coded) };

    ghost view = { λ table. table.kinds.entries };
}

impl RuneTable {
    /// No rune. Takes no memory.
    fn new(alloc: Global) -> RuneTable
        ensures { result ≡ [] }
    {
        RuneTable {
            kinds: IndexMap::new(alloc),
        }
    }

    /// The kinds of a name's runes.
    fn kinds_of(&self, name: &Symbol) -> Kinds
        ensures { (k : RuneKind) → has_kind result k ≡ has_rune self.now k name.now }
    {
        match self.kinds.get(name) {
            Some(kinds) => *kinds,
            None => Kinds::none(),
        }
    }

    /// Adds a rune.
    fn add(&mut self, kind: RuneKind, name: Symbol) -> Result<(), NoMemory>
        ensures { OnOk result ((k : RuneKind) (f : Symbol) → has_rune self.new k f ≡ (kind_eq k kind && symbol_eq f name || has_rune self.old k f)) }
    {
        let kinds = self.kinds_of(&name).with(kind);
        self.kinds.insert(name, kinds)?;
        Ok(())
    }

    /// Adds a copy of a rune.
    fn add_copy(&mut self, alloc: Global, rune: &Rune) -> Result<(), NoMemory>
        ensures { OnOk result ((k : RuneKind) (f : Symbol) → has_rune self.new k f ≡ (kind_eq k (kind_in rune.now) && symbol_eq f (symbol_in rune.now) || has_rune self.old k f)) }
    {
        let name = copy_symbol(alloc, rune.symbol())?;
        self.add(rune.kind(), name)
    }
}

/// The table of a list of runes.
fn table_of(alloc: Global, runes: &[Rune]) -> Result<RuneTable, NoMemory>
    ensures { IfOk result (λ table. (k : RuneKind) (f : Symbol) → has_rune table k f ≡ is_among rune_eq (rune_of k f) runes.now) }
{
    let mut table = RuneTable::new(alloc);
    for rune in runes {
        table.add_copy(alloc, rune)?;
    }
    Ok(table)
}

/// The runes that a theory disables, in their order, with a table of them. Contracts see the list.
#[derive(Debug, Drop)]
pub(crate) struct Disabled {
    runes: Seq<Rune>,
    table: RuneTable,
}

impl Model for Disabled {
    ghost use Rattle.std.specs.Prelude.{◌≡◌, List};
    ghost use Rattle.std.specs.Coded.{coded_list};
    ghost use Rattle.ap_list.specs.Lists.{is_among};
    ghost use Rattle.ap_value.specs.declared.symbol.Symbol.{Symbol};
    ghost use Rattle.ap_world.specs.declared.theory.Rune.{Rune};
    ghost use Rattle.ap_world.specs.declared.theory.RuneKind.{RuneKind};
    ghost use Rattle.ap_world.specs.contracts.theory.Rune as rune;
    ghost use Rattle.ap_world.specs.Theories.{rune_of, rune_eq};
    ghost use Rattle.ap_world.specs.RuneTables.{has_rune};

    ghost Value = { List Rune };

    ghost coded = { coded_list rune.the_row.coded };

    ghost view = { λ d. d.runes };

    ghost invariant = { λ d. (k : RuneKind) (f : Symbol) → has_rune d.table k f ≡ is_among rune_eq (rune_of k f) d.runes };
}

impl Disabled {
    /// The runes of a list, with their table.
    pub(crate) fn new(alloc: Global, runes: Seq<Rune>) -> Result<Disabled, NoMemory>
        ensures { IfOk result (λ d. d ≡ runes) }
    {
        let table = table_of(alloc, runes.as_slice())?;
        Ok(Disabled { runes, table })
    }

    /// The runes, lent.
    pub(crate) fn as_slice(&self) -> &[Rune]
        ensures { result.now ≡ self.now }
    {
        self.runes.as_slice()
    }

    /// Whether the rune of this kind and name is one of them.
    pub(crate) fn has(&self, kind: RuneKind, name: &Symbol) -> bool
        ensures { result ≡ is_among rune_eq (rune_of kind name.now) self.now }
    {
        self.table.kinds_of(name).has(kind)
    }
}
