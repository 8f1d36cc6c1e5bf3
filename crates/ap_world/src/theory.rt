ghost use Rattle.std.specs.Prelude.{◌≡◌, ◌↔◌, IsTrue, IfOk, [], false, Contains};
ghost use Rattle.ap_world.specs.Theories.{rune_of, kind_in, symbol_in, kind_eq, is_enabled};

use crate::runes::Disabled;
use ap_list::{NoMemory, Seq, Shared};
use ap_value::{Symbol, copy_symbol, same_symbol};
use std::alloc::Global;
use std::marker::Model;

/// The name of a rule, by the function or theorem that it comes from. See the manual's topic `rune`.
#[derive(Debug, Drop)]
pub enum Rune {
    Definition(Symbol),
    Executable(Symbol),
    TypePrescription(Symbol),
    Induction(Symbol),
    Rewrite(Symbol),
    Linear(Symbol),
    Elim(Symbol),
}

/// The kinds of runes.
#[derive(Clone, Copy, Debug)]
pub enum RuneKind {
    Definition,
    Executable,
    TypePrescription,
    Induction,
    Rewrite,
    Linear,
    Elim,
}

impl RuneKind {
    /// Whether two kinds are one.
    pub fn is(self, other: RuneKind) -> bool
        ensures { result ≡ kind_eq self other }
    {
        match (self, other) {
            (RuneKind::Definition, RuneKind::Definition) => true,
            (RuneKind::Executable, RuneKind::Executable) => true,
            (RuneKind::TypePrescription, RuneKind::TypePrescription) => true,
            (RuneKind::Induction, RuneKind::Induction) => true,
            (RuneKind::Rewrite, RuneKind::Rewrite) => true,
            (RuneKind::Linear, RuneKind::Linear) => true,
            (RuneKind::Elim, RuneKind::Elim) => true,
            _ => false,
        }
    }
}

impl Rune {
    /// The kind.
    pub fn kind(&self) -> RuneKind
        ensures { result ≡ kind_in self.now }
    {
        match self {
            Rune::Definition(_) => RuneKind::Definition,
            Rune::Executable(_) => RuneKind::Executable,
            Rune::TypePrescription(_) => RuneKind::TypePrescription,
            Rune::Induction(_) => RuneKind::Induction,
            Rune::Rewrite(_) => RuneKind::Rewrite,
            Rune::Linear(_) => RuneKind::Linear,
            Rune::Elim(_) => RuneKind::Elim,
        }
    }

    /// The name of the function or theorem that it comes from.
    pub fn symbol(&self) -> &Symbol
        ensures { result.now ≡ symbol_in self.now }
    {
        match self {
            Rune::Definition(f) => f,
            Rune::Executable(f) => f,
            Rune::TypePrescription(f) => f,
            Rune::Induction(f) => f,
            Rune::Rewrite(f) => f,
            Rune::Linear(f) => f,
            Rune::Elim(f) => f,
        }
    }
}

/// A theory, by the runes that it disables: every other rune is enabled. Copies share the runes, and a table
/// of them. Contracts see the list of the runes.
#[derive(Debug)]
pub struct Theory {
    shared: Option<Shared<Disabled>>,
}

// One call wherever a theory is let go, whether or not it disables any.
impl Drop for Theory {
    fn drop(self) {
        let Theory { shared: _shared } = self;
    }
}

impl Model for Theory {
    ghost use Rattle.std.specs.Prelude.{[], unwrap_or};
    ghost use Rattle.std.specs.Coded.{codes};
    ghost use Rattle.ap_world.specs.contracts.theory.Rune as rune;
    ghost use Rattle.ap_world.specs.Theories.{ShownTheory};

    ghost Value = { ShownTheory };

    ghost coded = { Prim.hlevel (codes, rune.the_row.coded) };

    ghost view = { λ t. record { disabled = unwrap_or t.shared [] } };
}

/// Whether two runes are one. Takes no memory.
pub fn same_rune(a: &Rune, b: &Rune) -> bool
    ensures { IsTrue result ↔ (a.now ≡ b.now) }
{
    match (a, b) {
        (Rune::Definition(f), Rune::Definition(g)) => same_symbol(f, g),
        (Rune::Executable(f), Rune::Executable(g)) => same_symbol(f, g),
        (Rune::TypePrescription(f), Rune::TypePrescription(g)) => same_symbol(f, g),
        (Rune::Induction(f), Rune::Induction(g)) => same_symbol(f, g),
        (Rune::Rewrite(f), Rune::Rewrite(g)) => same_symbol(f, g),
        (Rune::Linear(f), Rune::Linear(g)) => same_symbol(f, g),
        (Rune::Elim(f), Rune::Elim(g)) => same_symbol(f, g),
        _ => false,
    }
}

/// The rune of a kind and a name. Takes no memory.
fn rune_of(kind: RuneKind, name: Symbol) -> Rune
    ensures { result ≡ rune_of kind name }
{
    match kind {
        RuneKind::Definition => Rune::Definition(name),
        RuneKind::Executable => Rune::Executable(name),
        RuneKind::TypePrescription => Rune::TypePrescription(name),
        RuneKind::Induction => Rune::Induction(name),
        RuneKind::Rewrite => Rune::Rewrite(name),
        RuneKind::Linear => Rune::Linear(name),
        RuneKind::Elim => Rune::Elim(name),
    }
}

/// A copy of a rune.
pub fn copy_rune(alloc: Global, rune: &Rune) -> Result<Rune, NoMemory>
    ensures { IfOk result (λ r. r ≡ rune.now) }
{
    let name = copy_symbol(alloc, rune.symbol())?;
    Ok(rune_of(rune.kind(), name))
}

/// A copy of a theory, which shares its runes: a count is copied, and it fails only where that is full.
pub fn copy_theory(_alloc: Global, theory: &Theory) -> Result<Theory, NoMemory>
    ensures { IfOk result (λ r. r ≡ theory.now) }
{
    match &theory.shared {
        None => Ok(Theory { shared: None }),
        Some(disabled) => {
            let disabled = disabled.share()?;
            Ok(Theory {
                shared: Some(disabled),
            })
        }
    }
}

impl Theory {
    /// The theory that disables no rune. Takes no memory.
    pub fn all_enabled() -> Theory
        ensures { result ≡ record { disabled = [] } }
    {
        Theory { shared: None }
    }

    /// The theory that disables the runes of a list.
    pub fn disabling(alloc: Global, runes: Seq<Rune>) -> Result<Theory, NoMemory>
        ensures { IfOk result (λ t. t ≡ record { disabled = runes }) }
    {
        let disabled = Disabled::new(alloc, runes)?;
        let shared = Shared::new(alloc, disabled)?;
        Ok(Theory {
            shared: Some(shared),
        })
    }

    /// The runes that are disabled, in their order. Takes no memory.
    pub fn disabled(&self) -> &[Rune]
        ensures { result.now ≡ self.now.disabled }
    {
        match &self.shared {
            None => &[],
            Some(disabled) => disabled.get().as_slice(),
        }
    }

    /// Whether the rune of this kind and name is enabled: looked up in a table. Takes no memory.
    pub fn is_enabled(&self, kind: RuneKind, name: &Symbol) -> bool
        ensures { result ≡ is_enabled self.now (rune_of kind name.now) }
    {
        match &self.shared {
            None => true,
            Some(disabled) => !disabled.get().has(kind, name),
        }
    }

    /// Whether a rune is enabled: the theory doesn't disable it. Takes no memory.
    pub fn enables(&self, rune: &Rune) -> bool
        ensures enabled { result ≡ is_enabled self.now rune.now }
        ensures listed { (result ≡ false) ↔ Contains self.now.disabled rune.now }
    {
        self.is_enabled(rune.kind(), rune.symbol())
    }
}
