ghost use Rattle.std.specs.Prelude.{◌≡◌, [], ◌∷◌, ◌++◌, ◌↔◌, IsTrue, IsErrOf, IfOk, OnOk, OnErr, length, take, slice_get, map, true};
ghost use Rattle.ap_list.specs.Lists.{is_among};
ghost use Rattle.ap_value.specs.Values.{symbol_eq};
ghost use Rattle.ap_world.specs.World.{are_distinct, name_in};
ghost use Rattle.std.specs.Option.{option_copied};

use crate::entries::Entries;
use crate::entry::{Entry, EntryRef, Function, RuleClass, Theorem};
use crate::including::{add_missing, has_clash, merged};
use crate::names::is_same_name;
use crate::primitive::primitive_of;
use crate::theory::{Rune, RuneKind, Theory, copy_theory};
use ap_list::{NoMemory, Seq};
use ap_term::Term;
use ap_value::{Symbol, Value};
use std::alloc::{AllocError, Global};
use std::marker::Model;

/// Why a world takes no entry: its name is one of the world or of a primitive, or memory is wanting.
#[derive(Clone, Copy, Debug)]
pub enum AddError {
    NameTaken,
    NoMemory,
}

impl From<AllocError> for AddError {
    ghost use Rattle.std.specs.Prelude.{◌≡◌};
    ghost use Rattle.ap_world.specs.declared.world.AddError.TheVariants.{NoMemory};

    ghost from_gives = { λ _ e. e ≡ NoMemory };

    fn from(_error: AllocError) -> AddError {
        AddError::NoMemory
    }
}

/// What a book has admitted so far: functions, theorems and constants in their order, and the current
/// theory. Contracts see the entries and the theory. Its type keeps that the entries are sound: every
/// function is total and every theorem is non-`nil` under every assignment.
pub struct World {
    entries: Entries,
    theory: Theory,
}

// One call wherever a world is let go, whatever its tables hold.
impl Drop for World {
    fn drop(self) {
        let World {
            entries: _entries,
            theory: _theory,
        } = self;
    }
}

impl Model for World {
    ghost use Rattle.std.specs.Coded.{codes};
    ghost use Rattle.ap_term.specs.contracts.term.Term as term;
    ghost use Rattle.ap_value.specs.contracts.value.Value as value;
    ghost use Rattle.ap_world.specs.World.{Shown};

    ghost Value = { Shown };

    ghost coded = { Prim.hlevel (codes, term.the_row.coded, value.the_row.coded) };

    ghost view = { λ w. record { entries = w.entries; theory = w.theory } };

    ghost use Rattle.ap_world.specs.Sound.{Sound};

    ghost invariant = { λ w. Sound w.entries };
}

impl World {
    ghost use Rattle.std.specs.Prelude.{Contains, false, nat_eq, IfSome};
    ghost use Rattle.std.specs.Option.{option_map};
    ghost use Rattle.ap_world.specs.Including.{has_clash, with_missing, included};
    ghost use Rattle.ap_world.specs.Meaning.{Valid};
    ghost use Rattle.ap_world.specs.Sound.{Sound, known};
    ghost use Rattle.ap_world.specs.Prescribing.{theorems_about};
    ghost use Rattle.ap_world.specs.Theories.{rune_of, is_enabled};
    ghost use Rattle.ap_world.specs.World.{entry_of, function_of, theorem_of, constant_of, has_name, name_in, added, added_all, are_taken, lent_entry};

    /// The world of no entries, which disables nothing. Takes no memory.
    pub fn bare(alloc: Global) -> World
        ensures { result ≡ record { entries = []; theory = record { disabled = [] } } }
    {
        World {
            entries: Entries::new(alloc),
            theory: Theory::all_enabled(),
        }
    }

    /// The world is sound. Costs nothing: a caller's proof learns it so.
    pub fn recall_sound(&self)
        ensures { Sound self.now.entries }
    {
        let _ = &self.entries;
    }

    /// The names of the entries are distinct, and no primitive's. Costs nothing: a caller's proof learns it
    /// so.
    pub fn recall_distinct_names(&self)
        ensures { are_distinct self.now.entries ≡ true }
    {
        self.entries.recall_distinct_names();
    }

    /// A copy of the world.
    pub fn copy_world(&self, alloc: Global) -> Result<World, NoMemory>
        ensures { IfOk result (λ w. w ≡ self.now) }
    {
        let theory = copy_theory(alloc, &self.theory)?;
        let entries = self.entries.copy(alloc)?;
        Ok(World { entries, theory })
    }

    /// The number of entries. Takes no memory.
    pub fn count(&self) -> usize
        ensures { result ≡ length self.now.entries }
    {
        self.entries.len()
    }

    /// The function of a name, or `None` where the world has no such function. Takes no memory.
    pub fn lookup_fun(&self, name: &Symbol) -> Option<&Function>
        ensures { option_copied result ≡ function_of self.now.entries name.now }
    {
        match self.entries.find(name) {
            Some(Entry::Function(function)) => Some(function),
            _ => None,
        }
    }

    /// The theorem of a name, or `None` where the world has no such theorem. Takes no memory.
    pub fn lookup_thm(&self, name: &Symbol) -> Option<&Theorem>
        ensures { option_copied result ≡ theorem_of self.now.entries name.now }
    {
        match self.entries.find(name) {
            Some(Entry::Theorem(theorem)) => Some(theorem),
            _ => None,
        }
    }

    /// The value of a constant, or `None` where the world has no such constant. Takes no memory.
    pub fn lookup_const(&self, name: &Symbol) -> Option<&Value>
        ensures { option_copied result ≡ constant_of self.now.entries name.now }
    {
        match self.entries.find(name) {
            Some(Entry::Constant(_, value)) => Some(value),
            _ => None,
        }
    }

    /// Whether a name is taken, by an entry or by a primitive. Takes no memory.
    pub fn has(&self, name: &Symbol) -> bool
        ensures { result ≡ has_name self.now.entries name.now }
    {
        primitive_of(name).is_some() || self.entries.has(name)
    }

    /// The entry at a place of the list, or `None` past its end. Takes no memory.
    pub fn entry(&self, place: usize) -> Option<EntryRef<'_>>
        ensures { option_map lent_entry result ≡ slice_get self.now.entries place }
    {
        match self.entries.get(place) {
            Some(Entry::Function(function)) => Some(EntryRef::Function(function)),
            Some(Entry::Theorem(theorem)) => Some(EntryRef::Theorem(theorem)),
            Some(Entry::Constant(name, value)) => Some(EntryRef::Constant(name, value)),
            None => None,
        }
    }

    /// The entries in their order, lent. Takes no memory.
    pub fn entries(&self) -> &[Entry]
        ensures { result.now ≡ self.now.entries }
    {
        self.entries.as_slice()
    }

    /// The theorem with this number, from 0, of those of the class of type prescriptions that are about a
    /// function, in the order in which they were added; `None` past the last. Takes no memory. See the
    /// manual's topic `type-prescription`.
    pub fn prescription(&self, function: &Symbol, number: usize) -> Option<&Theorem>
        ensures { option_copied result ≡ slice_get (theorems_about function.now self.now.entries) number }
    {
        self.entries.prescription(function, number)
    }

    /// The current theory. Takes no memory.
    pub fn theory(&self) -> &Theory
        ensures { result.now ≡ self.now.theory }
    {
        &self.theory
    }

    /// Makes a theory the current one. Takes no memory.
    pub fn set_theory(&mut self, theory: Theory)
        ensures { self.new ≡ record self.old { theory = theory } }
    {
        self.theory = theory;
    }

    /// Whether a rune is enabled: the current theory doesn't disable it. Takes no memory.
    pub fn enabled(&self, rune: &Rune) -> bool
        ensures enabled { result ≡ is_enabled self.now.theory rune.now }
        ensures listed { (result ≡ false) ↔ Contains self.now.theory.disabled rune.now }
    {
        self.theory.enables(rune)
    }

    /// Whether the current theory enables the rune of this kind and name. Takes no memory.
    pub fn enabled_for(&self, kind: RuneKind, name: &Symbol) -> bool
        ensures { result ≡ is_enabled self.now.theory (rune_of kind name.now) }
    {
        self.theory.is_enabled(kind, name)
    }

    /// Goes back to the first entries, with a theory that is then the current one. Takes no memory.
    pub fn back_to(&mut self, count: usize, theory: Theory)
        requires { Sound (take count self.old.entries) }
        ensures { self.new ≡ record { entries = take count self.old.entries; theory = theory } }
    {
        self.entries.truncate(count);
        self.theory = theory;
    }

    /// Adds a function at the end. `NameTaken` exactly where the name is in the world, which then stays as
    /// it was; so it does where memory is refused.
    pub fn add_function(&mut self, alloc: Global, function: Function) -> Result<(), AddError>
        requires sound { has_name self.old.entries function.name ≡ false → Sound (self.old.entries ++ Entry.Function function ∷ []) }
        ensures ok { OnOk result (self.new ≡ added self.old (Entry.Function function)) }
        ensures err { OnErr result (self.new ≡ self.old) }
        ensures taken { IsErrOf result AddError.NameTaken ↔ IsTrue (has_name self.old.entries function.name) }
    {
        self.add(alloc, Entry::Function(function))
    }

    /// Adds functions at the end, in their order: those that need each other come together. `NameTaken`
    /// exactly where one of the names is in the world or stands twice in the list. The world then stays as
    /// it was; so it does where memory is refused.
    pub fn add_functions(&mut self, alloc: Global, list: Seq<Function>) -> Result<(), AddError>
        requires sound { are_taken self.old.entries list ≡ false → Sound (self.old.entries ++ map Entry.Function list) }
        ensures ok { OnOk result (self.new ≡ added_all self.old list) }
        ensures err { OnErr result (self.new ≡ self.old) }
        ensures taken { IsErrOf result AddError.NameTaken ↔ IsTrue (are_taken self.old.entries list) }
    {
        if self.are_taken(list.as_slice()) {
            return Err(AddError::NameTaken);
        }
        self.entries.push_functions(alloc, list)?;
        Ok(())
    }

    /// Whether one of the names is taken, or stands twice in the list. Takes no memory.
    fn are_taken(&self, list: &[Function]) -> bool
        ensures { result ≡ are_taken self.now.entries list.now }
    {
        let mut left = list;
        while let [first, rest @ ..] = left {
            if self.has(&first.name) || is_named(&first.name, rest) {
                return true;
            }
            left = rest;
        }
        false
    }

    /// Adds a theorem at the end. `NameTaken` exactly where the name is in the world, which then stays as it
    /// was; so it does where memory is refused.
    pub fn add_theorem(
        &mut self,
        alloc: Global,
        name: Symbol,
        term: Term,
        classes: Seq<RuleClass>,
    ) -> Result<(), AddError>
        requires known { IsTrue (known (function_of self.old.entries) term) }
        requires valid { Valid (function_of self.old.entries) (term ∷ []) }
        ensures ok { OnOk result (self.new ≡ added self.old (Entry.Theorem (record { name = name; term = term; classes = classes }))) }
        ensures err { OnErr result (self.new ≡ self.old) }
        ensures taken { IsErrOf result AddError.NameTaken ↔ IsTrue (has_name self.old.entries name) }
    {
        self.recall_sound();
        let theorem = Theorem {
            name,
            term,
            classes,
        };
        self.add(alloc, Entry::Theorem(theorem))
    }

    /// Adds a constant at the end. `NameTaken` exactly where the name is in the world, which then stays as
    /// it was; so it does where memory is refused.
    pub fn add_constant(
        &mut self,
        alloc: Global,
        name: Symbol,
        value: Value,
    ) -> Result<(), AddError>
        ensures ok { OnOk result (self.new ≡ added self.old (Entry.Constant name value)) }
        ensures err { OnErr result (self.new ≡ self.old) }
        ensures taken { IsErrOf result AddError.NameTaken ↔ IsTrue (has_name self.old.entries name) }
    {
        self.recall_sound();
        self.add(alloc, Entry::Constant(name, value))
    }

    /// Includes the world of a book: adds copies of its entries whose names aren't here, in their order, and
    /// disables what its theory disables besides, at the end. `NameTaken` exactly where another entry stands
    /// here under a name of it, masks aside. The world then stays as it was; so it does where memory is
    /// refused. Costs two look-ups for each entry of the book. See the manual's topic `include-book`.
    pub fn include_world(&mut self, alloc: Global, kept: &World) -> Result<(), AddError>
        ensures ok { OnOk result (self.new ≡ included self.old kept.now) }
        ensures err { OnErr result (self.new ≡ self.old) }
        ensures taken { IsErrOf result AddError.NameTaken ↔ IsTrue (has_clash self.old.entries kept.now.entries) }
    {
        self.recall_sound();
        kept.recall_sound();
        kept.recall_distinct_names();
        if self.clashes_with(kept) {
            return Err(AddError::NameTaken);
        }
        let theory = merged(alloc, self.theory(), kept.theory())?;
        self.add_missing(alloc, kept)?;
        self.set_theory(theory);
        Ok(())
    }

    /// Whether another entry stands here under a name of a book's world, masks aside: a look-up for each
    /// entry of that. Takes no memory.
    pub fn clashes_with(&self, kept: &World) -> bool
        ensures { result ≡ has_clash self.now.entries kept.now.entries }
    {
        has_clash(&self.entries, kept.entries())
    }

    /// Adds copies of the entries of a book's world whose names aren't here.
    fn add_missing(&mut self, alloc: Global, kept: &World) -> Result<(), NoMemory>
        requires { Sound (with_missing self.old.entries kept.now.entries) }
        ensures ok { OnOk result (self.new ≡ record self.old { entries = with_missing self.old.entries kept.now.entries }) }
        ensures err { OnErr result (self.new ≡ self.old) }
    {
        kept.recall_distinct_names();
        add_missing(alloc, &mut self.entries, kept.entries())?;
        Ok(())
    }

    /// Adds an entry at the end. `NameTaken` exactly where its name is in the world, which then stays as it
    /// was; so it does where memory is refused.
    fn add(&mut self, alloc: Global, entry: Entry) -> Result<(), AddError>
        requires { has_name self.old.entries (name_in entry) ≡ false → Sound (self.old.entries ++ entry ∷ []) }
        ensures ok { OnOk result (self.new ≡ added self.old entry) }
        ensures err { OnErr result (self.new ≡ self.old) }
        ensures taken { IsErrOf result AddError.NameTaken ↔ IsTrue (has_name self.old.entries (name_in entry)) }
    {
        if self.has(entry.name()) {
            return Err(AddError::NameTaken);
        }
        self.entries.push(alloc, entry)?;
        Ok(())
    }
}

/// Whether a function of the list has this name.
fn is_named(name: &Symbol, list: &[Function]) -> bool
    ensures { result ≡ is_among symbol_eq name.now (map (λ f. f.name) list.now) }
{
    let mut left = list;
    while let [first, rest @ ..] = left {
        if is_same_name(name, &first.name) {
            return true;
        }
        left = rest;
    }
    false
}
