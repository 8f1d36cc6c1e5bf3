ghost use Rattle.std.specs.Prelude.{◌≡◌, [], ◌∷◌, ◌++◌, ◌↔◌, IsTrue, IsErrOf, IfOk, OnOk, OnErr, false, take};
ghost use Rattle.ap_world.specs.Including.{has_clash, included};
ghost use Rattle.ap_world.specs.Meaning.{Valid};
ghost use Rattle.ap_world.specs.Sound.{Sound, known};
ghost use Rattle.ap_world.specs.World.{function_of, has_name, added};
ghost use Rattle.ap_world.specs.declared.entry.Entry.TheVariants as entry;
ghost use Rattle.ap_rules.specs.Index.{IsIndex};

use crate::carrying::Carrier;
use crate::making::{EntryRules, theorem_rules};
use crate::table::RuleIndex;
use ap_list::{NoMemory, Seq};
use ap_term::Term;
use ap_value::{Symbol, Value};
use ap_world::{AddError, Function, RuleClass, Theory, World, copy_theory};
use std::alloc::Global;
use std::marker::Model;
use std::mem;

/// A world with the index of its rules. A theorem that is added costs its own rules, whatever the world has
/// already. Contracts see the world.
#[derive(Drop)]
pub struct Ruled {
    world: World,
    carrier: Carrier,
}

impl Model for Ruled {
    ghost use Rattle.std.specs.Coded.{codes};
    ghost use Rattle.ap_term.specs.contracts.term.Term as term;
    ghost use Rattle.ap_value.specs.contracts.value.Value as value;
    ghost use Rattle.ap_world.specs.World.{Shown};
    ghost use Rattle.ap_rules.specs.Carried.{Carried};

    ghost Value = { Shown };

    ghost coded = { Prim.hlevel (codes, term.the_row.coded, value.the_row.coded) };

    ghost view = { λ r. r.world };

    ghost invariant = { λ r. Carried r.world.entries r.carrier };
}

/// The rules of a world by the heads of their left sides and of their triggers. The only error is want of memory.
pub fn index(alloc: Global, w: &World) -> Result<RuleIndex, NoMemory>
    ensures { IfOk result (λ ix. IsIndex ix w.now.entries) }
{
    let mut carrier = Carrier::of(alloc, w.entries())?;
    Ok(mem::replace(&mut carrier.rules, RuleIndex::new(alloc)))
}

impl Ruled {
    /// A world with the index of its rules, which is made once. The only error is want of memory.
    pub fn of(alloc: Global, world: World) -> Result<Ruled, NoMemory>
        ensures { IfOk result (λ r. r ≡ world) }
    {
        let carrier = Carrier::of(alloc, world.entries())?;
        Ok(Ruled { world, carrier })
    }

    /// The world, lent.
    pub fn world(&self) -> &World
        ensures { result.now ≡ self.now }
    {
        &self.world
    }

    /// The index of the world's rules, lent.
    pub fn rules(&self) -> &RuleIndex
        ensures { IsIndex result.now self.now.entries }
    {
        &self.carrier.rules
    }

    /// The world without the index. Takes no memory.
    pub fn into_world(self) -> World
        ensures { result ≡ self }
    {
        let Ruled { world, .. } = self;
        world
    }

    /// Makes a theory the current one. Takes no memory.
    pub fn set_theory(&mut self, theory: Theory)
        ensures { self.new ≡ record self.old { theory = theory } }
    {
        self.world.set_theory(theory);
    }

    /// Goes back to the first entries, with a theory that is then the current one. Takes no memory.
    pub fn back_to(&mut self, count: usize, theory: Theory)
        requires { Sound (take count self.old.entries) }
        ensures { self.new ≡ record { entries = take count self.old.entries; theory = theory } }
    {
        self.carrier.truncate(count);
        self.world.back_to(count, theory);
    }

    /// Includes a book's world: adds copies of the entries whose names aren't here, at the end and in their order, and
    /// their rules, and disables besides what the book's theory disables. `NameTaken` exactly where another entry
    /// stands here under one of the book's names, masks aside; the world then stays as it was, and so it does where
    /// memory is refused. A look-up for each entry of the book, whatever the world has. See the manual's topic
    /// `include-book`.
    pub fn include_world(&mut self, alloc: Global, kept: &World) -> Result<(), AddError>
        ensures ok { OnOk result (self.new ≡ included self.old kept.now) }
        ensures err { OnErr result (self.new ≡ self.old) }
        ensures taken { IsErrOf result AddError.NameTaken ↔ IsTrue (has_clash self.old.entries kept.now.entries) }
    {
        self.world.recall_sound();
        if self.world.clashes_with(kept) {
            return Err(AddError::NameTaken);
        }
        let count = self.world.count();
        let theory = copy_theory(alloc, self.world.theory())?;
        self.world.include_world(alloc, kept)?;
        if self
            .carrier
            .add_from(alloc, self.world.entries(), count)
            .is_err()
        {
            self.world.back_to(count, theory);
            return Err(AddError::NoMemory);
        }
        Ok(())
    }

    /// Adds a function at the end. `NameTaken` exactly where the name is in the world, which then stays as
    /// it was; so it does where memory is refused.
    pub fn add_function(&mut self, alloc: Global, function: Function) -> Result<(), AddError>
        requires sound { has_name self.old.entries function.name ≡ false → Sound (self.old.entries ++ entry.Function function ∷ []) }
        ensures ok { OnOk result (self.new ≡ added self.old (entry.Function function)) }
        ensures err { OnErr result (self.new ≡ self.old) }
        ensures taken { IsErrOf result AddError.NameTaken ↔ IsTrue (has_name self.old.entries function.name) }
    {
        if self.world.has(&function.name) {
            return Err(AddError::NameTaken);
        }
        self.carrier.add(alloc, EntryRules::none(alloc))?;
        let added = self.world.add_function(alloc, function);
        if added.is_err() {
            self.carrier.truncate(self.world.count());
        }
        added
    }

    /// Adds a theorem at the end, and its rules. `NameTaken` exactly where the name is in the world, which then
    /// stays as it was; so it does where memory is refused.
    pub fn add_theorem(
        &mut self,
        alloc: Global,
        name: Symbol,
        term: Term,
        classes: Seq<RuleClass>,
    ) -> Result<(), AddError>
        requires known { IsTrue (known (function_of self.old.entries) term) }
        requires valid { Valid (function_of self.old.entries) (term ∷ []) }
        ensures ok { OnOk result (self.new ≡ added self.old (entry.Theorem (record { name = name; term = term; classes = classes }))) }
        ensures err { OnErr result (self.new ≡ self.old) }
        ensures taken { IsErrOf result AddError.NameTaken ↔ IsTrue (has_name self.old.entries name) }
    {
        if self.world.has(&name) {
            return Err(AddError::NameTaken);
        }
        let rules = theorem_rules(alloc, &name, &term, classes.as_slice())?;
        self.carrier.add(alloc, rules)?;
        let added = self.world.add_theorem(alloc, name, term, classes);
        if added.is_err() {
            self.carrier.truncate(self.world.count());
        }
        added
    }

    /// Adds a constant at the end. `NameTaken` exactly where the name is in the world, which then stays as it
    /// was; so it does where memory is refused.
    pub fn add_constant(
        &mut self,
        alloc: Global,
        name: Symbol,
        value: Value,
    ) -> Result<(), AddError>
        ensures ok { OnOk result (self.new ≡ added self.old (entry.Constant name value)) }
        ensures err { OnErr result (self.new ≡ self.old) }
        ensures taken { IsErrOf result AddError.NameTaken ↔ IsTrue (has_name self.old.entries name) }
    {
        if self.world.has(&name) {
            return Err(AddError::NameTaken);
        }
        self.carrier.add(alloc, EntryRules::none(alloc))?;
        let added = self.world.add_constant(alloc, name, value);
        if added.is_err() {
            self.carrier.truncate(self.world.count());
        }
        added
    }
}
