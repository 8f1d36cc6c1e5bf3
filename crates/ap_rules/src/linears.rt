ghost use Rattle.std.specs.Prelude.{◌≡◌, [], ◌∷◌, ◌++◌, ◌-◌, length, take, slice_get, option_copied, IfOk, OnOk, OnErr};
ghost use Rattle.ap_value.specs.declared.symbol.Symbol.{Symbol};
ghost use Rattle.ap_value.specs.Values.{symbol_eq};
ghost use Rattle.ap_term.specs.declared.term.Term.{out-Term};
ghost use Rattle.ap_world.specs.Prescribing.{called};
ghost use Rattle.ap_rules.specs.Placed.{places_from, is_of, places_at, with_last, without_last};

use crate::linear::LinearRule;
use ap_list::{NoMemory, Seq};
use ap_term::{Shape, Term};
use ap_value::{Symbol, copy_symbol};
use indexmap::IndexMap;
use std::alloc::Global;
use std::marker::Model;

/// Linear rules, oldest first, and for each head of a trigger the places of its rules, rising. Contracts see the
/// rules.
#[derive(Drop)]
pub struct Linears {
    rules: Seq<LinearRule>,
    places: IndexMap<Symbol, Seq<usize>>,
}

impl Model for Linears {
    ghost use Rattle.std.specs.Prelude.{◌≡◌, List};
    ghost use Rattle.std.specs.Coded.{coded_list};
    ghost use Rattle.ap_value.specs.declared.symbol.Symbol.{Symbol};
    ghost use Rattle.ap_rules.specs.declared.linear.LinearRule.{LinearRule};
    ghost use Rattle.ap_rules.specs.contracts.linear.LinearRule as linear_rule;
    ghost use Rattle.ap_rules.specs.Placed.{Placed};

    ghost Value = { List LinearRule };

    ghost coded = { coded_list linear_rule.the_row.coded };

    ghost view = { λ g. g.rules };

    ghost invariant = { λ g. Placed g.places.entries g.rules };
}

/// The head of a trigger, lent, where it is a call.
#[tactic(auto, using(ap_term::proofs::Seen::trees))]
fn head_of(t: &Term) -> Option<&Symbol>
    ensures { option_copied result ≡ called (out-Term t.now) }
{
    match &t.shape {
        Shape::Call(f, _) => Some(f),
        Shape::Var(_) => None,
        Shape::Quote(_) => None,
    }
}

/// The same, copied.
fn copy_head(alloc: Global, t: &Term) -> Result<Option<Symbol>, NoMemory>
    ensures { IfOk result (λ o. o ≡ called (out-Term t.now)) }
{
    match head_of(t) {
        Some(f) => Ok(Some(copy_symbol(alloc, f)?)),
        None => Ok(None),
    }
}

/// Adds a place to those of a head, of which it is then the last. Where memory is refused all have the places that
/// they had.
fn add_place(
    alloc: Global,
    places: &mut IndexMap<Symbol, Seq<usize>>,
    head: Symbol,
    place: usize,
) -> Result<(), NoMemory>
    ensures ok { OnOk result ((f : Symbol) → places_at places.new.entries f ≡ with_last (symbol_eq head f) place (places_at places.old.entries f)) }
    ensures err { OnErr result ((f : Symbol) → places_at places.new.entries f ≡ places_at places.old.entries f) }
{
    match places.get_mut(&head) {
        Some(group) => group.push(place),
        None => {
            let mut group = Seq::new(alloc);
            group.push(place)?;
            places.insert(head, group)?;
            Ok(())
        }
    }
}

/// Takes the last place of a head away. Takes no memory.
fn remove_place(places: &mut IndexMap<Symbol, Seq<usize>>, head: &Symbol)
    ensures { (f : Symbol) → places_at places.new.entries f ≡ without_last (symbol_eq head.now f) (places_at places.old.entries f) }
{
    if let Some(group) = places.get_mut(head) {
        group.pop();
    }
}

impl Linears {
    /// No rules. Takes no memory.
    pub(crate) fn new(alloc: Global) -> Linears
        ensures { result ≡ [] }
    {
        Linears {
            rules: Seq::new(alloc),
            places: IndexMap::new(alloc),
        }
    }

    /// How many rules there are.
    pub(crate) fn len(&self) -> usize
        ensures { result ≡ length self.now }
    {
        self.rules.len()
    }

    /// The rule at a place, lent.
    pub(crate) fn get(&self, place: usize) -> Option<&LinearRule>
        ensures { option_copied result ≡ slice_get self.now place }
    {
        self.rules.get(place)
    }

    /// The places of the rules whose trigger is a call of this head, rising, lent.
    pub(crate) fn places_of<'a>(&'a self, f: &Symbol) -> &'a [usize]
        ensures { result.now ≡ places_from (is_of f.now) 0 self.now }
    {
        match self.places.get(f) {
            Some(group) => group.as_slice(),
            None => &[],
        }
    }

    /// Adds a rule as the newest. Where memory is refused the others stay.
    pub(crate) fn push(&mut self, alloc: Global, rule: LinearRule) -> Result<(), NoMemory>
        ensures ok { OnOk result (self.new ≡ self.old ++ rule ∷ []) }
        ensures err { OnErr result (self.new ≡ self.old) }
    {
        let head = copy_head(alloc, &rule.trigger)?;
        let place = self.rules.len();
        self.rules.push(rule)?;
        if let Some(head) = head {
            if let Err(error) = add_place(alloc, &mut self.places, head, place) {
                self.rules.pop();
                return Err(error);
            }
        }
        Ok(())
    }

    /// Takes the newest rule away, where there is one. Takes no memory.
    pub(crate) fn pop(&mut self)
        ensures { self.new ≡ take (length self.old - 1) self.old }
    {
        if let Some(rule) = self.rules.pop() {
            if let Some(head) = head_of(&rule.trigger) {
                remove_place(&mut self.places, head);
            }
        }
    }

    /// Keeps the first `kept` rules. Takes no memory.
    pub(crate) fn truncate(&mut self, kept: usize)
        ensures { self.new ≡ take kept self.old }
    {
        while self.len() > kept {
            self.pop();
        }
    }

    /// Adds rules in their order, so that the last is the newest. Where memory is refused the others stay.
    pub(crate) fn append(&mut self, alloc: Global, rules: Seq<LinearRule>) -> Result<(), NoMemory>
        ensures ok { OnOk result (self.new ≡ self.old ++ rules) }
        ensures err { OnErr result (self.new ≡ self.old) }
    {
        let kept = self.len();
        for rule in rules.into_vec() {
            if let Err(error) = self.push(alloc, rule) {
                self.truncate(kept);
                return Err(error);
            }
        }
        Ok(())
    }
}
