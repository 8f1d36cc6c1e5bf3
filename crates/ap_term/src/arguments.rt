ghost use Rattle.std.specs.Prelude.{◌≡◌, true, [], ◌<◌, ◌↔◌, length, slice_get, map, IsTrue, IfOk, IfErr, OnSome};
ghost use Rattle.std.specs.Option.{option_copied};
ghost use Rattle.ap_list.specs.Lists.{sum_of};
ghost use Rattle.ap_term.specs.declared.term.Term.{Call};
ghost use Rattle.ap_term.specs.Leaves.{product, choice_leaves, if_parts, leaves, has_if, any_true};
ghost use Rattle.ap_term.specs.Order.{variables_in, functions_in, constants_in};
ghost use Rattle.ap_term.specs.Terms.{term_size};
ghost use Rattle.ap_term.specs.Capped.{capped};
ghost use Rattle.ap_term.specs.Hashes.{term_hash, mixed_all};
ghost use Rattle.ap_term.specs.Keeping.{IsKept, IsCounted};

use crate::hashes::{mixed, symbol_hash};
use crate::kept::{Counts, Kept, chooses, kept_of};
use crate::tree::Term;
use ap_list::{NoMemory, Seq, Shared};
use ap_value::Symbol;
use std::alloc::Global;
use std::marker::Model;

/// The arguments of a call, which may have several owners, with what is counted of them. Contracts see the terms
/// alone.
#[cycle(term)]
#[derive(Debug, Drop)]
pub struct Arguments {
    held: Shared<(Kept, Seq<Term>)>,
}

impl Model for Arguments {
    ghost use Rattle.std.specs.Prelude.{List};
    ghost use Rattle.ap_term.specs.declared.term.Term.{Term};
    ghost use Rattle.ap_term.specs.contracts.term.Term as term;
    ghost use Rattle.std.specs.Coded.{coded_list, codes};

    ghost Value = { List Term };

    ghost coded = { coded_list (Prim.hlevel (codes, term.the_row.coded)) };

    ghost use Rattle.ap_term.specs.Keeping.{IsKept};

    ghost view = { λ a. a.held.1 };

    ghost invariant = { λ a. IsKept a.held.0 a.held.1 };

    ghost use Rattle.ap_term.specs.Depth.{deepest};

    ghost size = { deepest };

    ghost use Rattle.ap_term.specs.Falls.{deepest_falls};

    ghost size_decreases = { λ a h. deepest_falls a };
}

impl Arguments {
    /// Moves terms to where copies share them, and counts what is kept of them.
    pub fn new(alloc: Global, terms: Seq<Term>) -> Result<Arguments, NoMemory>
        ensures { IfOk result (λ a. a ≡ terms) }
    {
        let kept = kept_of(terms.as_slice());
        let held = Shared::new(alloc, (kept, terms))?;
        Ok(Arguments { held })
    }

    /// The terms, lent.
    pub fn as_slice(&self) -> &[Term]
        ensures { result.now ≡ self.now }
    {
        self.held.get().1.as_slice()
    }

    /// The number of terms.
    pub fn len(&self) -> usize
        ensures { result ≡ length self.now }
    {
        self.held.get().1.len()
    }

    /// Whether there is no term.
    pub fn is_empty(&self) -> bool
        ensures { IsTrue result ↔ (self.now ≡ []) }
    {
        self.held.get().1.is_empty()
    }

    /// The term at a place, or `None` past the end.
    pub fn get(&self, place: usize) -> Option<&Term>
        ensures value { option_copied result ≡ slice_get self.now place }
        ensures within { OnSome result (place < length self.now) }
    {
        self.held.get().1.get(place)
    }

    /// The same terms for one more owner. It takes no memory, and fails only where the count of owners is full.
    pub fn share(&self) -> Result<Arguments, NoMemory>
        ensures { IfOk result (λ a. a ≡ self.now) }
    {
        let held = self.held.share()?;
        Ok(Arguments { held })
    }

    /// The terms where this is their one owner, and else this owner. Takes no memory.
    pub fn try_into_seq(self) -> Result<Seq<Term>, Arguments>
        ensures ok { IfOk result (λ terms. terms ≡ self) }
        ensures err { IfErr result (λ owner. owner ≡ self) }
    {
        let Arguments { held } = self;
        match held.try_into_inner() {
            Ok((_, terms)) => Ok(terms),
            Err(held) => Err(Arguments { held }),
        }
    }

    /// What is kept of them.
    fn kept(&self) -> &Kept
        ensures { IsKept result.now self.now }
    {
        &self.held.get().0
    }

    /// The occurrences of variables, as far as 32 bits hold them. Takes one step.
    pub fn variables(&self) -> u32
        ensures { result ≡ capped (sum_of (map variables_in self.now)) }
    {
        self.kept().variables
    }

    /// The calls, as far as 32 bits hold them. Takes one step.
    pub fn functions(&self) -> u32
        ensures { result ≡ capped (sum_of (map functions_in self.now)) }
    {
        self.kept().functions
    }

    /// The nodes in constants, as far as 32 bits hold them. Takes one step.
    pub fn constants(&self) -> u32
        ensures { result ≡ capped (sum_of (map constants_in self.now)) }
    {
        self.kept().constants
    }

    /// The nodes of all together, as far as 32 bits hold them. Takes one step.
    pub fn nodes_up_to(&self) -> u32
        ensures { result ≡ capped (sum_of (map term_size self.now)) }
    {
        let named = self.variables().saturating_add(self.functions());
        named.saturating_add(self.constants())
    }

    /// Whether a variable stands in one of them. Takes one step.
    pub fn has_variable(&self) -> bool
        ensures { IsTrue result ↔ (0 < sum_of (map variables_in self.now)) }
    {
        0 < self.variables()
    }

    /// The product of the leaves, as far as 32 bits hold it. Takes one step.
    pub fn leaves(&self) -> u32
        ensures { result ≡ capped (product (map leaves self.now)) }
    {
        self.kept().leaves
    }

    /// The leaves of an `if` that has these arguments, as far as 32 bits hold them. Takes one step.
    fn choice(&self) -> u32
        ensures { result ≡ capped (choice_leaves (if_parts true (map leaves self.now)) (product (map leaves self.now))) }
    {
        self.kept().choice
    }

    /// The leaves of a call that has these arguments, as far as 32 bits hold them. Takes one step.
    pub(crate) fn leaves_under(&self, head: &Symbol) -> u32
        ensures { result ≡ capped (leaves (Call head.now self.now)) }
    {
        if chooses(head, self.as_slice()) {
            self.choice()
        } else {
            self.leaves()
        }
    }

    /// Whether one of the terms has an `if`. Takes one step.
    pub fn has_if(&self) -> bool
        ensures { result ≡ any_true (map has_if self.now) }
    {
        self.kept().has_if
    }

    /// Whether a call that has these arguments has an `if`. Takes one step.
    pub(crate) fn has_if_under(&self, head: &Symbol) -> bool
        ensures { result ≡ has_if (Call head.now self.now) }
    {
        chooses(head, self.as_slice()) || self.has_if()
    }

    /// A number that equal lists of terms have in common. Takes one step.
    pub fn hash(&self) -> u64
        ensures { result ≡ mixed_all 8 (map term_hash self.now) }
    {
        self.kept().hash
    }

    /// A number that equal calls that have these arguments have in common. Takes one step.
    pub(crate) fn hash_under(&self, head: &Symbol) -> u64
        ensures { result ≡ term_hash (Call head.now self.now) }
    {
        mixed(symbol_hash(head), self.hash())
    }

    /// What is counted of a call that has these arguments. Takes one step.
    pub(crate) fn counted(&self, head: &Symbol) -> Counts
        ensures { IsCounted result (Call head.now self.now) }
    {
        Counts {
            variables: self.variables(),
            functions: self.functions().saturating_add(1),
            constants: self.constants(),
            leaves: self.leaves_under(head),
            hash: self.hash_under(head),
            has_if: self.has_if_under(head),
        }
    }
}
