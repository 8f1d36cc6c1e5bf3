ghost use Rattle.std.specs.Prelude.{◌≡◌, ◌<◌, ◌↔◌, IsTrue, IfOk};
ghost use Rattle.ap_term.specs.declared.term.Term.{Var, Quote, Call};
ghost use Rattle.ap_term.specs.Terms.{term_size};
ghost use Rattle.ap_term.specs.Capped.{capped};
ghost use Rattle.ap_term.specs.Leaves.{leaves, has_if};
ghost use Rattle.ap_term.specs.Order.{variables_in, functions_in, constants_in};
ghost use Rattle.ap_term.specs.Hashes.{term_hash};
ghost use Rattle.ap_term.specs.Keeping.{IsCounted};

use crate::arguments::Arguments;
use crate::hashes::{mixed, symbol_hash, value_hash};
use crate::kept::{Counts, constant_nodes};
use crate::shape::Shape;
use ap_value::{NoMemory, Seq, Symbol, Value};
use std::alloc::Global;
use std::marker::Model;

/// A term in translated form: a variable, a quoted constant, or a call of a function by its name. Copies
/// share the arguments of a call, which keep what is asked of them again and again. Contracts see the tree alone.
#[cycle(term)]
#[derive(Debug, Drop)]
pub struct Term {
    pub shape: Shape,
}

impl Model for Term {
    ghost use Rattle.ap_term.specs.declared.term.Term.{Term};
    ghost use Rattle.ap_term.specs.contracts.term.Term as term;
    ghost use Rattle.std.specs.Coded.{codes};

    ghost Value = { Term };

    ghost coded = { Prim.hlevel (codes, term.the_row.coded) };

    ghost use Rattle.ap_term.specs.Shapes.{plain_of};

    ghost view = { λ t. plain_of t.shape };

    ghost use Rattle.ap_term.specs.Depth.{depth};

    ghost size = { depth };

    ghost use Rattle.ap_term.specs.Falls.{depth_falls};

    ghost size_decreases = { λ t h. depth_falls t.shape };
}

impl Term {
    /// A variable.
    pub fn var(name: Symbol) -> Term
        ensures { result ≡ Var name }
    {
        Term {
            shape: Shape::Var(name),
        }
    }

    /// A quoted constant.
    pub fn quote(value: Value) -> Term
        ensures { result ≡ Quote value }
    {
        Term {
            shape: Shape::Quote(value),
        }
    }

    /// A call of a function, whose arguments are moved to where copies share them.
    pub fn call(alloc: Global, head: Symbol, arguments: Seq<Term>) -> Result<Term, NoMemory>
        ensures { IfOk result (λ t. t ≡ Call head arguments) }
    {
        let arguments = Arguments::new(alloc, arguments)?;
        Ok(Term::call_of(head, arguments))
    }

    /// A call on arguments that are shared already.
    pub fn call_of(head: Symbol, arguments: Arguments) -> Term
        ensures { result ≡ Call head arguments }
    {
        Term {
            shape: Shape::Call(head, arguments),
        }
    }

    /// All that is counted of it. Of a variable and a call it takes one step.
    pub(crate) fn counted(&self) -> Counts
        ensures { IsCounted result self.now }
    {
        match &self.shape {
            Shape::Var(x) => Counts {
                variables: 1,
                functions: 0,
                constants: 0,
                leaves: 1,
                hash: mixed(6, symbol_hash(x)),
                has_if: false,
            },
            Shape::Quote(v) => Counts {
                variables: 0,
                functions: 0,
                constants: constant_nodes(v),
                leaves: 1,
                hash: mixed(7, value_hash(v)),
                has_if: false,
            },
            Shape::Call(f, ts) => ts.counted(f),
        }
    }

    /// The occurrences of variables, as far as 32 bits hold them. Takes one step.
    pub fn variables(&self) -> u32
        ensures { result ≡ capped (variables_in self.now) }
    {
        match &self.shape {
            Shape::Var(_) => 1,
            Shape::Quote(_) => 0,
            Shape::Call(_, ts) => ts.variables(),
        }
    }

    /// The calls, as far as 32 bits hold them. Takes one step.
    pub fn functions(&self) -> u32
        ensures { result ≡ capped (functions_in self.now) }
    {
        match &self.shape {
            Shape::Var(_) => 0,
            Shape::Quote(_) => 0,
            Shape::Call(_, ts) => ts.functions().saturating_add(1),
        }
    }

    /// The nodes in constants, as far as 32 bits hold them. Of a call it takes one step.
    pub fn constants(&self) -> u32
        ensures { result ≡ capped (constants_in self.now) }
    {
        match &self.shape {
            Shape::Var(_) => 0,
            Shape::Quote(v) => constant_nodes(v),
            Shape::Call(_, ts) => ts.constants(),
        }
    }

    /// The nodes, as far as 32 bits hold them. Of a call it takes one step.
    pub fn nodes_up_to(&self) -> u32
        ensures { result ≡ capped (term_size self.now) }
    {
        match &self.shape {
            Shape::Var(_) => 1,
            Shape::Quote(v) => constant_nodes(v),
            Shape::Call(_, ts) => ts.nodes_up_to().saturating_add(1),
        }
    }

    /// The leaves that splitting makes of it, as far as 32 bits hold them. Takes one step.
    pub fn leaves(&self) -> u32
        ensures { result ≡ capped (leaves self.now) }
    {
        match &self.shape {
            Shape::Var(_) => 1,
            Shape::Quote(_) => 1,
            Shape::Call(f, ts) => ts.leaves_under(f),
        }
    }

    /// Whether an `if` of three arguments stands in it. Takes one step.
    pub fn has_if(&self) -> bool
        ensures { result ≡ has_if self.now }
    {
        match &self.shape {
            Shape::Var(_) => false,
            Shape::Quote(_) => false,
            Shape::Call(f, ts) => ts.has_if_under(f),
        }
    }

    /// Whether a variable stands in it. Takes one step.
    pub fn has_variable(&self) -> bool
        ensures { IsTrue result ↔ (0 < variables_in self.now) }
    {
        match &self.shape {
            Shape::Var(_) => true,
            Shape::Quote(_) => false,
            Shape::Call(_, ts) => ts.has_variable(),
        }
    }

    /// A number that equal terms have in common. Takes one step.
    pub fn hash(&self) -> u64
        ensures { result ≡ term_hash self.now }
    {
        match &self.shape {
            Shape::Var(x) => mixed(6, symbol_hash(x)),
            Shape::Quote(v) => mixed(7, value_hash(v)),
            Shape::Call(f, ts) => ts.hash_under(f),
        }
    }
}
