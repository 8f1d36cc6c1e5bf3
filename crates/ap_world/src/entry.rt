ghost use Rattle.std.specs.Prelude.{◌≡◌, IfOk};

use ap_list::{NoMemory, Seq};
use ap_term::{Term, copy_symbols, copy_term, copy_terms};
use ap_value::{Symbol, Value, copy, copy_symbol};
use std::alloc::Global;

/// A set of the ten basic types of a value. Bit k stands for the k-th, from 0: zero, positive, negative,
/// `nil`, `t`, another symbol, a proper cons, an improper cons, a string, a character.
#[derive(Clone, Copy, Debug)]
pub struct Mask(pub u16);

/// The components of a measure, compared lexicographically: one for a plain measure, two to four for
/// `(lex m1 .. mk)`.
#[derive(Debug, Drop)]
pub struct Measure(pub Seq<Term>);

/// One case of a recursive body: the tests that lead to it, and the arguments of each recursive call in
/// it. See the manual's topic `induction-machine`.
#[derive(Debug, Drop)]
pub struct Case {
    pub tests: Seq<Term>,
    pub calls: Seq<Seq<Term>>,
}

/// A defined function. `measure` is there exactly for a function that calls itself; `cases` are those of
/// its body; `mask` holds the type of each value that a call of it has.
#[derive(Debug, Drop)]
pub struct Function {
    pub name: Symbol,
    pub formals: Seq<Symbol>,
    pub body: Term,
    pub measure: Option<Measure>,
    pub cases: Seq<Case>,
    pub mask: Mask,
}

/// A definition as an event gives it: the name, the formals and the body of a function, the measure that is
/// given, if one is, and the cases of the body. See the manual's topics `defun` and `xargs`.
#[derive(Debug, Drop)]
pub struct Defun {
    pub name: Symbol,
    pub formals: Seq<Symbol>,
    pub body: Term,
    pub measure: Option<Measure>,
    pub cases: Seq<Case>,
}

/// How a theorem is used as a rule. See the manual's topic `rule-classes`.
#[derive(Clone, Copy, Debug)]
pub enum RuleClass {
    Rewrite,
    Linear,
    TypePrescription,
    Elim,
}

/// A theorem, by its name, its term and its rule classes.
#[derive(Debug, Drop)]
pub struct Theorem {
    pub name: Symbol,
    pub term: Term,
    pub classes: Seq<RuleClass>,
}

/// What an event of a book adds to a world.
#[derive(Debug, Drop)]
pub enum Entry {
    Function(Function),
    Theorem(Theorem),
    Constant(Symbol, Value),
}

/// An entry of a world, lent.
#[derive(Clone, Copy, Debug)]
pub enum EntryRef<'a> {
    Function(&'a Function),
    Theorem(&'a Theorem),
    Constant(&'a Symbol, &'a Value),
}

impl Entry {
    ghost use Rattle.ap_world.specs.World.{name_in};

    /// The name that the entry takes.
    pub fn name(&self) -> &Symbol
        ensures { result.now ≡ name_in self.now }
    {
        match self {
            Entry::Function(function) => &function.name,
            Entry::Theorem(theorem) => &theorem.name,
            Entry::Constant(name, _) => name,
        }
    }
}

/// A copy of a list of lists of terms.
fn copy_calls(alloc: Global, calls: &[Seq<Term>]) -> Result<Seq<Seq<Term>>, NoMemory>
    ensures { IfOk result (λ r. r ≡ calls.now) }
{
    let mut out = Seq::new(alloc);
    for arguments in calls {
        out.push(copy_terms(alloc, arguments.as_slice())?)?;
    }
    Ok(out)
}

/// A copy of a list of cases.
pub fn copy_cases(alloc: Global, cases: &[Case]) -> Result<Seq<Case>, NoMemory>
    ensures { IfOk result (λ r. r ≡ cases.now) }
{
    let mut out = Seq::new(alloc);
    for case in cases {
        let tests = copy_terms(alloc, case.tests.as_slice())?;
        let calls = copy_calls(alloc, case.calls.as_slice())?;
        out.push(Case { tests, calls })?;
    }
    Ok(out)
}

/// A copy of a measure.
pub fn copy_measure(alloc: Global, measure: &Option<Measure>) -> Result<Option<Measure>, NoMemory>
    ensures { IfOk result (λ r. r ≡ measure.now) }
{
    match measure {
        None => Ok(None),
        Some(Measure(components)) => Ok(Some(Measure(copy_terms(alloc, components.as_slice())?))),
    }
}

/// A copy of a function.
pub fn copy_function(alloc: Global, function: &Function) -> Result<Function, NoMemory>
    ensures { IfOk result (λ r. r ≡ function.now) }
{
    let formals = copy_symbols(alloc, function.formals.as_slice())?;
    let measure = copy_measure(alloc, &function.measure)?;
    let cases = copy_cases(alloc, function.cases.as_slice())?;
    let name = copy_symbol(alloc, &function.name)?;
    let mask = function.mask;
    let body = copy_term(alloc, &function.body)?;
    Ok(Function {
        name,
        formals,
        body,
        measure,
        cases,
        mask,
    })
}

/// A copy of a theorem.
pub fn copy_theorem(alloc: Global, theorem: &Theorem) -> Result<Theorem, NoMemory>
    ensures { IfOk result (λ r. r ≡ theorem.now) }
{
    let name = copy_symbol(alloc, &theorem.name)?;
    let classes = Seq::from_slice(alloc, theorem.classes.as_slice())?;
    let term = copy_term(alloc, &theorem.term)?;
    Ok(Theorem {
        name,
        term,
        classes,
    })
}

/// A copy of an entry.
pub fn copy_entry(alloc: Global, entry: &Entry) -> Result<Entry, NoMemory>
    ensures { IfOk result (λ r. r ≡ entry.now) }
{
    match entry {
        Entry::Function(function) => Ok(Entry::Function(copy_function(alloc, function)?)),
        Entry::Theorem(theorem) => Ok(Entry::Theorem(copy_theorem(alloc, theorem)?)),
        Entry::Constant(name, value) => Ok(Entry::Constant(
            copy_symbol(alloc, name)?,
            copy(alloc, value)?,
        )),
    }
}
