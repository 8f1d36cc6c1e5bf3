//! Functions and rules by the rows of their tables.
ghost use Rattle.std.specs.Prelude.{◌≡◌, [], ◌∷◌, IfOk, map};
ghost use Rattle.ap_ground.specs.Written.{term_of};
ghost use Rattle.ap_ground.specs.Tabled.{case_made, measure_made, function_made, rule_made};

use crate::written::Word::{One, Var};
use crate::written::{Word, symbol, symbols, term, terms};
use ap_list::{NoMemory, Seq};
use ap_term::Term;
use ap_world::{Case, Function, Mask, Measure, RuleClass, Theorem};
use std::alloc::Global;

/// A case of a body: its tests, and the arguments of each call in it.
#[derive(Clone, Copy, Debug)]
pub(crate) struct CaseRow {
    pub(crate) tests: &'static [&'static [Word]],
    pub(crate) calls: &'static [&'static [&'static [Word]]],
}

/// A function: its name, its formals, its body, the cases of one that calls itself, and the types that a call of
/// it can have.
#[derive(Clone, Copy, Debug)]
pub(crate) struct Row {
    pub(crate) name: &'static [u8],
    pub(crate) formals: &'static [&'static [u8]],
    pub(crate) body: &'static [Word],
    pub(crate) cases: &'static [CaseRow],
    pub(crate) mask: u16,
}

/// A rule: the name of its theorem, the theorem's term and its one class.
#[derive(Clone, Copy, Debug)]
pub(crate) struct RuleRow {
    pub(crate) name: &'static [u8],
    pub(crate) term: &'static [Word],
    pub(crate) class: RuleClass,
}

/// The arguments of each call.
fn calls(alloc: Global, rows: &[&[&[Word]]]) -> Result<Seq<Seq<Term>>, NoMemory>
    ensures { IfOk result (λ uss. uss ≡ map (λ c. map (λ ws. term_of ws.now) c.now) rows.now) }
{
    let mut arguments = Seq::with_capacity(alloc, rows.len())?;
    for call in rows {
        arguments.push(terms(alloc, call)?)?;
    }
    Ok(arguments)
}

/// A case.
fn case(alloc: Global, row: &CaseRow) -> Result<Case, NoMemory>
    ensures { IfOk result (λ k. k ≡ case_made row.now) }
{
    let tests = terms(alloc, row.tests)?;
    let calls = calls(alloc, row.calls)?;
    Ok(Case { tests, calls })
}

/// The cases.
fn cases(alloc: Global, rows: &[CaseRow]) -> Result<Seq<Case>, NoMemory>
    ensures { IfOk result (λ ks. ks ≡ map case_made rows.now) }
{
    let mut out = Seq::with_capacity(alloc, rows.len())?;
    for row in rows {
        out.push(case(alloc, row)?)?;
    }
    Ok(out)
}

/// The measure of a function of these cases: none where it doesn't call itself, else `(acl2-count x)`.
#[tactic(auto, unfolding(ap_world::proofs::Equations::names_open))]
fn measure(alloc: Global, rows: &[CaseRow]) -> Result<Option<Measure>, NoMemory>
    ensures { IfOk result (λ m. m ≡ measure_made rows.now) }
{
    if rows.is_empty() {
        return Ok(None);
    }
    let count = terms(alloc, &[&[One(b"ACL2-COUNT"), Var(b"X")]])?;
    Ok(Some(Measure(count)))
}

/// A function.
fn function(alloc: Global, row: &Row) -> Result<Function, NoMemory>
    ensures { IfOk result (λ f. f ≡ function_made row.now) }
{
    let name = symbol(alloc, row.name)?;
    let formals = symbols(alloc, row.formals)?;
    let body = term(alloc, row.body)?;
    let measure = measure(alloc, row.cases)?;
    let cases = cases(alloc, row.cases)?;
    Ok(Function {
        name,
        formals,
        body,
        measure,
        cases,
        mask: Mask(row.mask),
    })
}

/// The functions of a table.
pub(crate) fn functions(alloc: Global, rows: &[Row]) -> Result<Seq<Function>, NoMemory>
    ensures { IfOk result (λ fs. fs ≡ map function_made rows.now) }
{
    let mut out = Seq::with_capacity(alloc, rows.len())?;
    for row in rows {
        out.push(function(alloc, row)?)?;
    }
    Ok(out)
}

/// A theorem of one rule class.
fn rule(alloc: Global, row: &RuleRow) -> Result<Theorem, NoMemory>
    ensures { IfOk result (λ u. u ≡ rule_made row.now) }
{
    let name = symbol(alloc, row.name)?;
    let term = term(alloc, row.term)?;
    let mut classes = Seq::with_capacity(alloc, 1)?;
    classes.push(row.class)?;
    Ok(Theorem {
        name,
        term,
        classes,
    })
}

/// The rules of a table.
pub(crate) fn rules(alloc: Global, rows: &[RuleRow]) -> Result<Seq<Theorem>, NoMemory>
    ensures { IfOk result (λ us. us ≡ map rule_made rows.now) }
{
    let mut out = Seq::with_capacity(alloc, rows.len())?;
    for row in rows {
        out.push(rule(alloc, row)?)?;
    }
    Ok(out)
}
