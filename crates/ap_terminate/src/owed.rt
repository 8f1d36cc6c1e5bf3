ghost use Rattle.std.specs.Prelude.{◌≡◌, [], ◌∷◌, ◌++◌, IfOk, OnOk, is_some, map};
ghost use Rattle.ap_world.specs.Ground.{one, two};
ghost use Rattle.ap_world.specs.Laws.{conjunction, under};
ghost use Rattle.ap_world.specs.Names.{natp_name, less_name, implies_name};
ghost use Rattle.ap_world.specs.Recursion.{natp_of, less, decrease, natural_obligations, falling_obligations, obligations};
ghost use Rattle.ap_terminate.specs.Distinct.{clause_of};
ghost use Rattle.ap_terminate.specs.Less.{are_last, or_later};

use ap_clausify::flat;
use ap_kernel::{equal_term, if_term, nil_term, pairs_of, subst_all, t_term};
use ap_list::{NoMemory, Seq};
use ap_term::{Clause, Term, copy_term};
use ap_value::{Fixed, Symbol, named};
use ap_world::{Case, Defun, Measure};
use std::alloc::Global;

/// A call of two arguments.
fn pair_call(alloc: Global, head: Symbol, a: Term, b: Term) -> Result<Term, NoMemory>
    ensures { IfOk result (λ u. u ≡ two head a b) }
{
    let mut arguments = Seq::new(alloc);
    arguments.push(a)?;
    arguments.push(b)?;
    Term::call(alloc, head, arguments)
}

/// `(natp u)`
#[tactic(auto, unfolding(ap_world::specs::Names::natp_name))]
fn natp_term(alloc: Global, u: &Term) -> Result<Term, NoMemory>
    ensures { IfOk result (λ r. r ≡ natp_of u.now) }
{
    let mut arguments = Seq::new(alloc);
    arguments.push(copy_term(alloc, u)?)?;
    Term::call(alloc, named(Fixed::Natp), arguments)
}

/// `(< a b)`
#[tactic(auto, unfolding(ap_world::specs::Names::less_name))]
fn less_term(alloc: Global, a: &Term, b: &Term) -> Result<Term, NoMemory>
    ensures { IfOk result (λ r. r ≡ two less_name a.now b.now) }
{
    let head = named(Fixed::Less);
    pair_call(alloc, head, copy_term(alloc, a)?, copy_term(alloc, b)?)
}

/// `(implies h c)`
#[tactic(auto, unfolding(ap_world::specs::Names::implies_name))]
fn implies_term(alloc: Global, h: Term, c: Term) -> Result<Term, NoMemory>
    ensures { IfOk result (λ r. r ≡ two implies_name h c) }
{
    let head = named(Fixed::Implies);
    pair_call(alloc, head, h, c)
}

/// Whether neither of two lists goes on. Takes no memory.
fn are_last(xs: &[Term], ys: &[Term]) -> bool
    ensures { result ≡ are_last xs.now ys.now }
{
    match xs {
        [] => ys.is_empty(),
        _ => false,
    }
}

/// `(if (< a b) 't (if (equal a b) rest 'nil))`
fn or_later(alloc: Global, a: &Term, b: &Term, rest: Term) -> Result<Term, NoMemory>
    ensures { IfOk result (λ u. u ≡ or_later a.now b.now rest) }
{
    let same = equal_term(alloc, copy_term(alloc, a)?, copy_term(alloc, b)?)?;
    let later = if_term(alloc, same, rest, nil_term())?;
    if_term(alloc, less_term(alloc, a, b)?, t_term(), later)
}

/// That the first list is less than the second, component by component; of one component `(< a b)`.
#[tactic(auto, using(crate::proofs::Falling::less_last, crate::proofs::Falling::less_more))]
fn less(alloc: Global, xs: &[Term], ys: &[Term]) -> Result<Term, NoMemory>
    ensures { IfOk result (λ u. u ≡ less xs.now ys.now) }
{
    let [a, left @ ..] = xs else {
        return Ok(nil_term());
    };
    let [b, right @ ..] = ys else {
        return Ok(nil_term());
    };
    if are_last(left, right) {
        return less_term(alloc, a, b);
    }
    let rest = less(alloc, left, right)?;
    or_later(alloc, a, b, rest)
}

/// The conjunction of a test and others: `(if a rest 'nil)`.
fn conjunction(alloc: Global, first: &Term, tests: &[Term]) -> Result<Term, NoMemory>
    ensures { IfOk result (λ u. u ≡ conjunction first.now tests.now) }
{
    match tests {
        [] => copy_term(alloc, first),
        [second, rest @ ..] => {
            let later = conjunction(alloc, second, rest)?;
            if_term(alloc, copy_term(alloc, first)?, later, nil_term())
        }
    }
}

/// That the tests imply a term; the term alone where there are none.
fn under(alloc: Global, tests: &[Term], u: Term) -> Result<Term, NoMemory>
    ensures { IfOk result (λ r. r ≡ under tests.now u) }
{
    match tests {
        [] => Ok(u),
        [first, rest @ ..] => {
            let tests = conjunction(alloc, first, rest)?;
            implies_term(alloc, tests, u)
        }
    }
}

/// The clause of: the case's tests imply that the measure of the call's arguments is less.
fn decrease(
    alloc: Global,
    formals: &[Symbol],
    m: &[Term],
    case: &Case,
    call: &[Term],
) -> Result<Clause, NoMemory>
    ensures { IfOk result (λ c. c ≡ clause_of (decrease formals.now m.now case.now call.now)) }
{
    let pairs = pairs_of(alloc, formals, call)?;
    let at_call = subst_all(alloc, m, &pairs)?;
    let falls = less(alloc, at_call.as_slice(), m)?;
    let conjecture = under(alloc, case.tests.as_slice(), falls)?;
    let clause = flat(alloc, &conjecture)?;
    Ok(clause)
}

/// Adds, for each component of a measure, that it is a natural number.
fn push_natural(alloc: Global, m: &[Term], out: &mut Seq<Clause>) -> Result<(), NoMemory>
    ensures { OnOk result (out.new ≡ out.old ++ map clause_of (natural_obligations m.now)) }
{
    for component in m {
        let mut literals = Seq::new(alloc);
        literals.push(natp_term(alloc, component)?)?;
        out.push(Clause(literals))?;
    }
    Ok(())
}

/// Adds, for each of some calls of a case, that the measure falls.
fn push_falls(
    alloc: Global,
    formals: &[Symbol],
    m: &[Term],
    case: &Case,
    calls: &[Seq<Term>],
    out: &mut Seq<Clause>,
) -> Result<(), NoMemory>
    ensures { OnOk result (out.new ≡ out.old ++ map clause_of (map (decrease formals.now m.now case.now) calls.now)) }
{
    for call in calls {
        out.push(decrease(alloc, formals, m, case, call.as_slice())?)?;
    }
    Ok(())
}

/// The same for each case, in their order.
fn push_all_falls(
    alloc: Global,
    formals: &[Symbol],
    m: &[Term],
    cases: &[Case],
    out: &mut Seq<Clause>,
) -> Result<(), NoMemory>
    ensures { OnOk result (out.new ≡ out.old ++ map clause_of (falling_obligations formals.now m.now cases.now)) }
{
    for case in cases {
        push_falls(alloc, formals, m, case, case.calls.as_slice(), out)?;
    }
    Ok(())
}

/// The clauses that must be valid for a function to end by a measure: for a given measure that each
/// component is a natural number, and then, for each case and each of its calls, that under the case's tests
/// the measure of the call's arguments is less. The only error is want of memory.
pub fn obligations(alloc: Global, d: &Defun, m: &Measure) -> Result<Seq<Clause>, NoMemory>
    ensures { IfOk result (λ cs. cs ≡ map clause_of (obligations (is_some d.now.measure) d.now.formals m.now.0 d.now.cases)) }
{
    let mut out = Seq::new(alloc);
    let components = m.0.as_slice();
    if d.measure.is_some() {
        push_natural(alloc, components, &mut out)?;
    }
    push_all_falls(
        alloc,
        d.formals.as_slice(),
        components,
        d.cases.as_slice(),
        &mut out,
    )?;
    Ok(out)
}
