ghost use Rattle.std.specs.Prelude.{◌≡◌, ◌++◌, [], ◌∷◌, IfOk, IsTrue, OnOk, Some, map};
ghost use Rattle.std.specs.Option.{option_map};
ghost use Rattle.ap_list.specs.Lists.{joined};
ghost use Rattle.ap_term.specs.declared.term.Term.TheVariants.{Call};
ghost use Rattle.ap_term.specs.Terms.{subst_of};
ghost use Rattle.ap_world.specs.Clauses.{negate};
ghost use Rattle.ap_world.specs.Sound.{known, HasFunctions};
ghost use Rattle.ap_world.specs.World.{function_of};
ghost use Rattle.ap_kernel.specs.Reductions.{KnownClause, Reduces};
ghost use Rattle.ap_kernel.specs.Deriving.{node};
ghost use Rattle.ap_kernel.specs.declared.derivations.Row.TheVariants.{Induct};
ghost use Rattle.ap_kernel.specs.Induction.{choices, negated_at, case_clauses, induction, variable_of, moved_at, pairs_of, induction_at, leads_induction, induct_made};

use crate::derivations::{Derivation, Row};
use crate::hints::before;
use crate::lists::copied_pair;
use crate::places::{Place, places_of};
use crate::reductions::Reduction;
use crate::splits::negated_instance;
use ap_list::{NoMemory, Seq, Shared};
use ap_term::{Clause, Shape, Subst, Term, copy_term, copy_terms, subst};
use ap_value::{Symbol, acl2, copy_symbol};
use ap_world::{Case, World};
use std::alloc::Global;

/// The negations of the instances of terms.
fn negated_instances(alloc: Global, terms: &[Term], s: &Subst) -> Result<Seq<Term>, NoMemory>
    ensures { IfOk result (λ us. us ≡ map (λ t. negate (subst_of s.now.0 t)) terms.now) }
{
    let mut out = Seq::new(alloc);
    for t in terms {
        out.push(negated_instance(alloc, t, s)?)?;
    }
    Ok(out)
}

/// Lists with an element before each, which is copied; they are added to others.
fn push_before(
    alloc: Global,
    first: &Term,
    lists: &[Seq<Term>],
    out: &mut Seq<Seq<Term>>,
) -> Result<(), NoMemory>
    ensures { OnOk result (out.new ≡ out.old ++ map (λ ys. first.now ∷ ys) lists.now) }
{
    for list in lists {
        out.push(before(alloc, copy_term(alloc, first)?, list.as_slice())?)?;
    }
    Ok(())
}

/// Each of some terms before each of some lists, the lists varying fastest.
fn with_each(
    alloc: Global,
    firsts: &[Term],
    later: &[Seq<Term>],
) -> Result<Seq<Seq<Term>>, NoMemory>
    ensures { IfOk result (λ out. out ≡ joined (map (λ x. map (λ ys. x ∷ ys) later.now) firsts.now)) }
{
    let mut out = Seq::new(alloc);
    for x in firsts {
        push_before(alloc, x, later, &mut out)?;
    }
    Ok(out)
}

/// The list of one list, which is empty.
fn one_empty(alloc: Global) -> Result<Seq<Seq<Term>>, NoMemory>
    ensures { IfOk result (λ out. out ≡ [] ∷ []) }
{
    let mut out = Seq::new(alloc);
    out.push(Seq::new(alloc))?;
    Ok(out)
}

/// One of each list, the last varying fastest.
fn choices(alloc: Global, lists: &[Seq<Term>]) -> Result<Seq<Seq<Term>>, NoMemory>
    ensures { IfOk result (λ out. out ≡ choices lists.now) }
{
    let [first, rest @ ..] = lists else {
        return one_empty(alloc);
    };
    let later = choices(alloc, rest)?;
    with_each(alloc, first.as_slice(), later.as_slice())
}

/// A variable's name; that of another term is `nil`.
#[tactic(auto, using(ap_term::proofs::Seen::trees), unfolding(ap_world::specs::Names::nil_name))]
pub fn variable_of(alloc: Global, t: &Term) -> Result<Symbol, NoMemory>
    ensures { IfOk result (λ x. x ≡ variable_of t.now) }
{
    match &t.shape {
        Shape::Var(x) => copy_symbol(alloc, x),
        Shape::Quote(_) => acl2(alloc, b"NIL"),
        Shape::Call(_, _) => acl2(alloc, b"NIL"),
    }
}

/// The formals with their actuals.
fn pairs_of(alloc: Global, places: &[Place]) -> Result<Subst, NoMemory>
    ensures { IfOk result (λ s. s.0 ≡ pairs_of places.now) }
{
    let mut out = Seq::new(alloc);
    for place in places {
        out.push(copied_pair(alloc, &place.formal, &place.actual)?)?;
    }
    Ok(Subst(out))
}

/// A variable that is replaced, by its actual, and what it becomes: the instance of a call's argument.
fn moved_pair(
    alloc: Global,
    s: &Subst,
    actual: &Term,
    value: &Term,
) -> Result<(Symbol, Term), NoMemory>
    ensures { IfOk result (λ p. p ≡ (variable_of actual.now, subst_of s.now.0 value.now)) }
{
    let name = variable_of(alloc, actual)?;
    let moved = subst(alloc, value, s)?;
    Ok((name, moved))
}

/// What the variables that are replaced become for a call: its arguments at the actuals.
fn moved_at(alloc: Global, s: &Subst, places: &[Place], call: &[Term]) -> Result<Subst, NoMemory>
    ensures { IfOk result (λ z. z.0 ≡ moved_at s.now.0 places.now call.now) }
{
    let mut left = places;
    let mut values = call;
    let mut out = Seq::new(alloc);
    while let [place, rest @ ..] = left {
        let [value, more @ ..] = values else {
            return Ok(Subst(out));
        };
        if place.is_moved {
            out.push(moved_pair(alloc, s, &place.actual, value)?)?;
        }
        left = rest;
        values = more;
    }
    Ok(Subst(out))
}

/// The literals under the replacement of a call, negated.
fn negated_under(
    alloc: Global,
    literals: &[Term],
    s: &Subst,
    places: &[Place],
    call: &[Term],
) -> Result<Seq<Term>, NoMemory>
    ensures { IfOk result (λ us. us ≡ negated_at literals.now s.now.0 (moved_at s.now.0 places.now) call.now) }
{
    let moved = moved_at(alloc, s, places, call)?;
    negated_instances(alloc, literals, &moved)
}

/// For each call the literals under its replacement, negated.
fn hypotheses(
    alloc: Global,
    literals: &[Term],
    s: &Subst,
    places: &[Place],
    calls: &[Seq<Term>],
) -> Result<Seq<Seq<Term>>, NoMemory>
    ensures { IfOk result (λ out. out ≡ map (negated_at literals.now s.now.0 (moved_at s.now.0 places.now)) calls.now) }
{
    let mut out = Seq::new(alloc);
    for call in calls {
        out.push(negated_under(alloc, literals, s, places, call.as_slice())?)?;
    }
    Ok(out)
}

/// Tests, a choice of hypotheses, and the literals.
fn put_together(
    alloc: Global,
    tests: &[Term],
    choice: &[Term],
    literals: &[Term],
) -> Result<Seq<Term>, NoMemory>
    ensures { IfOk result (λ out. out ≡ tests.now ++ (choice.now ++ literals.now)) }
{
    let mut out = copy_terms(alloc, choice)?;
    out.append(copy_terms(alloc, literals)?)?;
    let mut all = copy_terms(alloc, tests)?;
    all.append(out)?;
    Ok(all)
}

/// The tests, each choice of hypotheses, and the literals.
fn with_choices(
    alloc: Global,
    tests: &[Term],
    choices: &[Seq<Term>],
    literals: &[Term],
) -> Result<Seq<Seq<Term>>, NoMemory>
    ensures { IfOk result (λ out. out ≡ map (λ ls. tests.now ++ (ls ++ literals.now)) choices.now) }
{
    let mut out = Seq::new(alloc);
    for choice in choices {
        out.push(put_together(alloc, tests, choice.as_slice(), literals)?)?;
    }
    Ok(out)
}

/// The clauses of a case.
fn case_clauses(
    alloc: Global,
    literals: &[Term],
    s: &Subst,
    places: &[Place],
    case: &Case,
) -> Result<Seq<Seq<Term>>, NoMemory>
    ensures { IfOk result (λ out. out ≡ case_clauses literals.now s.now.0 (moved_at s.now.0 places.now) case.now) }
{
    let tests = negated_instances(alloc, case.tests.as_slice(), s)?;
    let lists = hypotheses(alloc, literals, s, places, case.calls.as_slice())?;
    let choices = choices(alloc, lists.as_slice())?;
    with_choices(alloc, tests.as_slice(), choices.as_slice(), literals)
}

/// The clauses of all cases, one case after another.
fn all_clauses(
    alloc: Global,
    literals: &[Term],
    s: &Subst,
    places: &[Place],
    cases: &[Case],
) -> Result<Seq<Seq<Term>>, NoMemory>
    ensures { IfOk result (λ out. out ≡ induction literals.now s.now.0 (moved_at s.now.0 places.now) cases.now) }
{
    let mut out = Seq::new(alloc);
    for case in cases {
        out.append(case_clauses(alloc, literals, s, places, case)?)?;
    }
    Ok(out)
}

/// Lists of literals as clauses. The lists are moved.
fn as_clauses(alloc: Global, lists: Seq<Seq<Term>>) -> Result<Seq<Clause>, NoMemory>
    ensures { IfOk result (λ out. out ≡ map (λ ts. record { 0 = ts }) lists) }
{
    let mut out = Seq::new(alloc);
    for list in lists.into_vec() {
        out.push(Clause(list))?;
    }
    Ok(out)
}

/// The clauses of the induction at these places.
fn induction_at(
    alloc: Global,
    literals: &[Term],
    places: &[Place],
    cases: &[Case],
) -> Result<Seq<Clause>, NoMemory>
    ensures { IfOk result (λ cs. cs ≡ map (λ ts. record { 0 = ts }) (induction_at literals.now places.now cases.now)) }
{
    let pairs = pairs_of(alloc, places)?;
    let lists = all_clauses(alloc, literals, &pairs, places, cases)?;
    as_clauses(alloc, lists)
}

/// The clauses of the induction by a call of a function, where that is recursive.
fn induction_by(
    alloc: Global,
    w: &World,
    c: &Clause,
    f: &Symbol,
    actuals: &[Term],
) -> Result<Option<Seq<Clause>>, NoMemory>
    ensures { IfOk result (λ o. option_map (λ cs. record { from = c.now; to = cs }) o ≡ induct_made (function_of w.now.entries f.now) c.now actuals.now) }
{
    let Some(function) = w.lookup_fun(f) else {
        return Ok(None);
    };
    let Some(measure) = &function.measure else {
        return Ok(None);
    };
    let places = places_of(alloc, function, measure.0.as_slice(), actuals)?;
    let goals = induction_at(
        alloc,
        c.0.as_slice(),
        places.as_slice(),
        function.cases.as_slice(),
    )?;
    Ok(Some(goals))
}

/// How an induction is made.
fn induct_why(
    alloc: Global,
    c: &Shared<Clause>,
    f: &Symbol,
    actuals: &[Term],
) -> Result<Shared<Derivation>, NoMemory>
    ensures { IfOk result (λ d. d ≡ node (Induct c.now f.now actuals.now) []) }
{
    let c = c.share()?;
    let f = copy_symbol(alloc, f)?;
    let actuals = copy_terms(alloc, actuals)?;
    let answer = Derivation::leaf(alloc, Row::Induct(c, f, actuals))?;
    Ok(answer)
}

/// From a clause to the clauses of the induction by a call of a recursive function, whose actuals have the
/// conditions of a candidate. They come case by case of the function. Each has the negated tests of its case,
/// for each call of the case one literal of the clause under the replacement of that call, negated, and the
/// clause; there is one for each choice of these literals, the last call's varying fastest. It copies what it
/// doesn't change, since the reduction owns all clauses. See the manual's topic `induction`.
pub fn induct(
    alloc: Global,
    w: &World,
    c: Clause,
    f: &Symbol,
    actuals: &[Term],
) -> Result<Reduction, NoMemory>
    requires functions { HasFunctions (function_of w.now.entries) }
    requires clause { KnownClause (function_of w.now.entries) c }
    requires call { IsTrue (known (function_of w.now.entries) (Call f.now actuals.now)) }
    requires candidate { IsTrue (leads_induction (function_of w.now.entries f.now) actuals.now) }
    ensures stands { IfOk result (λ r. Reduces w.now r) }
    ensures made { IfOk result (λ r. induct_made (function_of w.now.entries f.now) c actuals.now ≡ Some r.says) }
{
    w.recall_sound();
    w.recall_distinct_names();
    let Some(goals) = induction_by(alloc, w, &c, f, actuals)? else {
        unreachable!()
    };
    let from = Shared::new(alloc, c)?;
    let why = induct_why(alloc, &from, f, actuals)?;
    Ok(Reduction::made(from, goals, why))
}
