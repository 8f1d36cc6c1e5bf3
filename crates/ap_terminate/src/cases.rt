ghost use Rattle.std.specs.Prelude.{◌≡◌, [], ◌∷◌, ◌++◌, ◌<◌, IfOk, IfSome, OnOk, map};
ghost use Rattle.std.specs.Option.{option_map};
ghost use Rattle.ap_term.specs.Terms.{term_size};
ghost use Rattle.ap_world.specs.Recursion.{one_case, cases_of, is_unnested};
ghost use Rattle.ap_world.specs.Shapes.{shape_of};
ghost use Rattle.ap_terminate.specs.Distinct.{under_tests};
ghost use Rattle.ap_terminate.specs.Branches.{branches};

use crate::calls::{calls_of, has_flat_calls, has_no_call};
use ap_kernel::{ShapeRef, not_term, shape_of};
use ap_list::{NoMemory, Seq};
use ap_term::{Term, copy_term, copy_terms};
use ap_value::Symbol;
use ap_world::Case;
use std::alloc::Global;

/// The test and the branches of an `if` of which a branch has a call of the function, lent. Takes no
/// memory.
fn branches<'a>(name: &Symbol, t: &'a Term) -> Option<(&'a Term, &'a Term, &'a Term)>
    ensures is { option_map (λ p. (p.0.now, p.1.now, p.2.now)) result ≡ branches name.now (shape_of t.now) }
    ensures smaller { IfSome result (λ p. (term_size p.1.now < term_size t.now) × (term_size p.2.now < term_size t.now)) }
{
    match shape_of(t) {
        ShapeRef::If(test, yes, no) => {
            if has_no_call(name, yes) && has_no_call(name, no) {
                return None;
            }
            Some((test, yes, no))
        }
        _ => None,
    }
}

/// Whether the recursion of a body isn't nested: no argument of a call of the function has another one, and
/// no test that tells cases apart has one. Takes no memory.
pub fn is_unnested(name: &Symbol, t: &Term) -> bool
    ensures { result ≡ is_unnested name.now t.now }
{
    match branches(name, t) {
        Some((test, yes, no)) => {
            if !has_no_call(name, test) {
                return false;
            }
            is_unnested(name, yes) && is_unnested(name, no)
        }
        None => has_flat_calls(name, t),
    }
}

/// The tests, and one more at their end.
fn with_test(alloc: Global, tests: &[Term], test: Term) -> Result<Seq<Term>, NoMemory>
    ensures { IfOk result (λ ts. ts ≡ tests.now ++ test ∷ []) }
{
    let mut out = copy_terms(alloc, tests)?;
    out.push(test)?;
    Ok(out)
}

/// Adds the one case of a term that tells no cases apart.
fn push_case(
    alloc: Global,
    name: &Symbol,
    t: &Term,
    tests: Seq<Term>,
    out: &mut Seq<Case>,
) -> Result<(), NoMemory>
    ensures { OnOk result (out.new ≡ out.old ++ map (under_tests tests) (one_case name.now t.now)) }
{
    let calls = calls_of(alloc, name, t)?;
    out.push(Case { tests, calls })
}

/// Adds the cases of a term that is reached under some tests.
fn push_cases(
    alloc: Global,
    name: &Symbol,
    t: &Term,
    tests: Seq<Term>,
    out: &mut Seq<Case>,
) -> Result<(), NoMemory>
    ensures { OnOk result (out.new ≡ out.old ++ map (under_tests tests) (cases_of name.now t.now)) }
{
    let Some((test, yes, no)) = branches(name, t) else {
        return push_case(alloc, name, t, tests, out);
    };
    let holds = with_test(alloc, tests.as_slice(), copy_term(alloc, test)?)?;
    push_cases(alloc, name, yes, holds, out)?;
    let negation = not_term(alloc, copy_term(alloc, test)?)?;
    let fails = with_test(alloc, tests.as_slice(), negation)?;
    push_cases(alloc, name, no, fails, out)
}

/// The cases of a body: of `(if a b c)`, where `b` or `c` has a call of the function, those of `b` with the
/// test `a` and those of `c` with the test `(not a)`; any other term is one case without tests, with its
/// distinct calls in preorder. The only error is want of memory. See the manual's topic `induction-machine`.
pub fn cases_of(alloc: Global, name: &Symbol, body: &Term) -> Result<Seq<Case>, NoMemory>
    ensures { IfOk result (λ ks. ks ≡ cases_of name.now body.now) }
{
    let mut out = Seq::new(alloc);
    push_cases(alloc, name, body, Seq::new(alloc), &mut out)?;
    Ok(out)
}
