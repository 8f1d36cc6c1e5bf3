ghost use Rattle.std.specs.Prelude.{◌≡◌, [], ◌∷◌, ◌++◌, true, false, IfOk, OnOk};
ghost use Rattle.ap_value.specs.Values.{symbol_eq};
ghost use Rattle.ap_world.specs.Clauses.{conjuncts};
ghost use Rattle.ap_world.specs.Names.{not_name, equal_name, iff_name};
ghost use Rattle.ap_world.specs.Recursion.{nil_constant, t_constant};
ghost use Rattle.ap_world.specs.Rules.{stated, call_sides, sides};
ghost use Rattle.ap_rules.specs.Made.{as_sides};

use ap_list::{NoMemory, Seq};
use ap_term::{Shape, Term, copy_term};
use ap_value::Symbol;
use ap_world::{is_equal, is_iff, is_implies, is_not, nil_term, push_conjuncts, t_term};
use std::alloc::Global;

/// A theorem's hypotheses, and the conjuncts of its conclusion.
#[derive(Drop)]
pub(crate) struct Statement {
    pub hyps: Seq<Term>,
    pub parts: Seq<Term>,
}

/// How a conjunct is read: whether as an equivalence of truth alone, and its two sides.
#[derive(Drop)]
pub(crate) struct Reading {
    pub iff: bool,
    pub lhs: Term,
    pub rhs: Term,
}

/// Adds the hypotheses of a theorem, and answers its conclusion.
#[tactic(auto, using(ap_term::proofs::Seen::trees, crate::proofs::Stated::stating))]
fn push_hyps<'a>(alloc: Global, hyps: &mut Seq<Term>, t: &'a Term) -> Result<&'a Term, NoMemory>
    ensures hyps { OnOk result (hyps.new ≡ hyps.old ++ (stated t.now).0) }
    ensures rest { IfOk result (λ u. u.now ≡ (stated t.now).1) }
{
    match &t.shape {
        Shape::Call(f, ts) => match (is_implies(f), ts.as_slice()) {
            (true, [h, c]) => {
                push_conjuncts(alloc, hyps, h)?;
                push_hyps(alloc, hyps, c)
            }
            _ => Ok(t),
        },
        Shape::Var(_) => Ok(t),
        Shape::Quote(_) => Ok(t),
    }
}

/// The hypotheses of a theorem and the conjuncts of its conclusion.
pub(crate) fn state(alloc: Global, t: &Term) -> Result<Statement, NoMemory>
    ensures hyps { IfOk result (λ s. s.hyps ≡ (stated t.now).0) }
    ensures parts { IfOk result (λ s. s.parts ≡ conjuncts (stated t.now).1) }
{
    let mut hyps = Seq::new(alloc);
    let conclusion = push_hyps(alloc, &mut hyps, t)?;
    let mut parts = Seq::new(alloc);
    push_conjuncts(alloc, &mut parts, conclusion)?;
    Ok(Statement { hyps, parts })
}

/// Two terms as the sides of an equation.
fn both(alloc: Global, iff: bool, a: &Term, b: &Term) -> Result<Reading, NoMemory>
    ensures { IfOk result (λ s. as_sides s ≡ (iff, a.now, b.now)) }
{
    let lhs = copy_term(alloc, a)?;
    let rhs = copy_term(alloc, b)?;
    Ok(Reading { iff, lhs, rhs })
}

/// A term that isn't `nil`.
fn alone(alloc: Global, t: &Term) -> Result<Reading, NoMemory>
    ensures { IfOk result (λ s. as_sides s ≡ (true, t.now, t_constant)) }
{
    let lhs = copy_term(alloc, t)?;
    Ok(Reading {
        iff: true,
        lhs,
        rhs: t_term(),
    })
}

/// A term that is `nil`.
fn never(alloc: Global, t: &Term) -> Result<Reading, NoMemory>
    ensures { IfOk result (λ s. as_sides s ≡ (false, t.now, nil_constant)) }
{
    let lhs = copy_term(alloc, t)?;
    Ok(Reading {
        iff: false,
        lhs,
        rhs: nil_term(),
    })
}

/// How a call of two arguments is read.
fn two_sides(alloc: Global, t: &Term, f: &Symbol, a: &Term, b: &Term) -> Result<Reading, NoMemory>
    ensures { IfOk result (λ s. as_sides s ≡ call_sides (symbol_eq f.now equal_name) (symbol_eq f.now iff_name) (symbol_eq f.now not_name) (a.now ∷ b.now ∷ []) (true, t.now, t_constant)) }
{
    if is_equal(f) {
        return both(alloc, false, a, b);
    }
    if is_iff(f) {
        return both(alloc, true, a, b);
    }
    alone(alloc, t)
}

/// How a call of one argument is read.
fn one_side(alloc: Global, t: &Term, f: &Symbol, a: &Term) -> Result<Reading, NoMemory>
    ensures { IfOk result (λ s. as_sides s ≡ call_sides (symbol_eq f.now equal_name) (symbol_eq f.now iff_name) (symbol_eq f.now not_name) (a.now ∷ []) (true, t.now, t_constant)) }
{
    if is_not(f) {
        return never(alloc, a);
    }
    alone(alloc, t)
}

/// How a conjunct is read: `(equal l r)` and `(iff l r)` by their parts, `(not p)` as p to `'NIL`, and another p
/// as p to `'T` under iff.
#[tactic(auto, using(ap_term::proofs::Seen::trees))]
pub(crate) fn sides(alloc: Global, t: &Term) -> Result<Reading, NoMemory>
    ensures { IfOk result (λ s. as_sides s ≡ sides t.now) }
{
    match &t.shape {
        Shape::Call(f, ts) => match ts.as_slice() {
            [a, b] => two_sides(alloc, t, f, a, b),
            [a] => one_side(alloc, t, f, a),
            _ => alone(alloc, t),
        },
        Shape::Var(_) => alone(alloc, t),
        Shape::Quote(_) => alone(alloc, t),
    }
}
