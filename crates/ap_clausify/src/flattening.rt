ghost use Rattle.std.specs.Prelude.{◌≡◌, ◌++◌, IfOk, OnOk, map};
ghost use Rattle.ap_world.specs.Clauses.{negate, conjuncts, flat};
ghost use Rattle.ap_clausify.specs.Flattening.{Clausifies};

use ap_kernel::{is_if, is_implies, is_nil_term, negated};
use ap_list::{NoMemory, Seq};
use ap_term::{Clause, Shape, Term, copy_term};
use std::alloc::Global;

/// Adds the negations of a term's conjuncts.
#[tactic(auto, using(ap_term::proofs::Seen::trees, crate::proofs::Flattened::conjoining))]
fn push_negations(alloc: Global, out: &mut Seq<Term>, t: &Term) -> Result<(), NoMemory>
    ensures { OnOk result (out.new ≡ out.old ++ map negate (conjuncts t.now)) }
{
    match &t.shape {
        Shape::Call(f, ts) => match (is_if(f), ts.as_slice()) {
            (true, [a, b, c]) => {
                if !is_nil_term(c) {
                    return out.push(negated(alloc, t)?);
                }
                push_negations(alloc, out, a)?;
                push_negations(alloc, out, b)
            }
            _ => out.push(negated(alloc, t)?),
        },
        Shape::Var(_) => out.push(negated(alloc, t)?),
        Shape::Quote(_) => out.push(negated(alloc, t)?),
    }
}

/// Adds the literals of a term's clause.
#[tactic(auto, using(ap_term::proofs::Seen::trees, crate::proofs::Flattened::flattening))]
fn push_flat(alloc: Global, out: &mut Seq<Term>, t: &Term) -> Result<(), NoMemory>
    ensures { OnOk result (out.new ≡ out.old ++ flat t.now) }
{
    match &t.shape {
        Shape::Call(f, ts) => match (is_implies(f), ts.as_slice()) {
            (true, [h, c]) => {
                push_negations(alloc, out, h)?;
                push_flat(alloc, out, c)
            }
            _ => out.push(copy_term(alloc, t)?),
        },
        Shape::Var(_) => out.push(copy_term(alloc, t)?),
        Shape::Quote(_) => out.push(copy_term(alloc, t)?),
    }
}

/// The clause that a term stands for as a conjecture: of `(implies h c)` the negations of `h`'s conjuncts and
/// then the clause of `c`; another term is its one literal. The conjuncts of `(if a b 'NIL)` are those of
/// `a` and those of `b`, and the negation of `(not a)` is `a`. In a sound world the term alone is valid
/// where the clause is. The only error is want of memory.
pub fn flat(alloc: Global, t: &Term) -> Result<Clause, NoMemory>
    ensures made { IfOk result (λ c. c.0 ≡ flat t.now) }
    ensures stands { IfOk result (λ c. Clausifies t.now c) }
{
    let mut out = Seq::new(alloc);
    push_flat(alloc, &mut out, t)?;
    Ok(Clause(out))
}
