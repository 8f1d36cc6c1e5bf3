ghost use Rattle.std.specs.Prelude.{◌≡◌, ◌++◌, OnOk};
ghost use Rattle.ap_world.specs.Clauses.{conjuncts};

use crate::constants::is_nil_term;
use crate::shapes::is_if;
use ap_list::{NoMemory, Seq};
use ap_term::{Shape, Term, copy_term};
use std::alloc::Global;

/// Adds a term's conjuncts: those of `(if a b 'NIL)` are `a`'s and `b`'s, and another term is its own. The only
/// error is want of memory.
#[tactic(auto, using(ap_term::proofs::Seen::trees, crate::proofs::Conjoined::conjoining))]
pub fn push_conjuncts(alloc: Global, out: &mut Seq<Term>, t: &Term) -> Result<(), NoMemory>
    ensures { OnOk result (out.new ≡ out.old ++ conjuncts t.now) }
{
    match &t.shape {
        Shape::Call(f, ts) => match (is_if(f), ts.as_slice()) {
            (true, [a, b, c]) => {
                if !is_nil_term(c) {
                    return out.push(copy_term(alloc, t)?);
                }
                push_conjuncts(alloc, out, a)?;
                push_conjuncts(alloc, out, b)
            }
            _ => out.push(copy_term(alloc, t)?),
        },
        Shape::Var(_) => out.push(copy_term(alloc, t)?),
        Shape::Quote(_) => out.push(copy_term(alloc, t)?),
    }
}
