ghost use Rattle.std.specs.Prelude.{◌≡◌, pos, [], IfOk};
ghost use Rattle.ap_poly.specs.Polynomials.{Ordered, IsPoly, add, scale};

use crate::numbers::{narrow_product, narrow_sum};
use crate::parts::{add_parts, copy_parts, scale_parts};
use ap_list::{NoMemory, Seq};
use ap_term::Term;
use std::alloc::Global;
use std::marker::Model;

/// A polynomial, which says that the constant plus the sum of coefficient times atom is at least 0. Each
/// atom is read as the integer that its value counts as: another value counts as 0. The atoms are distinct
/// and rise in the order of terms, and no coefficient is 0.
#[derive(Drop)]
pub struct Poly {
    pub constant: i128,
    pub parts: Seq<(Term, i128)>,
}

impl Model for Poly {
    ghost use Rattle.std.specs.Coded.{codes};
    ghost use Rattle.ap_term.specs.contracts.term.Term as term;
    ghost use Rattle.ap_poly.specs.Polynomials.{Polynomial, Ordered};

    ghost Value = { Polynomial };

    ghost coded = { Prim.hlevel (codes, term.the_row.coded) };

    ghost view = { λ p. record { constant = p.constant; parts = p.parts } };

    ghost invariant = { λ p. Ordered p.parts };
}

impl Poly {
    /// What the parts keep, for a proof that sees the polynomial as a whole.
    pub fn recall_poly(&self)
        ensures { IsPoly self.now }
    {
        let _ = &self.parts;
    }

    /// The constant and the parts, moved. Takes no memory.
    pub(crate) fn into_fields(self) -> (i128, Seq<(Term, i128)>)
        ensures fields { (result.0 ≡ self.constant) × (result.1 ≡ self.parts) }
        ensures ordered { Ordered result.1 }
    {
        let Poly { constant, parts } = self;
        (constant, parts)
    }

    /// The polynomial of a constant and parts that are in order.
    pub(crate) fn made(constant: i128, parts: Seq<(Term, i128)>) -> Poly
        requires { Ordered parts }
        ensures { result ≡ record { constant = constant; parts = parts } }
    {
        Poly { constant, parts }
    }

    /// The polynomial that is 0.
    pub(crate) fn zero(alloc: Global) -> Poly
        ensures { result ≡ record { constant = pos 0; parts = [] } }
    {
        Poly::made(0, Seq::new(alloc))
    }

    /// A copy, whose terms are shared.
    pub fn copy(&self, alloc: Global) -> Result<Poly, NoMemory>
        ensures { IfOk result (λ copy. copy ≡ self.now) }
    {
        let parts = copy_parts(alloc, self.parts.as_slice())?;
        Ok(Poly::made(self.constant, parts))
    }
}

/// The sum. `None` exactly where the constant or a coefficient leaves 128 bits.
pub fn add(alloc: Global, a: &Poly, b: &Poly) -> Result<Option<Poly>, NoMemory>
    ensures { IfOk result (λ o. o ≡ add a.now b.now) }
{
    let Some(constant) = narrow_sum(a.constant, b.constant) else {
        return Ok(None);
    };
    match add_parts(alloc, a.parts.as_slice(), b.parts.as_slice())? {
        Some(parts) => Ok(Some(Poly::made(constant, parts))),
        None => Ok(None),
    }
}

/// The polynomial so many times. `None` exactly where the constant or a coefficient leaves 128 bits.
pub fn scale(alloc: Global, a: &Poly, k: u64) -> Result<Option<Poly>, NoMemory>
    ensures { IfOk result (λ o. o ≡ scale k a.now) }
{
    let Some(constant) = narrow_product(i128::from(k), a.constant) else {
        return Ok(None);
    };
    match scale_parts(alloc, k, a.parts.as_slice())? {
        Some(parts) => Ok(Some(Poly::made(constant, parts))),
        None => Ok(None),
    }
}
