ghost use Rattle.std.specs.Prelude.{◌≡◌, IfOk, IfSome};
ghost use Rattle.ap_poly.specs.Elimination.{lin, atoms_of};
ghost use Rattle.ap_poly.specs.Holding.{IsCertificate};

use crate::atoms::atoms_of;
use crate::eliminating::left_after;
use crate::fitting::terms_fit;
use crate::marks::is_hopeless;
use crate::rows::{first_negative, rows_of};
use ap_kernel::{LinearOracle, World};
use ap_list::{NoMemory, Seq};
use ap_poly::Poly;
use ap_term::Term;
use std::alloc::Global;

/// The search by elimination over the ranks of the atoms, each of which comes before the next.
fn search(alloc: Global, atoms: &[Term], polys: &[Poly]) -> Result<Option<Seq<u64>>, NoMemory>
    requires { atoms.now ≡ atoms_of polys.now }
    ensures { IfOk result (λ o. o ≡ lin polys.now) }
{
    terms_fit(atoms);
    let rows = rows_of(alloc, atoms, polys)?;
    let left = left_after(alloc, atoms.len(), rows)?;
    first_negative(alloc, atoms.len(), left.as_slice())
}

/// The first certificate of polynomials: multipliers, one for each, of which the weighted sum is a negative
/// constant. Atoms are eliminated from the greatest in the order of terms, and of the constants that are left the
/// first negative one has the multipliers. `None` exactly where none is negative, as where a sum is 0. A sum of
/// which a number leaves 128 bits, or a multiplier 64, is left out, and after each atom the first 64 are kept. The
/// world isn't looked at. See the manual's topic `linear-arithmetic`.
pub fn refute(alloc: Global, w: &World, polys: &Seq<Poly>) -> Result<Option<Seq<u64>>, NoMemory>
    ensures first { IfOk result (λ o. o ≡ lin polys.now) }
    ensures certifies { IfOk result (λ o. IfSome o (λ by. IsCertificate polys.now by)) }
{
    let _ = w;
    let atoms = atoms_of(alloc, polys.as_slice())?;
    if is_hopeless(alloc, atoms.as_slice(), polys.as_slice())? {
        return Ok(None);
    }
    search(alloc, atoms.as_slice(), polys.as_slice())
}

/// The search as the kernel's oracle.
#[derive(Clone, Copy, Drop)]
pub struct Linear;

impl LinearOracle for Linear {
    fn refute(
        &self,
        alloc: Global,
        w: &World,
        polys: &Seq<Poly>,
    ) -> Result<Option<Seq<u64>>, NoMemory>
        ensures first { IfOk result (λ o. o ≡ lin polys.now) }
        ensures certifies { IfOk result (λ o. IfSome o (λ by. IsCertificate polys.now by)) }
    {
        refute(alloc, w, polys)
    }
}
