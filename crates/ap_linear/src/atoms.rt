// The atoms of polynomials, rising in the order of terms.
ghost use Rattle.std.specs.Prelude.{◌≡◌, ◌++◌, ◌∷◌, IfOk};
ghost use Rattle.ap_poly.specs.Elimination.{with_atom, with_atoms, atoms_of};
ghost use Rattle.ap_linear.specs.Steps.{is_placed};

use ap_kernel::is_same;
use ap_list::{NoMemory, Seq};
use ap_poly::{Poly, is_before};
use ap_term::{Term, copy_term, extend_terms};
use std::alloc::Global;

/// The terms so far, this one and the rest.
fn joined(alloc: Global, front: Seq<Term>, t: &Term, rest: &[Term]) -> Result<Seq<Term>, NoMemory>
    ensures { IfOk result (λ us. us ≡ front ++ t.now ∷ rest.now) }
{
    let mut out = front;
    out.push(copy_term(alloc, t)?)?;
    extend_terms(alloc, &mut out, rest)?;
    Ok(out)
}

/// Whether an atom is there before one that it comes before.
fn is_placed(t: &Term, atoms: &[Term]) -> Result<bool, NoMemory>
    ensures { IfOk result (λ b. b ≡ is_placed t.now atoms.now) }
{
    let mut left = atoms;
    while let [u, rest @ ..] = left {
        if is_same(t, u) {
            return Ok(true);
        }
        if is_before(t, u)? {
            return Ok(false);
        }
        left = rest;
    }
    Ok(false)
}

/// The atoms with one more at its place, if it isn't there; copied.
fn with_new_atom(alloc: Global, t: &Term, atoms: &[Term]) -> Result<Seq<Term>, NoMemory>
    ensures { IfOk result (λ us. us ≡ with_atom t.now atoms.now) }
{
    let mut out = Seq::new(alloc);
    let mut left = atoms;
    while let [u, rest @ ..] = left {
        if is_same(t, u) {
            return joined(alloc, out, u, rest);
        }
        if is_before(t, u)? {
            return joined(alloc, out, t, left);
        }
        out.push(copy_term(alloc, u)?)?;
        left = rest;
    }
    joined(alloc, out, t, left)
}

/// The atoms with one more at its place, if it isn't there. They aren't copied where it is.
fn with_atom(alloc: Global, t: &Term, atoms: Seq<Term>) -> Result<Seq<Term>, NoMemory>
    ensures { IfOk result (λ us. us ≡ with_atom t.now atoms) }
{
    if is_placed(t, atoms.as_slice())? {
        return Ok(atoms);
    }
    with_new_atom(alloc, t, atoms.as_slice())
}

/// The atoms with those of parts.
fn with_atoms(
    alloc: Global,
    parts: &[(Term, i128)],
    atoms: Seq<Term>,
) -> Result<Seq<Term>, NoMemory>
    ensures { IfOk result (λ us. us ≡ with_atoms parts.now atoms) }
{
    let mut out = atoms;
    let mut left = parts.len();
    while left > 0 {
        left -= 1;
        let (t, _) = &parts[left];
        out = with_atom(alloc, t, out)?;
    }
    Ok(out)
}

/// The atoms of polynomials, each once, rising in the order of terms.
pub(crate) fn atoms_of(alloc: Global, polys: &[Poly]) -> Result<Seq<Term>, NoMemory>
    ensures { IfOk result (λ us. us ≡ atoms_of polys.now) }
{
    let mut out = Seq::new(alloc);
    let mut left = polys.len();
    while left > 0 {
        left -= 1;
        let p = &polys[left];
        out = with_atoms(alloc, p.parts.as_slice(), out)?;
    }
    Ok(out)
}
