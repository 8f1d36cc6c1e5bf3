// Polynomials over ranks of atoms, each with how often the given ones stand in it.
ghost use Rattle.std.specs.Prelude.{◌≡◌, ◌++◌, map, pos, get_or, IfOk, OnOk};
ghost use Rattle.ap_value.specs.Values.{int_eq};
ghost use Rattle.ap_poly.specs.Elimination.{rows_of};
ghost use Rattle.ap_linear.specs.Steps.{zeros, unit};
ghost use Rattle.ap_linear.specs.Ranked.{Rising, Listed, AllListed, head, tail, no_ranks, is_negative, first_negative, stands_first, first_if, behind_if, spread, row_in};

use ap_kernel::is_same;
use ap_list::{NoMemory, Seq};
use ap_poly::Poly;
use ap_term::Term;
use std::alloc::Global;

/// A polynomial by its coefficients of atoms in their order, and how often each given one stands in it.
#[derive(Drop)]
pub(crate) struct Ranked {
    pub constant: i128,
    pub coefficients: Seq<i128>,
    pub by: Seq<u64>,
}

/// The coefficient at a rank, 0 where there is none. Takes no memory.
fn coefficient_at(coefficients: &Seq<i128>, rank: usize) -> i128
    ensures { result ≡ get_or coefficients.now rank (pos 0) }
{
    match coefficients.get(rank) {
        Some(c) => *c,
        None => 0,
    }
}

/// What coefficients begin with, 0 where there are none. Takes no memory.
pub(crate) fn head(coefficients: &[i128]) -> i128
    ensures { result ≡ head coefficients.now }
{
    match coefficients {
        [c, ..] => *c,
        [] => 0,
    }
}

/// The coefficients without the first. Takes no memory.
pub(crate) fn tail(coefficients: &[i128]) -> &[i128]
    ensures { result.now ≡ tail coefficients.now }
{
    match coefficients {
        [_, rest @ ..] => rest,
        [] => coefficients,
    }
}

/// Whether a coefficient is 0. Takes no memory.
fn is_zero(c: i128) -> bool
    ensures { result ≡ int_eq c (pos 0) }
{
    c == 0
}

/// Whether none of so many coefficients is another than 0. Takes no memory.
fn no_ranks(atoms: usize, coefficients: &[i128]) -> bool
    ensures { result ≡ no_ranks atoms coefficients.now }
{
    let mut count = atoms;
    let mut left = coefficients;
    while count > 0 {
        if !is_zero(head(left)) {
            return false;
        }
        left = tail(left);
        count -= 1;
    }
    true
}

impl Ranked {
    /// A copy.
    pub fn copy(&self, alloc: Global) -> Result<Ranked, NoMemory>
        ensures { IfOk result (λ copy. copy ≡ self.now) }
    {
        let coefficients = Seq::from_slice(alloc, self.coefficients.as_slice())?;
        let by = Seq::from_slice(alloc, self.by.as_slice())?;
        Ok(Ranked {
            constant: self.constant,
            coefficients,
            by,
        })
    }

    /// The coefficient of the atom at a rank. Takes no memory.
    pub fn coefficient(&self, rank: usize) -> i128
        ensures { result ≡ get_or self.now.coefficients rank (pos 0) }
    {
        coefficient_at(&self.coefficients, rank)
    }

    /// Whether the polynomial of so many atoms is a constant, and a negative one. Takes no memory.
    pub fn is_negative(&self, atoms: usize) -> bool
        ensures { result ≡ is_negative atoms self.now }
    {
        no_ranks(atoms, self.coefficients.as_slice()) && self.constant < 0
    }

    /// The multipliers, copied.
    pub fn multipliers(&self, alloc: Global) -> Result<Seq<u64>, NoMemory>
        ensures { IfOk result (λ by. by ≡ self.now.by) }
    {
        Ok(Seq::from_slice(alloc, self.by.as_slice())?)
    }
}

/// Adds so many zeros at the end.
fn push_zeros(by: &mut Seq<u64>, count: usize) -> Result<(), NoMemory>
    ensures { OnOk result (by.new ≡ by.old ++ zeros count) }
{
    let mut left = count;
    while left > 0 {
        by.push(0)?;
        left -= 1;
    }
    Ok(())
}

/// 1, with so many zeros before and after it.
fn unit(alloc: Global, before: usize, after: usize) -> Result<Seq<u64>, NoMemory>
    ensures { IfOk result (λ by. by ≡ unit before after) }
{
    let mut by = Seq::new(alloc);
    push_zeros(&mut by, before)?;
    by.push(1)?;
    push_zeros(&mut by, after)?;
    Ok(by)
}

/// Whether parts begin with an atom. Takes no memory.
fn stands_first(u: &Term, parts: &[(Term, i128)]) -> bool
    ensures { result ≡ stands_first u.now parts.now }
{
    match parts {
        [(t, _), ..] => is_same(u, t),
        [] => false,
    }
}

/// The first coefficient, where it is asked for, and 0 else. Takes no memory.
fn first_if(here: bool, parts: &[(Term, i128)]) -> i128
    ensures { result ≡ first_if here parts.now }
{
    match parts {
        [(_, c), ..] if here => *c,
        _ => 0,
    }
}

/// The parts without the first, where that is asked for. Takes no memory.
fn behind_if(here: bool, parts: &[(Term, i128)]) -> &[(Term, i128)]
    ensures { result.now ≡ behind_if here parts.now }
{
    match parts {
        [_, rest @ ..] if here => rest,
        _ => parts,
    }
}

/// The coefficients of atoms, of parts in their order.
fn spread(alloc: Global, atoms: &[Term], parts: &[(Term, i128)]) -> Result<Seq<i128>, NoMemory>
    ensures { IfOk result (λ cs. cs ≡ spread atoms.now parts.now) }
{
    let mut out = Seq::with_capacity(alloc, atoms.len())?;
    let mut left = parts;
    for u in atoms {
        let here = stands_first(u, left);
        out.push(first_if(here, left))?;
        left = behind_if(here, left);
    }
    Ok(out)
}

/// The constant of a polynomial. Takes no memory.
fn constant_in(p: &Poly) -> i128
    ensures { result ≡ p.now.constant }
{
    p.constant
}

/// A polynomial of listed atoms, once itself.
fn row_of(
    alloc: Global,
    atoms: &[Term],
    p: &Poly,
    before: usize,
    after: usize,
) -> Result<Ranked, NoMemory>
    requires rising { Rising atoms.now }
    requires listed { Listed atoms.now p.now.parts }
    ensures { IfOk result (λ row. row_in atoms.now row ≡ record { poly = p.now; by = unit before after }) }
{
    p.recall_poly();
    let by = unit(alloc, before, after)?;
    let coefficients = spread(alloc, atoms, p.parts.as_slice())?;
    let constant = constant_in(p);
    Ok(Ranked {
        constant,
        coefficients,
        by,
    })
}

/// Each polynomial of listed atoms, once itself.
pub(crate) fn rows_of(
    alloc: Global,
    atoms: &[Term],
    polys: &[Poly],
) -> Result<Seq<Ranked>, NoMemory>
    requires rising { Rising atoms.now }
    requires listed { AllListed atoms.now polys.now }
    ensures { IfOk result (λ rows. map (row_in atoms.now) rows ≡ rows_of polys.now) }
{
    let mut rows = Seq::new(alloc);
    let mut before = 0usize;
    let mut left = polys;
    while let [p, rest @ ..] = left {
        let row = row_of(alloc, atoms, p, before, rest.len())?;
        rows.push(row)?;
        before += 1;
        left = rest;
    }
    Ok(rows)
}

/// The multipliers of the first row that is a negative constant.
pub(crate) fn first_negative(
    alloc: Global,
    atoms: usize,
    rows: &[Ranked],
) -> Result<Option<Seq<u64>>, NoMemory>
    ensures { IfOk result (λ o. o ≡ first_negative atoms rows.now) }
{
    for row in rows {
        if row.is_negative(atoms) {
            return Ok(Some(row.multipliers(alloc)?));
        }
    }
    Ok(None)
}
