// The elimination of atoms, the greatest first.
ghost use Rattle.std.specs.Prelude.{◌≡◌, ◌++◌, ◌≤◌, true, [], length, take, pos, int_lt, IfOk, OnOk};
ghost use Rattle.ap_linear.specs.Ranked.{coefficient, or_fewer, without, with_negative, with_positive, eliminated, left_after};

use crate::mixing::meeting;
use crate::rows::Ranked;
use ap_list::{NoMemory, Seq};
use std::alloc::Global;

/// How many rows are kept.
const KEPT: usize = 64;

/// The rows in which an atom doesn't stand.
fn without(alloc: Global, rank: usize, rows: &[Ranked]) -> Result<Seq<Ranked>, NoMemory>
    ensures { IfOk result (λ out. out ≡ without rank rows.now) }
{
    let mut out = Seq::new(alloc);
    for row in rows {
        if row.coefficient(rank) == 0 {
            out.push(row.copy(alloc)?)?;
        }
    }
    Ok(out)
}

/// Adds a row at the end, if there is one.
fn push_row(out: &mut Seq<Ranked>, row: Option<Ranked>) -> Result<(), NoMemory>
    ensures { OnOk result (out.new ≡ out.old ++ or_fewer row []) }
{
    if let Some(row) = row {
        out.push(row)?;
    }
    Ok(())
}

/// Adds what a row gives, in which an atom's coefficient is positive, with each in which it is negative, as
/// long as there are fewer rows than are kept.
fn add_with_negative(
    alloc: Global,
    atoms: usize,
    rank: usize,
    p: &Ranked,
    rows: &[Ranked],
    out: &mut Seq<Ranked>,
) -> Result<(), NoMemory>
    requires kept { length out.old ≤ 64 }
    requires positive { int_lt (pos 0) (coefficient rank p.now) ≡ true }
    ensures { OnOk result (out.new ≡ take 64 (out.old ++ with_negative atoms rank p.now rows.now)) }
{
    let c = p.coefficient(rank).unsigned_abs();
    let mut left = rows;
    while let [q, rest @ ..] = left {
        if out.len() >= KEPT {
            return Ok(());
        }
        let d = q.coefficient(rank);
        if d < 0 {
            push_row(out, meeting(alloc, atoms, c, p, d.unsigned_abs(), q)?)?;
        }
        left = rest;
    }
    Ok(())
}

/// Adds what each row gives in which an atom's coefficient is positive.
fn add_with_positive(
    alloc: Global,
    atoms: usize,
    rank: usize,
    ps: &[Ranked],
    rows: &[Ranked],
    out: &mut Seq<Ranked>,
) -> Result<(), NoMemory>
    requires { length out.old ≤ 64 }
    ensures { OnOk result (out.new ≡ take 64 (out.old ++ with_positive atoms rank ps.now rows.now)) }
{
    let mut left = ps;
    while let [p, rest @ ..] = left {
        if p.coefficient(rank) > 0 {
            add_with_negative(alloc, atoms, rank, p, rows, out)?;
        }
        left = rest;
    }
    Ok(())
}

/// The rows once an atom is eliminated: those without it, then those of each positive and each negative
/// one, of which the first are kept.
fn eliminated(
    alloc: Global,
    atoms: usize,
    rank: usize,
    rows: &[Ranked],
) -> Result<Seq<Ranked>, NoMemory>
    ensures { IfOk result (λ out. out ≡ eliminated atoms rank rows.now) }
{
    let mut out = without(alloc, rank, rows)?;
    out.truncate(KEPT);
    add_with_positive(alloc, atoms, rank, rows, rows, &mut out)?;
    Ok(out)
}

/// The rows once all these atoms are eliminated, the last one first.
pub(crate) fn left_after(
    alloc: Global,
    atoms: usize,
    rows: Seq<Ranked>,
) -> Result<Seq<Ranked>, NoMemory>
    ensures { IfOk result (λ out. out ≡ left_after atoms atoms rows) }
{
    let mut out = rows;
    let mut left = atoms;
    while left > 0 {
        left -= 1;
        out = eliminated(alloc, atoms, left, out.as_slice())?;
    }
    Ok(out)
}
