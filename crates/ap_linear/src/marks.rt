// The test by two words for each polynomial.
ghost use Rattle.std.specs.Prelude.{◌≡◌, ◌^◌, true, false, map, None, IfOk};
ghost use Rattle.ap_poly.specs.Elimination.{lin};
ghost use Rattle.ap_linear.specs.OneSign.{has_sign};
ghost use Rattle.ap_linear.specs.Marks.{bits_after, marked, words_after, is_struck, next_marks, no_mark_negative, place, bit_number};

use ap_kernel::is_same;
use ap_list::{NoMemory, Seq};
use ap_poly::Poly;
use ap_term::Term;
use std::alloc::Global;

/// What the test keeps of a polynomial: the bits of the atoms of positive coefficients and of negative ones, and
/// whether the constant is negative.
#[derive(Clone, Copy, Debug)]
pub(crate) struct Marked {
    pub up: u64,
    pub down: u64,
    pub negative: bool,
}

/// How many rounds are made at most.
const ROUNDS: usize = 16;

/// A term's place among others. Takes no memory.
fn place(atoms: &[Term], t: &Term) -> usize
    ensures { result ≡ place atoms.now t.now }
{
    let mut count = 0usize;
    let mut left = atoms;
    while let [u, rest @ ..] = left {
        if is_same(t, u) {
            return count;
        }
        count += 1;
        left = rest;
    }
    count
}

/// A term's bit. Takes no memory.
fn bit_of(atoms: &[Term], t: &Term) -> u64
    ensures { result ≡ 2 ^ bit_number atoms.now t.now }
{
    let number = place(atoms, t) % 64;
    1u64 << number
}

/// Whether a coefficient has the sign. Takes no memory.
fn has_sign(positive: bool, c: i128) -> bool
    ensures { result ≡ has_sign positive c }
{
    match positive {
        true => 0 < c,
        false => c < 0,
    }
}

/// The bits of the atoms whose coefficients have the sign. Takes no memory.
fn bits_of(atoms: &[Term], positive: bool, parts: &[(Term, i128)]) -> u64
    ensures { result ≡ bits_after (bit_number atoms.now) positive 0 parts.now }
{
    let mut out = 0u64;
    for (t, c) in parts {
        if has_sign(positive, *c) {
            out |= bit_of(atoms, t);
        }
    }
    out
}

/// What the test keeps of a polynomial. Takes no memory.
fn mark_of(atoms: &[Term], p: &Poly) -> Marked
    ensures { result ≡ marked (bit_number atoms.now) p.now }
{
    let parts = p.parts.as_slice();
    Marked {
        up: bits_of(atoms, true, parts),
        down: bits_of(atoms, false, parts),
        negative: p.constant < 0,
    }
}

/// What the test keeps of each.
fn all_marked(alloc: Global, atoms: &[Term], polys: &[Poly]) -> Result<Seq<Marked>, NoMemory>
    ensures { IfOk result (λ ms. ms ≡ map (marked (bit_number atoms.now)) polys.now) }
{
    let mut out = Seq::new(alloc);
    for p in polys {
        out.push(mark_of(atoms, p))?;
    }
    Ok(out)
}

/// The bits that are up anywhere. Takes no memory.
fn all_up(marks: &[Marked]) -> u64
    ensures { result ≡ words_after true 0 marks.now }
{
    let mut out = 0u64;
    for m in marks {
        out |= m.up;
    }
    out
}

/// The bits that are down anywhere. Takes no memory.
fn all_down(marks: &[Marked]) -> u64
    ensures { result ≡ words_after false 0 marks.now }
{
    let mut out = 0u64;
    for m in marks {
        out |= m.down;
    }
    out
}

/// Whether a bit has one sign alone. Takes no memory.
fn is_struck(ups: u64, downs: u64, m: Marked) -> bool
    ensures { result ≡ is_struck ups downs m }
{
    m.up & downs != m.up || m.down & ups != m.down
}

/// Those of which each bit has both signs.
fn next_marks(alloc: Global, marks: &[Marked]) -> Result<Seq<Marked>, NoMemory>
    ensures { IfOk result (λ ms. ms ≡ next_marks marks.now) }
{
    let ups = all_up(marks);
    let downs = all_down(marks);
    let mut out = Seq::new(alloc);
    for m in marks {
        if !is_struck(ups, downs, *m) {
            out.push(*m)?;
        }
    }
    Ok(out)
}

/// Whether no constant is negative. Takes no memory.
fn no_mark_negative(marks: &[Marked]) -> bool
    ensures { result ≡ no_mark_negative marks.now }
{
    for m in marks {
        if m.negative {
            return false;
        }
    }
    true
}

/// Whether polynomials are seen to have no certificate: those with an atom of one sign are struck, round by round, until
/// no constant is negative. True says that none is found; false, where a round strikes none or so many rounds were made,
/// says nothing. The atoms may be any: one that isn't among them, or comes behind 64 others, shares its bit.
pub(crate) fn is_hopeless(alloc: Global, atoms: &[Term], polys: &[Poly]) -> Result<bool, NoMemory>
    ensures { IfOk result (λ b. b ≡ true → lin polys.now ≡ None) }
{
    let mut marks = all_marked(alloc, atoms, polys)?;
    let mut left = ROUNDS;
    while left > 0 {
        if no_mark_negative(marks.as_slice()) {
            return Ok(true);
        }
        let kept = next_marks(alloc, marks.as_slice())?;
        if kept.len() == marks.len() {
            return Ok(false);
        }
        marks = kept;
        left -= 1;
    }
    Ok(no_mark_negative(marks.as_slice()))
}
