//! How an object was made: the row, its arguments, and how the objects were made that it was handed.
ghost use Rattle.std.specs.Prelude.{◌≡◌, ◌∷◌, [], ◌+◌, ◌<◌, IfOk, IfSome, OnOk, map, None};
ghost use Rattle.ap_kernel.specs.Deriving.{node, listed, why_of, why_by};
ghost use Rattle.ap_kernel.specs.Weighing.{below, weight};

use crate::lists::copied_pair;
use crate::objects::{Ctx, Equiv, Mode};
use ap_list::{NoMemory, Seq, Shared};
use ap_poly::Poly;
use ap_term::{Clause, Subst, Term, copy_term};
use ap_value::{Symbol, Value};
use ap_world::Mask;
use std::alloc::Global;

/// Where a polynomial of a certificate comes from: from the comparison itself, from the fact at a place, from the
/// types of an atom, or from an instance of a linear theorem, whose hypotheses are shown beside it.
#[derive(Drop)]
pub enum Source {
    Literal,
    Fact(usize),
    Bound(Term),
    Theorem(Symbol, Subst),
}

/// A row of the kernel's table with its arguments, but for the objects that it is handed.
#[derive(Drop)]
pub enum Row {
    Refl(Ctx, Mode, Term),
    Trans,
    WeakenMode,
    Cong(Ctx, Symbol),
    Branch(Mode),
    ChooseBranch(Mode, bool, Term, Term),
    OpenDef(Ctx, Term),
    ApplyTheorem(Ctx, Symbol, u32, Subst),
    Fold(Ctx, Term, Value),
    ByType(Ctx, Term, Mask, Value),
    ByFact(Ctx, usize),
    ConsEqual(Ctx, Term),
    IfShape(Ctx, Mode, Term, Mask),
    DoubleNot(Ctx, Mode, Term, Mask),
    ByCertificate(Ctx, Term, bool, Seq<Poly>, Seq<Source>, Seq<u64>),
    BothNotLess(Ctx, Mask, Mask),
    RewriteLiteral(Shared<Clause>, usize),
    DropLiteral(Shared<Clause>, usize),
    SplitIf(Shared<Clause>, usize, Seq<u32>),
    Tidy(Shared<Clause>),
    UseEquality(Shared<Clause>, usize),
    Fertilise(Shared<Clause>, usize, usize),
    Generalise(Shared<Clause>, Term, Symbol, Mask),
    Eliminate(Shared<Clause>, Symbol, Symbol, Symbol),
    UseFact(Shared<Clause>, Symbol, Subst),
    Cases(Shared<Clause>, Seq<Term>),
    Induct(Shared<Clause>, Symbol, Seq<Term>),
    Chain,
}

/// How an object was made: by a row that was handed no object, one, or a list, which is the one piece of memory more. It
/// holds no object, so that neither an equivalence nor a reduction is a type that holds itself.
#[derive(Drop)]
pub enum Derivation {
    Leaf(Row),
    One(Row, Shared<Derivation>),
    Many(Row, Seq<Shared<Derivation>>),
}

impl Derivation {
    /// A row and how each of a list was made that it was handed.
    pub(crate) fn of_list(
        alloc: Global,
        row: Row,
        from: Seq<Shared<Derivation>>,
    ) -> Result<Shared<Derivation>, NoMemory>
        ensures { IfOk result (λ d. d ≡ listed row from) }
    {
        let answer = Shared::new(alloc, Derivation::Many(row, from))?;
        Ok(answer)
    }

    /// The same of a row that is handed no object.
    pub(crate) fn leaf(alloc: Global, row: Row) -> Result<Shared<Derivation>, NoMemory>
        ensures { IfOk result (λ d. d ≡ node row []) }
    {
        let answer = Shared::new(alloc, Derivation::Leaf(row))?;
        Ok(answer)
    }

    /// The same of a row that is handed one object.
    pub(crate) fn of_one(
        alloc: Global,
        row: Row,
        a: Shared<Derivation>,
    ) -> Result<Shared<Derivation>, NoMemory>
        ensures { IfOk result (λ d. d ≡ node row (a ∷ [])) }
    {
        let answer = Shared::new(alloc, Derivation::One(row, a))?;
        Ok(answer)
    }

    /// The same of a row that is handed two.
    pub(crate) fn of_two(
        alloc: Global,
        row: Row,
        a: Shared<Derivation>,
        b: Shared<Derivation>,
    ) -> Result<Shared<Derivation>, NoMemory>
        ensures { IfOk result (λ d. d ≡ node row (a ∷ b ∷ [])) }
    {
        let from = Vec::from_array(alloc, [a, b])?;
        let answer = Derivation::of_list(alloc, row, Seq::from_vec(from))?;
        Ok(answer)
    }

    /// The same of a row that is handed three.
    pub(crate) fn of_three(
        alloc: Global,
        row: Row,
        a: Shared<Derivation>,
        b: Shared<Derivation>,
        c: Shared<Derivation>,
    ) -> Result<Shared<Derivation>, NoMemory>
        ensures { IfOk result (λ d. d ≡ node row (a ∷ b ∷ c ∷ [])) }
    {
        let from = Vec::from_array(alloc, [a, b, c])?;
        let answer = Derivation::of_list(alloc, row, Seq::from_vec(from))?;
        Ok(answer)
    }
}

/// Adds to what is left what a derivation was made from, where there is memory for it.
fn hand_on(d: Derivation, left: &mut Seq<Shared<Derivation>>) -> Result<(), NoMemory>
    ensures { OnOk result (weight left.new ≡ weight left.old + below d) }
{
    match d {
        Derivation::Leaf(_row) => Ok(()),
        Derivation::One(_row, a) => left.push(a),
        Derivation::Many(_row, from) => left.append(from),
    }
}

/// Lets a list of derivations go. What each was made from stands in the list, and is let go there where this is its last
/// owner: so the call's own stack doesn't grow with the derivations' depth. Where the list can't grow for want of memory,
/// what is left is let go by calls within each other.
fn let_all_go(from: Seq<Shared<Derivation>>) {
    let mut left = from;
    while let Some(next) = left.pop() {
        if let Ok(inner) = next.try_into_inner() {
            if hand_on(inner, &mut left).is_err() {
                return;
            }
        }
    }
}

/// Lets a derivation's last row go where this is its last owner. What that was made from is answered where it is one,
/// and let go where it is more.
fn one_below(why: Shared<Derivation>) -> Option<Shared<Derivation>>
    ensures { IfSome result (λ a. below a < below why) }
{
    let Ok(last) = why.try_into_inner() else {
        return None;
    };
    match last {
        Derivation::Leaf(_row) => None,
        Derivation::One(_row, a) => Some(a),
        Derivation::Many(_row, from) => {
            let_all_go(from);
            None
        }
    }
}

/// Lets a derivation go, however deep it is.
pub fn let_go(why: Shared<Derivation>) {
    let mut next = why;
    while let Some(below) = one_below(next) {
        next = below;
    }
}

/// How a term to itself is made.
pub(crate) fn refl_why(
    alloc: Global,
    ctx: &Ctx,
    mode: Mode,
    t: &Term,
) -> Result<Shared<Derivation>, NoMemory>
    ensures { IfOk result (λ d. d ≡ why_by ctx.now mode t.now None) }
{
    let ctx = ctx.share()?;
    let t = copy_term(alloc, t)?;
    let answer = Derivation::leaf(alloc, Row::Refl(ctx, mode, t))?;
    Ok(answer)
}

/// How an equivalence was made, for one more owner.
pub fn why_of(alloc: Global, q: &Equiv) -> Result<Shared<Derivation>, NoMemory>
    ensures { IfOk result (λ d. d ≡ why_of q.now) }
{
    match q.why() {
        Some(why) => why.share(),
        None => refl_why(alloc, q.ctx(), q.mode(), q.lhs()),
    }
}

/// How each of a list was made, in order.
pub(crate) fn whys_of(alloc: Global, list: &[Equiv]) -> Result<Seq<Shared<Derivation>>, NoMemory>
    ensures { IfOk result (λ ds. ds ≡ map why_of list.now) }
{
    let mut out = Seq::with_capacity(alloc, list.len())?;
    for q in list {
        out.push(why_of(alloc, q)?)?;
    }
    Ok(out)
}

/// A copy of a substitution, which shares its terms' parts.
pub(crate) fn copy_subst(alloc: Global, s: &Subst) -> Result<Subst, NoMemory>
    ensures { IfOk result (λ z. z ≡ s.now) }
{
    let mut out = Seq::with_capacity(alloc, s.0.len())?;
    for (x, t) in s.0.as_slice() {
        out.push(copied_pair(alloc, x, t)?)?;
    }
    Ok(Subst(out))
}
