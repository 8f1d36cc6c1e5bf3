ghost use Rattle.std.specs.Prelude.{◌≡◌, ◌&&◌, IsTrue, IfOk, true, false, cond, length, map, [], ◌∷◌};
ghost use Rattle.ap_list.specs.Lists.{Each};
ghost use Rattle.ap_term.specs.declared.term.Term.TheVariants.{Call};
ghost use Rattle.ap_world.specs.Primitives.{prim_of};
ghost use Rattle.ap_world.specs.Sound.{known, is_head};
ghost use Rattle.ap_world.specs.World.{function_of};
ghost use Rattle.ap_world.specs.Facts.{KnownFacts};
ghost use Rattle.ap_world.specs.Assume.{assume};
ghost use Rattle.ap_world.specs.Shapes.{is_constant};
ghost use Rattle.ap_kernel.specs.Standing.{DefinesNot, Stands};
ghost use Rattle.ap_kernel.specs.Answers.{if_of, branch_made, chosen_made, IsArgument, said, lefts, rights, is_unchanged, cong_made};
ghost use Rattle.ap_kernel.specs.Deriving.{node, listed, why_of, branch_why};
ghost use Rattle.ap_kernel.specs.declared.derivations.Row.TheVariants.{Cong, Branch, ChooseBranch};

use crate::choices::copied_if;
use crate::derivations::{Derivation, Row, why_of, whys_of};
use crate::lists::three;
use crate::objects::{Ctx, Equiv, Mode};
use ap_list::{NoMemory, Seq, Shared};
use ap_term::{Term, copy_term};
use ap_value::{Symbol, copy_symbol};
use ap_world::{World, if_symbol};
use std::alloc::Global;

/// The left sides, copied, in order.
fn left_sides(alloc: Global, args: &[Equiv]) -> Result<Seq<Term>, NoMemory>
    ensures { IfOk result (λ ts. ts ≡ lefts (said args.now)) }
{
    let mut out = Seq::new(alloc);
    for q in args {
        out.push(copy_term(alloc, q.lhs())?)?;
    }
    Ok(out)
}

/// The right sides, copied, in order.
fn right_sides(alloc: Global, args: &[Equiv]) -> Result<Seq<Term>, NoMemory>
    ensures { IfOk result (λ ts. ts ≡ rights (said args.now)) }
{
    let mut out = Seq::new(alloc);
    for q in args {
        out.push(copy_term(alloc, q.rhs())?)?;
    }
    Ok(out)
}

/// The call of `f` on the left sides.
fn left_call(alloc: Global, f: &Symbol, args: &[Equiv]) -> Result<Term, NoMemory>
    ensures { IfOk result (λ u. u ≡ Call f.now (lefts (said args.now))) }
{
    let head = copy_symbol(alloc, f)?;
    let parts = left_sides(alloc, args)?;
    Term::call(alloc, head, parts)
}

/// The call of `f` on the right sides.
fn right_call(alloc: Global, f: &Symbol, args: &[Equiv]) -> Result<Term, NoMemory>
    ensures { IfOk result (λ u. u ≡ Call f.now (rights (said args.now))) }
{
    let head = copy_symbol(alloc, f)?;
    let parts = right_sides(alloc, args)?;
    Term::call(alloc, head, parts)
}

/// How the call of `f` on what its arguments lead to is made.
fn cong_why(
    alloc: Global,
    ctx: &Ctx,
    f: &Symbol,
    args: &[Equiv],
) -> Result<Shared<Derivation>, NoMemory>
    ensures { IfOk result (λ d. d ≡ listed (Cong ctx.now f.now) (map why_of args.now)) }
{
    let from = whys_of(alloc, args)?;
    let ctx = ctx.share()?;
    let f = copy_symbol(alloc, f)?;
    let answer = Derivation::of_list(alloc, Row::Cong(ctx, f), from)?;
    Ok(answer)
}

/// From a call of `f` to the call on what its arguments lead to, under equality. Each argument leads under
/// the facts `ctx` and under equality, or, where `f` is `not`, under either mode. It copies `f`, once for each
/// side, and the sides of the arguments, of which each copy costs a count. Where all arguments are unchanged
/// the right side is a copy of the left one, at a count, and so is the answer unchanged.
pub fn cong(
    alloc: Global,
    w: &World,
    ctx: &Ctx,
    f: &Symbol,
    args: &[Equiv],
) -> Result<Equiv, NoMemory>
    requires ground { DefinesNot (function_of w.now.entries) }
    requires facts { KnownFacts (function_of w.now.entries) ctx.now.0 }
    requires head { IsTrue (is_head (function_of w.now.entries) f.now (prim_of f.now) (length args.now)) }
    requires args { Each (IsArgument w.now ctx.now f.now) args.now }
    ensures stands { IfOk result (λ q. Stands w.now q) }
    ensures made { IfOk result (λ q. q.says ≡ cong_made ctx.now f.now (said args.now)) }
{
    w.recall_sound();
    let ctx = ctx.share()?;
    let lhs = left_call(alloc, f, args)?;
    if Equiv::are_unchanged(args) {
        let answer = Equiv::of_one(alloc, ctx, Mode::Equal, lhs)?;
        return Ok(answer);
    }
    let rhs = right_call(alloc, f, args)?;
    let why = cong_why(alloc, &ctx, f, args)?;
    Ok(Equiv::made(ctx, Mode::Equal, lhs, rhs, Some(why)))
}

/// `(if a b c)`
pub fn if_term(alloc: Global, a: Term, b: Term, c: Term) -> Result<Term, NoMemory>
    ensures { IfOk result (λ u. u ≡ if_of a b c) }
{
    let parts = three(alloc, a, b, c)?;
    Term::call(alloc, if_symbol(), parts)
}

/// The parts of an `if` that isn't built yet.
struct IfParts {
    test: Term,
    yes: Term,
    no: Term,
}

// One call wherever it is let go, whatever the parts are.
impl Drop for IfParts {
    fn drop(self) {
        let IfParts {
            test: _test,
            yes: _yes,
            no: _no,
        } = self;
    }
}

impl IfParts {
    /// The `if` of these parts, which are moved.
    fn into_term(self, alloc: Global) -> Result<Term, NoMemory>
        ensures { IfOk result (λ u. u ≡ if_of self.test self.yes self.no) }
    {
        let IfParts { test, yes, no } = self;
        if_term(alloc, test, yes, no)
    }
}

/// The test's facts, and the parts of the `if` of the left sides and of the `if` of the right sides.
fn if_parts(test: Equiv, yes: Equiv, no: Equiv) -> (Ctx, IfParts, IfParts)
    ensures facts { result.0 ≡ test.says.ctx }
    ensures left { result.1 ≡ record { test = test.says.lhs; yes = yes.says.lhs; no = no.says.lhs } }
    ensures right { result.2 ≡ record { test = test.says.rhs; yes = yes.says.rhs; no = no.says.rhs } }
{
    let (ctx, _, test_left, test_right) = test.into_parts();
    let (_, _, yes_left, yes_right) = yes.into_parts();
    let (_, _, no_left, no_right) = no.into_parts();
    let left = IfParts {
        test: test_left,
        yes: yes_left,
        no: no_left,
    };
    let right = IfParts {
        test: test_right,
        yes: yes_right,
        no: no_right,
    };
    (ctx, left, right)
}

/// Whether of an `if`'s parts the two sides are known to be one term. Takes no memory.
fn are_parts_unchanged(test: &Equiv, yes: &Equiv, no: &Equiv) -> bool
    ensures { result ≡ (is_unchanged test.now && (is_unchanged yes.now && is_unchanged no.now)) }
{
    test.is_unchanged() && yes.is_unchanged() && no.is_unchanged()
}

/// How an `if` of what its parts lead to is made; where all parts are unchanged, nothing is kept of it.
fn branch_why(
    alloc: Global,
    mode: Mode,
    test: &Equiv,
    yes: &Equiv,
    no: &Equiv,
) -> Result<Option<Shared<Derivation>>, NoMemory>
    ensures { IfOk result (λ o. o ≡ branch_why mode test.now yes.now no.now) }
{
    if are_parts_unchanged(test, yes, no) {
        return Ok(None);
    }
    let first = why_of(alloc, test)?;
    let second = why_of(alloc, yes)?;
    let third = why_of(alloc, no)?;
    let answer = Derivation::of_three(alloc, Row::Branch(mode), first, second, third)?;
    Ok(Some(answer))
}

/// From an `if` to the `if` of what its parts lead to. The branches lead under what the new test's truth
/// and its falsehood add to the test's facts. It copies nothing. Where all parts are unchanged, so is the
/// answer.
pub fn branch(
    alloc: Global,
    w: &World,
    mode: Mode,
    test: Equiv,
    yes: Equiv,
    no: Equiv,
) -> Result<Equiv, NoMemory>
    requires test { Stands w.now test }
    requires yes { Stands w.now yes }
    requires no { Stands w.now no }
    requires ground { DefinesNot (function_of w.now.entries) }
    requires yes_mode { yes.says.mode ≡ mode }
    requires no_mode { no.says.mode ≡ mode }
    requires yes_facts { yes.says.ctx.0 ≡ assume test.says.ctx.0 test.says.rhs true }
    requires no_facts { no.says.ctx.0 ≡ assume test.says.ctx.0 test.says.rhs false }
    ensures stands { IfOk result (λ q. Stands w.now q) }
    ensures made { IfOk result (λ q. q.says ≡ branch_made mode test.says yes.says no.says) }
{
    w.recall_sound();
    let why = branch_why(alloc, mode, &test, &yes, &no)?;
    let (ctx, left, right) = if_parts(test, yes, no);
    let lhs = left.into_term(alloc)?;
    let rhs = right.into_term(alloc)?;
    Ok(Equiv::made(ctx, mode, lhs, rhs, why))
}

/// The branch of a sign, lent. Takes no memory.
fn branch_of<'a>(sign: bool, b: &'a Term, c: &'a Term) -> &'a Term
    ensures { result.now ≡ cond sign b.now c.now }
{
    if sign { b } else { c }
}

/// How the branch is chosen that a constant chooses.
fn choose_why(
    alloc: Global,
    mode: Mode,
    first: Shared<Derivation>,
    sign: bool,
    b: &Term,
    c: &Term,
) -> Result<Shared<Derivation>, NoMemory>
    ensures { IfOk result (λ d. d ≡ node (ChooseBranch mode sign b.now c.now) (first ∷ [])) }
{
    let b = copy_term(alloc, b)?;
    let c = copy_term(alloc, c)?;
    let answer = Derivation::of_one(alloc, Row::ChooseBranch(mode, sign, b, c), first)?;
    Ok(answer)
}

/// From an `if` to the branch that the constant chooses to which its test leads: the sign is true where that
/// isn't `nil`. It copies the test's left side and the branches, and the one that is chosen once more, at a count
/// each.
pub fn choose_branch(
    alloc: Global,
    w: &World,
    mode: Mode,
    test: Equiv,
    sign: bool,
    b: &Term,
    c: &Term,
) -> Result<Equiv, NoMemory>
    requires ground { DefinesNot (function_of w.now.entries) }
    requires test { Stands w.now test }
    requires constant { IsTrue (is_constant sign test.says.rhs) }
    requires yes { IsTrue (known (function_of w.now.entries) b.now) }
    requires no { IsTrue (known (function_of w.now.entries) c.now) }
    ensures stands { IfOk result (λ q. Stands w.now q) }
    ensures made { IfOk result (λ q. q.says ≡ chosen_made mode test.says sign b.now c.now) }
{
    w.recall_sound();
    let (test, first) = test.into_made(alloc)?;
    let why = choose_why(alloc, mode, first, sign, b, c)?;
    let lhs = copied_if(alloc, &test.lhs, b, c)?;
    let rhs = copy_term(alloc, branch_of(sign, b, c))?;
    Ok(Equiv::made(test.ctx, mode, lhs, rhs, Some(why)))
}
