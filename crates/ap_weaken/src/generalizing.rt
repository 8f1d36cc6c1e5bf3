ghost use Rattle.std.specs.Prelude.{◌≡◌, ◌∷◌, [], cond, IfOk, IfSome, IsTrue, Some};
ghost use Rattle.std.specs.Option.{option_map, option_copied};
ghost use Rattle.ap_list.specs.Lists.{Each};
ghost use Rattle.ap_term.specs.declared.term.Term.{out-Term};
ghost use Rattle.ap_term.specs.Terms.{term_size};
ghost use Rattle.ap_world.specs.Sound.{known, HasFunctions};
ghost use Rattle.ap_world.specs.World.{function_of};
ghost use Rattle.ap_kernel.specs.Masks.{MaskHolds};
ghost use Rattle.ap_kernel.specs.Standing.{DefinesNot};
ghost use Rattle.ap_kernel.specs.Reductions.{KnownClause, Reduces};
ghost use Rattle.ap_elim.specs.Naming.{new_name};
ghost use Rattle.ap_weaken.specs.Generalize.{calls_recursive, mask_in, isnt_boolean, may_generalise, smaller, smallest, chosen, is_letter, first_letter, letter_of, generalised_at, generalize_made};

use crate::sharing::is_shared;
use ap_elim::new_name;
use ap_induct::push_all_calls;
use ap_kernel::{Ctx, Reduction, TypeOracle, generalise};
use ap_list::{NoMemory, Seq};
use ap_term::{Clause, Shape, Term, copy_term, copy_terms, size};
use ap_value::Symbol;
use ap_world::{Mask, World, masks};
use std::alloc::{AllocError, Global};

/// Whether a term is a call of a recursive function. Takes no memory.
#[tactic(auto, using(ap_term::proofs::Seen::trees))]
fn calls_recursive(w: &World, t: &Term) -> bool
    ensures { result ≡ calls_recursive (function_of w.now.entries) (out-Term t.now) }
{
    match &t.shape {
        Shape::Call(f, _) => match w.lookup_fun(f) {
            Some(function) => function.measure.is_some(),
            None => false,
        },
        Shape::Var(_) => false,
        Shape::Quote(_) => false,
    }
}

/// The mask of a term under no facts.
fn mask_of<O: TypeOracle>(alloc: Global, w: &World, oracle: &O, t: &Term) -> Result<Mask, NoMemory>
    requires ground { DefinesNot (function_of w.now.entries) }
    requires term { IsTrue (known (function_of w.now.entries) t.now) }
    ensures made { IfOk result (λ m. m ≡ mask_in w.now t.now) }
    ensures holds { IfOk result (λ m. MaskHolds (function_of w.now.entries) [] t.now m) }
{
    let no_facts = Ctx::new(alloc, Seq::new(alloc))?;
    let mask = oracle.mask(alloc, w, &no_facts, t)?;
    Ok(mask)
}

/// Whether a mask has another type than those of `t` and `nil`. Takes no memory.
fn isnt_boolean(mask: Mask) -> bool
    ensures { result ≡ isnt_boolean mask }
{
    mask.0 & (masks::ALL ^ masks::TRUTHS) != 0
}

/// Whether a call may become a variable.
fn may_generalise<O: TypeOracle>(
    alloc: Global,
    w: &World,
    oracle: &O,
    literals: &[Term],
    t: &Term,
) -> Result<bool, NoMemory>
    requires ground { DefinesNot (function_of w.now.entries) }
    requires term { IsTrue (known (function_of w.now.entries) t.now) }
    ensures { IfOk result (λ b. b ≡ may_generalise w.now literals.now t.now) }
{
    if !calls_recursive(w, t) || !is_shared(t, literals) {
        return Ok(false);
    }
    let mask = mask_of(alloc, w, oracle, t)?;
    Ok(isnt_boolean(mask))
}

/// The number of a term's nodes. Past 64 bits the answer is want of memory.
fn nodes(t: &Term) -> Result<u64, NoMemory>
    ensures { IfOk result (λ n. n ≡ term_size t.now) }
{
    match size(t) {
        Some(nodes) => Ok(nodes),
        None => Err(AllocError),
    }
}

/// Of a term and the smallest of those behind it the one with fewer nodes, the first where they have as many.
fn smaller<'a>(t: &'a Term, behind: Option<&'a Term>) -> Result<Option<&'a Term>, NoMemory>
    ensures { IfOk result (λ o. option_copied o ≡ smaller t.now (option_copied behind.entry)) }
{
    let Some(u) = behind else {
        return Ok(Some(t));
    };
    if nodes(t)? <= nodes(u)? {
        Ok(Some(t))
    } else {
        Ok(Some(u))
    }
}

/// The same, where the term may become a variable.
fn with_next<'a, O: TypeOracle>(
    alloc: Global,
    w: &World,
    oracle: &O,
    literals: &[Term],
    t: &'a Term,
    behind: Option<&'a Term>,
) -> Result<Option<&'a Term>, NoMemory>
    requires ground { DefinesNot (function_of w.now.entries) }
    requires term { IsTrue (known (function_of w.now.entries) t.now) }
    ensures { IfOk result (λ o. option_copied o ≡ cond (may_generalise w.now literals.now t.now) (smaller t.now (option_copied behind.entry)) (option_copied behind.entry)) }
{
    if may_generalise(alloc, w, oracle, literals, t)? {
        return smaller(t, behind);
    }
    Ok(behind)
}

/// The smallest of some calls that may become a variable, the first of these.
fn smallest<'a, O: TypeOracle>(
    alloc: Global,
    w: &World,
    oracle: &O,
    literals: &[Term],
    calls: &'a [Term],
) -> Result<Option<&'a Term>, NoMemory>
    requires ground { DefinesNot (function_of w.now.entries) }
    requires terms { Each (λ u. IsTrue (known (function_of w.now.entries) u)) calls.now }
    ensures { IfOk result (λ o. option_copied o ≡ smallest (may_generalise w.now literals.now) calls.now) }
{
    let mut found: Option<&Term> = None;
    let mut i = calls.len();
    while i > 0 {
        i -= 1;
        found = with_next(alloc, w, oracle, literals, &calls[i], found)?;
    }
    Ok(found)
}

/// The smallest call in a clause that may become a variable.
fn chosen<O: TypeOracle>(
    alloc: Global,
    w: &World,
    oracle: &O,
    literals: &[Term],
) -> Result<Option<Term>, NoMemory>
    requires ground { DefinesNot (function_of w.now.entries) }
    requires terms { Each (λ u. IsTrue (known (function_of w.now.entries) u)) literals.now }
    ensures { IfOk result (λ o. o ≡ chosen w.now literals.now) }
{
    let mut calls = Seq::new(alloc);
    push_all_calls(alloc, literals, &mut calls)?;
    match smallest(alloc, w, oracle, literals, calls.as_slice())? {
        Some(t) => Ok(Some(copy_term(alloc, t)?)),
        None => Ok(None),
    }
}

/// Whether a byte is a letter. Takes no memory.
fn is_letter(byte: u8) -> bool
    ensures { result ≡ is_letter byte }
{
    (b'A' <= byte && byte <= b'Z') || (b'a' <= byte && byte <= b'z')
}

/// The first letter of a name, `V` where that isn't a letter. Takes no memory.
fn first_letter(name: &[u8]) -> u8
    ensures { result ≡ first_letter name.now }
{
    match name {
        [byte, ..] => { if is_letter(*byte) { *byte } else { b'V' } }
        [] => b'V',
    }
}

/// That of the name of a call's function. Takes no memory.
#[tactic(auto, using(ap_term::proofs::Seen::trees))]
fn letter_of(t: &Term) -> u8
    ensures { result ≡ letter_of (out-Term t.now) }
{
    match &t.shape {
        Shape::Call(f, _) => first_letter(f.name.as_slice()),
        Shape::Var(_) => b'V',
        Shape::Quote(_) => b'V',
    }
}

/// A variable of a call's letter that is new in some literals.
fn new_variable(alloc: Global, t: &Term, literals: &[Term]) -> Result<Symbol, NoMemory>
    ensures { IfOk result (λ v. new_name (letter_of (out-Term t.now) ∷ []) literals.now ≡ Some v) }
{
    new_name(alloc, &[letter_of(t)], literals)
}

/// From a clause to the clause with a new variable of the call's letter in every place of a call.
fn generalised_at<O: TypeOracle>(
    alloc: Global,
    w: &World,
    oracle: &O,
    c: &Clause,
    t: &Term,
) -> Result<Reduction, NoMemory>
    requires functions { HasFunctions (function_of w.now.entries) }
    requires clause { KnownClause (function_of w.now.entries) c.now }
    requires term { IsTrue (known (function_of w.now.entries) t.now) }
    ensures stands { IfOk result (λ r. Reduces w.now r) }
    ensures made { IfOk result (λ r. generalised_at w.now c.now t.now ≡ Some r.says) }
{
    let mask = mask_of(alloc, w, oracle, t)?;
    let v = new_variable(alloc, t, c.0.as_slice())?;
    let clause = Clause(copy_terms(alloc, c.0.as_slice())?);
    let answer = generalise(alloc, w, clause, t, v, mask)?;
    Ok(answer)
}

/// The generalization of a clause: of the calls of recursive functions whose types aren't those of `t` and
/// `nil` alone, and that are parts of two literals, or of both sides of a literal `equal` or `<`, negated or
/// not, the first with fewest nodes becomes a variable. Its name is the first letter of the function's, `V`
/// where that isn't a letter, and the least number that makes it new. Before the clause stands the negation
/// of the first of `integerp`, `true-listp`, `consp`, `symbolp`, `stringp` and `characterp` on the variable
/// that the call's types allow. `None` exactly where there is no such call. The only error is want of memory,
/// which is also the answer where a call's nodes pass 64 bits. See the manual's topic `generalize`.
pub fn generalize<O: TypeOracle>(
    alloc: Global,
    w: &World,
    oracle: &O,
    c: &Clause,
) -> Result<Option<Reduction>, NoMemory>
    requires functions { HasFunctions (function_of w.now.entries) }
    requires clause { KnownClause (function_of w.now.entries) c.now }
    ensures stands { IfOk result (λ o. IfSome o (λ r. Reduces w.now r)) }
    ensures made { IfOk result (λ o. option_map (λ r. r.says) o ≡ generalize_made w.now c.now) }
{
    let Some(t) = chosen(alloc, w, oracle, c.0.as_slice())? else {
        return Ok(None);
    };
    Ok(Some(generalised_at(alloc, w, oracle, c, &t)?))
}
