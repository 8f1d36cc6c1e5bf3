ghost use Rattle.std.specs.Prelude.{◌≡◌, ◌++◌, [], ◌∷◌, false, map, IfOk, IsTrue};
ghost use Rattle.std.specs.Option.{option_map};
ghost use Rattle.ap_value.specs.Values.{acl2};
ghost use Rattle.ap_term.specs.declared.term.Term.TheVariants.{Var};
ghost use Rattle.ap_world.specs.Sound.{known, HasFunctions};
ghost use Rattle.ap_world.specs.Typing.{types};
ghost use Rattle.ap_world.specs.World.{function_of};
ghost use Rattle.ap_kernel.specs.Masks.{MaskHolds};
ghost use Rattle.ap_kernel.specs.Reductions.{KnownClause, Reduces};
ghost use Rattle.ap_kernel.specs.Solving.{occurs_in};
ghost use Rattle.ap_kernel.specs.Swapping.{swapped};
ghost use Rattle.ap_kernel.specs.Eliminating.{call_on};
ghost use Rattle.ap_kernel.specs.Deriving.{node};
ghost use Rattle.ap_kernel.specs.declared.derivations.Row.TheVariants.{Generalise};
ghost use Rattle.ap_kernel.specs.Generalising.{lies_within, tried, first_fitting, restriction, generalised};

use crate::choices::not_term;
use crate::derivations::{Derivation, Row};
use crate::lists::{one, one_pair};
use crate::literals::to_one;
use crate::reductions::Reduction;
use crate::swapping::swapped_all;
use ap_list::{NoMemory, Seq, Shared};
use ap_term::{Clause, Term, copy_term};
use ap_value::{Symbol, acl2, copy_symbol};
use ap_world::{Mask, World, masks};
use std::alloc::Global;

/// Whether each type of the first mask is one of the second. Takes no memory.
fn lies_within(mask: u16, types: u16) -> bool
    ensures { result ≡ lies_within mask types }
{
    mask & (masks::ALL ^ types) == 0
}

/// The first name of a table whose types a mask lies within. Takes no memory.
fn first_fitting(mask: u16, table: &[(&'static [u8], u16)]) -> Option<&'static [u8]>
    ensures { option_map (λ b. acl2 b.now) result ≡ first_fitting mask (map (λ p. (acl2 p.0.now, p.1)) table.now) }
{
    for (name, types) in table {
        if lies_within(mask, *types) {
            return Some(*name);
        }
    }
    None
}

/// The first recogniser, of six in their order, whose types a mask lies within. Takes no memory.
fn recogniser_of(mask: Mask) -> Option<&'static [u8]>
    ensures { option_map (λ b. acl2 b.now) result ≡ first_fitting mask.0 tried }
{
    first_fitting(
        mask.0,
        &[
            (b"INTEGERP", 1 + 2 + 4),
            (b"TRUE-LISTP", 8 + 64),
            (b"CONSP", 64 + 128),
            (b"SYMBOLP", 8 + 16 + 32),
            (b"STRINGP", 256),
            (b"CHARACTERP", 512),
        ],
    )
}

/// The call of a function on a variable.
pub(crate) fn call_on(alloc: Global, f: Symbol, v: &Symbol) -> Result<Term, NoMemory>
    ensures { IfOk result (λ u. u ≡ call_on f v.now) }
{
    let v = copy_symbol(alloc, v)?;
    let parts = one(alloc, Term::var(v))?;
    Term::call(alloc, f, parts)
}

/// The literals that say of a variable that it has no type but those of a mask, negated: one or none.
fn restriction(alloc: Global, mask: Mask, v: &Symbol) -> Result<Seq<Term>, NoMemory>
    ensures { IfOk result (λ ts. ts ≡ restriction mask.0 v.now) }
{
    let Some(name) = recogniser_of(mask) else {
        return Ok(Seq::new(alloc));
    };
    let head = acl2(alloc, name)?;
    let test = call_on(alloc, head, v)?;
    one(alloc, not_term(alloc, test)?)
}

/// The literals with a variable in every place of a term.
fn with_variable(
    alloc: Global,
    t: &Term,
    v: Symbol,
    literals: &[Term],
) -> Result<Seq<Term>, NoMemory>
    ensures { IfOk result (λ ts. ts ≡ map (swapped ((t.now, Var v) ∷ [])) literals.now) }
{
    let part = copy_term(alloc, t)?;
    let pairs = one_pair(alloc, part, Term::var(v))?;
    swapped_all(alloc, pairs.as_slice(), literals)
}

/// The same, with the restriction before them.
fn restricted(
    alloc: Global,
    t: &Term,
    v: Symbol,
    mask: Mask,
    terms: &[Term],
) -> Result<Seq<Term>, NoMemory>
    ensures { IfOk result (λ ts. ts ≡ restriction mask.0 v ++ map (swapped ((t.now, Var v) ∷ [])) terms.now) }
{
    let mut literals = restriction(alloc, mask, &v)?;
    literals.append(with_variable(alloc, t, v, terms)?)?;
    Ok(literals)
}

/// How a term is generalised.
fn generalise_why(
    alloc: Global,
    c: &Shared<Clause>,
    t: &Term,
    v: &Symbol,
    mask: Mask,
) -> Result<Shared<Derivation>, NoMemory>
    ensures { IfOk result (λ d. d ≡ node (Generalise c.now t.now v.now mask) []) }
{
    let c = c.share()?;
    let v = copy_symbol(alloc, v)?;
    let t = copy_term(alloc, t)?;
    let answer = Derivation::leaf(alloc, Row::Generalise(c, t, v, mask))?;
    Ok(answer)
}

/// From a clause to the clause with a new variable in every place of a term, and before it the negation of
/// the first of six recognisers on the variable whose types the term's mask lies within, where there is one.
/// The mask is what the definition of types gives under no facts. It copies what it doesn't change, since the
/// reduction owns both clauses.
pub fn generalise(
    alloc: Global,
    w: &World,
    c: Clause,
    t: &Term,
    v: Symbol,
    mask: Mask,
) -> Result<Reduction, NoMemory>
    requires functions { HasFunctions (function_of w.now.entries) }
    requires clause { KnownClause (function_of w.now.entries) c }
    requires term { IsTrue (known (function_of w.now.entries) t.now) }
    requires mask { MaskHolds (function_of w.now.entries) [] t.now mask }
    requires exact { mask.0 ≡ types w.now [] t.now }
    requires new { occurs_in v c.0 ≡ false }
    ensures stands { IfOk result (λ r. Reduces w.now r) }
    ensures made { IfOk result (λ r. r.says ≡ generalised c t.now v mask) }
{
    w.recall_sound();
    let from = Shared::new(alloc, c)?;
    let why = generalise_why(alloc, &from, t, &v, mask)?;
    let literals = restricted(alloc, t, v, mask, from.get().0.as_slice())?;
    let answer = to_one(alloc, from, literals, why)?;
    Ok(answer)
}
