//! What worlds answer, and the copies of their parts.
ghost use Rattle.std.specs.Prelude.{◌≡◌, [], ◌∷◌, pos, IfOk};
ghost use Rattle.ap_value.specs.Values.{acl2};
ghost use Rattle.ap_value.specs.declared.value.Value.TheVariants.{Int};
ghost use Rattle.ap_term.specs.declared.term.Term.TheVariants.{Quote, Call};
ghost use Rattle.ap_world.specs.Names.{equal_name};
ghost use Rattle.ap_world.specs.Sound.{not_function};

use ap_term::Shape;
use ap_value::{acl2, is_named};
use ap_world::laws::{equal_sides_are_valid, starting_world_is_sound};
use ap_world::{
    AddError, EntryRef, Function, Mask, NoMemory, Rune, Seq, Symbol, Term, Theorem, Theory, Value,
    World, copy_rune, copy_theory,
};
use std::alloc::{AllocError, Global};
use std::process::Abort;

/// Whether the answer is Ok; want of memory is handed on.
fn is_taken(added: Result<(), AddError>) -> Result<bool, NoMemory> {
    match added {
        Ok(()) => Ok(true),
        Err(AddError::NameTaken) => Ok(false),
        Err(AddError::NoMemory) => Err(AllocError),
    }
}

/// Adds a constant of this name, and answers whether it was taken.
fn is_added(alloc: Global, world: &mut World, name: &[u8]) -> Result<bool, NoMemory> {
    let name = acl2(alloc, name)?;
    is_taken(world.add_constant(alloc, name, Value::Int(7)))
}

fn expect_names(rt: &impl Abort, alloc: Global, world: &mut World) -> Result<(), NoMemory> {
    assert!(rt; is_added(alloc, world, b"*C*")?);
    assert!(rt; !is_added(alloc, world, b"*C*")?);
    assert!(rt; !is_added(alloc, world, b"CAR")?);
    assert!(rt; has_copy_seven(alloc, world)?);
    Ok(())
}

/// Whether a name is that of the constant 7, and of nothing else.
fn is_seven(world: &World, name: &Symbol) -> bool {
    matches!(world.lookup_const(name), Some(Value::Int(7)))
        && world.lookup_fun(name).is_none()
        && world.lookup_thm(name).is_none()
}

/// Whether the world's first entry is the constant 7.
fn is_seven_first(world: &World) -> bool {
    matches!(world.entry(0), Some(EntryRef::Constant(_, Value::Int(7))))
}

/// Whether the world has the constant 7 at its first place.
fn has_seven(alloc: Global, world: &World) -> Result<bool, NoMemory> {
    let name = acl2(alloc, b"*C*")?;
    Ok(is_seven_first(world) && is_seven(world, &name))
}

/// Whether a copy of the world has it.
fn has_copy_seven(alloc: Global, world: &World) -> Result<bool, NoMemory> {
    let copy = world.copy_world(alloc)?;
    has_seven(alloc, &copy)
}

/// A copy of a rune.
fn copied_rune(alloc: Global, name: &[u8]) -> Result<Rune, NoMemory> {
    let rune = Rune::Rewrite(acl2(alloc, name)?);
    copy_rune(alloc, &rune)
}

/// A theory that disables rewriting by `f`.
fn without_f(alloc: Global) -> Result<Theory, NoMemory> {
    let mut disabled = Seq::new(alloc);
    disabled.push(copied_rune(alloc, b"F")?)?;
    Theory::disabling(alloc, disabled)
}

/// Makes a copy of that theory the current one.
fn disable(alloc: Global, world: &mut World) -> Result<(), NoMemory> {
    let theory = without_f(alloc)?;
    world.set_theory(copy_theory(alloc, &theory)?);
    Ok(())
}

/// Whether rewriting by `f` is enabled, or its definition.
fn is_enabled(alloc: Global, world: &World, is_rewriting: bool) -> Result<bool, NoMemory> {
    let name = acl2(alloc, b"F")?;
    let rune = if is_rewriting {
        Rune::Rewrite(name)
    } else {
        Rune::Definition(name)
    };
    Ok(world.enabled(&rune))
}

fn expect_theory(rt: &impl Abort, alloc: Global, world: &mut World) -> Result<(), NoMemory> {
    disable(alloc, world)?;
    assert!(rt; !is_enabled(alloc, world, true)?);
    assert!(rt; is_enabled(alloc, world, false)?);
    Ok(())
}

/// `(equal 7 7)`.
#[tactic(auto, unfolding(ap_world::specs::Names::equal_name))]
fn same_sides(alloc: Global) -> Result<Term, NoMemory>
    ensures { IfOk result (λ u. u ≡ Call equal_name (Quote (Int (pos 7)) ∷ Quote (Int (pos 7)) ∷ [])) }
{
    let mut parts = Seq::new(alloc);
    parts.push(Term::quote(Value::Int(7)))?;
    parts.push(Term::quote(Value::Int(7)))?;
    Term::call(alloc, acl2(alloc, b"EQUAL")?, parts)
}

/// Whether a term is `(equal 7 7)`.
fn is_same_sides(t: &Term) -> bool {
    match &t.shape {
        Shape::Call(f, parts) => is_named(f, b"EQUAL") && are_sevens(parts.as_slice()),
        _ => false,
    }
}

fn are_sevens(terms: &[Term]) -> bool {
    match terms {
        [a, b] => is_quoted_seven(a) && is_quoted_seven(b),
        _ => false,
    }
}

fn is_quoted_seven(t: &Term) -> bool {
    match &t.shape {
        Shape::Quote(Value::Int(7)) => true,
        _ => false,
    }
}

/// The body of `not`: `(if p nil t)`.
#[tactic(auto, unfolding(ap_world::specs::Ground::not_function, ap_world::specs::Names::p_name, ap_world::specs::Names::if_name, ap_world::specs::Names::nil_name, ap_world::specs::Names::t_name))]
fn not_body(alloc: Global) -> Result<Term, NoMemory>
    ensures { IfOk result (λ t. t ≡ not_function.body) }
{
    let mut parts = Seq::new(alloc);
    parts.push(Term::var(acl2(alloc, b"P")?))?;
    parts.push(Term::quote(Value::Sym(acl2(alloc, b"NIL")?)))?;
    parts.push(Term::quote(Value::Sym(acl2(alloc, b"T")?)))?;
    Term::call(alloc, acl2(alloc, b"IF")?, parts)
}

/// The definition of `not`, of the formal `p`.
#[tactic(auto, unfolding(ap_world::specs::Ground::not_function, ap_world::specs::Names::p_name, ap_world::specs::Names::not_name))]
fn not_function(alloc: Global) -> Result<Function, NoMemory>
    ensures { IfOk result (λ f. f ≡ not_function) }
{
    let name = acl2(alloc, b"NOT")?;
    let mut formals = Seq::new(alloc);
    formals.push(acl2(alloc, b"P")?)?;
    let body = not_body(alloc)?;
    Ok(Function {
        name,
        formals,
        body,
        measure: None,
        cases: Seq::new(alloc),
        mask: Mask(8 + 16),
    })
}

/// Whether `not` is a function of the world.
fn has_not(alloc: Global, world: &World) -> Result<bool, NoMemory> {
    let name = acl2(alloc, b"NOT")?;
    match world.lookup_fun(&name) {
        Some(f) => Ok(f.formals.len() == 1),
        None => Ok(false),
    }
}

/// Adds `not` to the bare world, and answers whether it was taken.
fn is_not_added(alloc: Global, world: &mut World) -> Result<bool, NoMemory>
    requires { world.old.entries ≡ [] }
{
    starting_world_is_sound();
    let function = not_function(alloc)?;
    is_taken(world.add_function(alloc, function))
}

fn expect_not(rt: &impl Abort, alloc: Global, world: &mut World) -> Result<(), NoMemory>
    requires { world.old.entries ≡ [] }
{
    assert!(rt; is_not_added(alloc, world)?);
    assert!(rt; has_not(alloc, world)?);
    Ok(())
}

#[test]
fn a_function_is_added(rt: HostRuntime) -> Result<(), NoMemory> {
    let mut world = World::bare(rt.alloc());
    expect_not(&rt, rt.alloc(), &mut world)
}

/// Adds the theorem that 7 equals itself.
fn add_same_sides(alloc: Global, world: &mut World, name: Symbol) -> Result<(), AddError> {
    equal_sides_are_valid();
    world.recall_sound();
    let term = same_sides(alloc)?;
    world.add_theorem(alloc, name, term, Seq::new(alloc))
}

/// Adds the theorem `u` that 7 equals itself, and answers whether it was taken.
fn is_theorem_added(alloc: Global, world: &mut World) -> Result<bool, NoMemory> {
    let name = acl2(alloc, b"U")?;
    is_taken(add_same_sides(alloc, world, name))
}

/// Whether a theorem is `u`.
fn is_theorem(u: &Theorem) -> bool {
    is_named(&u.name, b"U") && is_same_sides(&u.term) && u.classes.is_empty()
}

/// Whether the world has the theorem `u`.
fn has_theorem(alloc: Global, world: &World) -> Result<bool, NoMemory> {
    let name = acl2(alloc, b"U")?;
    match world.lookup_thm(&name) {
        Some(u) => Ok(is_theorem(u)),
        None => Ok(false),
    }
}

fn expect_theorem(rt: &impl Abort, alloc: Global, world: &mut World) -> Result<(), NoMemory> {
    assert!(rt; is_theorem_added(alloc, world)?);
    assert!(rt; !is_theorem_added(alloc, world)?);
    assert!(rt; has_theorem(alloc, world)?);
    Ok(())
}

#[test]
fn names_and_a_theorem_are_added_once_and_a_theory_disables_its_runes_alone(
    rt: HostRuntime,
) -> Result<(), NoMemory> {
    let mut world = World::bare(rt.alloc());
    expect_names(&rt, rt.alloc(), &mut world)?;
    expect_theory(&rt, rt.alloc(), &mut world)?;
    expect_theorem(&rt, rt.alloc(), &mut world)
}
