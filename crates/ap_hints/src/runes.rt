//! What names and runes stand for in a theory, and theories with more or fewer runes disabled.
ghost use Rattle.std.specs.Prelude.{◌≡◌, [], ◌∷◌, IfOk, OnOk, map};
ghost use Rattle.std.specs.Option.{option_copied};
ghost use Rattle.ap_list.specs.Lists.{is_among};
ghost use Rattle.ap_world.specs.Theories.{rune_of, rune_eq};
ghost use Rattle.ap_world.specs.declared.theory.Rune.TheVariants as rune;
ghost use Rattle.ap_hints.specs.Runes.{class_kind, class_rune, runes_by, runes_named, is_of_function, has_class, knows_by, knows_kind, with_runes, without_runes, changed_runes};

use ap_list::{NoMemory, Seq};
use ap_term::is_symbol;
use ap_value::{Symbol, copy_symbol};
use ap_world::{Function, RuleClass, Rune, RuneKind, Theorem, Theory, World, copy_rune};
use std::alloc::Global;

/// The kind of the runes of a class.
fn class_kind(class: RuleClass) -> RuneKind
    ensures { result ≡ class_kind class }
{
    match class {
        RuleClass::Rewrite => RuneKind::Rewrite,
        RuleClass::Linear => RuneKind::Linear,
        RuleClass::TypePrescription => RuneKind::TypePrescription,
        RuleClass::Elim => RuneKind::Elim,
    }
}

/// The rune of a kind and a name.
pub(crate) fn rune_of(alloc: Global, kind: RuneKind, name: &Symbol) -> Result<Rune, NoMemory>
    ensures { IfOk result (λ r. r ≡ rune_of kind name.now) }
{
    let name = copy_symbol(alloc, name)?;
    match kind {
        RuneKind::Definition => Ok(Rune::Definition(name)),
        RuneKind::Executable => Ok(Rune::Executable(name)),
        RuneKind::TypePrescription => Ok(Rune::TypePrescription(name)),
        RuneKind::Induction => Ok(Rune::Induction(name)),
        RuneKind::Rewrite => Ok(Rune::Rewrite(name)),
        RuneKind::Linear => Ok(Rune::Linear(name)),
        RuneKind::Elim => Ok(Rune::Elim(name)),
    }
}

/// The rune of a theorem of a class.
fn class_rune(alloc: Global, name: &Symbol, class: RuleClass) -> Result<Rune, NoMemory>
    ensures { IfOk result (λ r. r ≡ class_rune name.now class) }
{
    rune_of(alloc, class_kind(class), name)
}

/// The runes of a theorem's classes.
fn class_runes(alloc: Global, name: &Symbol, classes: &[RuleClass]) -> Result<Seq<Rune>, NoMemory>
    ensures { IfOk result (λ rs. rs ≡ map (class_rune name.now) classes.now) }
{
    let mut out = Seq::new(alloc);
    for class in classes {
        out.push(class_rune(alloc, name, *class)?)?;
    }
    Ok(out)
}

/// The runes that a function's name stands for.
fn function_runes(alloc: Global, name: &Symbol) -> Result<Seq<Rune>, NoMemory>
    ensures { IfOk result (λ rs. rs ≡ rune.Definition name.now ∷ rune.Induction name.now ∷ []) }
{
    let mut out = Seq::new(alloc);
    out.push(rune_of(alloc, RuneKind::Definition, name)?)?;
    out.push(rune_of(alloc, RuneKind::Induction, name)?)?;
    Ok(out)
}

/// What a name of such a function or theorem stands for.
fn runes_by(
    alloc: Global,
    name: &Symbol,
    function: Option<&Function>,
    theorem: Option<&Theorem>,
) -> Result<Option<Seq<Rune>>, NoMemory>
    ensures { IfOk result (λ o. o ≡ runes_by name.now (option_copied function.entry) (option_copied theorem.entry)) }
{
    match (function, theorem) {
        (Some(_), _) => Ok(Some(function_runes(alloc, name)?)),
        (None, Some(theorem)) => {
            let runes = class_runes(alloc, name, theorem.classes.as_slice())?;
            Ok(Some(runes))
        }
        (None, None) => Ok(None),
    }
}

/// The runes that a name stands for, or `None` where it is unknown.
pub fn runes_named(alloc: Global, w: &World, name: &Symbol) -> Result<Option<Seq<Rune>>, NoMemory>
    ensures { IfOk result (λ o. o ≡ runes_named w.now.entries name.now) }
{
    runes_by(alloc, name, w.lookup_fun(name), w.lookup_thm(name))
}

/// Whether each function has a rune of a kind.
fn is_of_function(kind: RuneKind) -> bool
    ensures { result ≡ is_of_function kind }
{
    match kind {
        RuneKind::Definition => true,
        RuneKind::Executable => true,
        RuneKind::TypePrescription => true,
        RuneKind::Induction => true,
        RuneKind::Rewrite => false,
        RuneKind::Linear => false,
        RuneKind::Elim => false,
    }
}

/// Whether one of the classes has runes of a kind.
fn has_class(kind: RuneKind, classes: &[RuleClass]) -> bool
    ensures { result ≡ has_class kind classes.now }
{
    let mut left = classes;
    while let [first, rest @ ..] = left {
        if kind.is(class_kind(*first)) {
            return true;
        }
        left = rest;
    }
    false
}

/// Whether such a function or theorem has a rune of a kind.
fn knows_by(kind: RuneKind, function: Option<&Function>, theorem: Option<&Theorem>) -> bool
    ensures { result ≡ knows_by kind (option_copied function.entry) (option_copied theorem.entry) }
{
    match (function, theorem) {
        (Some(_), _) => is_of_function(kind),
        (None, Some(theorem)) => has_class(kind, theorem.classes.as_slice()),
        (None, None) => false,
    }
}

/// Whether a world knows the rune of a kind and a name.
pub(crate) fn knows_kind(w: &World, kind: RuneKind, name: &Symbol) -> bool
    ensures { result ≡ knows_kind w.now.entries kind name.now }
{
    knows_by(kind, w.lookup_fun(name), w.lookup_thm(name))
}

/// Whether two runes are one, as the definitions test it.
fn is_same(a: &Rune, b: &Rune) -> bool
    ensures { result ≡ rune_eq a.now b.now }
{
    a.kind().is(b.kind()) && is_symbol(a.symbol(), b.symbol())
}

/// Whether a rune is one of a list.
fn is_among(rune: &Rune, list: &[Rune]) -> bool
    ensures { result ≡ is_among rune_eq rune.now list.now }
{
    for other in list {
        if is_same(rune, other) {
            return true;
        }
    }
    false
}

/// Copies of the disabled runes that aren't enabled.
fn without_runes(alloc: Global, enabled: &[Rune], disabled: &[Rune]) -> Result<Seq<Rune>, NoMemory>
    ensures { IfOk result (λ rs. rs ≡ without_runes enabled.now disabled.now) }
{
    let mut out = Seq::new(alloc);
    for rune in disabled {
        if !is_among(rune, enabled) {
            out.push(copy_rune(alloc, rune)?)?;
        }
    }
    Ok(out)
}

/// Adds a copy of a rune at the end, unless it is there.
fn push_missing(alloc: Global, list: &mut Seq<Rune>, rune: &Rune) -> Result<(), NoMemory>
    ensures { OnOk result (list.new ≡ with_runes list.old (rune.now ∷ [])) }
{
    if is_among(rune, list.as_slice()) {
        return Ok(());
    }
    list.push(copy_rune(alloc, rune)?)
}

/// Adds copies of runes at the end, each once.
fn push_runes(alloc: Global, list: &mut Seq<Rune>, runes: &[Rune]) -> Result<(), NoMemory>
    ensures { OnOk result (list.new ≡ with_runes list.old runes.now) }
{
    for rune in runes {
        push_missing(alloc, list, rune)?;
    }
    Ok(())
}

/// A theory in which runes are enabled, and then others are disabled.
pub fn changed_runes(
    alloc: Global,
    enabled: &[Rune],
    disabled: &[Rune],
    theory: &Theory,
) -> Result<Theory, NoMemory>
    ensures { IfOk result (λ h. h ≡ changed_runes enabled.now disabled.now theory.now) }
{
    let mut runes = without_runes(alloc, enabled, theory.disabled())?;
    push_runes(alloc, &mut runes, disabled)?;
    Theory::disabling(alloc, runes)
}
