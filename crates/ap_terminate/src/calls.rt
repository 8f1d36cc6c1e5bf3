ghost use Rattle.std.specs.Prelude.{◌≡◌, [], ◌∷◌, ◌++◌, IfOk, OnOk, map};
ghost use Rattle.ap_list.specs.Lists.{all_true, joined, is_among};
ghost use Rattle.ap_term.specs.Equal.{term_eq};
ghost use Rattle.ap_world.specs.Recursion.{args_eq, without_repeats, own_call, calls_in, has_no_call, has_flat_calls};
ghost use Rattle.ap_terminate.specs.Distinct.{with_distinct};

use ap_kernel::{is_same, is_symbol};
use ap_list::{NoMemory, Seq};
use ap_term::{Shape, Term, copy_terms};
use ap_value::Symbol;
use std::alloc::Global;

/// Whether a term has no call of the function of a name. Takes no memory.
#[cycle(seeking)]
#[tactic(auto, using(ap_term::proofs::Seen::trees))]
pub fn has_no_call(name: &Symbol, t: &Term) -> bool
    ensures { result ≡ has_no_call name.now t.now }
{
    match &t.shape {
        Shape::Var(_) => true,
        Shape::Quote(_) => true,
        Shape::Call(f, ts) => !is_symbol(f, name) && have_no_call(name, ts.as_slice()),
    }
}

/// Whether none of some terms has one. Takes no memory.
#[cycle(seeking)]
pub(crate) fn have_no_call(name: &Symbol, ts: &[Term]) -> bool
    ensures { result ≡ all_true (map (has_no_call name.now) ts.now) }
{
    for t in ts {
        if !has_no_call(name, t) {
            return false;
        }
    }
    true
}

/// Whether a call isn't one of the function, or its arguments have none. Takes no memory.
fn is_flat_call(name: &Symbol, f: &Symbol, arguments: &[Term]) -> bool
    ensures { result ≡ has_flat_calls name.now (own_call name.now f.now arguments.now) }
{
    if !is_symbol(f, name) {
        return true;
    }
    have_no_call(name, arguments)
}

/// Whether no argument of a call of the function in a term has another one. Takes no memory.
#[cycle(nesting)]
#[tactic(auto, using(ap_term::proofs::Seen::trees))]
pub(crate) fn has_flat_calls(name: &Symbol, t: &Term) -> bool
    ensures { result ≡ has_flat_calls name.now (calls_in name.now t.now) }
{
    match &t.shape {
        Shape::Var(_) => true,
        Shape::Quote(_) => true,
        Shape::Call(f, ts) => {
            let arguments = ts.as_slice();
            is_flat_call(name, f, arguments) && have_flat_calls(name, arguments)
        }
    }
}

/// The same of some terms. Takes no memory.
#[cycle(nesting)]
fn have_flat_calls(name: &Symbol, ts: &[Term]) -> bool
    ensures { result ≡ all_true (map (λ t. has_flat_calls name.now (calls_in name.now t)) ts.now) }
{
    for t in ts {
        if !has_flat_calls(name, t) {
            return false;
        }
    }
    true
}

/// Whether two calls have the same arguments. Takes no memory.
fn same_arguments(a: &[Term], b: &[Term]) -> bool
    ensures { result ≡ args_eq a.now b.now }
{
    let mut left = a;
    let mut others = b;
    while let [first, rest @ ..] = left {
        let [other, more @ ..] = others else {
            return false;
        };
        if !is_same(first, other) {
            return false;
        }
        left = rest;
        others = more;
    }
    others.is_empty()
}

/// Whether a call with these arguments is one of these. Takes no memory.
fn is_listed(arguments: &[Term], calls: &[Seq<Term>]) -> bool
    ensures { result ≡ is_among args_eq arguments.now calls.now }
{
    for call in calls {
        if same_arguments(arguments, call.as_slice()) {
            return true;
        }
    }
    false
}

/// Adds the arguments of a call, where it is one of the function and they aren't there yet.
#[tactic(auto, unfolding(crate::specs::Distinct::with_distinct))]
fn push_own(
    alloc: Global,
    name: &Symbol,
    f: &Symbol,
    arguments: &[Term],
    out: &mut Seq<Seq<Term>>,
) -> Result<(), NoMemory>
    ensures { OnOk result (out.new ≡ with_distinct out.old (own_call name.now f.now arguments.now)) }
{
    if is_symbol(f, name) && !is_listed(arguments, out.as_slice()) {
        out.push(copy_terms(alloc, arguments)?)?;
    }
    Ok(())
}

/// Adds the arguments of each call of the function in a term, in preorder, that aren't there yet.
#[cycle(gathering)]
#[tactic(auto, using(ap_term::proofs::Seen::trees))]
fn push_calls(
    alloc: Global,
    name: &Symbol,
    t: &Term,
    out: &mut Seq<Seq<Term>>,
) -> Result<(), NoMemory>
    ensures { OnOk result (out.new ≡ with_distinct out.old (calls_in name.now t.now)) }
{
    match &t.shape {
        Shape::Var(_) => Ok(()),
        Shape::Quote(_) => Ok(()),
        Shape::Call(f, ts) => {
            let arguments = ts.as_slice();
            push_own(alloc, name, f, arguments, out)?;
            push_all_calls(alloc, name, arguments, out)
        }
    }
}

/// The same of some terms, in their order.
#[cycle(gathering)]
fn push_all_calls(
    alloc: Global,
    name: &Symbol,
    ts: &[Term],
    out: &mut Seq<Seq<Term>>,
) -> Result<(), NoMemory>
    ensures { OnOk result (out.new ≡ with_distinct out.old (joined (map (calls_in name.now) ts.now))) }
{
    for t in ts {
        push_calls(alloc, name, t, out)?;
    }
    Ok(())
}

/// The arguments of the distinct calls of the function in a term, in preorder.
#[tactic(auto, unfolding(crate::specs::Distinct::with_distinct))]
pub(crate) fn calls_of(alloc: Global, name: &Symbol, t: &Term) -> Result<Seq<Seq<Term>>, NoMemory>
    ensures { IfOk result (λ cs. cs ≡ without_repeats [] (calls_in name.now t.now)) }
{
    let mut out = Seq::new(alloc);
    push_calls(alloc, name, t, &mut out)?;
    Ok(out)
}
