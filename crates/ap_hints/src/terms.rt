//! The terms that hints have. Whatever isn't one is a bad instance.
ghost use Rattle.std.specs.Prelude.{◌≡◌, option_map};
ghost use Rattle.ap_term.specs.declared.term.Term.{out-Term};
ghost use Rattle.ap_hints.specs.Answers.{Gives, each};
ghost use Rattle.ap_hints.specs.Hinted.{begins, term_in, terms_in, one_in, calls_in, cases_in, call_only, scheme_in};
ghost use Rattle.ap_reader.specs.Tops.{items_in};

use crate::fault::HintError;
use ap_list::Seq;
use ap_reader::{Form, items, symbol};
use ap_term::{Shape, Term};
use ap_translate::{TransError, translate};
use ap_value::Symbol;
use ap_world::World;
use std::alloc::Global;

/// The term that a form is.
#[tactic(auto, unfolding(crate::specs::Hinted::term_in))]
pub(crate) fn term(alloc: Global, w: &World, form: &Form) -> Result<Term, HintError>
    ensures { Gives result (term_in w.now.entries form.now) }
{
    match translate(alloc, w, form, None) {
        Ok(term) => Ok(term),
        Err(TransError::NoMemory) => Err(HintError::NoMemory),
        Err(TransError::Fault { .. }) => Err(HintError::BadInstance),
    }
}

/// The terms that forms are.
fn all_terms(alloc: Global, w: &World, forms: &[Form]) -> Result<Seq<Term>, HintError>
    ensures { Gives result (each (term_in w.now.entries) forms.now) }
{
    let mut terms = Seq::new(alloc);
    for form in forms {
        terms.push(term(alloc, w, form)?)?;
    }
    Ok(terms)
}

/// The terms of a list.
#[tactic(auto, unfolding(crate::specs::Hinted::terms_in))]
fn terms(alloc: Global, w: &World, form: &Form) -> Result<Seq<Term>, HintError>
    ensures { Gives result (terms_in w.now.entries form.now) }
{
    match items(form) {
        Some(forms) => all_terms(alloc, w, forms),
        None => Err(HintError::UnknownKeyword),
    }
}

/// The symbol that a list begins with.
fn beginning(form: &Form) -> Option<&Symbol>
    ensures { option_map (λ s. s.now) result ≡ begins (items_in form.now) }
{
    match items(form) {
        Some([first, ..]) => symbol(first),
        _ => None,
    }
}

/// The term that a form is, alone in a list.
fn one_term(alloc: Global, w: &World, form: &Form) -> Result<Seq<Term>, HintError>
    ensures { Gives result (one_in w.now.entries form.now) }
{
    let term = term(alloc, w, form)?;
    let mut terms = Seq::new(alloc);
    terms.push(term)?;
    Ok(terms)
}

/// The terms of `:expand`: those of a list, or one call alone.
#[tactic(auto, unfolding(crate::specs::Hinted::calls_in))]
pub(crate) fn calls(alloc: Global, w: &World, form: &Form) -> Result<Seq<Term>, HintError>
    ensures { Gives result (calls_in w.now.entries form.now) }
{
    match beginning(form) {
        Some(_) => one_term(alloc, w, form),
        None => terms(alloc, w, form),
    }
}

/// The terms of `:cases`, which can be numbered with the case that is left.
#[tactic(auto, unfolding(crate::specs::Hinted::cases_in))]
pub(crate) fn cases(alloc: Global, w: &World, form: &Form) -> Result<Seq<Term>, HintError>
    ensures { Gives result (cases_in w.now.entries form.now) }
{
    let terms = terms(alloc, w, form)?;
    if terms.len() < u32::MAX as usize {
        Ok(terms)
    } else {
        Err(HintError::UnknownKeyword)
    }
}

/// A term, where it is a call.
#[tactic(auto, using(ap_term::proofs::Seen::trees))]
fn call_only(term: Term) -> Result<Term, HintError>
    ensures { result ≡ call_only term (out-Term term) }
{
    match &term.shape {
        Shape::Call(..) => Ok(term),
        _ => Err(HintError::UnknownKeyword),
    }
}

/// The call of `:induct`.
#[tactic(auto, unfolding(crate::specs::Hinted::scheme_in))]
pub(crate) fn scheme(alloc: Global, w: &World, form: &Form) -> Result<Term, HintError>
    ensures { Gives result (scheme_in w.now.entries form.now) }
{
    let term = term(alloc, w, form)?;
    call_only(term)
}
