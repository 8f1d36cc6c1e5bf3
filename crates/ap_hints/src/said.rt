//! What is said of one goal, key by key.
ghost use Rattle.std.specs.Prelude.{◌≡◌};
ghost use Rattle.ap_hints.specs.Answers.{Gives};
ghost use Rattle.ap_hints.specs.Hinted.{nothing, said_of, all_said, hint_of, with_theory, with_uses, with_cases, with_expand, with_skip, with_scheme, forbidding};

use crate::fault::HintError;
use crate::hint::Hint;
use crate::settings::{processes, theory};
use crate::terms::{calls, cases, scheme};
use crate::uses::uses;
use ap_list::Seq;
use ap_names::{GoalName, same_name};
use ap_reader::{Form, is_keyword, is_symbol};
use ap_term::{Subst, Term};
use ap_value::Symbol;
use ap_walk::Process;
use ap_world::{Theory, World};
use std::alloc::Global;

/// What the keys so far say of a goal.
#[derive(Debug)]
pub struct Said {
    pub theory: Option<Theory>,
    pub uses: Option<Seq<(Symbol, Subst)>>,
    pub cases: Option<Seq<Term>>,
    pub expand: Option<Seq<Term>>,
    pub skip: Option<Seq<Process>>,
    pub scheme: Option<Term>,
    pub no_induction: bool,
}

// One call wherever it is let go, whatever is said.
impl Drop for Said {
    fn drop(self) {
        let Said {
            theory: _theory,
            uses: _uses,
            cases: _cases,
            expand: _expand,
            skip: _skip,
            scheme: _scheme,
            no_induction: _no_induction,
        } = self;
    }
}

/// Before the first key.
fn nothing() -> Said
    ensures { result ≡ nothing }
{
    Said {
        theory: None,
        uses: None,
        cases: None,
        expand: None,
        skip: None,
        scheme: None,
        no_induction: false,
    }
}

/// Adds the theory of `:in-theory`.
fn with_theory(alloc: Global, w: &World, mut said: Said, form: &Form) -> Result<Said, HintError>
    ensures { Gives result (with_theory w.now said form.now) }
{
    if said.theory.is_some() {
        return Err(HintError::Repeated);
    }
    let theory = theory(alloc, w, form)?;
    said.theory = Some(theory);
    Ok(said)
}

/// Adds what `:use` uses.
fn with_uses(alloc: Global, w: &World, mut said: Said, form: &Form) -> Result<Said, HintError>
    ensures { Gives result (with_uses w.now.entries said form.now) }
{
    if said.uses.is_some() {
        return Err(HintError::Repeated);
    }
    let uses = uses(alloc, w, form)?;
    said.uses = Some(uses);
    Ok(said)
}

/// Adds the terms of `:cases`.
fn with_cases(alloc: Global, w: &World, mut said: Said, form: &Form) -> Result<Said, HintError>
    ensures { Gives result (with_cases w.now.entries said form.now) }
{
    if said.cases.is_some() {
        return Err(HintError::Repeated);
    }
    let cases = cases(alloc, w, form)?;
    said.cases = Some(cases);
    Ok(said)
}

/// Adds the calls of `:expand`.
fn with_expand(alloc: Global, w: &World, mut said: Said, form: &Form) -> Result<Said, HintError>
    ensures { Gives result (with_expand w.now.entries said form.now) }
{
    if said.expand.is_some() {
        return Err(HintError::Repeated);
    }
    let expand = calls(alloc, w, form)?;
    said.expand = Some(expand);
    Ok(said)
}

/// Adds the processes of `:do-not`.
fn with_skip(alloc: Global, mut said: Said, form: &Form) -> Result<Said, HintError>
    ensures { Gives result (with_skip said form.now) }
{
    if said.skip.is_some() {
        return Err(HintError::Repeated);
    }
    let skip = processes(alloc, form)?;
    said.skip = Some(skip);
    Ok(said)
}

/// Adds the call of `:induct`.
fn with_scheme(alloc: Global, w: &World, mut said: Said, form: &Form) -> Result<Said, HintError>
    ensures { Gives result (with_scheme w.now.entries said form.now) }
{
    if said.scheme.is_some() {
        return Err(HintError::Repeated);
    }
    let scheme = scheme(alloc, w, form)?;
    said.scheme = Some(scheme);
    Ok(said)
}

/// Notes `:do-not-induct t`, which is said of `Goal` alone.
fn forbidding(at_goal: bool, mut said: Said, form: &Form) -> Result<Said, HintError>
    ensures { result ≡ forbidding at_goal said form.now }
{
    if said.no_induction {
        return Err(HintError::Repeated);
    }
    if at_goal && is_symbol(form, b"T") {
        said.no_induction = true;
        Ok(said)
    } else {
        Err(HintError::UnknownKeyword)
    }
}

/// Adds what one key says.
#[tactic(auto, unfolding(crate::specs::Hinted::said_of))]
fn said_of(
    alloc: Global,
    w: &World,
    at_goal: bool,
    said: Said,
    key: &Form,
    value: &Form,
) -> Result<Said, HintError>
    ensures { Gives result (said_of w.now at_goal said key.now value.now) }
{
    if is_keyword(key, b"IN-THEORY") {
        with_theory(alloc, w, said, value)
    } else if is_keyword(key, b"USE") {
        with_uses(alloc, w, said, value)
    } else if is_keyword(key, b"CASES") {
        with_cases(alloc, w, said, value)
    } else if is_keyword(key, b"EXPAND") {
        with_expand(alloc, w, said, value)
    } else if is_keyword(key, b"DO-NOT") {
        with_skip(alloc, said, value)
    } else if is_keyword(key, b"INDUCT") {
        with_scheme(alloc, w, said, value)
    } else if is_keyword(key, b"DO-NOT-INDUCT") {
        forbidding(at_goal, said, value)
    } else {
        Err(HintError::UnknownKeyword)
    }
}

/// What keys and their values say, in reading order.
pub(crate) fn all_said(
    alloc: Global,
    w: &World,
    at_goal: bool,
    forms: &[Form],
) -> Result<Said, HintError>
    ensures { Gives result (all_said w.now at_goal nothing forms.now) }
{
    let mut said = nothing();
    let mut left = forms;
    while let [key, more @ ..] = left {
        let [value, rest @ ..] = more else {
            return Err(HintError::UnknownKeyword);
        };
        said = said_of(alloc, w, at_goal, said, key, value)?;
        left = rest;
    }
    Ok(said)
}

/// The hint that is said of a goal.
pub(crate) fn hint_of(alloc: Global, goal: GoalName, mut said: Said) -> Hint
    ensures { result ≡ hint_of goal said }
{
    Hint {
        goal,
        theory: said.theory.take(),
        expand: said.expand.take().unwrap_or(Seq::new(alloc)),
        skip: said.skip.take().unwrap_or(Seq::new(alloc)),
        uses: said.uses.take().unwrap_or(Seq::new(alloc)),
        cases: said.cases.take().unwrap_or(Seq::new(alloc)),
        scheme: said.scheme.take(),
    }
}
