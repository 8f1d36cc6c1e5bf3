ghost use Rattle.std.specs.Prelude.{◌≡◌, ◌≤◌, ◌<◌, ◌+◌, ◌∷◌, [], IfOk, IfSome, IfNone, OnSome, length, map, option_map, unwrap_or, zip, Some};
ghost use Rattle.ap_list.specs.Lists.{lookup_by};
ghost use Rattle.ap_value.specs.Values.{symbol_eq};
ghost use Rattle.ap_term.specs.declared.term.Term.TheVariants.{Var};
ghost use Rattle.ap_term.specs.Terms.{term_size};
ghost use Rattle.ap_translate.specs.Instances.{nodes_found, sum_known, nodes_of, more_than, kept_pair, known_pairs, kept_instance, in_turn_by, kept_in_turn, kept_either, kept_by};

use crate::sizes::{MOST_NODES, more_nodes};
use ap_list::{NoMemory, Seq};
use ap_term::{Shape, Subst, Term, copy_term, is_symbol, subst};
use ap_value::{Symbol, copy_symbol};
use std::alloc::Global;
use std::slice::from_ref;

/// What is kept of the term that replaces a variable, where there is one.
fn found<'a>(names: &[Symbol], terms: &'a [Option<Term>], name: &Symbol) -> Option<&'a Option<Term>>
    ensures { option_map (λ o. o.now) result ≡ lookup_by symbol_eq (zip names.now terms.now) name.now }
{
    let mut left = names;
    let mut values = terms;
    while let [first, rest @ ..] = left {
        let [value, more @ ..] = values else {
            return None;
        };
        if is_symbol(name, first) {
            return Some(value);
        }
        left = rest;
        values = more;
    }
    None
}

/// One more than so many, where that is at most 4,096.
fn one_more(count: u64) -> Option<u64>
    ensures { result ≡ more_than count (Some 1) }
{
    if count < MOST_NODES {
        Some(count + 1)
    } else {
        None
    }
}

/// The number of nodes of a term and so many more, where they are at most 4,096.
#[tactic(auto, using(crate::proofs::Counted::more_thans))]
fn with_nodes(count: u64, term: &Term) -> Option<u64>
    requires { count ≤ 4096 }
    ensures { result ≡ more_than count (Some (term_size term.now)) }
{
    more_nodes(count, term)
}

/// The number of nodes of what replaces a variable and so many more, where they are at most 4,096.
fn with_found(count: u64, found: Option<&Option<Term>>) -> Option<u64>
    requires { count ≤ 4096 }
    ensures { result ≡ more_than count (nodes_found (option_map (λ o. o.now) found.entry)) }
{
    match found {
        None => one_more(count),
        Some(kept) => match kept {
            Some(term) => with_nodes(count, term),
            None => None,
        },
    }
}

/// The number of nodes of a term with its variables replaced and so many more, where they are at most
/// 4,096. Takes no memory.
#[cycle(counting)]
#[tactic(auto, using(ap_term::proofs::Seen::trees, crate::proofs::Counted::counts))]
fn count(names: &[Symbol], terms: &[Option<Term>], term: &Term, before: u64) -> Option<u64>
    requires { before ≤ 4096 }
    ensures is { result ≡ more_than before (nodes_of (zip names.now terms.now) term.now) }
    ensures low { IfSome result (λ n. n ≤ 4096) }
{
    match &term.shape {
        Shape::Var(name) => with_found(before, found(names, terms, name)),
        Shape::Quote(_) => with_nodes(before, term),
        Shape::Call(_, parts) => {
            let start = one_more(before)?;
            count_all(names, terms, parts.as_slice(), start)
        }
    }
}

#[cycle(counting)]
#[tactic(auto, using(crate::proofs::Counted::counts))]
fn count_all(names: &[Symbol], terms: &[Option<Term>], parts: &[Term], before: u64) -> Option<u64>
    requires { before ≤ 4096 }
    ensures is { result ≡ more_than before (sum_known (map (nodes_of (zip names.now terms.now)) parts.now)) }
    ensures low { IfSome result (λ n. n ≤ 4096) }
{
    let mut total = before;
    for part in parts {
        total = count(names, terms, part, total)?;
    }
    Some(total)
}

/// What a variable becomes: the term that is kept for it, or itself.
fn term_for(alloc: Global, name: &Symbol, kept: &Option<Term>) -> Result<Term, NoMemory>
    ensures { IfOk result (λ u. u ≡ unwrap_or kept.now (Var name.now)) }
{
    match kept {
        Some(term) => copy_term(alloc, term),
        None => Ok(Term::var(copy_symbol(alloc, name)?)),
    }
}

/// A variable with what it becomes.
fn pair_kept(alloc: Global, name: &Symbol, kept: &Option<Term>) -> Result<(Symbol, Term), NoMemory>
    ensures { IfOk result (λ p. p ≡ kept_pair (name.now, kept.now)) }
{
    let symbol = copy_symbol(alloc, name)?;
    Ok((symbol, term_for(alloc, name, kept)?))
}

/// Each variable with what it becomes, up to the end of the shorter list.
fn pairs_kept(
    alloc: Global,
    names: &[Symbol],
    terms: &[Option<Term>],
) -> Result<Seq<(Symbol, Term)>, NoMemory>
    ensures { IfOk result (λ ps. ps ≡ known_pairs (zip names.now terms.now)) }
{
    let mut left = names;
    let mut values = terms;
    let mut out = Seq::new(alloc);
    while let [name, rest @ ..] = left {
        let [kept, more @ ..] = values else {
            return Ok(out);
        };
        let pair = pair_kept(alloc, name, kept)?;
        out.push(pair)?;
        left = rest;
        values = more;
    }
    Ok(out)
}

/// A term with its variables replaced, where it has at most 4,096 nodes. It is counted before it is
/// copied, so that never more are made.
fn instance(
    alloc: Global,
    names: &[Symbol],
    terms: &[Option<Term>],
    term: &Term,
) -> Result<Option<Term>, NoMemory>
    ensures { IfOk result (λ o. o ≡ kept_instance (zip names.now terms.now) term.now) }
{
    match count(names, terms, term, 0) {
        None => Ok(None),
        Some(_) => {
            let pairs = Subst(pairs_kept(alloc, names, terms)?);
            Ok(Some(subst(alloc, term, &pairs)?))
        }
    }
}

/// A term with one variable replaced, where the term is kept.
fn replaced(
    alloc: Global,
    name: &Symbol,
    kept: &Option<Term>,
    term: Option<Term>,
) -> Result<Option<Term>, NoMemory>
    ensures { IfOk result (λ o. o ≡ in_turn_by (name.now, kept.now) term) }
{
    match term {
        None => Ok(None),
        Some(term) => instance(alloc, from_ref(name), from_ref(kept), &term),
    }
}

/// A term with its variables replaced one after another, the last one first.
fn instance_in_turn(
    alloc: Global,
    names: &[Symbol],
    terms: &[Option<Term>],
    term: Term,
) -> Result<Option<Term>, NoMemory>
    requires { length names.now ≡ length terms.now }
    ensures { IfOk result (λ o. o ≡ kept_in_turn (zip names.now terms.now) term) }
{
    let mut left = names;
    let mut values = terms;
    let mut inner = Some(term);
    while let Some((name, rest)) = left.split_last() {
        let Some((kept, more)) = values.split_last() else {
            return Ok(None);
        };
        inner = replaced(alloc, name, kept, inner)?;
        left = rest;
        values = more;
    }
    Ok(inner)
}

/// The body of a `let` or a `lambda` with its variables replaced, or of a `let*`, one after another.
pub(crate) fn body_replaced(
    alloc: Global,
    in_turn: bool,
    names: Seq<Symbol>,
    terms: Seq<Option<Term>>,
    body: Option<Term>,
) -> Result<Option<Term>, NoMemory>
    requires { length names ≡ length terms }
    ensures { IfOk result (λ o. o ≡ kept_by (kept_either in_turn (zip names terms)) body) }
{
    let Some(body) = body else {
        return Ok(None);
    };
    if in_turn {
        instance_in_turn(alloc, names.as_slice(), terms.as_slice(), body)
    } else {
        instance(alloc, names.as_slice(), terms.as_slice(), &body)
    }
}
