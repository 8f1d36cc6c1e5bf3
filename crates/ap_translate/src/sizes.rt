ghost use Rattle.std.specs.Prelude.{◌≡◌, ◌+◌, ◌≤◌, ◌<◌, [], ◌∷◌, ◌++◌, IfOk, IfSome, IfNone};
ghost use Rattle.ap_value.specs.Counts.{node_count};
ghost use Rattle.ap_term.specs.Terms.{term_size};
ghost use Rattle.ap_translate.specs.Sizes.{small, small_value, few, few_values, more_by, weight, row_terms, IsCounted, list_values, AreCounted};

use ap_list::{NoMemory, Seq};
use ap_term::{Term, size};
use ap_value::{Value, nodes};
use std::alloc::Global;

/// The most nodes that a term or a constant may have.
pub(crate) const MOST_NODES: u64 = 4096;

/// A term, where it has at most 4,096 nodes.
pub(crate) fn small(term: Term) -> Option<Term>
    ensures { result ≡ small term }
{
    match size(&term) {
        Some(count) if count <= MOST_NODES => Some(term),
        _ => None,
    }
}

/// Terms, and the number of their nodes.
#[derive(Drop)]
pub(crate) struct Row {
    pub(crate) terms: Seq<Term>,
    pub(crate) nodes: u64,
}

/// No terms.
pub(crate) fn no_terms(alloc: Global) -> Row
    ensures none { result.terms ≡ [] }
    ensures counted { IsCounted result }
{
    Row {
        terms: Seq::new(alloc),
        nodes: 0,
    }
}

/// The number of a term's nodes and so many more, where they are at most 4,096.
pub(crate) fn more_nodes(nodes: u64, term: &Term) -> Option<u64>
    requires { nodes ≤ 4096 }
    ensures some { IfSome result (λ n. n ≡ nodes + term_size term.now) }
    ensures low { IfSome result (λ n. n ≤ 4096) }
    ensures past { IfNone result (4096 < nodes + term_size term.now) }
{
    match size(term) {
        Some(more) if more <= MOST_NODES && nodes + more <= MOST_NODES => Some(nodes + more),
        _ => None,
    }
}

/// One term more, where they have at most 4,096 nodes together.
pub(crate) fn add_term(row: Option<Row>, next: Option<Term>) -> Result<Option<Row>, NoMemory>
    requires { IfSome row IsCounted }
    ensures value { IfOk result (λ o. row_terms o ≡ more_by term_size (row_terms row) next) }
    ensures counted { IfOk result (λ o. IfSome o IsCounted) }
{
    let (Some(row), Some(next)) = (row, next) else {
        return Ok(None);
    };
    push_term(row, next)
}

/// One term more, where they have at most 4,096 nodes together.
fn push_term(row: Row, next: Term) -> Result<Option<Row>, NoMemory>
    requires { IsCounted row }
    ensures value { IfOk result (λ o. row_terms o ≡ few (row.terms ++ next ∷ [])) }
    ensures counted { IfOk result (λ o. IfSome o IsCounted) }
{
    let Row { mut terms, nodes } = row;
    match more_nodes(nodes, &next) {
        None => Ok(None),
        Some(nodes) => {
            terms.push(next)?;
            Ok(Some(Row { terms, nodes }))
        }
    }
}

/// The terms alone.
pub(crate) fn terms_of(row: Option<Row>) -> Option<Seq<Term>>
    ensures { result ≡ row_terms row }
{
    match row {
        Some(row) => Some(row.terms),
        None => None,
    }
}

/// Values, and the number of nodes of a list of them without its end.
#[derive(Drop)]
pub(crate) struct Values {
    pub(crate) values: Seq<Value>,
    pub(crate) nodes: u64,
}

/// No values.
pub(crate) fn no_values(alloc: Global) -> Values
    ensures none { result.values ≡ [] }
    ensures counted { AreCounted result }
{
    Values {
        values: Seq::new(alloc),
        nodes: 0,
    }
}

/// The number of nodes of a list with one value more, where they are at most 4,096.
fn more_values(count: u64, value: &Value) -> Option<u64>
    requires { count ≤ 4096 }
    ensures some { IfSome result (λ n. n ≡ count + weight value.now) }
    ensures low { IfSome result (λ n. n ≤ 4096) }
    ensures past { IfNone result (4096 < count + weight value.now) }
{
    match nodes(value) {
        Some(more) if more < MOST_NODES && count + more < MOST_NODES => Some(count + more + 1),
        _ => None,
    }
}

/// One value more, where the list has at most 4,096 nodes without its end.
pub(crate) fn add_value(
    list: Option<Values>,
    next: Option<Value>,
) -> Result<Option<Values>, NoMemory>
    requires { IfSome list AreCounted }
    ensures value { IfOk result (λ o. list_values o ≡ more_by weight (list_values list) next) }
    ensures counted { IfOk result (λ o. IfSome o AreCounted) }
{
    let (Some(list), Some(next)) = (list, next) else {
        return Ok(None);
    };
    push_value(list, next)
}

/// One value more, where the list has at most 4,096 nodes without its end.
fn push_value(list: Values, next: Value) -> Result<Option<Values>, NoMemory>
    requires { AreCounted list }
    ensures value { IfOk result (λ o. list_values o ≡ few_values (list.values ++ next ∷ [])) }
    ensures counted { IfOk result (λ o. IfSome o AreCounted) }
{
    let Values { mut values, nodes } = list;
    match more_values(nodes, &next) {
        None => Ok(None),
        Some(nodes) => {
            values.push(next)?;
            Ok(Some(Values { values, nodes }))
        }
    }
}

/// A value, where it has at most 4,096 nodes.
pub(crate) fn small_value(value: Value) -> Option<Value>
    ensures { result ≡ small_value value }
{
    match nodes(&value) {
        Some(count) if count <= MOST_NODES => Some(value),
        _ => None,
    }
}
