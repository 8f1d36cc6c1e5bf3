// What the parts of a term spend.
ghost use Rattle.std.specs.Prelude.{◌≡◌, ◌+◌, ◌<◌, nat_lt, MatchBool, OnOk};
ghost use Rattle.ap_value.specs.Counts.{node_count};
ghost use Rattle.ap_world.specs.Units.{most_nodes, charged, found_at, settled, prim_value};
ghost use Rattle.ap_eval.specs.Answers.{Answers, assigned};

use crate::bindings::{Bindings, value_in};
use crate::kinds::nil_value;
use crate::primitives::applied;
use crate::stop::EvalStop;
use ap_list::Seq;
use ap_term::{Term, copy_term};
use ap_value::{Symbol, Value, copy, nodes};
use ap_world::Primitive;
use std::alloc::Global;

/// The most nodes of a value.
const MOST_NODES: u64 = 4096;

/// Whether a value has too many nodes.
#[tactic(auto, unfolding(ap_world::specs::Units::most_nodes))]
fn is_large(v: &Value) -> bool
    ensures { result ≡ nat_lt most_nodes (node_count v.now) }
{
    match nodes(v) {
        Some(count) => count > MOST_NODES,
        None => true,
    }
}

/// Spends a value's nodes.
fn spend(v: &Value, units: &mut u32) -> bool
    ensures { MatchBool result (units.new + node_count v.now ≡ units.old) ((units.old < node_count v.now) × (units.new ≡ units.old)) }
{
    let limit = u64::from(*units);
    match nodes(v) {
        Some(count) => {
            if count > limit {
                return false;
            }
            *units -= count as u32;
            true
        }
        None => false,
    }
}

/// A variable's or a constant's value, which spends its nodes.
pub(crate) fn charge(alloc: Global, v: &Value, units: &mut u32) -> Result<Value, EvalStop>
    ensures is { Answers result units.new (charged v.now units.old) }
    ensures left { OnOk result (units.new < units.old) }
{
    if !spend(v, units) {
        return Err(EvalStop::Spent);
    }
    if is_large(v) {
        return Err(EvalStop::Large);
    }
    Ok(copy(alloc, v)?)
}

/// A variable's value, which spends its nodes.
pub(crate) fn charge_variable(
    alloc: Global,
    bindings: &Bindings<'_>,
    x: &Symbol,
    units: &mut u32,
) -> Result<Value, EvalStop>
    ensures is { Answers result units.new (charged (found_at (assigned bindings.now) x.now) units.old) }
    ensures left { OnOk result (units.new < units.old) }
{
    match value_in(bindings, x) {
        Some(value) => charge(alloc, value, units),
        None => {
            let value = nil_value();
            charge(alloc, &value, units)
        }
    }
}

/// A primitive's answer at its call.
pub(crate) fn settle(
    alloc: Global,
    call: &Term,
    p: Primitive,
    values: Seq<Value>,
    units: u32,
) -> Result<Value, EvalStop>
    ensures { Answers result units (settled call.now values (prim_value p values) units) }
{
    match applied(alloc, p, values.as_slice())? {
        None => {
            let call = copy_term(alloc, call)?;
            Err(EvalStop::Wide { call, values })
        }
        Some(value) if is_large(&value) => Err(EvalStop::Large),
        Some(value) => Ok(value),
    }
}
