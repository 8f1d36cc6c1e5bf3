// Running terms, one step after another.
ghost use Rattle.std.specs.Prelude.{◌≡◌, ◌+◌, ◌*◌, ◌<◌, ◌≤◌, ℕ, [], ◌∷◌, map, length, IsTrue, IfOk};
ghost use Rattle.ap_value.specs.Values.{val_of};
ghost use Rattle.ap_world.specs.Primitives.{prim_of};
ghost use Rattle.ap_world.specs.Meaning.{HasValue};
ghost use Rattle.ap_world.specs.Sound.{known};
ghost use Rattle.ap_world.specs.World.{function_of};
ghost use Rattle.ap_world.specs.Units.{gives, charged, found_at, is_choice, chosen, head_run, run, calls_run, metered, meant_by};
ghost use Rattle.ap_eval.specs.Answers.{Answers, assigned};
ghost use Rattle.ap_eval.specs.Machine.{point, ready, called, through, resumed, whole, Follows, weight};

use crate::bindings::{Bindings, Env};
use crate::kinds::is_nil;
use crate::machine::{Frame, Machine, State, Task};
use crate::spending::{charge, charge_variable, settle};
use crate::stop::EvalStop;
use ap_list::Seq;
use ap_term::{Shape, Term};
use ap_value::{Symbol, Value};
use ap_world::{Primitive, World, primitive_of};
use std::alloc::Global;

/// Whether a primitive is `if`.
fn is_if(p: Primitive) -> bool
    ensures { result ≡ is_choice p }
{
    matches!(p, Primitive::If)
}

/// Runs the body of a defined function at arguments.
fn enter_body<'a>(
    w: &'a World,
    f: &Symbol,
    values: Seq<Value>,
    machine: Machine<'a>,
) -> Result<State<'a>, EvalStop>
    ensures follows { Follows (function_of w.now.entries) machine.entry.frames (point machine.entry (calls_run machine.entry.depth (function_of w.now.entries) f.now values machine.entry.units)) result }
    ensures falls { IfOk result (λ s. weight s ≤ 3 * machine.entry.units + (length machine.entry.frames + 1)) }
{
    let Machine {
        mut frames,
        bindings,
        depth,
        units,
    } = machine;
    if depth == 0 {
        return Err(EvalStop::Spent);
    }
    match w.lookup_fun(f) {
        Some(function) if function.formals.len() == values.len() => {
            frames.push(Frame::Body(bindings, depth))?;
            let bindings = Bindings::Bound(function.formals.as_slice(), values);
            let machine = Machine {
                frames,
                bindings,
                depth: depth - 1,
                units,
            };
            Ok(State {
                machine,
                task: Task::Run(&function.body),
            })
        }
        _ => Err(EvalStop::Spent),
    }
}

/// Gives a call whose arguments have their values.
fn finish<'a>(
    alloc: Global,
    w: &'a World,
    call: &Term,
    f: &Symbol,
    values: Seq<Value>,
    machine: Machine<'a>,
) -> Result<State<'a>, EvalStop>
    ensures follows { Follows (function_of w.now.entries) machine.entry.frames (point machine.entry (ready (calls_run machine.entry.depth (function_of w.now.entries)) call.now f.now (prim_of f.now) values machine.entry.units)) result }
    ensures falls { IfOk result (λ s. weight s ≤ 3 * machine.entry.units + (length machine.entry.frames + 1)) }
{
    match primitive_of(f) {
        Some(p) => {
            let value = settle(alloc, call, p, values, machine.units)?;
            Ok(State {
                machine,
                task: Task::Back(value),
            })
        }
        None => enter_body(w, f, values, machine),
    }
}

/// Runs the next argument of a call, if there is one.
fn next_argument<'a>(
    alloc: Global,
    w: &'a World,
    call: &'a Term,
    f: &'a Symbol,
    terms: &'a [Term],
    values: Seq<Value>,
    machine: Machine<'a>,
) -> Result<State<'a>, EvalStop>
    ensures follows { Follows (function_of w.now.entries) machine.entry.frames (point machine.entry (called (calls_run machine.entry.depth (function_of w.now.entries)) call.now f.now terms.now values (assigned machine.entry.bindings) machine.entry.units)) result }
    ensures falls { IfOk result (λ s. weight s ≤ 3 * machine.entry.units + (length machine.entry.frames + 1)) }
{
    match terms {
        [] => finish(alloc, w, call, f, values, machine),
        [first, rest @ ..] => {
            let mut machine = machine;
            machine.frames.push(Frame::Argument(call, f, rest, values))?;
            Ok(State {
                machine,
                task: Task::Run(first),
            })
        }
    }
}

/// Runs the test of an `if`: its branches wait.
fn enter_if<'a>(terms: &'a [Term], machine: Machine<'a>, w: &World) -> Result<State<'a>, EvalStop>
    ensures follows { Follows (function_of w.now.entries) machine.entry.frames (point machine.entry (chosen (map (run (calls_run machine.entry.depth (function_of w.now.entries))) terms.now) (assigned machine.entry.bindings) machine.entry.units)) result }
    ensures falls { IfOk result (λ s. weight s ≤ 3 * machine.entry.units + (length machine.entry.frames + 1)) }
{
    match terms {
        [test, yes, no] => {
            let mut machine = machine;
            machine.frames.push(Frame::Test(yes, no))?;
            Ok(State {
                machine,
                task: Task::Run(test),
            })
        }
        _ => Err(EvalStop::Spent),
    }
}

/// Runs a call that is entered.
fn enter_call<'a>(
    alloc: Global,
    w: &'a World,
    call: &'a Term,
    f: &'a Symbol,
    terms: &'a [Term],
    machine: Machine<'a>,
) -> Result<State<'a>, EvalStop>
    ensures follows { Follows (function_of w.now.entries) machine.entry.frames (point machine.entry (head_run (calls_run machine.entry.depth (function_of w.now.entries)) call.now f.now (prim_of f.now) (map (run (calls_run machine.entry.depth (function_of w.now.entries))) terms.now) (assigned machine.entry.bindings) machine.entry.units)) result }
    ensures falls { IfOk result (λ s. weight s ≤ 3 * machine.entry.units + (length machine.entry.frames + 1)) }
{
    match primitive_of(f) {
        Some(p) if is_if(p) => enter_if(terms, machine, w),
        _ => next_argument(alloc, w, call, f, terms, Seq::new(alloc), machine),
    }
}

/// Gives a variable's value.
fn enter_variable<'a>(
    alloc: Global,
    w: &'a World,
    x: &Symbol,
    machine: Machine<'a>,
) -> Result<State<'a>, EvalStop>
    ensures follows { Follows (function_of w.now.entries) machine.entry.frames (point machine.entry (charged (found_at (assigned machine.entry.bindings) x.now) machine.entry.units)) result }
    ensures falls { IfOk result (λ s. weight s < 3 * machine.entry.units + length machine.entry.frames) }
{
    let mut machine = machine;
    let mut units = machine.units;
    let value = charge_variable(alloc, &machine.bindings, x, &mut units)?;
    machine.units = units;
    Ok(State {
        machine,
        task: Task::Back(value),
    })
}

/// Gives a constant's value.
fn enter_constant<'a>(
    alloc: Global,
    w: &'a World,
    v: &Value,
    machine: Machine<'a>,
) -> Result<State<'a>, EvalStop>
    ensures follows { Follows (function_of w.now.entries) machine.entry.frames (point machine.entry (charged v.now machine.entry.units)) result }
    ensures falls { IfOk result (λ s. weight s < 3 * machine.entry.units + length machine.entry.frames) }
{
    let mut machine = machine;
    let mut units = machine.units;
    let value = charge(alloc, v, &mut units)?;
    machine.units = units;
    Ok(State {
        machine,
        task: Task::Back(value),
    })
}

/// Runs a term.
#[tactic(auto, using(ap_term::proofs::Seen::trees))]
fn enter<'a>(
    alloc: Global,
    w: &'a World,
    t: &'a Term,
    machine: Machine<'a>,
) -> Result<State<'a>, EvalStop>
    ensures follows { Follows (function_of w.now.entries) machine.entry.frames (point machine.entry (run (calls_run machine.entry.depth (function_of w.now.entries)) t.now (assigned machine.entry.bindings) machine.entry.units)) result }
    ensures falls { IfOk result (λ s. weight s < 3 * machine.entry.units + length machine.entry.frames) }
{
    let mut machine = machine;
    match &t.shape {
        Shape::Var(x) => enter_variable(alloc, w, x, machine),
        Shape::Quote(v) => enter_constant(alloc, w, v, machine),
        Shape::Call(f, terms) => {
            if machine.units == 0 {
                return Err(EvalStop::Spent);
            }
            machine.units -= 1;
            enter_call(alloc, w, t, f, terms.as_slice(), machine)
        }
    }
}

/// Hands a value to the frame that awaits it.
fn go_on<'a>(
    alloc: Global,
    w: &'a World,
    frame: Frame<'a>,
    value: Value,
    machine: Machine<'a>,
) -> Result<State<'a>, EvalStop>
    ensures follows { Follows (function_of w.now.entries) machine.entry.frames (through (function_of w.now.entries) frame.entry (point machine.entry (gives value machine.entry.units))) result }
    ensures falls { IfOk result (λ s. weight s ≤ 3 * machine.entry.units + (length machine.entry.frames + 1)) }
{
    match frame {
        Frame::Test(yes, no) => {
            let branch = if is_nil(&value) { no } else { yes };
            Ok(State {
                machine,
                task: Task::Run(branch),
            })
        }
        Frame::Argument(call, f, rest, mut values) => {
            values.push(value)?;
            next_argument(alloc, w, call, f, rest, values, machine)
        }
        Frame::Body(bindings, depth) => {
            let Machine { frames, units, .. } = machine;
            let machine = Machine {
                frames,
                bindings,
                depth,
                units,
            };
            Ok(State {
                machine,
                task: Task::Back(value),
            })
        }
    }
}

/// Runs a state to its end.
fn run_state<'a>(alloc: Global, w: &'a World, start: State<'a>) -> Result<Value, EvalStop>
    ensures { (left : ℕ) × Answers result left (whole (function_of w.now.entries) start.entry) }
{
    let mut state = start;
    loop {
        let State { mut machine, task } = state;
        state = match task {
            Task::Run(t) => enter(alloc, w, t, machine)?,
            Task::Back(value) => match machine.frames.pop() {
                Some(frame) => go_on(alloc, w, frame, value, machine)?,
                None => return Ok(value),
            },
        };
    }
}

/// The value of a term under an assignment, each step in 128 bits and checked: ACL2's, on this fragment.
/// A call spends one unit as it is entered, a variable or a constant its value's nodes. Arguments are
/// taken from left to right, and of an `if` only the chosen branch.
///
/// Stops at the first part that has no value here: `Wide` exactly where an integer leaves 128 bits, with
/// the call and its argument values; `Spent` exactly where the units ran out; `Large` exactly where a
/// value passes 4,096 nodes, and a part of which both could be said is `Spent`.
pub fn eval<'a>(
    alloc: Global,
    w: &'a World,
    t: &'a Term,
    env: &'a Env,
    units: u32,
) -> Result<Value, EvalStop>
    requires { IsTrue (known (function_of w.now.entries) t.now) }
    ensures is { (left : ℕ) × Answers result left (metered (function_of w.now.entries) t.now env.now.0 units) }
    ensures meant { IfOk result (λ v. HasValue (function_of w.now.entries) t.now (meant_by env.now.0) (val_of v)) }
{
    let machine = Machine {
        frames: Seq::new(alloc),
        bindings: Bindings::Given(env),
        depth: units,
        units,
    };
    let task = Task::Run(t);
    run_state(alloc, w, State { machine, task })
}
