// The evaluator's state: what runs, and the frames that await its value. They lie in a list, so that the
// program's own stack doesn't grow with the calls of a term.
use crate::bindings::Bindings;
use ap_list::Seq;
use ap_term::Term;
use ap_value::{Symbol, Value};

/// What a value is awaited for.
#[derive(Drop)]
pub(crate) enum Frame<'a> {
    /// The test of an `if`: its two branches.
    Test(&'a Term, &'a Term),
    /// An argument of a call: the call, its head, the arguments after this one, and the values of those
    /// before.
    Argument(&'a Term, &'a Symbol, &'a [Term], Seq<Value>),
    /// A function's body: the caller's variables, and how deep its calls may be nested.
    Body(Bindings<'a>, u32),
}

/// What runs: a term, or the frame that awaits a value.
#[derive(Drop)]
pub(crate) enum Task<'a> {
    Run(&'a Term),
    Back(Value),
}

/// The frames, the outermost first; the variables; how deep calls may be nested; the units left.
#[derive(Drop)]
pub(crate) struct Machine<'a> {
    pub(crate) frames: Seq<Frame<'a>>,
    pub(crate) bindings: Bindings<'a>,
    pub(crate) depth: u32,
    pub(crate) units: u32,
}

#[derive(Drop)]
pub(crate) struct State<'a> {
    pub(crate) machine: Machine<'a>,
    pub(crate) task: Task<'a>,
}
