use ap_list::Seq;
use ap_term::Term;
use ap_value::Value;
use std::alloc::AllocError;

/// Why a term has no value here: an integer left 128 bits, at this call of these argument values; the
/// units ran out; a value passed 4,096 nodes; or memory is wanting.
#[derive(Debug, Drop)]
pub enum EvalStop {
    Wide { call: Term, values: Seq<Value> },
    Spent,
    Large,
    NoMemory,
}

impl From<AllocError> for EvalStop {
    ghost use Rattle.std.specs.Prelude.{◌≡◌};
    ghost use Rattle.ap_eval.specs.declared.stop.EvalStop.TheVariants.{NoMemory};

    ghost from_gives = { λ _ e. e ≡ NoMemory };

    fn from(_error: AllocError) -> EvalStop {
        EvalStop::NoMemory
    }
}
