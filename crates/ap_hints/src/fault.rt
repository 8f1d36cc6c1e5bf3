use std::alloc::AllocError;

/// Why hints are refused: a goal's name that is none; a keyword that no hint has, or whose value isn't of its shape; a name
/// or a rune of a theory that isn't known; a theorem that isn't known, a variable that isn't the theorem's, or a term that
/// isn't one; a goal or a keyword given twice; or memory is wanting.
#[derive(Clone, Copy, Debug)]
pub enum HintError {
    BadGoalName,
    UnknownKeyword,
    UnknownRune,
    BadInstance,
    Repeated,
    NoMemory,
}

impl From<AllocError> for HintError {
    ghost use Rattle.std.specs.Prelude.{◌≡◌};
    ghost use Rattle.ap_hints.specs.declared.fault.HintError.TheVariants.{NoMemory};

    ghost from_gives = { λ _ e. e ≡ NoMemory };

    fn from(_error: AllocError) -> HintError {
        HintError::NoMemory
    }
}
