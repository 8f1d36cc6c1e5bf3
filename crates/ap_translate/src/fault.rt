ghost use Rattle.std.specs.Prelude.{◌≡◌};
ghost use Rattle.ap_translate.specs.Answers.{number_of, error_of};

use std::alloc::AllocError;

/// Why a form is no term.
#[derive(Clone, Copy, Debug, PartialEq, Eq)]
pub enum TransKind {
    /// A head that is neither a macro nor a function, a variable that isn't bound, or a name between
    /// asterisks that is no constant.
    UnknownName,
    /// A call with another number of arguments.
    WrongArity,
    /// A macro with another shape, a head that is neither a symbol nor a `lambda`, or a backquote within a
    /// quote or a backquote.
    BadForm,
    /// A dotted form outside a quote.
    DottedForm,
    /// The term has more than 4,096 nodes.
    TermTooLarge,
    /// `t`, `nil`, a keyword, a name between asterisks or a repeated name in a place for a variable.
    NotAVariable,
    /// A comma outside a backquote.
    CommaOutside,
}

impl TransKind {
    /// The number by which a refusal prints the kind: 1 to 7, in the order of the variants.
    pub fn number(self) -> u32
        ensures { result ≡ number_of self }
    {
        match self {
            TransKind::UnknownName => 1,
            TransKind::WrongArity => 2,
            TransKind::BadForm => 3,
            TransKind::DottedForm => 4,
            TransKind::TermTooLarge => 5,
            TransKind::NotAVariable => 6,
            TransKind::CommaOutside => 7,
        }
    }
}

/// Why there is no term: a form is refused, at its place, or memory is wanting.
#[derive(Clone, Copy, Debug, PartialEq, Eq)]
pub enum TransError {
    Fault { place: usize, kind: TransKind },
    NoMemory,
}

impl From<AllocError> for TransError {
    ghost use Rattle.std.specs.Prelude.{◌≡◌};
    ghost use Rattle.ap_translate.specs.declared.fault.TransError.TheVariants.{NoMemory};

    ghost from_gives = { λ _ e. e ≡ NoMemory };

    fn from(_error: AllocError) -> TransError {
        TransError::NoMemory
    }
}

/// The refusal of this kind at this place.
pub(crate) fn refused_at(place: usize, kind: TransKind) -> TransError
    ensures { result ≡ error_of place kind }
{
    TransError::Fault { place, kind }
}
