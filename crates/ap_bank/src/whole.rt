ghost use Rattle.ap_bank.specs.Whole.{whole_eq, whole_writes};
ghost use Rattle.ap_bank.specs.WholeLaws.{whole_equiv, whole_per, whole_alike};

use ap_term::{Term, same_term};
use std::hash::{Hash, Hasher};

/// A term that is found by the hash that it keeps: one number is hashed, and one term compared.
pub(crate) struct Whole {
    pub term: Term,
}

// One call wherever a term that is looked up is let go.
impl Drop for Whole {
    fn drop(self) {
        let Whole { term: _term } = self;
    }
}

impl PartialEq for Whole {
    ghost eq = { whole_eq };

    ghost laws = { whole_per };

    fn eq(&self, other: &Whole) -> bool {
        same_term(&self.term, &other.term)
    }
}

impl Eq for Whole {
    ghost laws = { whole_equiv };
}

impl Hash for Whole {
    ghost hash_input = { whole_writes };

    ghost respects_eq = { whole_alike };

    fn hash<H: Hasher>(&self, state: &mut H) {
        state.write_u64(self.term.hash());
    }
}
