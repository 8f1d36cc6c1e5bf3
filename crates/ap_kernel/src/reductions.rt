ghost use Rattle.std.specs.Prelude.{◌≡◌};

use crate::derivations::{Derivation, let_go};
use ap_list::{Seq, Shared};
use ap_term::Clause;

/// What a reduction says: the clause `from` is valid where all clauses of `to` are. Anyone can write one
/// down; that it follows is what a [`Reduction`] adds. How it was made shares the clause.
#[derive(Drop)]
pub struct Inference {
    pub from: Shared<Clause>,
    pub to: Seq<Clause>,
}

/// An inference that is right. The fields are private, so that the kernel's calls alone make one.
pub struct Reduction {
    says: Inference,
    /// How it was made.
    why: Shared<Derivation>,
}

// One call wherever a reduction is let go, and none within another for each row by which it was made.
impl Drop for Reduction {
    fn drop(self) {
        let Reduction { says: _says, why } = self;
        let_go(why);
    }
}

impl Reduction {
    /// Each row on a clause makes its answer by this call, having shown that it stands.
    pub(crate) fn made(from: Shared<Clause>, to: Seq<Clause>, why: Shared<Derivation>) -> Reduction
        ensures { result ≡ record { says = record { from = from; to = to }; why = why } }
    {
        Reduction {
            says: Inference { from, to },
            why,
        }
    }

    /// How it was made. Takes no memory.
    pub fn why(&self) -> &Shared<Derivation>
        ensures { result.now ≡ self.now.why }
    {
        &self.why
    }

    /// What it says and how it was made, moved. Takes no memory.
    pub(crate) fn into_made(self) -> (Inference, Shared<Derivation>)
        ensures { result ≡ record { 0 = self.says; 1 = self.why } }
    {
        let Reduction { says, why } = self;
        (says, why)
    }

    /// The parts of what it says, moved. Takes no memory.
    pub fn into_parts(self) -> (Shared<Clause>, Seq<Clause>)
        ensures { result ≡ record { 0 = self.says.from; 1 = self.says.to } }
    {
        let Reduction { says, why } = self;
        let_go(why);
        let Inference { from, to } = says;
        (from, to)
    }

    /// What it says, lent. Takes no memory.
    pub fn says(&self) -> &Inference
        ensures { result.now ≡ self.now.says }
    {
        &self.says
    }

    /// The clause that is reduced. Takes no memory.
    pub fn from(&self) -> &Clause
        ensures { result.now ≡ self.now.says.from }
    {
        self.says.from.get()
    }

    /// The clauses that it is reduced to. Takes no memory.
    pub fn to(&self) -> &Seq<Clause>
        ensures { result.now ≡ self.now.says.to }
    {
        &self.says.to
    }
}
