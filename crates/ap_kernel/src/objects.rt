ghost use Rattle.std.specs.Prelude.{◌≡◌, IfOk, true, false, None, Some};
ghost use Rattle.std.specs.Option.{option_copied};
ghost use Rattle.ap_kernel.specs.Answers.{is_unchanged, are_unchanged};
ghost use Rattle.ap_kernel.specs.Deriving.{why_of};

use crate::derivations::{Derivation, let_go, refl_why};
use ap_list::{NoMemory, Seq, Shared};
use ap_term::{Term, copy_term};
use std::alloc::Global;

/// A list of facts: each a term and whether it is assumed other than `nil` or to be `nil`. The list is
/// shared, so that each equivalence has its own facts at no cost.
#[derive(Drop)]
pub struct Ctx(pub Shared<Seq<(Term, bool)>>);

/// How the two sides of an equivalence agree: they are equal, or both `nil` or both not. See the manual's
/// topic `iff`.
#[derive(Clone, Copy, Debug)]
pub enum Mode {
    Equal,
    Iff,
}

/// What an equivalence says: under these facts the two sides mean the same, or are both `nil` or both not.
/// Anyone can write one down; that it holds is what an [`Equiv`] adds.
#[derive(Drop)]
pub struct Sequent {
    pub ctx: Ctx,
    pub mode: Mode,
    pub lhs: Term,
    pub rhs: Term,
}

/// A sequent that holds. The fields are private, so that the kernel's calls alone make one.
pub struct Equiv {
    says: Sequent,
    /// How it was made; nothing where the two sides are known to be one term.
    why: Option<Shared<Derivation>>,
}

// One call wherever an equivalence is let go, whatever its sides are; and none within another for each row by which it
// was made.
impl Drop for Equiv {
    fn drop(self) {
        let Equiv { says: _says, why } = self;
        if let Some(why) = why {
            let_go(why);
        }
    }
}

impl Ctx {
    /// These facts.
    pub fn new(alloc: Global, facts: Seq<(Term, bool)>) -> Result<Ctx, NoMemory>
        ensures { IfOk result (λ c. c.0 ≡ facts) }
    {
        Ok(Ctx(Shared::new(alloc, facts)?))
    }

    /// The facts, lent. Takes no memory.
    pub fn facts(&self) -> &[(Term, bool)]
        ensures { result.now ≡ self.now.0 }
    {
        self.0.get().as_slice()
    }

    /// The same list for one more owner: no fact is copied.
    pub fn share(&self) -> Result<Ctx, NoMemory>
        ensures { IfOk result (λ c. c ≡ self.now) }
    {
        Ok(Ctx(self.0.share()?))
    }
}

/// An equal equivalence, of which the terms and how it was made are shared. It takes no memory.
pub fn copy_equiv(alloc: Global, q: &Equiv) -> Result<Equiv, NoMemory>
    ensures { IfOk result (λ r. r ≡ q.now) }
{
    let why = match &q.why {
        Some(why) => Some(why.share()?),
        None => None,
    };
    let ctx = q.says.ctx.share()?;
    let lhs = copy_term(alloc, &q.says.lhs)?;
    let rhs = copy_term(alloc, &q.says.rhs)?;
    Ok(Equiv::made(ctx, q.says.mode, lhs, rhs, why))
}

impl Equiv {
    /// Each row makes its answer by this call, having shown that it stands. Where nothing is kept of how it was
    /// made, its sides are one term.
    pub(crate) fn made(
        ctx: Ctx,
        mode: Mode,
        lhs: Term,
        rhs: Term,
        why: Option<Shared<Derivation>>,
    ) -> Equiv
        ensures says { result.says ≡ record { ctx = ctx; mode = mode; lhs = lhs; rhs = rhs } }
        ensures why { result.why ≡ why }
    {
        Equiv {
            says: Sequent {
                ctx,
                mode,
                lhs,
                rhs,
            },
            why,
        }
    }

    /// The same from a term to itself, which is known of it: one side is moved, the other a copy.
    pub(crate) fn of_one(alloc: Global, ctx: Ctx, mode: Mode, t: Term) -> Result<Equiv, NoMemory>
        ensures says { IfOk result (λ q. q.says ≡ record { ctx = ctx; mode = mode; lhs = t; rhs = t }) }
        ensures why { IfOk result (λ q. q.why ≡ None) }
    {
        let rhs = copy_term(alloc, &t)?;
        let answer = Equiv::made(ctx, mode, t, rhs, None);
        Ok(answer)
    }

    /// The same from a copy of a term, under facts that are shared.
    pub(crate) fn from_copy(
        alloc: Global,
        ctx: &Ctx,
        mode: Mode,
        t: &Term,
        rhs: Term,
        why: Shared<Derivation>,
    ) -> Result<Equiv, NoMemory>
        ensures says { IfOk result (λ q. q.says ≡ record { ctx = ctx.now; mode = mode; lhs = t.now; rhs = rhs }) }
        ensures why { IfOk result (λ q. q.why ≡ Some why) }
    {
        let ctx = ctx.share()?;
        let lhs = copy_term(alloc, t)?;
        Ok(Equiv::made(ctx, mode, lhs, rhs, Some(why)))
    }

    /// What it says and how it was made, moved. It takes memory only where nothing is kept of that.
    pub(crate) fn into_made(self, alloc: Global) -> Result<(Sequent, Shared<Derivation>), NoMemory>
        ensures { IfOk result (λ p. (p.0 ≡ self.says) × (p.1 ≡ why_of self)) }
    {
        let Equiv { says, why } = self;
        let why = match why {
            Some(why) => why,
            None => refl_why(alloc, &says.ctx, says.mode, &says.lhs)?,
        };
        Ok((says, why))
    }

    /// What it says, moved. Takes no memory.
    pub fn into_sequent(self) -> Sequent
        ensures { result ≡ self.says }
    {
        let Equiv { says, why } = self;
        if let Some(why) = why {
            let_go(why);
        }
        says
    }

    /// The parts of what it says, moved. Takes no memory.
    pub fn into_parts(self) -> (Ctx, Mode, Term, Term)
        ensures { result ≡ record { 0 = self.says.ctx; 1 = self.says.mode; 2 = self.says.lhs; 3 = self.says.rhs } }
    {
        let Sequent {
            ctx,
            mode,
            lhs,
            rhs,
        } = self.into_sequent();
        (ctx, mode, lhs, rhs)
    }

    /// What it says, lent. Takes no memory.
    pub fn says(&self) -> &Sequent
        ensures { result.now ≡ self.now.says }
    {
        &self.says
    }

    /// Whether the two sides are known to be one term. Takes no memory.
    pub fn is_unchanged(&self) -> bool
        ensures { result ≡ is_unchanged self.now }
    {
        self.why.is_none()
    }

    /// Whether that is known of each of a list. Takes no memory.
    pub fn are_unchanged(list: &[Equiv]) -> bool
        ensures { result ≡ are_unchanged list.now }
    {
        for q in list {
            if !q.is_unchanged() {
                return false;
            }
        }
        true
    }

    /// How it was made, where that is kept. Takes no memory.
    pub fn why(&self) -> Option<&Shared<Derivation>>
        ensures { option_copied result ≡ self.now.why }
    {
        self.why.as_ref()
    }

    /// The facts. Takes no memory.
    pub fn ctx(&self) -> &Ctx
        ensures { result.now ≡ self.now.says.ctx }
    {
        &self.says.ctx
    }

    /// How the sides agree. Takes no memory.
    pub fn mode(&self) -> Mode
        ensures { result ≡ self.now.says.mode }
    {
        self.says.mode
    }

    /// The left side. Takes no memory.
    pub fn lhs(&self) -> &Term
        ensures { result.now ≡ self.now.says.lhs }
    {
        &self.says.lhs
    }

    /// The right side. Takes no memory.
    pub fn rhs(&self) -> &Term
        ensures { result.now ≡ self.now.says.rhs }
    {
        &self.says.rhs
    }
}
