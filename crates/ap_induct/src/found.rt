use ap_kernel::Reduction;
use ap_term::Term;

/// An induction: the call that it goes by, and what the clause is reduced to.
#[derive(Drop)]
pub struct Scheme {
    pub call: Term,
    pub reduction: Reduction,
}
