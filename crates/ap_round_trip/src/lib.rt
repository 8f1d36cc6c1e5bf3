//! What is printed is read back: the law that ties the printed bytes of values to the grammar of forms.
#![tactic(auto)]

mod laws;

pub use laws::read_back;
