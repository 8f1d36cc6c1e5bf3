//! The word of a family of siblings, by which workers tell one another that the serial walk has stopped
//! (Rager, Hunt and Kaufmann, ITP 2013): one atomic number for each family, which only falls, and falls only
//! to places by which the family's walk truly stops. So a number that is seen is such a place, whoever wrote
//! it, and whenever.
#![tactic(auto)]

mod family;
mod laws;
mod making;
mod steps;
mod word;

pub use ap_list::NoMemory;
pub use family::{Counted, Family, Numbers, Tallies, View};
pub use laws::families_stop;
pub use making::new_family;
pub use word::{FamilyWord, WordSeat};
