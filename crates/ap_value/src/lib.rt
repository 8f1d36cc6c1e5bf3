//! The values of the universe: integers, characters of code 0 to 255, strings, symbols and conses,
//! with their equality, their counts and their copies. What they mean is ACL2's, on this fragment.
#![tactic(auto)]

mod symbol;
mod value;

pub use ap_list::{Boxed, Bytes, Fixed, NoMemory, Seq, Shared, Text};
pub use symbol::{
    BookName, Symbol, acl2, copy_bytes, copy_symbol, is_named, named, same_symbol, same_text,
};
pub use value::{Value, acl2_count, copy, equality_of_values, nodes, same};
