//! The tests of the libraries that stand on no world: lists, values, outside, tokens, names, forms, terms, banks,
//! printing, walks, attempts, words, certificates and a book's course, the last over an admitter that numbers the forms
//! which it is handed. They stand above the libraries, so that none of these is proved a second time for its tests.
#![tactic(auto)]

#[cfg(test)]
mod attempts;
#[cfg(test)]
mod banks;
#[cfg(test)]
mod books;
#[cfg(test)]
mod deep;
#[cfg(test)]
mod expect;
#[cfg(test)]
mod lists;
#[cfg(test)]
mod names;
#[cfg(test)]
mod numbering;
#[cfg(test)]
mod outside;
#[cfg(test)]
mod planning;
#[cfg(test)]
mod printing;
#[cfg(test)]
mod reading;
#[cfg(test)]
mod refused;
#[cfg(test)]
mod round_trip;
#[cfg(test)]
mod terms;
#[cfg(test)]
mod texts;
#[cfg(test)]
mod tokens;
#[cfg(test)]
mod values;
#[cfg(test)]
mod walks;
#[cfg(test)]
mod words;
