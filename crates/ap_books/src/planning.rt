//! The books that words name.
ghost use Rattle.std.specs.Prelude.{◌≡◌, ◌≢◌, Ok, Err, OnOk, IfOk, IfErr, map, string_bytes};
ghost use Rattle.std.specs.List.{list_any};
ghost use Rattle.ap_value.specs.Values.{bytes_eq};
ghost use Rattle.ap_books.specs.Plan.{one_more, plan_of};
ghost use Rattle.ap_books.specs.declared.planning.PlanError.TheVariants as errors;

use ap_cert::is_book_name;
use ap_list::{Bytes, Seq};
use ap_value::BookName;
use std::alloc::{AllocError, Global};

/// Why words name no books, with the word at which that shows.
#[derive(Debug, Drop)]
pub enum PlanError {
    /// The word stands already.
    Twice(Bytes),
    /// It is the 65th.
    TooMany(Bytes),
    /// It isn't a book's name.
    BadName(Bytes),
    NoMemory,
}

impl From<AllocError> for PlanError {
    ghost use Rattle.std.specs.Prelude.{◌≡◌};
    ghost use Rattle.ap_books.specs.declared.planning.PlanError.TheVariants.{NoMemory};

    ghost from_gives = { λ _ e. e ≡ NoMemory };

    fn from(_error: AllocError) -> PlanError {
        PlanError::NoMemory
    }
}

/// Whether a word is among names.
fn is_among(word: &[u8], names: &[BookName]) -> bool
    ensures { result ≡ list_any (λ n. bytes_eq n.0 word.now) names.now }
{
    names.iter().any(|name| name.0.as_slice() == word)
}

/// One word more behind names, which stay as they are where it is refused.
fn add(alloc: Global, names: &mut Seq<BookName>, word: &[u8]) -> Result<(), PlanError>
    ensures ok { OnOk result (one_more names.old word.now ≡ Ok names.new) }
    ensures refused { IfErr result (λ e. e ≢ errors.NoMemory → one_more names.old word.now ≡ Err e) }
{
    if !is_book_name(word) {
        return Err(PlanError::BadName(Bytes::from_slice(alloc, word)?));
    }
    if is_among(word, names.as_slice()) {
        return Err(PlanError::Twice(Bytes::from_slice(alloc, word)?));
    }
    if names.len() >= 64 {
        return Err(PlanError::TooMany(Bytes::from_slice(alloc, word)?));
    }
    names.push(BookName(Bytes::from_slice(alloc, word)?))?;
    Ok(())
}

/// The books that words name, in order: each word is a book's name, none stands twice, and there are at most 64.
/// Else the first word that isn't a name, stands already, or is the 65th, with what of these it is.
pub fn plan(alloc: Global, words: &[String]) -> Result<Seq<BookName>, PlanError>
    ensures ok { IfOk result (λ names. plan_of (map string_bytes words.now) ≡ Ok names) }
    ensures refused { IfErr result (λ e. e ≢ errors.NoMemory → plan_of (map string_bytes words.now) ≡ Err e) }
{
    let mut names = Seq::new(alloc);
    for word in words {
        add(alloc, &mut names, word.as_bytes())?;
    }
    Ok(names)
}
