ghost use Rattle.std.specs.Prelude.{◌≡◌, false, map, length, IfOk};
ghost use Rattle.ap_reader.specs.Faults.{Gives, at_place};
ghost use Rattle.ap_reader.specs.Names.{plain, letters_of, is_plain, is_keyword, has_package, has_colon, package_of, HasRoom, named, symbol_by, symbol_of};

use crate::fault::{ReadError, ReadKind, fault_at};
use ap_value::{Bytes, NoMemory, Seq, Symbol, Text};
use std::alloc::Global;

/// A byte of a name, and whether a bar or a backslash escaped it.
#[derive(Clone, Copy, Debug, Drop)]
pub struct Letter {
    pub byte: u8,
    pub escaped: bool,
}

fn plain(bar: bool, byte: u8) -> Letter
    ensures { result ≡ plain bar byte }
{
    if bar {
        Letter {
            byte,
            escaped: true,
        }
    } else {
        Letter {
            byte: byte.to_ascii_uppercase(),
            escaped: false,
        }
    }
}

/// An atom's letters, without the bars and backslashes, and in upper case where nothing escapes them.
#[tactic(auto, using(crate::proofs::Steps::steps))]
fn letters(alloc: Global, text: &[u8]) -> Result<Seq<Letter>, NoMemory>
    ensures { IfOk result (λ ls. ls ≡ letters_of false false text.now) }
{
    let mut out = Seq::new(alloc);
    let (mut bar, mut escape, mut n) = (false, false, 0);
    while n < text.len() {
        let byte = text[n];
        n += 1;
        if escape {
            escape = false;
            out.push(Letter {
                byte,
                escaped: true,
            })?;
        } else if byte == b'\\' {
            escape = true;
        } else if byte == b'|' {
            bar = !bar;
        } else {
            out.push(plain(bar, byte))?;
        }
    }
    Ok(out)
}

fn is_plain(byte: u8, letter: Letter) -> bool
    ensures { result ≡ is_plain byte letter }
{
    letter.byte == byte && !letter.escaped
}

fn is_keyword(letters: &[Letter]) -> bool
    ensures { result ≡ is_keyword letters.now }
{
    match letters.split_first() {
        Some((letter, _)) => is_plain(b':', *letter),
        None => false,
    }
}

/// Whether a name begins with `ACL2::`.
fn has_package(letters: &[Letter]) -> bool
    ensures { result ≡ has_package letters.now }
{
    match letters {
        [a, b, c, d, e, f, ..] => is_plain(b'A', *a)
            && is_plain(b'C', *b)
            && is_plain(b'L', *c)
            && is_plain(b'2', *d)
            && is_plain(b':', *e)
            && is_plain(b':', *f),
        _ => false,
    }
}

#[tactic(auto, using(crate::proofs::Steps::steps))]
fn has_colon(letters: &[Letter]) -> bool
    ensures { result ≡ has_colon letters.now }
{
    for letter in letters {
        if is_plain(b':', *letter) {
            return true;
        }
    }
    false
}

/// What says the package of a name.
#[derive(Clone, Copy)]
pub enum Package {
    /// A `:` in first place.
    Keyword,
    /// `ACL2::` in first place.
    Named,
    /// Nothing: it is `ACL2`.
    Home,
}

fn package_at(letters: &[Letter]) -> Package
    ensures value { result ≡ package_of letters.now }
    ensures room { HasRoom (length letters.now) result }
{
    if is_keyword(letters) {
        Package::Keyword
    } else if has_package(letters) {
        Package::Named
    } else {
        Package::Home
    }
}

fn bytes_of(alloc: Global, letters: &[Letter]) -> Result<Bytes, NoMemory>
    ensures { IfOk result (λ bytes. bytes ≡ map (λ l. l.byte) letters.now) }
{
    let mut out = Seq::new(alloc);
    for letter in letters {
        out.push(letter.byte)?;
    }
    Ok(out)
}

fn name_from(
    alloc: Global,
    place: usize,
    keyword: bool,
    letters: &[Letter],
) -> Result<Symbol, ReadError>
    ensures { Gives (λ s. s) result (at_place place (named keyword letters.now)) }
{
    if has_colon(letters) {
        return Err(fault_at(place, ReadKind::BadPackage));
    }
    let name = Text::new(alloc, bytes_of(alloc, letters)?)?;
    Ok(Symbol { keyword, name })
}

fn symbol_from(alloc: Global, place: usize, letters: &[Letter]) -> Result<Symbol, ReadError>
    ensures { Gives (λ s. s) result (at_place place (symbol_by (package_of letters.now) letters.now)) }
{
    match package_at(letters) {
        Package::Keyword => name_from(alloc, place, true, &letters[1..]),
        Package::Named => name_from(alloc, place, false, &letters[6..]),
        Package::Home => name_from(alloc, place, false, letters),
    }
}

/// The symbol that an atom is. The manual's topic `packages` has the prefixes.
#[tactic(auto, unfolding(crate::specs::Names::symbol_of))]
pub(crate) fn symbol(alloc: Global, place: usize, text: &[u8]) -> Result<Symbol, ReadError>
    ensures { Gives (λ s. s) result (at_place place (symbol_of text.now)) }
{
    let letters = letters(alloc, text)?;
    symbol_from(alloc, place, letters.as_slice())
}
