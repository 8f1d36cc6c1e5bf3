ghost use Rattle.std.specs.Prelude.{◌≡◌, ◌≢◌, ℕ, ◌<◌, List, OnOk, OnErr, OnSome, IfSome, Some, length, option_map};
ghost use Rattle.ap_outside.specs.Files.{bytes_at, place_of};

use ap_list::{Bytes, NoMemory};

/// The place of a name's first bytes.
#[tactic(auto, using(crate::proofs::Places::steps))]
fn place_of(files: &[(Bytes, Bytes)], name: &[u8]) -> Option<usize>
    ensures place { result ≡ place_of files.now name.now }
    ensures within { IfSome result (λ place. place < length files.now) }
{
    for (place, file) in files.iter().enumerate() {
        if name == file.0.as_slice() {
            return Some(place);
        }
    }
    None
}

/// The bytes at a name.
pub fn bytes_at<'a>(files: &'a [(Bytes, Bytes)], name: &[u8]) -> Option<&'a [u8]>
    ensures { option_map (λ bytes. bytes.now) result ≡ bytes_at files.now name.now }
{
    let place = place_of(files, name)?;
    Some(files[place].1.as_slice())
}

/// Puts bytes at a name, in place of its first bytes. Where memory is refused the files stay.
pub fn put_at(files: &mut Vec<(Bytes, Bytes)>, name: Bytes, bytes: Bytes) -> Result<(), NoMemory>
    ensures stored { OnOk result (bytes_at files.new.items name ≡ Some bytes) }
    ensures others { (other : List ℕ) → other ≢ name → bytes_at files.new.items other ≡ bytes_at files.old.items other }
    ensures err { OnErr result (files.new.items ≡ files.old.items) }
{
    match place_of(files.as_slice(), name.as_slice()) {
        Some(place) => files[place] = (name, bytes),
        None => files.push((name, bytes))?,
    }
    Ok(())
}
