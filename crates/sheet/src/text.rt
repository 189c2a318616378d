// The bytes of a text, read from a place on.
ghost use Rattle.std.specs.Prelude.{◌≡◌, drop};
ghost use Rattle.sheet.specs.Text.{head, behind, behind_key};
ghost use Rattle.sheet.specs.program.Text.{rest_at};

use crate::fault::Fault;

// What was read, with the place behind it.
pub type Read<T> = Result<(T, usize), Fault>;

// At the end 0, which no sheet has.
pub fn byte_at(text: &[u8], i: usize) -> u8
    ensures { result ≡ head (drop i text.now) }
{
    if i < text.len() {
        return text[i];
    }
    0
}

// Behind a byte that must stand at the place.
pub fn behind(text: &[u8], at: usize, b: u8) -> Result<usize, Fault>
    ensures { rest_at text.now result ≡ behind b (drop at text.now) }
{
    if at < text.len() && text[at] == b {
        return Ok(at + 1);
    }
    Err(Fault::Malformed)
}

// Behind a key, all of which must stand at the place.
pub fn behind_key(text: &[u8], at: usize, key: &[u8]) -> Result<usize, Fault>
    ensures { rest_at text.now result ≡ behind_key key.now (drop at text.now) }
{
    let mut place = at;
    for &b in key {
        place = behind(text, place, b)?;
    }
    Ok(place)
}
