//! How octets end: with a whole character, within one, or with octets that no character has.

ghost use Rattle.std.specs.Prelude.{◌≡◌, ℕ, ◌+◌, ◌<◌, ◌≤◌, true, false, length, take, IsUtf8, MatchOption, slice_index};
ghost use Rattle.utf8_stream.specs.Unfinished.{IsWholeUpTo};
ghost use Rattle.wire_meaning.specs.Text.{is_text_front};

use simdutf8::compat::from_utf8;
use simdutf8::is_utf8;

/// How many octets stand before the character that has not ended. None where no continuation is UTF-8.
pub fn whole_len(octets: &[u8]) -> Option<usize>
    ensures { MatchOption result (is_text_front octets.now ≡ false) (λ len. IsWholeUpTo octets.now len) }
{
    match from_utf8(octets) {
        Ok(_) => Some(octets.len()),
        Err(error) => match error.error_len() {
            None => Some(error.valid_up_to()),
            Some(_) => None,
        },
    }
}

/// Where the last octet stands that begins a character of two octets or more.
fn last_lead(octets: &[u8]) -> Option<usize>
    ensures { MatchOption result
        ((at : ℕ) → at < length octets.now → slice_index octets.now at < 192)
        (λ lead. (lead < length octets.now) × (192 ≤ slice_index octets.now lead)
        × ((at : ℕ) → lead < at → at < length octets.now → slice_index octets.now at < 192)) }
{
    octets.iter().rposition(|&octet| octet >= 0xc0)
}

/// Where the last character begins, if it begins among the last three octets, and their end if it does not.
fn last_start(octets: &[u8]) -> usize
    ensures within { result ≤ length octets.now }
    ensures near { length octets.now ≤ result + 3 }
    ensures whole { is_text_front octets.now ≡ true → IsUtf8 (take result octets.now) }
{
    let near = octets.len().saturating_sub(3);
    match last_lead(&octets[near..]) {
        Some(at) => near + at,
        None => octets.len(),
    }
}

/// As `whole_len`, but all octets before the last character are checked by vectors, also where the octets end within it. The
/// octets of the last character, where it begins among the last three, are checked by `whole_len`.
pub fn long_whole_len(octets: &[u8]) -> Option<usize>
    ensures { MatchOption result (is_text_front octets.now ≡ false) (λ len. IsWholeUpTo octets.now len) }
{
    let start = last_start(octets);
    if !is_utf8(&octets[..start]) {
        return None;
    }
    let rest = whole_len(&octets[start..])?;
    Some(start + rest)
}
