//! Words in the values of fields (RFC 9110, section 5.6.1).

ghost use Rattle.std.specs.Prelude.{◌≡◌};
ghost use Rattle.httparse.specs.Grammar.{is_ows, trim_ows};
ghost use Rattle.upgrade_head.specs.Word.{is_same, is_element, lists};

/// How the letters of two words are compared.
#[derive(Clone, Copy, Debug, PartialEq, Eq)]
pub(crate) enum Letters {
    /// Upper and lower case of an ASCII letter are the same.
    AnyCase,
    /// Each letter as it is written.
    AsWritten,
}

/// Whether two words are the same.
pub(crate) fn is_same(letters: Letters, word: &[u8], other: &[u8]) -> bool
    ensures { result ≡ is_same letters word.now other.now }
{
    match letters {
        Letters::AnyCase => word.eq_ignore_ascii_case(other),
        Letters::AsWritten => word == other,
    }
}

fn is_blank(octet: u8) -> bool
    ensures { result ≡ is_ows octet }
{
    octet == b' ' || octet == b'\t'
}

/// The octets without the spaces and tabs at their ends.
fn trimmed(octets: &[u8]) -> &[u8]
    ensures { result.now ≡ trim_ows octets.now }
{
    let mut start = 0;
    let mut end = octets.len();
    'front: while start < end && is_blank(octets[start]) {
        start += 1;
    }
    'back: while start < end && is_blank(octets[end - 1]) {
        end -= 1;
    }
    &octets[start..end]
}

fn is_element(letters: Letters, word: &[u8], part: &[u8]) -> bool
    ensures { result ≡ is_element letters word.now part.now }
{
    is_same(letters, trimmed(part), word)
}

/// Whether some element of the value is the word. Elements stand between commas, and spaces and tabs at their ends are
/// no part of them.
pub(crate) fn lists(letters: Letters, word: &[u8], value: &[u8]) -> bool
    ensures { result ≡ lists letters word.now value.now }
{
    let mut start = 0;
    for i in 0..value.len() {
        if value[i] == b',' {
            if is_element(letters, word, &value[start..i]) {
                return true;
            }
            start = i + 1;
        }
    }
    is_element(letters, word, &value[start..])
}
