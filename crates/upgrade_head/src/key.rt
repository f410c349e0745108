//! The key that a client offers, and the value that answers it (RFC 6455, sections 4.1 and 4.2.2).

ghost use Rattle.std.specs.Prelude.{◌≡◌, codes, length, option_copied, IsTrue};
ghost use Rattle.std.specs.List.{list_all};
ghost use Rattle.std.specs.Str.{bytes_eq};
ghost use Rattle.upgrade_head.specs.Key.{is_base64, is_key, key_of, accept_text};
ghost use Rattle.upgrade_head.specs.View.{fields_seen};

use crate::field::Fields;
use base64::engine::general_purpose::STANDARD;
use sha1::Sha1;

fn is_base64(octet: u8) -> bool
    ensures { result ≡ is_base64 octet }
{
    octet.is_ascii_alphanumeric() || octet == b'+' || octet == b'/'
}

fn all_base64(part: &[u8]) -> bool
    ensures { result ≡ list_all is_base64 part.now }
{
    part.iter().all(|octet| is_base64(*octet))
}

fn is_padding(part: &[u8]) -> bool
    ensures { result ≡ bytes_eq part.now (codes "==") }
{
    part == b"==".as_slice()
}

fn is_key(value: &[u8]) -> bool
    ensures value { result ≡ is_key value.now }
    ensures size { IsTrue result → length value.now ≡ 24 }
{
    if value.len() != 24 {
        return false;
    }
    all_base64(&value[..22]) && is_padding(&value[22..])
}

/// The key of a head with these fields: the value of the only field `Sec-WebSocket-Key`, if that is a key.
pub(crate) fn key_of<'h>(fields: Fields<'h>) -> Option<&'h [u8; 24]>
    ensures { option_copied result ≡ key_of (fields_seen fields.entry) }
{
    let value = fields.only_value(b"Sec-WebSocket-Key")?;
    if !is_key(value) {
        return None;
    }
    value.first_chunk::<24>()
}

/// The value of the field `Sec-WebSocket-Accept` that answers a key of 24 characters, whatever they are (RFC 6455,
/// section 4.2.2): the base64 of the SHA-1 of the key followed by the standard's fixed text.
pub fn accept_of(key: &[u8; 24]) -> [u8; 28]
    ensures { result ≡ accept_text key.now }
{
    let mut hasher = Sha1::new();
    hasher.update(key);
    hasher.update(b"258EAFA5-E914-47DA-95CA-C5AB0DC85B11");
    let digest = hasher.finalize();
    let mut accept = [0u8; 28];
    // 20 octets are written by 28 characters.
    STANDARD.encode_slice(&digest, &mut accept).unwrap();
    accept
}
