//! Taking the mask off a payload (RFC 6455, section 5.3).

ghost use Rattle.std.specs.Prelude.{◌≡◌, ◌<◌};
ghost use Rattle.wire_meaning.specs.Mask.{unmasked};

/// Takes the mask off the octets, the first of which stands at this place of the payload, counted modulo 4.
pub(crate) fn unmask(octets: &mut [u8], key: [u8; 4], place: usize)
    requires { place < 4 }
    ensures { octets.new ≡ unmasked key place octets.old }
{
    let mut at = place;
    for octet in octets.iter_mut() {
        *octet ^= key[at];
        at = (at + 1) % 4;
    }
}
