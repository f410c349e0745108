//! The messages of the bus that are commands.

ghost use Rattle.std.specs.Prelude.{◌≡◌, ◌<◌, ◌+◌, ◌^◌, nat_lt, drop, length, Some, None, IfSome, option_map, if◌then◌else◌};
ghost use Rattle.std.specs.Char.{is_ascii_digit};
ghost use Rattle.std.specs.List.{list_all};
ghost use Rattle.std.specs.Str.Parse.{AllDigits, digits_value};
ghost use Rattle.ws_kinds.specs.OrderValue.{order_value};
ghost use Rattle.bus_handler.specs.Bus.{closed_by, code_in as CodeIn, commanded, published, space_in};

use ws_kinds::{Kind, Order};

/// What a message of the bus orders by its first octet: `+` to subscribe to the topic that follows, `-` to end that, `=` to
/// publish, and `x` to close. None where it is no command.
pub(crate) fn command<'m>(kind: Kind, body: &'m [u8]) -> Option<Order<'m>>
    ensures { option_map order_value result ≡ commanded kind body.now }
{
    let Some((first, rest)) = body.split_first() else {
        return None;
    };
    match *first {
        b'+' => Some(Order::Subscribe { topic: rest }),
        b'-' => Some(Order::Unsubscribe { topic: rest }),
        b'=' => publication(kind, rest),
        b'x' => close(rest),
        _ => None,
    }
}

/// A topic, a space, and the body that is published to the topic. None without a space.
fn publication<'m>(kind: Kind, octets: &'m [u8]) -> Option<Order<'m>>
    ensures { option_map order_value result ≡ published kind octets.now }
{
    let Some(space) = first_space(octets) else {
        return None;
    };
    Some(Order::Publish {
        topic: &octets[..space],
        kind,
        body: behind(octets, space),
    })
}

/// The place of the first space, counted from 0.
fn first_space(octets: &[u8]) -> Option<usize>
    ensures place { result ≡ space_in octets.now }
    ensures within { IfSome result (λ place. place < length octets.now) }
{
    octets.iter().position(|octet| *octet == b' ')
}

/// What stands behind a place.
fn behind(octets: &[u8], place: usize) -> &[u8]
    requires { place < length octets.now }
    ensures { result.now ≡ drop (place + 1) octets.now }
{
    &octets[place + 1..]
}

/// To close the connection, with the code that four decimal digits say and no reason. None for other octets.
fn close<'m>(octets: &[u8]) -> Option<Order<'m>>
    ensures { option_map order_value result ≡ closed_by octets.now }
{
    let Some(code) = code_in(octets) else {
        return None;
    };
    Some(Order::Close { code, reason: &[] })
}

/// The code that four decimal digits say, from 0 to 9999. None for other octets.
fn code_in(octets: &[u8]) -> Option<u16>
    ensures { result ≡ CodeIn octets.now }
{
    if octets.len() != 4 || !are_digits(octets) {
        return None;
    }
    value_of(octets)
}

/// The number that decimal digits say, at least one, unless it does not fit.
fn value_of(digits: &[u8]) -> Option<u16>
    requires digits { AllDigits 10 digits.now }
    requires some { 0 < length digits.now }
    ensures { result ≡ (if nat_lt (digits_value 10 digits.now) (2 ^ 16) then Some (digits_value 10 digits.now) else None) }
{
    str::from_utf8(digits).ok()?.parse().ok()
}

/// Whether each octet is a decimal digit.
fn are_digits(octets: &[u8]) -> bool
    ensures { result ≡ list_all is_ascii_digit octets.now }
{
    octets.iter().all(|octet| octet.is_ascii_digit())
}
