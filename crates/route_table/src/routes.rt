//! The table of routes.

ghost use Rattle.std.specs.Prelude.{◌≡◌, ◌<◌, ◌≤◌, ◌↔◌, ◌⊎◌, length, false, Some, Err, IsTrue, IsUtf8, IfOk, IfErr, IfSome, OnErr, option_map, slice_get};
ghost use Rattle.route_table.specs.Table.{no_routes, with_route, is_refused, found, first_value};
ghost use Rattle.matchit.specs.Params.{walk};

use arrayvec::ArrayVec;
use matchit::{InsertError, Params, Router};
use std::alloc::Global;
use std::marker::Model;

/// How many routes there can be, so that the numbers 0 to 254 name them.
const MAX_ROUTES: usize = 255;

/// How many octets a parameter and a subprotocol's name can have.
const MAX_NAME: usize = 64;

/// The name of a subprotocol.
type ProtocolName = ArrayVec<u8, MAX_NAME>;

/// Why a route was not added.
#[derive(Clone, Copy, Debug, PartialEq, Eq)]
pub enum RouteFault {
    /// The subprotocol's name has more than 64 octets.
    TooLong,
    /// There are 255 routes.
    Full,
    /// `matchit` does not read the pattern, or the pattern conflicts with that of a route in the table.
    Refused,
    /// There was no memory.
    Memory,
}

/// A table of at most 255 routes. Each has a pattern, as `matchit` reads it, a number, from 0 upwards, and the name of a
/// subprotocol of at most 64 octets, which may be empty.
#[derive(Drop)]
pub struct Routes {
    /// Each pattern with its route's number.
    router: Router<u8>,
    /// The names of the subprotocols, by the routes' numbers.
    protocols: Vec<ProtocolName>,
}

impl Model for Routes {
    ghost use Rattle.std.specs.Prelude.{length};
    ghost use Rattle.route_table.specs.Table.{RouteTable, names_of};
    ghost use Rattle.route_table.specs.Whole.{IsTable};

    ghost Value = { RouteTable };

    ghost view = { λ a. record { rows = a.router; protocols = names_of a.protocols.items } };

    ghost invariant = { λ a. IsTable a.router (length a.protocols.items) };
}

/// What the first parameter took of the path, or nothing.
fn first_of<'k, 'p>(params: &Params<'k, 'p>) -> &'p [u8]
    requires { IsUtf8 (first_value (walk params.now.pattern.now params.now.text.now params.now.path.now params.now.names.now 0 0)) }
    ensures { result.now ≡ first_value (walk params.now.pattern.now params.now.text.now params.now.path.now params.now.names.now 0 0) }
{
    match params.iter().next() {
        Some((_, value)) => value.as_bytes(),
        None => b"",
    }
}

impl Routes {
    /// A table without routes.
    pub fn new(alloc: Global) -> Routes
        ensures { result ≡ no_routes }
    {
        Routes {
            router: Router::new(alloc),
            protocols: Vec::new(alloc),
        }
    }

    /// Adds a route with this pattern and the name of its subprotocol, which is empty where the route has none. The answer
    /// is the route's number, from 0 upwards.
    ///
    /// A pattern is read as `matchit` reads it: `{name}` is a parameter, which takes one or more octets up to the next `/`,
    /// `{*name}` takes the rest of the path, and `{{` and `}}` stand for braces.
    ///
    /// The faults are tested in this order: `TooLong` where `protocol` has more than 64 octets, `Full` where there are 255
    /// routes, `Refused` where `matchit` does not read the pattern or the pattern conflicts with another route's. `Memory`
    /// comes only where neither `TooLong` nor `Full` does, and may come in the place of `Refused`. A fault leaves the table
    /// as it was.
    pub fn add(&mut self, pattern: &str, protocol: &[u8]) -> Result<u8, RouteFault>
        ensures number { IfOk result (λ number. number ≡ length self.old.protocols) }
        ensures added { IfOk result (λ number. self.new ≡ with_route self.old pattern.now protocol.now) }
        ensures unchanged { OnErr result (self.new ≡ self.old) }
        ensures too_long { (result ≡ Err RouteFault.TooLong) ↔ (64 < length protocol.now) }
        ensures full { (result ≡ Err RouteFault.Full)
            ↔ ((length protocol.now ≤ 64) × (length self.old.protocols ≡ 255)) }
        ensures refused { result ≡ Err RouteFault.Refused → IsTrue (is_refused self.old pattern.now) }
        ensures refuses { length protocol.now ≤ 64 → length self.old.protocols < 255
            → IsTrue (is_refused self.old pattern.now)
            → (result ≡ Err RouteFault.Refused) ⊎ (result ≡ Err RouteFault.Memory) }
        ensures accepts { length protocol.now ≤ 64 → length self.old.protocols < 255
            → is_refused self.old pattern.now ≡ false
            → IfErr result (λ fault. fault ≡ RouteFault.Memory) }
    {
        if protocol.len() > MAX_NAME {
            return Err(RouteFault::TooLong);
        }
        let number = self.protocols.len();
        if number >= MAX_ROUTES {
            return Err(RouteFault::Full);
        }
        let mut name = ProtocolName::new();
        name.try_extend_from_slice(protocol).unwrap();
        if self.protocols.reserve(1).is_err() {
            return Err(RouteFault::Memory);
        }
        match self.router.insert(pattern, number as u8) {
            Ok(()) => {
                self.protocols.push_reserved(name);
                Ok(number as u8)
            }
            Err(InsertError::OutOfMemory) => Err(RouteFault::Memory),
            Err(_) => Err(RouteFault::Refused),
        }
    }

    /// The number of the route that `matchit` finds for the path, and what the route's first parameter took of the path,
    /// empty where the route has no parameter.
    ///
    /// The answer is `None` exactly where `matchit` finds no route or the parameter has more than 64 octets. The path is any
    /// text, and nothing in it is decoded.
    pub fn find<'p>(&self, path: &'p str) -> Option<(u8, &'p [u8])>
        ensures found { option_map (λ answer. (answer.0, answer.1.now)) result ≡ found self.now path.now }
        ensures in_table { IfSome result (λ answer. answer.0 < length self.now.protocols) }
        ensures short { IfSome result (λ answer. length answer.1.now ≤ 64) }
    {
        let Ok(matched) = self.router.at(path) else {
            return None;
        };
        let value = first_of(&matched.params);
        if value.len() > MAX_NAME {
            return None;
        }
        Some((*matched.value, value))
    }

    /// The name of the route's subprotocol, empty where the route has none.
    pub fn protocol(&self, route: u8) -> &[u8]
        requires { route < length self.now.protocols }
        ensures name { slice_get self.now.protocols route ≡ Some result.now }
        ensures short { length result.now ≤ 64 }
    {
        self.protocols[route as usize].as_slice()
    }
}
