ghost use Rattle.std.specs.Prelude.{◌≡◌, ℕ, List, [], ◌∷◌, ◌++◌, Option, None, IfSome, true};
ghost use Rattle.wire_meaning.specs.Event.{ping, closed};
ghost use Rattle.route_table.specs.Table.{RouteTable};
ghost use Rattle.frame_reader.specs.Reader.{is_unread};
ghost use Rattle.run_meaning.specs.Life.{Heard, opened, read};
ghost use Rattle.run_laws.specs.Readers.{reader_view};
ghost use Rattle.run_laws.specs.Hears.{HearsHead, HearsFrames, HearsAll};

use frame_reader::{Reader, Step};
use route_table::Routes;
use std::test::*;
use upgrade_head::{Head, judge};

/// The head of a request that is admitted. The key is that of RFC 6455, section 1.3.
const HEAD: &[u8] =
    b"GET /echo HTTP/1.1\r\nHost: a\r\nUpgrade: websocket\r\nConnection: Upgrade\r\nSec-WebSocket-Key: dGhlIHNhbXBsZSBub25jZQ==\r\nSec-WebSocket-Version: 13\r\n\r\n";

/// Takes octets that fit, whether the head has come or not.
fn take(reader: &mut Reader, octets: &[u8]) -> bool
    ensures head { result ≡ true → (max : ℕ) (heard : List Heard) (before : List ℕ) → HearsHead max heard before (reader_view reader.old) →
        HearsHead max heard (before ++ octets.now) (reader_view reader.new) }
    ensures frames { result ≡ true → (table : RouteTable) (max : ℕ) (last : Option ℕ) (heard : List Heard) (before : List ℕ) → HearsFrames table max last heard before (reader_view reader.old) →
        HearsFrames table max last heard (before ++ octets.now) (reader_view reader.new) }
    ensures unread { is_unread reader.new ≡ is_unread reader.old }
{
    if octets.len() > reader.room() {
        return false;
    }
    reader.feed(octets);
    true
}

/// Judges the head that came, and takes it off where the request is admitted. Tells the route.
fn open(reader: &mut Reader, routes: &Routes) -> Option<u8>
    requires { is_unread reader.old ≡ true }
    ensures opens { IfSome result (λ route. (max : ℕ) (heard : List Heard) (octets : List ℕ) → HearsHead max heard octets (reader_view reader.old) →
        (param : List ℕ) × HearsFrames routes.now max None (heard ++ opened route param ∷ []) octets (reader_view reader.new)) }
    ensures unread { is_unread reader.new ≡ true }
{
    match judge(reader.raw(), routes) {
        Head::Admit { end, route, .. } => {
            reader.skip(end);
            Some(route)
        }
        _ => None,
    }
}

/// Reads a frame. Tells whether it was a ping.
fn is_ping(reader: &mut Reader) -> bool
    ensures { result ≡ true → (table : RouteTable) (max : ℕ) (heard : List Heard) (octets : List ℕ) → HearsFrames table max None heard octets (reader_view reader.old) →
        (payload : List ℕ) × HearsFrames table max None (heard ++ read (ping payload) ∷ []) octets (reader_view reader.new) }
{
    match reader.next() {
        Step::Ping(_) => true,
        _ => false,
    }
}

/// Reads a frame. Tells whether it was a close, after which all was heard.
fn is_close(reader: &mut Reader) -> bool
    ensures { result ≡ true → (table : RouteTable) (max : ℕ) (heard : List Heard) (octets : List ℕ) → HearsFrames table max None heard octets (reader_view reader.old) →
        (code : ℕ) × (reason : List ℕ) × HearsAll table max None (heard ++ read (closed code reason) ∷ []) octets }
{
    match reader.next() {
        Step::Close(_, _) => true,
        _ => false,
    }
}

#[test]
fn a_ping_and_a_close_behind_the_head_are_heard(rt: HostRuntime) -> Result<(), Fail> {
    let mut routes = Routes::new(rt.alloc());
    routes.add("/echo", b"").ok().ok_or("not added")?;
    let mut reader = Reader::new(rt.alloc(), 125).ok().ok_or("memory")?;
    assert!(rt; open(&mut reader, &routes).is_none());
    assert!(rt; take(&mut reader, HEAD));
    assert_eq!(rt; open(&mut reader, &routes), Some(0));
    assert!(rt; take(&mut reader, b"\x89\x80\0\0\0\0"));
    assert!(rt; is_ping(&mut reader));
    assert!(rt; take(&mut reader, b"\x88\x80\0\0\0\0"));
    assert!(rt; is_close(&mut reader));
    Ok(())
}
