ghost use Rattle.std.specs.Prelude.{◌≡◌, ◌≢◌, ◌≤◌, [], ◌∷◌, true, length};
ghost use Rattle.ws_kinds.specs.declared.kind.Kind.TheVariants.{Text};
ghost use Rattle.wire_meaning.specs.declared.frame.Opcode.TheVariants.{Begins};
ghost use Rattle.wire_meaning.specs.Answer.{spelled, whole};
ghost use Rattle.hub_lines.specs.Moves.{Moves, buffered_of};
ghost use Rattle.ws_kinds.specs.ConfigValue.{usual_config};

use super::*;
use link_trait::{Act, Net, NetEvent, Outside};
use mem_net::{MemNet, Schedule};
use std::test::*;
use ws_kinds::{Config, Conn, Note, Phase, Recorder, Tally, Watch};

const ONE: Conn = Conn(1);

/// A net on which one connection arrives, and a watch that keeps the notes.
fn outside(rt: &HostRuntime) -> Result<Outside<MemNet, Recorder>, Fail> {
    let mut schedule = Schedule::new(rt.alloc());
    let arrival = Act::Arrive {
        conn: ONE,
        credit: None,
    };
    schedule.push(arrival).ok().ok_or("memory")?;
    if !schedule.sound() {
        return Err(Fail::new("the schedule"));
    }
    Ok(Outside {
        net: MemNet::new(rt.alloc(), schedule).ok().ok_or("memory")?,
        watch: Recorder::new(rt.alloc()),
        tally: Tally::new(),
    })
}

/// Puts a reply, and then a frame that is spelled already.
fn put_reply<N: Net, W: Watch>(socket: &mut Socket, out: &mut Outside<N, W>) -> [Kept; 2]
    requires live { (N.state out.old.net).live socket.old.conn ≡ true }
    requires usual { socket.old.config ≡ usual_config }
    requires unused { socket.old.numbered ≡ 0 }
    requires empty { socket.old.ring ≡ [] }
    ensures live { (N.state out.new.net).live socket.new.conn ≡ true }
    ensures usual { socket.new.config ≡ usual_config }
{
    let reply = socket.put_frame(out, Item::Reply(b"reply"));
    [reply, socket.put_frame(out, Item::Spelled(b"\x81\x01A"))]
}

/// Puts a text, as a hub does: what stood for the connection stands with this frame behind it.
fn put_text<N: Net, W: Watch>(socket: &mut Socket, out: &mut Outside<N, W>, payload: &[u8]) -> Kept
    requires live { (N.state out.old.net).live socket.old.conn ≡ true }
    requires short { length payload.now ≤ socket.old.config.max_message }
    ensures moves { result ≢ Kept.Failed → Moves socket.old.conn socket.old.config.limit true (spelled (whole (Begins Text) payload.now) ∷ [])
        (buffered_of socket.old []) (buffered_of socket.new []) (N.state out.old.net) (N.state out.new.net) (W.told out.old.watch) (W.told out.new.watch) }
    ensures live { (N.state out.new.net).live socket.new.conn ≡ true }
    ensures usual { socket.new.config ≡ socket.old.config }
{
    socket.put_frame(out, Item::Frame(1, payload))
}

/// Puts a text, and a close frame where nothing is held back.
fn put_frames<N: Net, W: Watch>(socket: &mut Socket, out: &mut Outside<N, W>) -> [Kept; 2]
    requires live { (N.state out.old.net).live socket.old.conn ≡ true }
    requires usual { socket.old.config ≡ usual_config }
    ensures live { (N.state out.new.net).live socket.new.conn ≡ true }
{
    let text = put_text(socket, out, b"Hello");
    if socket.ring_length() > 0 {
        return [text; 2];
    }
    [text, socket.put_frame(out, Item::Frame(8, b"\x03\xe9"))]
}

#[test]
fn items_are_written_in_order(rt: HostRuntime) -> Result<(), Fail> {
    let mut out = outside(&rt)?;
    let config = Config::usual();
    let mut socket = Socket::new(rt.alloc(), ONE, &config).ok().ok_or("memory")?;
    if let NetEvent::Accept(conn) = out.net.next() {
        if conn == ONE {
            assert_eq!(rt; put_reply(&mut socket, &mut out), [Kept::Clear; 2]);
            assert_eq!(rt; put_frames(&mut socket, &mut out), [Kept::Clear; 2]);
            assert_eq!(rt; socket.writable(&mut out), Kept::Clear);
            assert_eq!(rt; socket.ring_length(), 0);
        }
    }
    items_are_sent();
    let written = b"reply\x81\x01A\x81\x05Hello\x88\x02\x03\xe9";
    assert_eq!(rt; out.net.taken(ONE), written.as_slice());
    assert_eq!(rt; out.watch.count(), 4);
    for (place, octets) in [5, 3, 7, 4].iter().enumerate() {
        let took = Note::Took {
            conn: ONE,
            offered: *octets,
            took: *octets,
        };
        if place < out.watch.count() {
            assert_eq!(rt; out.watch.at(place), took);
        }
    }
    Ok(())
}

#[test]
fn phases_follow_one_another(rt: HostRuntime) -> Result<(), Fail> {
    let config = Config::usual();
    let mut socket = Socket::new(rt.alloc(), ONE, &config).ok().ok_or("memory")?;
    assert_eq!(rt; socket.phase(), Phase::Head);
    assert_eq!(rt; socket.conn(), ONE);
    socket.enter(Phase::Open);
    assert_eq!(rt; socket.phase(), Phase::Open);
    socket.enter(Phase::Leaving);
    assert_eq!(rt; socket.phase(), Phase::Leaving);
    socket.enter(Phase::Ending);
    assert_eq!(rt; socket.phase(), Phase::Ending);
    socket.enter(Phase::Gone);
    assert_eq!(rt; socket.phase(), Phase::Gone);
    Ok(())
}
