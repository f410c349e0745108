//! What is offered to a connection's link, and what is held back.

ghost use Rattle.std.specs.Prelude.{◌≡◌, ◌≢◌, ◌<◌, ◌≤◌, ◌+◌, ◌^◌, [], ℕ, true, false, length};
ghost use Rattle.socket_core.specs.Puts.{CountsRinged, Offers, OffersOnce, TellsRing, is_drop};
ghost use Rattle.socket_core.specs.Offers.{HandsOver, OffersParts};

use crate::Kept;
use backlog::Ring;
use link_trait::{Net, NetWrote, Outside};
use ws_kinds::{Conn, Note, Watch};

/// Offers octets in one write where nothing is held back, and holds back what was not taken. Where something is held back, they are
/// put behind it. They fit into the ring.
pub(crate) fn hand_over<N: Net, W: Watch>(
    out: &mut Outside<N, W>,
    conn: Conn,
    octets: &[u8],
    ring: &mut Ring,
) -> Kept
    requires live { (N.state out.old.net).live conn.0 ≡ true }
    requires some { 0 < length octets.now }
    requires room { length ring.old.octets + length octets.now ≤ ring.old.capacity }
    ensures hands { HandsOver conn.0 result octets.now ring.old ring.new (N.state out.old.net) (N.state out.new.net) (W.told out.old.watch) (W.told out.new.watch) }

    // Where nothing is held back they are offered in one write. What is held back by this call is copied once, and nothing else is.
    ensures once { ring.old.octets ≡ [] → OffersOnce result conn.0 octets.now ring.new.octets (N.state out.old.net) (N.state out.new.net) (W.told out.old.watch) (W.told out.new.watch) }
    ensures tally { CountsRinged ring.old.octets ring.new.octets out.old.tally out.new.tally }
{
    if ring.length() > 0 {
        ring.put(octets, &mut out.tally);
        return kept(ring);
    }
    let count = match offer(out, conn, octets) {
        Some(count) => count,
        None => return Kept::Failed,
    };
    if count == octets.len() {
        return Kept::Clear;
    }
    ring.put(&octets[count..], &mut out.tally);
    kept(ring)
}

/// Offers octets in one write, and those that follow them in another one where they were taken whole. Answers how many were taken,
/// and None where a write failed.
pub(crate) fn offer_parts<N: Net, W: Watch>(
    out: &mut Outside<N, W>,
    conn: Conn,
    front: &[u8],
    back: &[u8],
) -> Option<usize>
    requires live { (N.state out.old.net).live conn.0 ≡ true }
    requires some { front.now ≡ [] → back.now ≢ [] }
    requires fits { length front.now + length back.now < 2 ^ 64 }
    ensures parts { OffersParts result conn.0 front.now back.now (N.state out.old.net) (N.state out.new.net) (W.told out.old.watch) (W.told out.new.watch) }
{
    if front.is_empty() {
        return offer(out, conn, back);
    }
    let count = offer(out, conn, front)?;
    if count < front.len() || back.is_empty() {
        return Some(count);
    }
    let more = offer(out, conn, back)?;
    Some(count + more)
}

/// Offers octets in one write, and notes how many were taken. None where the write failed.
fn offer<N: Net, W: Watch>(out: &mut Outside<N, W>, conn: Conn, octets: &[u8]) -> Option<usize>
    requires live { (N.state out.old.net).live conn.0 ≡ true }
    requires some { 0 < length octets.now }
    ensures offers { Offers result conn.0 octets.now (N.state out.old.net) (N.state out.new.net) (W.told out.old.watch) (W.told out.new.watch) }
    ensures tally { out.new.tally ≡ out.old.tally }
{
    let count = match out.net.write(conn, octets) {
        NetWrote::Took(count) => count,
        NetWrote::Failed => return None,
    };
    out.watch.note(&Note::Took {
        conn,
        offered: octets.len() as u64,
        took: count as u64,
    });
    Some(count)
}

/// What is held back in a ring.
pub(crate) fn kept(ring: &Ring) -> Kept
    ensures tells { (limit : ℕ) → TellsRing limit result ring.now.octets }
    ensures whole { result ≢ Kept.Failed }
    ensures undropped { is_drop result ≡ false }
{
    match ring.length() {
        0 => Kept::Clear,
        held => Kept::Backlog(held as u64),
    }
}
