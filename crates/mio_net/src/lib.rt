//! A net of live sockets: connections to one port of this machine, over one poll. It tells no octets.
//!
//! The token under which the machine reports a socket is the number of its connection. A number is used once, so a report that comes
//! late names no other connection. The machine alone keeps the list of what is ready: a call that leaves something to be told has the
//! next poll report the socket again.
//!
//! What one call does is bounded. `next` polls once at most, looks at 1,024 reports at most, accepts one connection at most, and
//! reads at most 16,384 octets for each report of a socket that lingers, of which there are 256 at most; with a tick it may close
//! these. `read` and `write` make one call to the machine and one registration at most. Memory is taken for 1,024 reports and 256
//! sockets that linger at first, and then for each live connection.
#![tactic(auto)]

mod lingering;
mod live_net;
mod peers;
mod sockets;
mod timer;

pub use live_net::LiveNet;

#[cfg(test)]
mod tests;
