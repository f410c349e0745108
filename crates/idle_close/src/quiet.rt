//! Counts of ticks.

ghost use Rattle.std.specs.Prelude.{◌≡◌, ◌<◌, ◌+◌, nat_eq};
ghost use Rattle.idle_close.specs.QuietValue.{new_quiet, after_heard, after_leaving, after_tick, is_ping, is_gone, is_ping_due, is_end_due};

use std::marker::Model;

/// What one more tick makes due.
#[derive(Clone, Copy, Debug, PartialEq, Eq)]
pub enum Due {
    Nothing,
    /// The connection is to be sent a ping.
    Ping,
    /// The connection is to be ended.
    Gone,
}

/// For how long a connection is quiet: the ticks since octets of it were read last, and those since it began to leave.
///
/// The counts stand still at `u64::MAX`.
#[derive(Clone, Copy)]
pub struct Quiet {
    ping_after: u32,
    idle: u32,
    leave: u32,
    ticks: u64,
    leaving: Option<u64>,
}

impl Model for Quiet {
    ghost use Rattle.std.specs.Prelude.{◌<◌};
    ghost use Rattle.idle_close.specs.QuietValue.{QuietValue};

    ghost Value = { QuietValue };

    ghost view = { λ quiet. record {
      ping_after = quiet.ping_after;
      idle = quiet.idle;
      leave = quiet.leave;
      ticks = quiet.ticks;
      leaving = quiet.leaving;
    } };

    ghost invariant = { λ quiet. quiet.ping_after < quiet.idle };

    ghost inverse = { λ quiet. record {
      ping_after = quiet.ping_after;
      idle = quiet.idle;
      leave = quiet.leave;
      ticks = quiet.ticks;
      leaving = quiet.leaving;
    } };
}

impl Quiet {
    /// The counts of a connection that was just accepted. A ping is due after `ping_after` quiet ticks; its end is due after
    /// `idle` of them, and after `leave` ticks since it began to leave.
    pub fn new(ping_after: u32, idle: u32, leave: u32) -> Quiet
        requires { ping_after < idle }
        ensures { result ≡ new_quiet ping_after idle leave }
    {
        Quiet {
            ping_after,
            idle,
            leave,
            ticks: 0,
            leaving: None,
        }
    }

    /// Octets of the connection were read: its quiet ticks are counted from 0 again, unless it is leaving.
    pub fn heard(&mut self)
        ensures { self.new ≡ after_heard self.old }
    {
        if self.leaving.is_none() {
            self.ticks = 0;
        }
    }

    /// The connection begins to leave. Where it did so before, nothing changes.
    pub fn leaving(&mut self)
        ensures { self.new ≡ after_leaving self.old }
    {
        self.leaving = self.leaving.or(Some(0));
    }

    /// Counts one more tick, and says what it makes due.
    ///
    /// A ping is due exactly where one can be sent, the connection is not leaving and its quiet ticks become `ping_after`; its
    /// end, where these become `idle`, or those since it began to leave become `leave`.
    pub fn tick(&mut self, can_ping: bool) -> Due
        ensures counts { self.new ≡ after_tick self.old }
        ensures ping { is_ping result ≡ is_ping_due can_ping self.old }
        ensures gone { is_gone result ≡ is_end_due self.old }
    {
        let due = self.due(can_ping);
        self.count();
        due
    }

    fn count(&mut self)
        ensures { self.new ≡ after_tick self.old }
    {
        self.ticks = self.ticks.saturating_add(1);
        self.leaving = self.leaving.map(|ticks| ticks.saturating_add(1));
    }

    fn due(&self, can_ping: bool) -> Due
        ensures ping { is_ping result ≡ is_ping_due can_ping self.now }
        ensures gone { is_gone result ≡ is_end_due self.now }
    {
        if can_ping && self.leaving.is_none() && becomes(self.ticks, self.ping_after) {
            return Due::Ping;
        }
        if self.is_end_due() {
            return Due::Gone;
        }
        Due::Nothing
    }

    fn is_end_due(&self) -> bool
        ensures { result ≡ is_end_due self.now }
    {
        if becomes(self.ticks, self.idle) {
            return true;
        }
        match self.leaving {
            Some(ticks) => becomes(ticks, self.leave),
            None => false,
        }
    }
}

/// Whether one more tick makes a count this number.
fn becomes(count: u64, number: u32) -> bool
    ensures { result ≡ nat_eq (count + 1) number }
{
    count.checked_add(1) == Some(number as u64)
}
