//! A net in memory, which follows a schedule.

ghost use Rattle.std.specs.Prelude.{◌≡◌, ◌<◌, ◌+◌, Some, true, false, nat_eq, length, take, slice_get, IfSome, IfNone, OnOk};
ghost use Rattle.std.specs.List.{list_any};
ghost use Rattle.mem_net.specs.Schedule.{is_sound};
ghost use Rattle.mem_net.specs.Acts.{arrivals};
ghost use Rattle.mem_net.specs.MemNet.{new_links};
ghost use Rattle.mem_net.specs.MemSteps.{Rises};
ghost use Rattle.mem_net.specs.LinkState.{is_untold, faults_in_answer};

use crate::Schedule;
use crate::mem_link::{Change, Finish, MemLink};
use link_trait::{Act, Listening, Net, NetEvent, NetRead, NetWrote};
use std::alloc::{AllocError, Global};
use std::marker::Model;
use ws_kinds::Conn;

/// A net in memory. It does the acts of a schedule in order, and then answers `Stop` at every call.
///
/// - `Arrive` tells `Accept`; `Octets`, `End` and `ReadFails` tell `Readable`; `Room` and `WriteFails` tell `Writable`. Acts on a
///   connection that is shut are passed over.
/// - A read gives the octets that wait first; then `End` after an act `End`, `Failed` after `ReadFails`, and `Later`
///   otherwise. Where a read left something, `Readable` is told again before the next act is done.
/// - A link takes as many octets in all as `Arrive` and each `Room` let it, or any number where `Arrive` gave no credit. A write takes
///   the front of what it is offered, as much as is left of that. It fails from `WriteFails` on, and for want of memory.
#[derive(Drop)]
pub struct MemNet {
    schedule: Schedule,
    numbers: Vec<u64>,
    links: Vec<MemLink>,
    done: usize,
    answers: u64,
    unread: bool,
    rested: bool,
    whole: bool,
    faults: u64,
    port: Option<u16>,
}

impl Model for MemNet {
    ghost use Rattle.mem_net.specs.MemNet.{MemNetState};
    ghost use Rattle.mem_net.specs.MemSteps.{Keeps};

    ghost Value = { MemNetState };

    ghost view = { λ net. record {
      acts = net.schedule;
      done = net.done;
      links = net.links.items;
      answers = net.answers;
      rested = net.rested;
      whole = net.whole;
      faults = net.faults;
      port = net.port;
    } };

    ghost invariant = { λ net. Keeps net.numbers.items net.unread (record {
      acts = net.schedule;
      done = net.done;
      links = net.links.items;
      answers = net.answers;
      rested = net.rested;
      whole = net.whole;
      faults = net.faults;
      port = net.port;
    }) };
}

impl MemNet {
    ghost use Rattle.std.specs.Prelude.{◌≡◌, ◌<◌, Some, None, true, false, length, slice_get, IfSome, IfNone, IfOk};
    ghost use Rattle.mem_net.specs.Schedule.{has_arrived, is_sound};
    ghost use Rattle.mem_net.specs.Acts.{arrivals};
    ghost use Rattle.mem_net.specs.MemNet.{net_state, start_net, FollowsSchedule, AllTold};
    ghost use Rattle.mem_net.specs.MemSteps.{Does, SendsAt, FinishesAt, ChangesAt, Repeats};
    ghost use Rattle.link_trait.specs.Net.{Nexts};

    /// A net that follows this schedule, which is sound. It takes memory for all octets that the schedule sends. An error says that
    /// there was too little.
    pub fn new(alloc: Global, schedule: Schedule) -> Result<MemNet, AllocError>
        requires { is_sound schedule ≡ true }
        ensures { IfOk result (λ net. net ≡ start_net schedule) }
    {
        let mut numbers = Vec::new(alloc);
        let mut links = Vec::new(alloc);
        'acts: for done in 0..schedule.acts().len() {
            prepare(alloc, schedule.acts(), done, &mut numbers, &mut links)?;
        }
        Ok(MemNet {
            schedule,
            numbers,
            links,
            done: 0,
            answers: 0,
            unread: false,
            rested: false,
            whole: true,
            faults: 0,
            port: None,
        })
    }

    /// Whether no write failed but by an act. It is false from the first one on for which there was too little memory.
    pub fn whole(&self) -> bool
        ensures value { result ≡ self.now.whole }
        ensures follows { FollowsSchedule self.now }
    {
        self.whole
    }

    /// The octets that the link of a connection took: none of a connection that did not arrive.
    pub fn taken(&self, conn: Conn) -> &[u8]
        ensures octets { result.now ≡ (net_state self.now).taken conn.0 }
        ensures follows { FollowsSchedule self.now }
    {
        match self.place(conn) {
            Some(place) => self.links[place].taken(),
            None => &[],
        }
    }

    /// The place of a connection's link.
    fn place(&self, conn: Conn) -> Option<usize>
        ensures some { IfSome result (λ place. slice_get (arrivals self.now.acts) place ≡ Some conn.0) }
        ensures none { IfNone result (has_arrived self.now.acts conn.0 ≡ false) }
    {
        find(&self.numbers, conn)
    }

    /// Does an act by which a connection arrives.
    fn arrive(&mut self, conn: Conn, credit: Option<u32>) -> Option<NetEvent>
        requires act { slice_get self.old.acts self.old.done ≡ Some (Act.Arrive conn credit) }
        requires told { AllTold self.old }
        ensures { Does result self.old self.new }
    {
        let Some(place) = self.place(conn) else {
            unreachable!("it is among the acts");
        };
        let link = &mut self.links[place];
        link.arrive(credit);
        self.done += 1;
        self.answers = self.answers.saturating_add(1);
        self.rested = false;
        Some(NetEvent::Accept(conn))
    }

    /// Does an act that sends so many octets.
    fn come(&mut self, conn: Conn, count: usize) -> Option<NetEvent>
        requires act { SendsAt conn.0 count self.old.acts self.old.done }
        requires told { AllTold self.old }
        ensures { Does result self.old self.new }
    {
        let Some(place) = self.place(conn) else {
            unreachable!("it is among the acts");
        };
        let link = &mut self.links[place];
        let tells = link.come(count);
        self.done += 1;
        self.rested = false;
        if tells {
            Some(NetEvent::Readable(conn))
        } else {
            None
        }
    }

    /// Does an act that ends the octets of a connection.
    fn finish(&mut self, conn: Conn, finish: Finish) -> Option<NetEvent>
        requires act { FinishesAt conn.0 finish self.old.acts self.old.done }
        requires told { AllTold self.old }
        ensures { Does result self.old self.new }
    {
        let Some(place) = self.place(conn) else {
            unreachable!("it is among the acts");
        };
        let link = &mut self.links[place];
        let tells = link.finish(finish);
        self.done += 1;
        self.rested = false;
        if tells {
            Some(NetEvent::Readable(conn))
        } else {
            None
        }
    }

    /// Does an act that changes what the link of a connection takes.
    fn change(&mut self, conn: Conn, change: Change) -> Option<NetEvent>
        requires act { ChangesAt conn.0 change self.old.acts self.old.done }
        requires told { AllTold self.old }
        ensures { Does result self.old self.new }
    {
        let Some(place) = self.place(conn) else {
            unreachable!("it is among the acts");
        };
        let link = &mut self.links[place];
        let tells = link.change(change);
        self.done += 1;
        self.rested = false;
        if tells {
            Some(NetEvent::Writable(conn))
        } else {
            None
        }
    }

    /// Does an act Tick.
    fn tick(&mut self) -> Option<NetEvent>
        requires act { slice_get self.old.acts self.old.done ≡ Some Act.Tick }
        requires told { AllTold self.old }
        ensures { Does result self.old self.new }
    {
        self.done += 1;
        self.answers = self.answers.saturating_add(1);
        self.rested = false;
        Some(NetEvent::Tick)
    }

    /// Does an act Turn.
    fn turn(&mut self) -> Option<NetEvent>
        requires act { slice_get self.old.acts self.old.done ≡ Some Act.Turn }
        requires told { AllTold self.old }
        ensures { Does result self.old self.new }
    {
        self.done += 1;
        self.answers = self.answers.saturating_add(1);
        self.rested = true;
        Some(NetEvent::Turn)
    }

    /// Whether all acts were done.
    fn is_done(&self) -> bool
        ensures done { result ≡ true → self.now.done ≡ length self.now.acts }
        ensures more { result ≡ false → self.now.done < length self.now.acts }
    {
        self.done == self.schedule.acts().len()
    }

    /// Does the next act.
    fn step(&mut self) -> Option<NetEvent>
        requires more { self.old.done < length self.old.acts }
        requires told { AllTold self.old }
        ensures { Does result self.old self.new }
    {
        match &self.schedule.acts()[self.done] {
            Act::Arrive { conn, credit } => {
                let conn = *conn;
                let credit = *credit;
                self.arrive(conn, credit)
            }
            Act::Octets { conn, octets } => {
                let conn = *conn;
                let count = octets.octets().len();
                self.come(conn, count)
            }
            Act::End(conn) => {
                let conn = *conn;
                self.finish(conn, Finish::End)
            }
            Act::ReadFails(conn) => {
                let conn = *conn;
                self.finish(conn, Finish::Failed)
            }
            Act::Room { conn, more } => {
                let conn = *conn;
                let more = *more;
                self.change(conn, Change::Gains(more))
            }
            Act::WriteFails(conn) => {
                let conn = *conn;
                self.change(conn, Change::Fails)
            }
            Act::Tick => self.tick(),
            Act::Turn => self.turn(),
        }
    }

    /// Tells Readable again of a connection of which a read left something, if there is one.
    fn repeat(&mut self) -> Option<NetEvent>
        ensures again { IfSome result (λ event. Repeats event self.old self.new) }
        ensures same { IfNone result (self.new ≡ self.old) }
        ensures told { IfNone result (AllTold self.new) }
    {
        if !self.unread {
            return None;
        }
        let Some(place) = untold(&self.links) else {
            self.unread = false;
            return None;
        };
        let link = &mut self.links[place];
        link.tell();
        self.rested = false;
        Some(NetEvent::Readable(Conn(self.numbers[place])))
    }

    /// Answers Stop, since all acts were done.
    fn stop(&mut self) -> NetEvent
        requires done { self.old.done ≡ length self.old.acts }
        requires told { AllTold self.old }
        ensures stop { result ≡ NetEvent.Stop }
        ensures next { Nexts result (net_state self.old) (net_state self.new) }
        ensures acts { self.new.acts ≡ self.old.acts }
        ensures same { self.new.done ≡ self.old.done }
        ensures whole { self.new.whole ≡ self.old.whole }
    {
        self.answers = self.answers.saturating_add(1);
        self.rested = true;
        NetEvent::Stop
    }
}

impl Net for MemNet {
    ghost use Rattle.std.specs.Prelude.{◌≡◌, ◌≢◌, ◌<◌, ◌⊎◌, true, false, length};
    ghost use Rattle.mem_net.specs.LinkState.{LinkReads};
    ghost use Rattle.link_trait.specs.Net.{Listens, Nexts, Reads, Writes, Shuts};
    ghost use Rattle.mem_net.specs.MemNet.{net_state, link_at, AllTold, TellsInOrder, TakesByActs};

    ghost state = { net_state };

    /// It listens at every port.
    fn listen(&mut self, port: u16) -> Listening
        ensures listens { Listens port result (net_state self.old) (net_state self.new) }
        ensures ready { result ≡ Listening.Ready }
        ensures whole { self.new.whole ≡ self.old.whole }
    {
        self.port = Some(port);
        Listening::Ready
    }

    /// It does no further act while something waits that was not told, tells each act before it does the next one, and stops
    /// once all acts were done. It never fails.
    fn next(&mut self) -> NetEvent
        ensures next { Nexts result (net_state self.old) (net_state self.new) }
        ensures unfailing { result ≢ NetEvent.Failed }
        ensures waits { (self.new.done ≡ self.old.done) ⊎ AllTold self.old }
        ensures tells { TellsInOrder result self.old self.new }
        ensures stops { result ≡ NetEvent.Stop → self.new.done ≡ length self.new.acts }
        ensures whole { self.new.whole ≡ self.old.whole }
    {
        if let Some(event) = self.repeat() {
            return event;
        }
        'acts: while !self.is_done() {
            if let Some(event) = self.step() {
                return event;
            }
        }
        self.stop()
    }

    /// Gives what waits, and then answers what the connection's octets finish with.
    fn read(&mut self, conn: Conn, room: &mut [u8]) -> NetRead
        requires live { (net_state self.old).live conn.0 ≡ true }
        requires some { 0 < length room.old }
        ensures reads { Reads conn.0 room.new result (net_state self.old) (net_state self.new) }
        ensures link { LinkReads room.new result (link_at self.old conn.0) (link_at self.new conn.0) }
        ensures whole { self.new.whole ≡ self.old.whole }
    {
        let Some(place) = self.place(conn) else {
            unreachable!("it is live");
        };
        let link = &mut self.links[place];
        let answer = link.read(room);
        let ready = link.is_ready();
        self.unread = self.unread | ready;
        self.rested = false;
        self.faults = self.faults.saturating_add(faults_in(answer));
        answer
    }

    /// Takes the front of the octets, as many as the acts that were done leave room for. It fails where one of them says so, or where
    /// there is too little memory.
    fn write(&mut self, conn: Conn, octets: &[u8]) -> NetWrote
        requires live { (net_state self.old).live conn.0 ≡ true }
        requires some { 0 < length octets.now }
        ensures writes { Writes conn.0 octets.now result (net_state self.old) (net_state self.new) }
        ensures takes { TakesByActs conn.0 (length octets.now) result self.old self.new }
    {
        let Some(place) = self.place(conn) else {
            unreachable!("it is live");
        };
        let link = &mut self.links[place];
        let NetWrote::Took(count) = link.write(octets) else {
            let by_act = link.is_failing();
            self.whole = self.whole & by_act;
            self.faults = self.faults.saturating_add(1);
            return NetWrote::Failed;
        };
        NetWrote::Took(count)
    }

    fn shut(&mut self, conn: Conn)
        requires { (net_state self.old).live conn.0 ≡ true }
        ensures shuts { Shuts conn.0 (net_state self.old) (net_state self.new) }
        ensures whole { self.new.whole ≡ self.old.whole }
    {
        let Some(place) = self.place(conn) else {
            unreachable!("it is live");
        };
        let link = &mut self.links[place];
        link.shut();
    }
}

/// The place of a connection among numbers that rise.
fn find(numbers: &[u64], conn: Conn) -> Option<usize>
    requires { Rises numbers.now }
    ensures some { IfSome result (λ place. slice_get numbers.now place ≡ Some conn.0) }
    ensures none { IfNone result (list_any (λ number. nat_eq number conn.0) numbers.now ≡ false) }
{
    numbers.binary_search(&conn.0).ok()
}

/// Makes a link for an act by which a connection arrives, and puts the octets of an act that sends some to its link.
fn prepare(
    alloc: Global,
    acts: &[Act],
    done: usize,
    numbers: &mut Vec<u64>,
    links: &mut Vec<MemLink>,
) -> Result<(), AllocError>
    requires within { done < length acts.now }
    requires sound { is_sound acts.now ≡ true }
    requires numbers { numbers.old.items ≡ arrivals (take done acts.now) }
    requires links { links.old.items ≡ new_links (take done acts.now) }
    ensures numbers { OnOk result (numbers.new.items ≡ arrivals (take (done + 1) acts.now)) }
    ensures links { OnOk result (links.new.items ≡ new_links (take (done + 1) acts.now)) }
{
    match &acts[done] {
        Act::Arrive { conn, .. } => {
            numbers.push(conn.0)?;
            links.push(MemLink::new(alloc))?;
        }
        Act::Octets { conn, octets } => {
            let Some(place) = find(numbers, *conn) else {
                unreachable!("it arrived before");
            };
            let link = &mut links[place];
            link.sends(octets.octets())?;
        }
        _ => {}
    }
    Ok(())
}

/// The faults that an answer counts.
fn faults_in(answer: NetRead) -> u64
    ensures { result ≡ faults_in_answer answer }
{
    match answer {
        NetRead::Failed => 1,
        NetRead::Octets(_) | NetRead::End | NetRead::Later => 0,
    }
}

/// The place of a link of which Readable is to be told, if there is one.
fn untold(links: &[MemLink]) -> Option<usize>
    ensures some { IfSome result (λ place. (place < length links.now) × ((link : _) → slice_get links.now place ≡ Some link → is_untold link ≡ true)) }
    ensures none { IfNone result (list_any is_untold links.now ≡ false) }
{
    'links: for place in 0..links.len() {
        if links[place].is_untold() {
            return Some(place);
        }
    }
    None
}
