//! The command `serve`: a server over a net, with the built-in handler.

ghost use Rattle.std.specs.Prelude.{◌≡◌, ◌≤◌, IfOk};
ghost use Rattle.topic_guard.specs.Admits.{admits};
ghost use Rattle.ws_program.specs.NewServer.{IsNewServer};
ghost use Rattle.ws_program.specs.Serve.{outer, scene, RunsNew, ServeEnds, WritesServed};

use crate::status::Status;
use bus_handler::Bus;
use hub_core::Hub;
use link_trait::{Listening, Net, Outside, Sink};
use loop_runner::{Intakes, Ran, run};
use route_table::Routes;
use schedule_text::write_numbers;
use std::alloc::{AllocError, Global};
use topic_guard::TopicGuard;
use ws_kinds::{Config, Watch};

/// Listens at a port of the net, from 1 to 65,535, and makes turns with the built-in handler on its three routes, until nothing will
/// come any more or as many were made as are asked for, which is at least 1. Peers may subscribe to the topics that the guard allows. Then the line `served T` is written to the sink, T the
/// number of turns.
///
/// All memory whose want ends it is taken first. Later want of memory is noted: a connection is not accepted then, or a topic is not
/// subscribed to. It ends
///
/// - as `Done` where the line is written;
/// - as `NetFault` where the net could not listen, or failed in a turn, which the net counted. Nothing is written then;
/// - as `WriteFault` at the first fault of the sink, which it counted. A front of the line is written then;
/// - as `OutOfMemory` where there was too little memory to begin. Nothing is asked of the net, noted or written then.
pub fn serve_run<N: Net, W: Watch, K: Sink>(
    alloc: Global,
    config: Config,
    port: u16,
    turns: u64,
    guard: &TopicGuard,
    out: &mut Outside<N, W>,
    sink: &mut K,
) -> Status
    requires { 1 ≤ turns }
    ensures { let seen = scene N.Net W.Watch K.Sink in
        ServeEnds (admits guard.now.rule) (record { config = config; port = port; turns = turns }) result (seen out.old sink.old) (seen out.new sink.new) }
{
    let Ok(mut server) = NewServer::new(alloc, config) else {
        return Status::OutOfMemory;
    };
    match out.net.listen(port) {
        Listening::Failed => return Status::NetFault,
        Listening::Ready => {}
    }
    match server.make_turns(guard, out, turns) {
        Ran::Stopped(made) => write_turns(made, sink),
        Ran::Spent => write_turns(turns, sink),
        Ran::NetFault => Status::NetFault,
    }
}

/// What a server has before its first turn.
#[derive(Drop)]
pub(crate) struct NewServer {
    pub(crate) hub: Hub,
    pub(crate) intakes: Intakes,
    pub(crate) routes: Routes,
}

impl NewServer {
    pub(crate) fn new(alloc: Global, config: Config) -> Result<NewServer, AllocError>
        ensures config { IfOk result (λ server. server.hub.config ≡ config) }
        ensures new { IfOk result (λ server. IsNewServer server.hub server.intakes server.routes) }
    {
        let hub = Hub::new(alloc, config)?;
        let intakes = Intakes::new(alloc, config.max_message());
        let Ok(routes) = Bus::routes(alloc) else {
            // For want of memory, which is the only fault.
            return Err(AllocError);
        };
        Ok(NewServer {
            hub,
            intakes,
            routes,
        })
    }

    /// Makes turns, as many as are asked for or until the net ends them.
    fn make_turns<N: Net, W: Watch>(
        &mut self,
        guard: &TopicGuard,
        out: &mut Outside<N, W>,
        turns: u64,
    ) -> Ran
        requires new { IsNewServer self.old.hub self.old.intakes self.old.routes }
        requires some { 1 ≤ turns }
        ensures { RunsNew (admits guard.now.rule) self.old.hub.config result turns (outer N.Net W.Watch out.old) (outer N.Net W.Watch out.new) }
    {
        run(
            &mut self.hub,
            &mut self.intakes,
            &self.routes,
            out,
            &mut Bus,
            guard,
            turns,
        )
    }
}

/// Writes the line that tells the number of turns.
fn write_turns<K: Sink>(made: u64, sink: &mut K) -> Status
    ensures { WritesServed made result (K.written sink.old) (K.written sink.new) (K.faults sink.old) (K.faults sink.new) }
{
    if write_numbers(sink, b"served", &[made]) {
        Status::Done
    } else {
        Status::WriteFault
    }
}
