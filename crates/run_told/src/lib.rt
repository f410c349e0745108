//! What a server's handler is told of each connection: how many items of it were dropped, and whether its backlog drained. By the
//! notes of a run this is `tell` of `run_meaning`; a hub keeps it in rows. The laws say that both go on alike, and lead from the
//! calls of a hub and of a loop over it to what the notes of a turn have to say.
//!
//! `telling`: a hub has to tell what its notes say, and so what the handler was told is right. `passing`: as a turn begins, the
//! handler is told of each connection that has something to tell, in ascending order; so each that is open as the turn has ended was
//! told of in it. `reading`: what stands to be told is what is read from the last note back, as the rule is in words. `rows`: values.
#![tactic(auto)]

pub mod passing;
pub mod reading;
pub mod rows;
pub mod telling;
