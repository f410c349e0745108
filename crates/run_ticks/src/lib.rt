//! For how long the connections of a server are quiet, and who is pinged and ended by its ticks. By the notes of a run these are
//! `quiet` and `Timely` of `run_meaning`; a hub keeps counts. The laws say that both go on alike, and lead from the calls of a hub to
//! what the notes of a run have to say.
//!
//! `counting`: the counts and the ticks, by the notes alone. `ticking`: a hub has counted what its notes say, and so who is pinged and
//! ended by its ticks is right. `rows`: values.
#![tactic(auto)]

pub mod counting;
pub mod rows;
pub mod ticking;
