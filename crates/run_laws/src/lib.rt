//! Laws of single steps of a server, which lead from the words of hub, net and reader to the relation of a run.
//!
//! `agreeing`: a hub that is as its notes say stays so with each call. `following`: notes that follow the net go on following
//! it. `hearing`: what was heard of a connection, step by step, beside its octets and its reader. A server reads the octets of
//! each connection in pieces. Until the head of the request is whole, it keeps them in the reader, and `HearsHead` holds. Once
//! the request is admitted it takes the head off and reads the frames one by one, and `HearsFrames` holds. Once nothing more can
//! be heard, `IsLife` says that all was heard that the octets say; where the connection is gone before that, `HearsFront` says
//! that what was heard is a front of it. The laws lead from each of these to the next, and from the last two to the relation of
//! a run.
#![tactic(auto)]

pub mod agreeing;
pub mod following;
pub mod hearing;
#[cfg(test)]
mod tests;
