//! What the notes of a run mean.
//!
//! A watch is told notes, one after another. The definitions in `specs/` say what a list of notes means: which events the
//! handler was given, how far each connection is, which items are sent to it, which orders are served and why not, and how
//! all this stands to the net, to the octets of the peers and to what is held. They are folds and relations over the list,
//! and know nothing of how a server keeps its connections.
//!
//! A step is a note, or an order that is served, which makes no note. What a call of a server does is a fold over its steps;
//! and after the orders of an event, this fold and the notes say the same of each connection.
//!
//! The functions of the modules of laws do nothing: their contracts are what follows from the definitions, chiefly what one
//! more note or step changes.
#![tactic(auto)]

pub mod fold_laws;
pub mod order_laws;
pub mod plain;
pub mod run_laws;
pub mod step_laws;
#[cfg(test)]
mod tests;
