/// What became of a connection that came.
#[derive(Clone, Copy, Debug, PartialEq, Eq)]
pub enum Arrival {
    /// It is accepted.
    Taken,
    /// There are as many connections as there may be.
    Busy,
    /// There was too little memory for it.
    Memory,
}
