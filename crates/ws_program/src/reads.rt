//! How the commands read.

/// The most octets of one read of a source.
pub(crate) const MAX_READ: usize = 8192;
