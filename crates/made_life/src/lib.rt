//! What the connections of a made schedule send, and what is heard of them by RFC 6455. The words and the laws stand in `specs/` and
//! `proofs/`; there is no code.
#![tactic(auto)]
