//! Each call of a hub, over nets in memory.

ghost use Rattle.std.specs.Prelude.{◌≡◌, ◌≤◌, length};

mod calls;
mod closes;
mod failing_net;
mod guarded;
mod rows;
pub mod scene;
mod senders;
mod topics;

use calls::Part;
use closes::CLOSES;
use guarded::{AGAIN, MARKED, PUBLIC, SUBSCRIBED};
use rows::CALLS;
use scene::{difference, first_other};
use std::test::*;
use topic_guard::{Test, TopicGuard, TopicRule};
use topics::TOPICS;
use ws_kinds::{Conn, Name};

/// The sender of what has none.
const NOBODY: Conn = Conn(0);

const ONE: Conn = Conn(1);

const TWO: Conn = Conn(2);

const THREE: Conn = Conn(3);

const FOUR: Conn = Conn(4);

const FIVE: Conn = Conn(5);

const SIX: Conn = Conn(6);

/// The number of no connection.
const NINE: Conn = Conn(9);

/// The name of these octets.
fn name_of(octets: &[u8]) -> Name
    requires { length octets.now ≤ 64 }
    ensures { result.items ≡ octets.now }
{
    let mut name = Name::new();
    name.try_extend_from_slice(octets).unwrap();
    name
}

#[test]
fn each_call_does_what_the_rows_say(rt: HostRuntime) -> Result<(), Fail> {
    let test: Test = Box::new(rt.alloc(), |_topic: &[u8]| true)?;
    let guard = TopicGuard::new(TopicRule::All, test);
    assert_eq!(rt; first_other(&rt, &guard, CALLS)?, None);
    assert_eq!(rt; first_other(&rt, &guard, TOPICS)?, None);
    assert_eq!(rt; first_other(&rt, &guard, CLOSES)?, None);
    Ok(())
}

#[test]
fn only_topics_of_a_kind_are_allowed(rt: HostRuntime) -> Result<(), Fail> {
    let test: Test = Box::new(rt.alloc(), |topic: &[u8]| topic.starts_with(b"pub/"))?;
    let guard = TopicGuard::new(TopicRule::Only(name_of(b"pub/")), test);
    assert_eq!(rt; first_other(&rt, &guard, PUBLIC)?, None);
    Ok(())
}

#[test]
fn topics_of_a_kind_are_forbidden(rt: HostRuntime) -> Result<(), Fail> {
    let test: Test = Box::new(rt.alloc(), |topic: &[u8]| !topic.starts_with(b"$"))?;
    let guard = TopicGuard::new(TopicRule::Except(name_of(b"$")), test);
    assert_eq!(rt; first_other(&rt, &guard, MARKED)?, None);
    Ok(())
}

#[test]
fn the_guard_is_asked_about_a_pair_that_is_there(rt: HostRuntime) -> Result<(), Fail> {
    let all: Test = Box::new(rt.alloc(), |_topic: &[u8]| true)?;
    let every = TopicGuard::new(TopicRule::All, all);
    let test: Test = Box::new(rt.alloc(), |topic: &[u8]| topic.starts_with(b"pub/"))?;
    let guard = TopicGuard::new(TopicRule::Only(name_of(b"pub/")), test);
    let before = Part {
        guard: &every,
        calls: SUBSCRIBED,
    };
    assert_eq!(rt; difference(&rt, before, &guard, &AGAIN)?, None);
    Ok(())
}
