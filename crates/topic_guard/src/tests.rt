ghost use Rattle.std.specs.Prelude.{◌≡◌, ◌<◌, ◌≤◌, IsTrue, length};
ghost use Rattle.topic_guard.specs.Admits.{admits};

use super::*;
use std::alloc::{AllocError, Global};
use std::test::*;
use ws_kinds::Name;

/// A rule, as the tables name it.
#[derive(Clone, Copy)]
enum Form {
    All,
    Only(&'static [u8]),
    Except(&'static [u8]),
}

use Form::{All, Except, Only};

/// 64 octets.
const LONGEST: &[u8] = b"0123456789abcdef0123456789abcdef0123456789abcdef0123456789abcde$";

/// The rules of the tests: a short name, an empty one, and one as long as a name may be.
const FORMS: &[Form] = &[
    All,
    Only(b"$"),
    Except(b"$"),
    Only(b""),
    Except(b""),
    Only(b"pub/"),
    Except(b"pub/"),
    Only(LONGEST),
    Except(LONGEST),
];

/// Topics of 1 to 64 octets: those that begin with a name or end with it, are the name, are shorter, or differ in one octet.
const TOPICS: &[&[u8]] = &[
    b"$",
    b"$SYS",
    b"news",
    b"news$",
    b"\0",
    b"pub",
    b"pub/",
    b"pub/a",
    b"Pub/a",
    b"pub/pub/",
    b"a/pub/",
    b"\xff\xff",
    LONGEST,
    b"0123456789abcdef0123456789abcdef0123456789abcdef0123456789abcde",
    b"0123456789abcdef0123456789abcdef0123456789abcdef0123456789abcdef",
    b"$123456789abcdef0123456789abcdef0123456789abcdef0123456789abcdef",
];

/// The plain program: octet by octet.
fn plain_begins(topic: &[u8], name: &[u8]) -> bool {
    for (place, octet) in name.iter().enumerate() {
        if topic.get(place) != Some(octet) {
            return false;
        }
    }
    true
}

fn plain_admits(form: Form, topic: &[u8]) -> bool {
    match form {
        All => true,
        Only(name) => plain_begins(topic, name),
        Except(name) => !plain_begins(topic, name),
    }
}

/// The name of these octets.
fn name_of(octets: &[u8]) -> Name
    requires { length octets.now ≤ 64 }
    ensures { result.items ≡ octets.now }
{
    let mut name = Name::new();
    name.try_extend_from_slice(octets).unwrap();
    name
}

/// What keeps a guard, as a hub does, and counts the topics that were refused.
#[derive(Drop)]
struct Holder {
    guard: TopicGuard,
    refused: u64,
}

impl Holder {
    fn new(guard: TopicGuard) -> Holder
        ensures { result.guard.rule ≡ guard.rule }
    {
        Holder { guard, refused: 0 }
    }

    /// Whether the topic, of 1 to 64 octets, may be subscribed to.
    fn may(&mut self, topic: &[u8]) -> bool
        requires some { 0 < length topic.now }
        requires short { length topic.now ≤ 64 }
        ensures value { result ≡ admits self.old.guard.rule topic.now }
        ensures same { self.new.guard.rule ≡ self.old.guard.rule }
    {
        if !self.guard.allows(topic) {
            self.refused = self.refused.saturating_add(1);
            return false;
        }
        true
    }
}

/// Whether a guard of any rule answers by it, and a holder of the guard does so twice.
fn answers_by_its_rule(holder: &mut Holder, rule: &TopicRule, topic: &[u8]) -> bool
    requires rules { holder.old.guard.rule ≡ rule.now }
    requires some { 0 < length topic.now }
    requires short { length topic.now ≤ 64 }
    ensures all { IsTrue result }
    ensures same { holder.new.guard.rule ≡ holder.old.guard.rule }
{
    let first = holder.may(topic);
    let second = holder.may(topic);
    first == rule.admits(topic) && second == first
}

/// The place of the first topic on which the guard, or its rule, answers something else than the plain program.
fn first_other(rule: &TopicRule, guard: TopicGuard, form: Form) -> Option<usize> {
    let mut holder = Holder::new(guard);
    'topics: for (place, topic) in TOPICS.iter().enumerate() {
        let admitted = plain_admits(form, topic);
        let in_range = !topic.is_empty() && topic.len() <= 64;
        if !in_range || holder.may(topic) != admitted || rule.admits(topic) != admitted {
            return Some(place);
        }
    }
    None
}

fn first_other_of_all(alloc: Global) -> Result<Option<usize>, AllocError> {
    let test: Test = Box::new(alloc, |_topic: &[u8]| true)?;
    let guard = TopicGuard::new(TopicRule::All, test);
    Ok(first_other(&TopicRule::All, guard, All))
}

fn first_other_of_only(alloc: Global, begin: &'static [u8]) -> Result<Option<usize>, AllocError>
    requires { length begin.now ≤ 64 }
{
    let name = name_of(begin);
    let test: Test = Box::new(
        alloc,
        move |topic: &[u8]| topic.starts_with(name.as_slice()),
    )?;
    let guard = TopicGuard::new(TopicRule::Only(name_of(begin)), test);
    Ok(first_other(&TopicRule::Only(name_of(begin)), guard, Only(begin)))
}

fn first_other_of_except(alloc: Global, begin: &'static [u8]) -> Result<Option<usize>, AllocError>
    requires { length begin.now ≤ 64 }
{
    let name = name_of(begin);
    let test: Test = Box::new(
        alloc,
        move |topic: &[u8]| !topic.starts_with(name.as_slice()),
    )?;
    let guard = TopicGuard::new(TopicRule::Except(name_of(begin)), test);
    Ok(first_other(&TopicRule::Except(name_of(begin)), guard, Except(begin)))
}

/// The place of the first topic on which a guard of this rule, with a closure made for it, answers something else than the
/// plain program.
fn first_other_of_guard(alloc: Global, form: Form) -> Result<Option<usize>, AllocError> {
    match form {
        All => first_other_of_all(alloc),
        Only(begin) if begin.len() <= 64 => first_other_of_only(alloc, begin),
        Except(begin) if begin.len() <= 64 => first_other_of_except(alloc, begin),
        Only(_) | Except(_) => Ok(Some(0)),
    }
}

/// The place of the first rule whose guard answers something else.
fn first_wrong(alloc: Global, forms: &[Form]) -> Result<Option<usize>, AllocError> {
    for (place, form) in forms.iter().enumerate() {
        if first_other_of_guard(alloc, *form)?.is_some() {
            return Ok(Some(place));
        }
    }
    Ok(None)
}

#[test]
fn guards_answer_as_the_plain_program(rt: HostRuntime) -> Result<(), Fail> {
    assert_eq!(rt; first_wrong(rt.alloc(), FORMS)?, None);
    Ok(())
}

#[test]
fn a_holder_of_any_guard_answers_by_its_rule(rt: HostRuntime) -> Result<(), Fail> {
    let test: Test = Box::new(rt.alloc(), |topic: &[u8]| !topic.starts_with(b"$"))?;
    let rule = TopicRule::Except(name_of(b"$"));
    let mut holder = Holder::new(TopicGuard::new(TopicRule::Except(name_of(b"$")), test));
    assert!(rt; answers_by_its_rule(&mut holder, &rule, b"$SYS"));
    assert_eq!(rt; holder.refused, 2);
    assert!(rt; answers_by_its_rule(&mut holder, &rule, b"news"));
    assert_eq!(rt; holder.refused, 2);
    Ok(())
}
