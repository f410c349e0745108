use super::*;
use std::alloc::Global;
use std::test::*;
use ws_kinds::{Conn, Why};

/// A call, with the number of the connection.
#[derive(Clone, Copy)]
enum Step<'a> {
    Subscribe(u64, &'a [u8]),
    Unsubscribe(u64, &'a [u8]),
    Drop(u64),
}

/// What a call answers.
#[derive(Clone, Copy, PartialEq, Eq)]
enum Answer {
    Subscribed(Result<bool, Why>),
    Unsubscribed(bool),
    Dropped,
}

fn take(topics: &mut Topics, step: Step<'_>) -> Answer {
    match step {
        Step::Subscribe(conn, topic) => {
            if topic.len() < 1 || topic.len() > 64 {
                return Answer::Subscribed(Err(Why::BadTopic));
            }
            Answer::Subscribed(topics.subscribe(Conn(conn), topic))
        }
        Step::Unsubscribe(conn, topic) => {
            Answer::Unsubscribed(topics.unsubscribe(Conn(conn), topic))
        }
        Step::Drop(conn) => {
            topics.drop_conn(Conn(conn));
            Answer::Dropped
        }
    }
}

/// The numbers of a topic's subscribers, in the order of the walk.
fn walk(alloc: Global, topics: &Topics, topic: &[u8]) -> Result<Vec<u64>, Fail> {
    let mut numbers = Vec::new(alloc);
    let mut after = Conn(0);
    for _ in 0..16 {
        let Some(conn) = topics.next(topic, after) else {
            return Ok(numbers);
        };
        numbers.push(conn.0)?;
        after = conn;
    }
    Err("a walk without an end".into())
}

/// Calls with their answers, and the subscribers of the topic `a` after each.
const ROWS: &[(Step<'_>, Answer, &[u64])] = &[
    (Step::Drop(7), Answer::Dropped, &[]),
    (Step::Unsubscribe(7, b"a"), Answer::Unsubscribed(false), &[]),
    (Step::Subscribe(7, b"a"), Answer::Subscribed(Ok(true)), &[7]),
    // twice
    (
        Step::Subscribe(7, b"a"),
        Answer::Subscribed(Ok(false)),
        &[7],
    ),
    // of another connection, of a greater number, of numbers that differ above the 32nd bit
    (
        Step::Subscribe(3, b"a"),
        Answer::Subscribed(Ok(true)),
        &[3, 7],
    ),
    (
        Step::Subscribe(4_294_967_299, b"a"),
        Answer::Subscribed(Ok(true)),
        &[3, 7, 4_294_967_299],
    ),
    (
        Step::Subscribe(u64::MAX, b"a"),
        Answer::Subscribed(Ok(true)),
        &[3, 7, 4_294_967_299, u64::MAX],
    ),
    // other topics, of which one begins with it and one it begins with
    (
        Step::Subscribe(5, b"ab"),
        Answer::Subscribed(Ok(true)),
        &[3, 7, 4_294_967_299, u64::MAX],
    ),
    (
        Step::Subscribe(3, b"\x00"),
        Answer::Subscribed(Ok(true)),
        &[3, 7, 4_294_967_299, u64::MAX],
    ),
    (
        Step::Unsubscribe(3, b"ab"),
        Answer::Unsubscribed(false),
        &[3, 7, 4_294_967_299, u64::MAX],
    ),
    (
        Step::Unsubscribe(4_294_967_299, b"a"),
        Answer::Unsubscribed(true),
        &[3, 7, u64::MAX],
    ),
    (
        Step::Unsubscribe(4_294_967_299, b"a"),
        Answer::Unsubscribed(false),
        &[3, 7, u64::MAX],
    ),
    (Step::Drop(3), Answer::Dropped, &[7, u64::MAX]),
    (
        Step::Subscribe(3, b"a"),
        Answer::Subscribed(Ok(true)),
        &[3, 7, u64::MAX],
    ),
    // no topics
    (
        Step::Unsubscribe(7, b""),
        Answer::Unsubscribed(false),
        &[3, 7, u64::MAX],
    ),
    (
        Step::Unsubscribe(7, &[b'a'; 65]),
        Answer::Unsubscribed(false),
        &[3, 7, u64::MAX],
    ),
];

/// The place of the first row that differs.
fn first_other(
    alloc: Global,
    topics: &mut Topics,
    rows: &[(Step<'_>, Answer, &[u64])],
) -> Result<Option<usize>, Fail> {
    for (place, (step, answer, subscribers)) in rows.iter().enumerate() {
        let same = take(topics, *step) == *answer;
        let numbers = walk(alloc, topics, b"a")?;
        if !same || numbers.as_slice() != *subscribers {
            return Ok(Some(place));
        }
    }
    Ok(None)
}

#[test]
fn pairs_come_and_go(rt: HostRuntime) -> Result<(), Fail> {
    let mut topics = Topics::new(rt.alloc());
    assert_eq!(rt; first_other(rt.alloc(), &mut topics, ROWS)?, None);
    assert_eq!(rt; topics.count(Conn(3)), 1);
    assert_eq!(rt; topics.count(Conn(5)), 1);
    assert_eq!(rt; topics.count(Conn(6)), 0);
    assert_eq!(rt; topics.next(&[b'a'; 65], Conn(0)), None);
    Ok(())
}

/// Subscribes a connection to as many topics as it can have. The answer is how many were new.
fn fill(topics: &mut Topics, conn: Conn) -> u8 {
    let mut new = 0u8;
    for number in 0..64u8 {
        if topics.subscribe(conn, &[b't', number]) == Ok(true) {
            new = new.saturating_add(1);
        }
    }
    new
}

#[test]
fn a_connection_has_64_topics(rt: HostRuntime) {
    let mut topics = Topics::new(rt.alloc());
    assert_eq!(rt; fill(&mut topics, Conn(2)), 64);
    assert_eq!(rt; topics.subscribe(Conn(2), b"more"), Err(Why::TooMany));
    assert_eq!(rt; topics.subscribe(Conn(2), b"t\x00"), Ok(false));
    assert_eq!(rt; topics.subscribe(Conn(1), b"more"), Ok(true));
    assert!(rt; topics.unsubscribe(Conn(2), b"t\x3f"));
    assert_eq!(rt; topics.subscribe(Conn(2), b"more"), Ok(true));
    assert_eq!(rt; topics.count(Conn(2)), 64);
    topics.drop_conn(Conn(2));
    assert_eq!(rt; topics.count(Conn(2)), 0);
    assert_eq!(rt; topics.next(b"more", Conn(0)), Some(Conn(1)));
    assert_eq!(rt; topics.next(b"more", Conn(1)), None);
}

/// The plain program: all pairs, in the order of subscribing.
#[derive(Drop)]
struct Pairs<'a> {
    pairs: Vec<(u64, &'a [u8])>,
}

impl<'a> Pairs<'a> {
    fn has(&self, conn: u64, topic: &[u8]) -> bool {
        self.pairs
            .iter()
            .any(|pair| pair.0 == conn && pair.1 == topic)
    }

    fn count(&self, conn: u64) -> usize {
        self.pairs.iter().filter(|pair| pair.0 == conn).count()
    }

    fn next(&self, topic: &[u8], after: u64) -> Option<u64> {
        self.pairs
            .iter()
            .filter(|pair| pair.0 > after && pair.1 == topic)
            .map(|pair| pair.0)
            .min()
    }

    fn take(&mut self, step: Step<'a>) -> Result<Answer, Fail> {
        match step {
            Step::Subscribe(conn, topic) => {
                if self.has(conn, topic) {
                    return Ok(Answer::Subscribed(Ok(false)));
                }
                if self.count(conn) >= 64 {
                    return Ok(Answer::Subscribed(Err(Why::TooMany)));
                }
                self.pairs.push((conn, topic))?;
                Ok(Answer::Subscribed(Ok(true)))
            }
            Step::Unsubscribe(conn, topic) => {
                let there = self.has(conn, topic);
                self.pairs.retain(|pair| pair.0 != conn || pair.1 != topic);
                Ok(Answer::Unsubscribed(there))
            }
            Step::Drop(conn) => {
                self.pairs.retain(|pair| pair.0 != conn);
                Ok(Answer::Dropped)
            }
        }
    }
}

const STEPS: &[Step<'_>; 10] = &[
    Step::Subscribe(1, b"a"),
    Step::Subscribe(1, b"b"),
    Step::Subscribe(2, b"a"),
    Step::Subscribe(2, b"b"),
    Step::Unsubscribe(1, b"a"),
    Step::Unsubscribe(1, b"b"),
    Step::Unsubscribe(2, b"a"),
    Step::Unsubscribe(2, b"b"),
    Step::Drop(1),
    Step::Drop(2),
];

/// Whether both answer the same to what can be asked.
fn are_alike(topics: &Topics, pairs: &Pairs<'_>) -> bool {
    for conn in 0..4u64 {
        for topic in [b"a", b"b"] {
            let next = topics.next(topic, Conn(conn)).map(|conn| conn.0);
            if next != pairs.next(topic, conn) || topics.count(Conn(conn)) != pairs.count(conn) {
                return false;
            }
        }
    }
    true
}

/// Whether both answer the same to these calls and after each of them.
fn agrees(alloc: Global, steps: &[Step<'_>]) -> Result<bool, Fail> {
    let mut topics = Topics::new(alloc);
    let mut pairs = Pairs {
        pairs: Vec::new(alloc),
    };
    for step in steps {
        let answer = pairs.take(*step)?;
        if take(&mut topics, *step) != answer || !are_alike(&topics, &pairs) {
            return Ok(false);
        }
    }
    Ok(true)
}

/// The first four of the calls on which the two differ.
fn first_difference(alloc: Global) -> Result<Option<usize>, Fail> {
    for number in 0..10_000usize {
        let steps = [
            STEPS[number % 10],
            STEPS[number / 10 % 10],
            STEPS[number / 100 % 10],
            STEPS[number / 1_000 % 10],
        ];
        if !agrees(alloc, &steps)? {
            return Ok(Some(number));
        }
    }
    Ok(None)
}

#[test]
fn a_list_of_pairs_answers_the_same(rt: HostRuntime) -> Result<(), Fail> {
    assert_eq!(rt; first_difference(rt.alloc())?, None);
    Ok(())
}

/// Subscribes, and where an allocation fails (`rt try --test --fail-alloc N`) and all is as it was, once more.
fn subscribe_again(topics: &mut Topics, conn: Conn, topic: &[u8]) -> Result<bool, Why> {
    if topic.len() < 1 || topic.len() > 64 {
        return Err(Why::BadTopic);
    }
    let before = topics.count(conn);
    let added = topics.subscribe(conn, topic);
    if added == Err(Why::Memory)
        && topics.count(conn) == before
        && topics.next(topic, Conn(0)) != Some(conn)
    {
        return topics.subscribe(conn, topic);
    }
    added
}

#[test]
fn want_of_memory(rt: HostRuntime) {
    let mut topics = Topics::new(rt.alloc());
    assert_eq!(rt; subscribe_again(&mut topics, Conn(4), b"a"), Ok(true));
    assert_eq!(rt; topics.next(b"a", Conn(0)), Some(Conn(4)));
    for number in 0..64u8 {
        assert_eq!(rt; subscribe_again(&mut topics, Conn(5), &[number]), Ok(true));
    }
    assert_eq!(rt; topics.count(Conn(5)), 64);
}
