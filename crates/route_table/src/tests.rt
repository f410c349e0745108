use super::*;
use std::alloc::Global;
use std::test::*;

const LONG: [u8; 65] = [b'a'; 65];

/// Patterns with the names of their subprotocols, in the order of their numbers.
const PATTERNS: &[(&str, &[u8])] = &[
    ("/echo", b""),
    ("/room/{name}", b"room.v1"),
    ("/a/{x}/b/{y}", b"a"),
    ("/files/{*path}", b"files"),
    ("/end/{name}ß", b"sharp"),
    ("/ü/{{{name}", b"braces"),
];

/// Paths with the number of the route, its parameter and the name of its subprotocol, or none.
const PATHS: &[(&str, Option<(u8, &str, &[u8])>)] = &[
    ("/echo", Some((0, "", b""))),
    ("/room/lobby", Some((1, "lobby", b"room.v1"))),
    // the first of two parameters
    ("/a/1/b/22", Some((2, "1", b"a"))),
    ("/files/x/y.txt", Some((3, "x/y.txt", b"files"))),
    // characters of two to four octets
    ("/room/Käse", Some((1, "Käse", b"room.v1"))),
    ("/room/ä", Some((1, "ä", b"room.v1"))),
    ("/room/€", Some((1, "€", b"room.v1"))),
    ("/a/ü𝄞/b/ß", Some((2, "ü𝄞", b"a"))),
    ("/files/ö/ü", Some((3, "ö/ü", b"files"))),
    // a parameter in front of a character of the pattern, and behind one
    ("/end/öß", Some((4, "ö", b"sharp"))),
    ("/ü/{ö", Some((5, "ö", b"braces"))),
    // nothing is decoded
    ("/room/%C3%A4", Some((1, "%C3%A4", b"room.v1"))),
    ("", None),
    ("/", None),
    ("echo", None),
    ("/echo/", None),
    ("/Echo", None),
    ("/room/", None),
    ("/room/a/b", None),
    ("/end/ß", None),
    // 64 octets, and 65; the second parameter has no bound
    (
        "/room/ääääääääääääääääääääääääääääääää",
        Some((1, "ääääääääääääääääääääääääääääääää", b"room.v1")),
    ),
    ("/room/ääääääääääääääääääääääääääääääääa", None),
    (
        "/a/1/b/ääääääääääääääääääääääääääääääääa",
        Some((2, "1", b"a")),
    ),
];

/// Patterns that are refused once the routes of `PATTERNS` are there.
const REFUSED: &[&str] = &[
    "/echo",
    "/room/{other}",
    "/{",
    "/}",
    "/{}",
    "/{a}{b}",
    "/{*a}/b",
    "/room/{*all}",
];

/// A table with these patterns, each with its place as its number.
fn table_of(alloc: Global, patterns: &[(&str, &[u8])]) -> Result<Routes, Fail> {
    let mut routes = Routes::new(alloc);
    for (number, (pattern, protocol)) in patterns.iter().enumerate() {
        let added = routes.add(pattern, protocol).ok().ok_or("not added")?;
        if added as usize != number {
            return Err("another number".into());
        }
    }
    Ok(routes)
}

/// What a path finds, with the name of the route's subprotocol.
fn found<'a>(routes: &'a Routes, path: &'a str) -> Option<(u8, &'a [u8], &'a [u8])> {
    match routes.find(path) {
        Some((route, value)) => Some((route, value, routes.protocol(route))),
        None => None,
    }
}

fn finds(routes: &Routes, path: &str, wanted: Option<(u8, &str, &[u8])>) -> bool {
    match wanted {
        Some((route, value, protocol)) => {
            found(routes, path) == Some((route, value.as_bytes(), protocol))
        }
        None => found(routes, path).is_none(),
    }
}

/// The place of the first path that finds something else.
fn other_path(routes: &Routes, rows: &[(&str, Option<(u8, &str, &[u8])>)]) -> Option<usize> {
    for (place, (path, wanted)) in rows.iter().enumerate() {
        if !finds(routes, path, *wanted) {
            return Some(place);
        }
    }
    None
}

/// The place of the first pattern that is not refused.
fn first_taken(routes: &mut Routes, patterns: &[&str]) -> Option<usize> {
    for (place, pattern) in patterns.iter().enumerate() {
        if routes.add(pattern, b"x") != Err(RouteFault::Refused) {
            return Some(place);
        }
    }
    None
}

#[test]
fn paths_and_patterns(rt: HostRuntime) -> Result<(), Fail> {
    let mut routes = table_of(rt.alloc(), PATTERNS)?;
    assert_eq!(rt; first_taken(&mut routes, REFUSED), None);
    assert_eq!(rt; other_path(&routes, PATHS), None);
    // the next number is the one that no refused pattern took
    assert_eq!(rt; routes.add("/next", &LONG), Err(RouteFault::TooLong));
    assert_eq!(rt; routes.add("/next", &LONG[..64]), Ok(6));
    assert!(rt; finds(&routes, "/next", Some((6, "", &LONG[..64]))));
    Ok(())
}

/// A table with as many routes as there can be.
fn full(alloc: Global) -> Result<Routes, Fail> {
    let mut routes = Routes::new(alloc);
    for number in 0..255u8 {
        let pattern = format!(in alloc; "/r{number}")?;
        if routes.add(pattern.as_str(), &[number]) != Ok(number) {
            return Err("another number".into());
        }
    }
    Ok(routes)
}

#[test]
fn full_at_255_routes(rt: HostRuntime) -> Result<(), Fail> {
    let mut routes = full(rt.alloc())?;
    assert_eq!(rt; routes.add("/more", &LONG), Err(RouteFault::TooLong));
    assert_eq!(rt; routes.add("/more", b""), Err(RouteFault::Full));
    assert_eq!(rt; routes.add("/r0", b""), Err(RouteFault::Full));
    assert!(rt; finds(&routes, "/more", None));
    assert!(rt; finds(&routes, "/r254", Some((254, "", &[254]))));
    Ok(())
}

/// Adds a route. Where an allocation fails (`rt try --test --fail-alloc N`), the table stays as it was and takes the route
/// later.
fn add_again(routes: &mut Routes) -> Result<u8, RouteFault> {
    let added = routes.add("/room/{name}", b"room.v1");
    if added == Err(RouteFault::Memory) && finds(routes, "/room/a", None) {
        return routes.add("/room/{name}", b"room.v1");
    }
    added
}

#[test]
fn want_of_memory(rt: HostRuntime) {
    let mut routes = Routes::new(rt.alloc());
    assert_eq!(rt; add_again(&mut routes), Ok(0));
    assert!(rt; finds(&routes, "/room/a", Some((0, "a", b"room.v1"))));
}
