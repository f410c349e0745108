use super::*;
use std::alloc::{AllocError, Global};
use std::test::*;

// Texts of characters of one to four octets, and octets that no continuation makes UTF-8 with how many of them suffice for
// that.
const ROWS: [(&[u8], Option<usize>); 20] = [
    // a, é, €, 😀, z
    (b"a\xc3\xa9\xe2\x82\xac\xf0\x9f\x98\x80z", None),
    (b"\xf0\x9f\x98\x80\xe2\x82\xac\xc3\xa9a", None),
    // the first and last character of each length, and the neighbours of the surrogates
    (
        b"\x00\x7f\xc2\x80\xdf\xbf\xe0\xa0\x80\xef\xbf\xbf\xf0\x90\x80\x80\xf4\x8f\xbf\xbf",
        None,
    ),
    (b"\xed\x9f\xbf\xee\x80\x80", None),
    // spelled longer than need be
    (b"\xc0\x80", Some(1)),
    (b"a\xc1\xbf", Some(2)),
    (b"\xe0\x80\x80", Some(2)),
    (b"\xc3\xa9\xe0\x9f\xbf", Some(4)),
    (b"\xf0\x80\x80\x80", Some(2)),
    (b"\xe2\x82\xac\xf0\x8f\xbf\xbf", Some(5)),
    // a surrogate, and past U+10FFFF
    (b"\xed\xa0\x80", Some(2)),
    (b"\xf4\x90\x80\x80", Some(2)),
    (b"\xf5\x80\x80\x80", Some(1)),
    (b"ab\xff", Some(3)),
    // a continuation alone
    (b"\x80", Some(1)),
    (b"\xc3\xa9\xa9", Some(3)),
    // a character that ends early, before ASCII and before another one
    (b"\xc3a", Some(2)),
    (b"\xe2\x82a", Some(3)),
    (b"\xf0\x9f\x98\xc3\xa9", Some(4)),
    (b"\xf0\x9f\x98\x80\xf0\x9f\x98a", Some(8)),
];

// Two pieces, and whether they are UTF-8 together.
const PIECES: [(&[u8], &[u8], bool); 3] = [
    (b"\xe2\x82", b"\xac!", true),
    (b"!\xe2\x82", b"", false),
    (b"\xe2\x82", b"!", false),
];

/// What std says of the octets: whether some continuation is UTF-8, and whether they are.
fn by_std(octets: &[u8]) -> (Text, bool) {
    match std::str::from_utf8(octets) {
        Ok(_) => (Text::Front, true),
        Err(error) if error.error_len().is_none() => (Text::Front, false),
        Err(_) => (Text::Bad, false),
    }
}

/// What is answered for the next piece, and behind it.
fn answers(utf8: &mut Utf8, piece: &[u8]) -> (Text, bool) {
    let text = utf8.push(piece);
    (text, utf8.ends())
}

/// Over three pieces each answer is std's for the octets so far.
fn agrees(octets: &[u8], first: usize, second: usize) -> bool {
    if first > second || second > octets.len() {
        return false;
    }
    let mut utf8 = Utf8::new();
    answers(&mut utf8, &octets[..first]) == by_std(&octets[..first])
        && answers(&mut utf8, &octets[first..second]) == by_std(&octets[..second])
        && answers(&mut utf8, &octets[second..]) == by_std(octets)
}

/// The octets agree over three pieces, wherever they are cut.
fn agrees_at_each_cut(octets: &[u8]) -> bool {
    (0..=octets.len()).all(|second| (0..=second).all(|first| agrees(octets, first, second)))
}

/// How many octets were pushed, one by one, when the first Bad came.
fn first_bad(octets: &[u8]) -> Option<usize> {
    let mut utf8 = Utf8::new();
    for (i, octet) in octets.iter().enumerate() {
        if utf8.push(&[*octet]) == Text::Bad {
            return i.checked_add(1);
        }
    }
    None
}

#[test]
fn every_cut_and_octet_by_octet(rt: HostRuntime) {
    for (octets, bad) in ROWS {
        assert!(rt; agrees_at_each_cut(octets), "{octets:?}");
        assert_eq!(rt; first_bad(octets), bad, "{octets:?}");
    }
}

#[test]
fn all_pairs_of_octets(rt: HostRuntime) {
    for first in 0..=255 {
        for second in 0..=255 {
            let octets = [first, second];
            assert!(rt;
                agrees(&octets, 1, 1) && agrees(&octets, 0, 2),
                "{octets:?}"
            );
        }
    }
}

/// So many characters of three octets, which reach over many blocks of vectors.
fn long_text(alloc: Global, characters: usize) -> Result<Vec<u8>, AllocError> {
    let mut octets = Vec::new(alloc);
    for _ in 0..characters {
        octets.extend_from_slice("€".as_bytes())?;
    }
    Ok(octets)
}

/// A long text agrees, wherever it is cut.
fn long_text_agrees(alloc: Global) -> Result<bool, AllocError> {
    let octets = long_text(alloc, 100)?;
    Ok((0..=octets.len()).all(|cut| agrees(&octets, cut, octets.len())))
}

/// What `are_utf8` answers for these two pieces.
fn pieces_are_utf8(alloc: Global, first: &[u8], second: &[u8]) -> Result<bool, AllocError> {
    let pieces = vec![in alloc;
        Vec::from_slice(alloc, first)?,
        Vec::from_slice(alloc, second)?,
    ]?;
    Ok(are_utf8(&pieces))
}

#[test]
fn pieces_and_a_long_text(rt: HostRuntime) {
    for (first, second, wanted) in PIECES {
        let answer = pieces_are_utf8(rt.alloc(), first, second);
        assert!(rt;
            matches!(answer, Ok(is) if is == wanted),
            "{first:?} {second:?}"
        );
    }
    let same = long_text_agrees(rt.alloc());
    assert!(rt; matches!(same, Ok(true)));
}
