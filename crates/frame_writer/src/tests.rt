use super::*;
use std::test::*;

// Headers by opcode and length, the examples of RFC 6455, section 5.7, among them.
const HEADERS: [(u8, usize, &[u8]); 10] = [
    (8, 0, b"\x88\x00"),
    (9, 4, b"\x89\x04"),
    (1, 5, b"\x81\x05"),
    (10, 125, b"\x8a\x7d"),
    (2, 126, b"\x82\x7e\x00\x7e"),
    (2, 127, b"\x82\x7e\x00\x7f"),
    (2, 256, b"\x82\x7e\x01\x00"),
    (2, 65535, b"\x82\x7e\xff\xff"),
    (1, 65536, b"\x81\x7f\0\0\0\0\x00\x01\x00\x00"),
    (2, 65536, b"\x82\x7f\0\0\0\0\x00\x01\x00\x00"),
];

// Payloads of close frames, and what they say.
const CLOSES: [(&[u8], Closing); 14] = [
    (b"", Closing::Empty),
    // one octet
    (b"\x03", Closing::Bad(1002)),
    // codes beside those that may be sent, whatever follows: 999, 1004, 1005, 1006, 1015, 2999, 5000
    (b"\x03\xe7", Closing::Bad(1002)),
    (b"\x03\xec\xff", Closing::Bad(1002)),
    (b"\x03\xed", Closing::Bad(1002)),
    (b"\x03\xee", Closing::Bad(1002)),
    (b"\x03\xf7", Closing::Bad(1002)),
    (b"\x0b\xb7", Closing::Bad(1002)),
    (b"\x13\x88bye", Closing::Bad(1002)),
    // a reason that is not UTF-8, and one that ends within a character
    (b"\x03\xe8\xff", Closing::Bad(1007)),
    (b"\x03\xe8\xe2\x82", Closing::Bad(1007)),
    // a code and a reason, also an empty one
    (b"\x03\xe8", Closing::Code(1000)),
    (b"\x13\x87", Closing::Code(4999)),
    (b"\x03\xf6\xe2\x82\xac", Closing::Code(1014)),
];

#[test]
fn headers(rt: HostRuntime) -> Result<(), Fail> {
    for (op, length, wanted) in HEADERS {
        assert!(rt; matches!(op, 1 | 2 | 8 | 9 | 10) && length <= 65536);
        assert_eq!(rt; head_of(op, length).as_slice(), wanted, "{op} {length}");
    }
    Ok(())
}

#[test]
fn closes(rt: HostRuntime) -> Result<(), Fail> {
    for (payload, wanted) in CLOSES {
        assert_eq!(rt; close_of(payload), wanted, "{payload:?}");
    }
    let bare = close_payload(1000, b"");
    assert_eq!(rt; bare.as_slice(), b"\x03\xe8".as_slice());
    let going = close_payload(1001, b"going away");
    assert_eq!(rt; going.as_slice(), b"\x03\xe9going away".as_slice());
    assert_eq!(rt; close_of(going.as_slice()), Closing::Code(1001));
    Ok(())
}
