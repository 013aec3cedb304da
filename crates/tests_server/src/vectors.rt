//! Frames as bytes: docs/PROTOCOL.md, "Vectors".

/// `hello`, term 42, offset 0.
const HELLO_AT_0: &[u8] =
    b"\x25\0\0\0\0\xc0\x01\0\0\0\0\0\x07\0\0\0\xe9\x03\0\0\x2a\0\0\0\0\0\0\0\0\0\0\0hello";

/// `hello`, term 42, offset 64.
const HELLO_AT_64: &[u8] =
    b"\x25\0\0\0\0\xc0\x01\0\x40\0\0\0\x07\0\0\0\xe9\x03\0\0\x2a\0\0\0\0\0\0\0\0\0\0\0hello";

/// Its first 20 bytes.
const HELLO_AT_64_CUT_OFF: &[u8] = b"\x25\0\0\0\0\xc0\x01\0\x40\0\0\0\x07\0\0\0\xe9\x03\0\0";

/// `hello`, term 42, offset 128.
const HELLO_AT_128: &[u8] =
    b"\x25\0\0\0\0\xc0\x01\0\x80\0\0\0\x07\0\0\0\xe9\x03\0\0\x2a\0\0\0\0\0\0\0\0\0\0\0hello";

/// The setup frame of terms of 65,536 bytes from term 42 on, joined at its beginning.
pub(crate) const SETUP: &[u8] = &[
    0x28, 0, 0, 0, 0, 0, 5, 0, 0, 0, 0, 0, 7, 0, 0, 0, 0xe9, 3, 0, 0, 0x2a, 0, 0, 0, 0x2a, 0, 0, 0,
    0, 0, 1, 0, 0x80, 5, 0, 0, 0, 0, 0, 0,
];

/// Its first 39 bytes.
const SETUP_CUT_OFF: &[u8] = &[
    0x28, 0, 0, 0, 0, 0, 5, 0, 0, 0, 0, 0, 7, 0, 0, 0, 0xe9, 3, 0, 0, 0x2a, 0, 0, 0, 0x2a, 0, 0, 0,
    0, 0, 1, 0, 0x80, 5, 0, 0, 0, 0, 0,
];

/// `hello`, term 42, at an offset of so many times 64 bytes.
pub(crate) fn hello(index: u8) -> [u8; 37] {
    let mut frame = [0; 37];
    for (to, from) in frame.iter_mut().zip(HELLO_AT_0) {
        *to = *from;
    }
    let [low, high] = (u16::from(index) * 64).to_le_bytes();
    frame[8] = low;
    frame[9] = high;
    frame
}

/// The setup frame of term 42, joined at offset 64, and at offset 192.
const SETUP_AT_64: &[u8] = &[
    0x28, 0, 0, 0, 0, 0, 5, 0, 0x40, 0, 0, 0, 7, 0, 0, 0, 0xe9, 3, 0, 0, 0x2a, 0, 0, 0, 0x2a, 0, 0,
    0, 0, 0, 1, 0, 0x80, 5, 0, 0, 0, 0, 0, 0,
];

const SETUP_AT_192: &[u8] = &[
    0x28, 0, 0, 0, 0, 0, 5, 0, 0xc0, 0, 0, 0, 7, 0, 0, 0, 0xe9, 3, 0, 0, 0x2a, 0, 0, 0, 0x2a, 0, 0,
    0, 0, 0, 1, 0, 0x80, 5, 0, 0, 0, 0, 0, 0,
];

/// The setup frame joined at offset 49,152: further on than a publication reaches from its beginning.
const SETUP_FAR_ON: &[u8] = &[
    0x28, 0, 0, 0, 0, 0, 5, 0, 0, 0xc0, 0, 0, 7, 0, 0, 0, 0xe9, 3, 0, 0, 0x2a, 0, 0, 0, 0x2a, 0, 0,
    0, 0, 0, 1, 0, 0x80, 5, 0, 0, 0, 0, 0, 0,
];

/// `hello`, term 42, offset 49,152.
const HELLO_FAR_ON: &[u8] =
    b"\x25\0\0\0\0\xc0\x01\0\0\xc0\0\0\x07\0\0\0\xe9\x03\0\0\x2a\0\0\0\0\0\0\0\0\0\0\0hello";

/// `hello`, term 42, offset 192.
const HELLO_AT_192: &[u8] =
    b"\x25\0\0\0\0\xc0\x01\0\xc0\0\0\0\x07\0\0\0\xe9\x03\0\0\x2a\0\0\0\0\0\0\0\0\0\0\0hello";

/// A heartbeat of a sender that stands at offset 192.
const HEARTBEAT_AT_192: &[u8] = &[
    0, 0, 0, 0, 0, 0xc0, 1, 0, 0xc0, 0, 0, 0, 7, 0, 0, 0, 0xe9, 3, 0, 0, 0x2a, 0, 0, 0, 0, 0, 0, 0,
    0, 0, 0, 0,
];

/// A request for 64 bytes at offset 128 of term 42.
const NAK_AT_128: &[u8] = &[
    0x1c, 0, 0, 0, 0, 0, 2, 0, 7, 0, 0, 0, 0xe9, 3, 0, 0, 0x2a, 0, 0, 0, 0x80, 0, 0, 0, 0x40, 0, 0,
    0,
];

/// The setup frame of session id 8.
const SETUP_OF_8: &[u8] = &[
    0x28, 0, 0, 0, 0, 0, 5, 0, 0, 0, 0, 0, 8, 0, 0, 0, 0xe9, 3, 0, 0, 0x2a, 0, 0, 0, 0x2a, 0, 0, 0,
    0, 0, 1, 0, 0x80, 5, 0, 0, 0, 0, 0, 0,
];

/// `world` of session id 8, term 42, offset 0.
const WORLD_OF_8_AT_0: &[u8] =
    b"\x25\0\0\0\0\xc0\x01\0\0\0\0\0\x08\0\0\0\xe9\x03\0\0\x2a\0\0\0\0\0\0\0\0\0\0\0world";

/// `world` of session id 8, term 42, offset 64.
const WORLD_OF_8_AT_64: &[u8] =
    b"\x25\0\0\0\0\xc0\x01\0\x40\0\0\0\x08\0\0\0\xe9\x03\0\0\x2a\0\0\0\0\0\0\0\0\0\0\0world";

/// The setup frame of a session id.
pub(crate) fn setup_of(session_id: u8) -> [u8; 40] {
    let mut frame = [0; 40];
    for (to, from) in frame.iter_mut().zip(SETUP) {
        *to = *from;
    }
    frame[12] = session_id;
    frame
}

/// The setup frame of a session id of stream 9999.
pub(crate) fn setup_of_other(session_id: u8) -> [u8; 40] {
    let mut frame = setup_of(session_id);
    frame[16] = 0x0f;
    frame[17] = 0x27;
    frame
}

/// `hello` of a session id, term 42, offset 0.
pub(crate) fn hello_of(session_id: u8) -> [u8; 37] {
    let mut frame = hello(0);
    frame[12] = session_id;
    frame
}

/// The setup frame of terms of 131,072 bytes from term 42 on, joined at offset 65,472 of it.
const SETUP_OF_LONG_TERM: &[u8] = &[
    0x28, 0, 0, 0, 0, 0, 5, 0, 0xc0, 0xff, 0, 0, 7, 0, 0, 0, 0xe9, 3, 0, 0, 0x2a, 0, 0, 0, 0x2a, 0,
    0, 0, 0, 0, 2, 0, 0x80, 5, 0, 0, 0, 0, 0, 0,
];

/// The header of a pad of 65,536 bytes, which fills term 42 from offset 65,536 on.
const PAD_OF_LONG_TERM: &[u8] = &[
    0, 0, 1, 0, 0, 0xc0, 0, 0, 0, 0, 1, 0, 7, 0, 0, 0, 0xe9, 3, 0, 0, 0x2a, 0, 0, 0, 0, 0, 0, 0, 0,
    0, 0, 0,
];

/// A request for 64 bytes at offset 64 of term 42.
const NAK_AT_64: &[u8] = &[
    0x1c, 0, 0, 0, 0, 0, 2, 0, 7, 0, 0, 0, 0xe9, 3, 0, 0, 0x2a, 0, 0, 0, 0x40, 0, 0, 0, 0x40, 0, 0,
    0,
];

/// A request for 128 bytes at the beginning of term 42.
const NAK_AT_0: &[u8] = &[
    0x1c, 0, 0, 0, 0, 0, 2, 0, 7, 0, 0, 0, 0xe9, 3, 0, 0, 0x2a, 0, 0, 0, 0, 0, 0, 0, 0x80, 0, 0, 0,
];

/// The setup frame of the same publication, joined 64 bytes before the end of term 42.
const SETUP_AT_TERM_END: &[u8] = &[
    0x28, 0, 0, 0, 0, 0, 5, 0, 0xc0, 0xff, 0, 0, 7, 0, 0, 0, 0xe9, 3, 0, 0, 0x2a, 0, 0, 0, 0x2a, 0,
    0, 0, 0, 0, 1, 0, 0x80, 5, 0, 0, 0, 0, 0, 0,
];

/// `hello`, term 42, offset 65,472: it ends with its term.
const HELLO_AT_TERM_END: &[u8] =
    b"\x25\0\0\0\0\xc0\x01\0\xc0\xff\0\0\x07\0\0\0\xe9\x03\0\0\x2a\0\0\0\0\0\0\0\0\0\0\0hello";

/// `hello`, term 43, offset 0.
const HELLO_IN_NEXT_TERM: &[u8] =
    b"\x25\0\0\0\0\xc0\x01\0\0\0\0\0\x07\0\0\0\xe9\x03\0\0\x2b\0\0\0\0\0\0\0\0\0\0\0hello";

/// `hello`, term 43, offset 128.
const HELLO_LATER: &[u8] =
    b"\x25\0\0\0\0\xc0\x01\0\x80\0\0\0\x07\0\0\0\xe9\x03\0\0\x2b\0\0\0\0\0\0\0\0\0\0\0hello";

/// A request for 64 bytes at offset 64 of term 43.
const NAK_IN_NEXT_TERM: &[u8] = &[
    0x1c, 0, 0, 0, 0, 0, 2, 0, 7, 0, 0, 0, 0xe9, 3, 0, 0, 0x2b, 0, 0, 0, 0x40, 0, 0, 0, 0x40, 0, 0,
    0,
];

/// A status message: consumed to the beginning of term 42, a window of five sixteenths of a term, receiver 9.
const STATUS_AT_0: &[u8] = &[
    0x24, 0, 0, 0, 0, 0, 3, 0, 7, 0, 0, 0, 0xe9, 3, 0, 0, 0x2a, 0, 0, 0, 0, 0, 0, 0, 0, 0x50, 0, 0,
    9, 0, 0, 0, 0, 0, 0, 0,
];

/// The same with a window of one MTU.
const STATUS_OF_MTU: &[u8] = &[
    0x24, 0, 0, 0, 0, 0, 3, 0, 7, 0, 0, 0, 0xe9, 3, 0, 0, 0x2a, 0, 0, 0, 0, 0, 0, 0, 0x80, 5, 0, 0,
    9, 0, 0, 0, 0, 0, 0, 0,
];

/// The setup frame of the same publication in terms of 131,072 bytes.
const SETUP_OF_OTHER_TERMS: &[u8] = &[
    0x28, 0, 0, 0, 0, 0, 5, 0, 0, 0, 0, 0, 7, 0, 0, 0, 0xe9, 3, 0, 0, 0x2a, 0, 0, 0, 0x2a, 0, 0, 0,
    0, 0, 2, 0, 0x80, 5, 0, 0, 0, 0, 0, 0,
];

/// Consumed to offset 64 of term 42.
const STATUS_AT_64: &[u8] = &[
    0x24, 0, 0, 0, 0, 0, 3, 0, 7, 0, 0, 0, 0xe9, 3, 0, 0, 0x2a, 0, 0, 0, 0x40, 0, 0, 0, 0, 0x50, 0,
    0, 9, 0, 0, 0, 0, 0, 0, 0,
];

/// Consumed to offset 192 of term 42.
const STATUS_AT_192: &[u8] = &[
    0x24, 0, 0, 0, 0, 0, 3, 0, 7, 0, 0, 0, 0xe9, 3, 0, 0, 0x2a, 0, 0, 0, 0xc0, 0, 0, 0, 0, 0x50, 0,
    0, 9, 0, 0, 0, 0, 0, 0, 0,
];

/// Consumed to offset 128 of term 42.
const STATUS_AT_128: &[u8] = &[
    0x24, 0, 0, 0, 0, 0, 3, 0, 7, 0, 0, 0, 0xe9, 3, 0, 0, 0x2a, 0, 0, 0, 0x80, 0, 0, 0, 0, 0x50, 0,
    0, 9, 0, 0, 0, 0, 0, 0, 0,
];

/// The status message that asks for a setup frame.
const SETUP_ASKED: &[u8] = &[
    0x24, 0, 0, 0, 0, 0x80, 3, 0, 7, 0, 0, 0, 0xe9, 3, 0, 0, 0, 0, 0, 0, 0, 0, 0, 0, 0, 0, 0, 0, 9,
    0, 0, 0, 0, 0, 0, 0,
];

/// A pad of 16,384 bytes at the beginning of term 42.
const PAD_AT_0: &[u8] = &[
    0, 0x40, 0, 0, 0, 0xc0, 0, 0, 0, 0, 0, 0, 7, 0, 0, 0, 0xe9, 3, 0, 0, 0x2a, 0, 0, 0, 0, 0, 0, 0,
    0, 0, 0, 0,
];

/// A pad of 24,576 bytes after it.
const PAD_IN_THE_MIDDLE: &[u8] = &[
    0, 0x60, 0, 0, 0, 0xc0, 0, 0, 0, 0x40, 0, 0, 7, 0, 0, 0, 0xe9, 3, 0, 0, 0x2a, 0, 0, 0, 0, 0, 0,
    0, 0, 0, 0, 0,
];

/// A pad of 24,576 bytes at the end of term 42: it begins within half a term of the first one, and ends past that.
const PAD_AT_TERM_END: &[u8] = &[
    0, 0x60, 0, 0, 0, 0xc0, 0, 0, 0, 0xa0, 0, 0, 7, 0, 0, 0, 0xe9, 3, 0, 0, 0x2a, 0, 0, 0, 0, 0, 0,
    0, 0, 0, 0, 0,
];

/// A heartbeat at the beginning of term 43.
const HEARTBEAT_IN_NEXT_TERM: &[u8] = &[
    0, 0, 0, 0, 0, 0xc0, 1, 0, 0, 0, 0, 0, 7, 0, 0, 0, 0xe9, 3, 0, 0, 0x2b, 0, 0, 0, 0, 0, 0, 0, 0,
    0, 0, 0,
];

/// A request for the last 24,576 bytes of term 42.
const NAK_OF_PAD: &[u8] = &[
    0x1c, 0, 0, 0, 0, 0, 2, 0, 7, 0, 0, 0, 0xe9, 3, 0, 0, 0x2a, 0, 0, 0, 0, 0xa0, 0, 0, 0, 0x60, 0,
    0,
];

/// The datagrams that conversations name.
const DATAGRAMS: [(&'static str, &'static [u8]); 37] = [
    ("HELLO_AT_0", HELLO_AT_0),
    ("HELLO_AT_64", HELLO_AT_64),
    ("HELLO_AT_64_CUT_OFF", HELLO_AT_64_CUT_OFF),
    ("HELLO_AT_128", HELLO_AT_128),
    ("HELLO_AT_192", HELLO_AT_192),
    ("HELLO_FAR_ON", HELLO_FAR_ON),
    ("HELLO_AT_TERM_END", HELLO_AT_TERM_END),
    ("HELLO_IN_NEXT_TERM", HELLO_IN_NEXT_TERM),
    ("HELLO_LATER", HELLO_LATER),
    ("SETUP", SETUP),
    ("SETUP_CUT_OFF", SETUP_CUT_OFF),
    ("SETUP_OF_8", SETUP_OF_8),
    ("WORLD_OF_8_AT_0", WORLD_OF_8_AT_0),
    ("WORLD_OF_8_AT_64", WORLD_OF_8_AT_64),
    ("SETUP_AT_TERM_END", SETUP_AT_TERM_END),
    ("SETUP_AT_64", SETUP_AT_64),
    ("SETUP_AT_192", SETUP_AT_192),
    ("SETUP_FAR_ON", SETUP_FAR_ON),
    ("SETUP_OF_LONG_TERM", SETUP_OF_LONG_TERM),
    ("PAD_OF_LONG_TERM", PAD_OF_LONG_TERM),
    ("NAK_AT_0", NAK_AT_0),
    ("NAK_AT_64", NAK_AT_64),
    ("NAK_AT_128", NAK_AT_128),
    ("NAK_IN_NEXT_TERM", NAK_IN_NEXT_TERM),
    ("STATUS_AT_0", STATUS_AT_0),
    ("STATUS_OF_MTU", STATUS_OF_MTU),
    ("SETUP_OF_OTHER_TERMS", SETUP_OF_OTHER_TERMS),
    ("STATUS_AT_64", STATUS_AT_64),
    ("STATUS_AT_128", STATUS_AT_128),
    ("STATUS_AT_192", STATUS_AT_192),
    ("SETUP_ASKED", SETUP_ASKED),
    ("PAD_AT_0", PAD_AT_0),
    ("PAD_IN_THE_MIDDLE", PAD_IN_THE_MIDDLE),
    ("PAD_AT_TERM_END", PAD_AT_TERM_END),
    ("HEARTBEAT_AT_192", HEARTBEAT_AT_192),
    ("HEARTBEAT_IN_NEXT_TERM", HEARTBEAT_IN_NEXT_TERM),
    ("NAK_OF_PAD", NAK_OF_PAD),
];

/// The datagram of this name, or the name's own bytes where it names none.
pub(crate) fn datagram(name: &str) -> &[u8] {
    for (known, bytes) in DATAGRAMS {
        if known == name {
            return bytes;
        }
    }
    name.as_bytes()
}
