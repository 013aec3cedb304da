//! The vectors of docs/PROTOCOL.md, "Vectors", that these tests name, each once. Session 7, stream 1,001, flags 0xC0 where a frame has them.

/// `hello`, term 42, offset 0.
pub const HELLO_AT_0: &[u8] =
    b"\x25\0\0\0\0\xc0\x01\0\0\0\0\0\x07\0\0\0\xe9\x03\0\0\x2a\0\0\0\0\0\0\0\0\0\0\0hello";

/// `hello`, term 42, offset 64.
pub const HELLO_AT_64: &[u8] =
    b"\x25\0\0\0\0\xc0\x01\0\x40\0\0\0\x07\0\0\0\xe9\x03\0\0\x2a\0\0\0\0\0\0\0\0\0\0\0hello";

/// `hello`, term 42, offset 128.
pub const HELLO_AT_128: &[u8] =
    b"\x25\0\0\0\0\xc0\x01\0\x80\0\0\0\x07\0\0\0\xe9\x03\0\0\x2a\0\0\0\0\0\0\0\0\0\0\0hello";

/// `hello`, term 43, offset 0.
pub const HELLO_IN_NEXT_TERM: &[u8] =
    b"\x25\0\0\0\0\xc0\x01\0\0\0\0\0\x07\0\0\0\xe9\x03\0\0\x2b\0\0\0\0\0\0\0\0\0\0\0hello";

/// A pad of 64, term 42, offset 65,472.
pub const PAD_AT_TERM_END: &[u8] =
    b"\x40\0\0\0\0\xc0\0\0\xc0\xff\0\0\x07\0\0\0\xe9\x03\0\0\x2a\0\0\0\0\0\0\0\0\0\0\0";

/// A pad of 65,536, term 42, offset 0.
pub const PAD_OF_TERM: &[u8] =
    b"\0\0\x01\0\0\xc0\0\0\0\0\0\0\x07\0\0\0\xe9\x03\0\0\x2a\0\0\0\0\0\0\0\0\0\0\0";

/// The setup frame of terms of 65,536 bytes from term 42 on, joined at its beginning.
pub const SETUP: [u8; 40] = [
    0x28, 0, 0, 0, 0, 0, 5, 0, 0, 0, 0, 0, 7, 0, 0, 0, 0xe9, 3, 0, 0, 0x2a, 0, 0, 0, 0x2a, 0, 0, 0,
    0, 0, 1, 0, 0x80, 5, 0, 0, 0, 0, 0, 0,
];
