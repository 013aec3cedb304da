//! Blocks from datagrams: docs/ARCHITECTURE.md, "Blocks from datagrams". The datagrams are those of docs/PROTOCOL.md, "Vectors".

use agents_core::{BlockSource, DatagramEnd, ImageSource};
use frame_core::{Block, Refusal, Setup};
use image_core::Image;
use std::alloc::Global;
use std::sync::Wait;
use std::test::Fail;

/// `hello`, term 42, offset 0.
const HELLO_AT_0: &[u8] =
    b"\x25\0\0\0\0\xc0\x01\0\0\0\0\0\x07\0\0\0\xe9\x03\0\0\x2a\0\0\0\0\0\0\0\0\0\0\0hello";

/// Its first 20 bytes, which are no frame.
const HELLO_CUT_OFF: &[u8] = b"\x25\0\0\0\0\xc0\x01\0\0\0\0\0\x07\0\0\0\xe9\x03\0\0";

/// `hello`, term 42, offset 64.
const HELLO_AT_64: &[u8] =
    b"\x25\0\0\0\0\xc0\x01\0\x40\0\0\0\x07\0\0\0\xe9\x03\0\0\x2a\0\0\0\0\0\0\0\0\0\0\0hello";

/// `hello`, term 42, offset 128.
const HELLO_AT_128: &[u8] =
    b"\x25\0\0\0\0\xc0\x01\0\x80\0\0\0\x07\0\0\0\xe9\x03\0\0\x2a\0\0\0\0\0\0\0\0\0\0\0hello";

/// The setup frame of terms of 65,536 bytes from term 42 on, joined at its beginning.
const SETUP: &[u8] = &[
    0x28, 0, 0, 0, 0, 0, 5, 0, 0, 0, 0, 0, 7, 0, 0, 0, 0xe9, 3, 0, 0, 0x2a, 0, 0, 0, 0x2a, 0, 0, 0,
    0, 0, 1, 0, 0x80, 5, 0, 0, 0, 0, 0, 0,
];

/// A request for 64 bytes at offset 64 of term 42.
const NAK_AT_64: &[u8] = &[
    0x1c, 0, 0, 0, 0, 0, 2, 0, 7, 0, 0, 0, 0xe9, 3, 0, 0, 0x2a, 0, 0, 0, 0x40, 0, 0, 0, 0x40, 0, 0,
    0,
];

/// Datagrams that come in their order, and how many came; how many requests were sent, and the last of them.
#[derive(Drop)]
struct ListedEnd {
    datagrams: &'static [&'static [u8]],
    given: usize,
    requests: u32,
    last: [u8; 28],
}

impl DatagramEnd for ListedEnd {
    ghost use Rattle.std.specs.Prelude.{⊤};

    ghost receives = { λ old given new. ⊤ };

    ghost sends = { λ old bytes new. ⊤ };

    fn receive(&mut self, into: &mut [u8]) -> Option<usize> {
        let datagram = *self.datagrams.get(self.given)?;
        self.given = self.given.saturating_add(1);
        let count = datagram.len().min(into.len());
        into[..count].copy_from_slice(&datagram[..count]);
        Some(count)
    }

    fn send(&mut self, nak: &[u8; 28]) {
        self.requests = self.requests.saturating_add(1);
        self.last = *nak;
    }
}

/// A value that another thread may have.
fn sent<T: Send>(value: T) -> T {
    value
}

/// Where a block begins, how many frames it has, and at which offset of its term the last of them stands.
fn told(block: Option<Block>) -> Option<(i64, usize, i32)> {
    let block = block?;
    let last = block.frames.as_slice().last()?;
    Some((block.position, block.frames.len(), last.term_offset))
}

/// What three calls of a source give.
fn three_of(source: &mut impl BlockSource) -> [Option<(i64, usize, i32)>; 3] {
    let first = told(source.next());
    let second = told(source.next());
    let third = told(source.next());
    [first, second, third]
}

/// What three calls of a source of these datagrams give, and its end behind them.
fn given<R: Wait + Drop + Send>(
    rt: R,
    alloc: Global,
    datagrams: &'static [&'static [u8]],
) -> Result<([Option<(i64, usize, i32)>; 3], ListedEnd), Refusal> {
    let image = Image::from_setup(alloc, &Setup::decode(SETUP)?)?;
    let end = ListedEnd {
        datagrams,
        given: 0,
        requests: 0,
        last: [0; 28],
    };
    let mut source = sent(ImageSource::new(rt, alloc, image, end)?);
    let given = three_of(&mut source);
    let (_, end) = source.into_parts();
    Ok((given, end))
}

const DATAGRAMS: &[&[u8]] = &[HELLO_AT_0, HELLO_CUT_OFF, HELLO_AT_128, HELLO_AT_64];

/// A source of datagrams gives blocks in order, asks once for what is missing, and gives the rest once that came.
#[test]
fn blocks_come_in_order_behind_a_loss(rt: HostRuntime) -> Result<(), Fail> {
    let (given, end) = given(&rt, rt.alloc(), DATAGRAMS)?;
    assert!(rt; given == [Some((0, 1, 0)), Some((64, 2, 128)), None]);
    assert!(rt; end.requests == 1 && end.last.as_slice() == NAK_AT_64);
    Ok(())
}
