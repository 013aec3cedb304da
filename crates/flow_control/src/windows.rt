//! Receiver windows: docs/PROTOCOL.md, "Status messages and NAKs of a receiver".

ghost use Rattle.std.specs.Prelude.{◌≡◌, ◌<◌, ◌≤◌, ◌≤ℤ◌, ◌^◌, min, SomeIff};
ghost use Rattle.image_core.specs.Received.{window};
ghost use Rattle.flow_control.specs.Windows.{five_sixteenths, has_window, receiver_window, settled_bound};

use frame_core::Geometry;
use image_core::STOCK;

/// Aeron's initial receiver window, in bytes.
pub const INITIAL_WINDOW: i32 = 131_072;
/// The shortest receiver window that may be asked for, in bytes.
pub const SHORTEST_WINDOW: i32 = 4_096;
/// The longest receiver window that may be asked for, in bytes: the stock of an image.
pub const LONGEST_WINDOW: i32 = 1_048_576;

/// The receiver window of a publication, in bytes: the least of `most`, half a term and the stock of an image. None if the
/// publication's MTU is longer than that: a sender could never send such a frame. Does not allocate.
pub fn window_of(geometry: &Geometry, most: i32) -> Option<i32>
    ensures { let window = receiver_window geometry.now most in
        SomeIff result (geometry.now.mtu ≤ℤ window) window }
{
    if has_window(geometry, most) {
        Some(receiver_window(geometry, most))
    } else {
        None
    }
}

/// The bound of the positions that status messages name, in bytes of the stream, for a window of at most `most` bytes and a
/// stream that is settled up to a position: what they admit then ends at most five sixteenths of a term past that position,
/// if the window is no longer. Does not allocate.
pub fn settled_bound(geometry: &Geometry, most: i32, settled: u64) -> u64
    requires { settled < 2 ^ 63 }
    ensures { result ≡ settled_bound geometry.now most settled }
{
    let window = receiver_window(geometry, most);
    (settled + five_sixteenths(geometry)).saturating_sub(u64::from(window.unsigned_abs()))
}

/// Five sixteenths of a term, in bytes. Does not allocate.
pub fn five_sixteenths(geometry: &Geometry) -> u64
    ensures value { result ≡ five_sixteenths geometry.now }
    ensures small { result < 2 ^ 31 }
{
    u64::from(geometry.term_length.unsigned_abs()) * 5 / 16
}

/// Whether no frame of the publication is longer than its receiver window.
pub fn has_window(geometry: &Geometry, most: i32) -> bool
    ensures { result ≡ has_window geometry.now most }
{
    geometry.mtu <= receiver_window(geometry, most)
}

/// The least of `most`, half a term and the stock of an image, in bytes.
pub fn receiver_window(geometry: &Geometry, most: i32) -> i32
    ensures { result ≡ receiver_window geometry.now most }
{
    most.min(room(geometry) as i32)
}

/// The least of half a term and the stock of an image.
fn room(geometry: &Geometry) -> u64
    ensures room { result ≡ min (window geometry.now) 1048576 }
    ensures small { result ≤ 1048576 }
{
    (u64::from(geometry.term_length.unsigned_abs()) / 2).min(STOCK)
}
