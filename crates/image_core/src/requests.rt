//! What is asked for of an image.

ghost use Rattle.std.specs.Prelude.{◌≡◌, ◌<◌, ◌≤ℤ◌, ◌^◌, pos, unsigned_abs, MatchOption};
ghost use Rattle.image_core.specs.Received.{rebuilt};
ghost use Rattle.image_core.specs.Stock.{Asks, AsksNothing, reach};

use crate::image::Image;
use crate::nearness::stock_end;
use frame_core::Nak;

/// A request for the part of the image's gap that its window and its stock have room for.
pub fn request_of(image: &Image) -> Option<Nak>
    ensures { MatchOption result (AsksNothing image.now) (Asks image.now) }
{
    let mut request = image.gap()?;
    let rebuilt = rebuilt(image);
    let reach = reach(image);
    if reach <= rebuilt {
        return None;
    }
    let length = length_of(&request).min(reach - rebuilt);
    request.length = length as i32;
    Some(request)
}

/// Where the image's window and its stock end, whichever is first, in bytes of the stream.
fn reach(image: &Image) -> u64
    ensures { result ≡ reach image.now }
{
    let half_a_term = u64::from(image.geometry().term_length.unsigned_abs()) / 2;
    (rebuilt(image) + half_a_term).min(stock_end(image))
}

/// The rebuild position, in bytes of the stream.
fn rebuilt(image: &Image) -> u64
    ensures position { result ≡ rebuilt image.now }
    ensures small { result < 2 ^ 63 }
{
    image.rebuilt() as u64
}

/// How many bytes a request asks for.
fn length_of(request: &Nak) -> u64
    requires { pos 1 ≤ℤ request.now.length }
    ensures length { result ≡ unsigned_abs request.now.length }
    ensures small { result < 2 ^ 31 }
{
    u64::from(request.length.unsigned_abs())
}
