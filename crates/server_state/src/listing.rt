//! The answer to the line `images`. docs/SERVING.md, "Which images there are".

ghost use Rattle.std.specs.Prelude.{◌≡◌, ◌++◌, string_bytes, IfOk, OnOk};
ghost use Rattle.server_state.specs.Listing.{image_line_with, image_lines, images_text, number_of_slot, numbered_line, fed_number, session_text};

use std::alloc::{AllocError, Global};
use stream_pairs::{ImageNumber, JoinedImage, Pairs, Place, SessionSlot, StreamPoint};

/// A line for each image, by its number, and a line with how many there are.
pub(crate) fn images_text(alloc: Global, pairs: &Pairs) -> Result<String, AllocError>
    ensures { IfOk result (λ text. string_bytes text ≡ images_text pairs.now) }
{
    let mut out = String::new(alloc);
    put_images(alloc, &mut out, pairs)?;
    writeln!(out, "end {}", pairs.image_count())?;
    Ok(out)
}

fn put_images(alloc: Global, out: &mut String, pairs: &Pairs) -> Result<(), AllocError>
    ensures { OnOk result (string_bytes out.new ≡ string_bytes out.old ++ image_lines pairs.now) }
{
    for (place, image) in pairs.images().iter().enumerate() {
        put_image(alloc, out, pairs, place, image)?;
    }
    Ok(())
}

fn put_image(
    alloc: Global,
    out: &mut String,
    pairs: &Pairs,
    place: Place,
    image: &JoinedImage,
) -> Result<(), AllocError>
    ensures { OnOk result (string_bytes out.new ≡ string_bytes out.old ++ numbered_line pairs.now (place, image.now)) }
{
    if image.has_left {
        return Ok(());
    }
    let session = session_text(alloc, fed_number(pairs, place))?;
    put_line(out, image.number, &image.join, session.as_str())
}

/// The number of the session that the image at a place feeds.
fn fed_number(pairs: &Pairs, place: Place) -> Option<i64>
    ensures { result ≡ fed_number place pairs.now }
{
    match pairs.session_of_image(place) {
        Some(seat) => number_of(pairs.slot(seat)),
        None => None,
    }
}

/// The number of a session.
fn number_of(slot: Option<SessionSlot>) -> Option<i64>
    ensures { result ≡ number_of_slot slot }
{
    match slot {
        Some(slot) => Some(slot.session),
        None => None,
    }
}

fn put_line(
    out: &mut String,
    number: ImageNumber,
    point: &StreamPoint,
    session: &str,
) -> Result<(), AllocError>
    ensures { OnOk result (string_bytes out.new ≡ string_bytes out.old ++ image_line_with number point.now session.now) }
{
    writeln!(
        out,
        "image {} {} {} {} {} {} {} {}",
        number,
        point.publication.session_id,
        point.publication.stream_id,
        point.geometry.initial_term_id,
        point.geometry.term_length,
        point.geometry.mtu,
        point.position,
        session,
    )
}

/// The number of a session, or `-` if there is none.
fn session_text(alloc: Global, session: Option<i64>) -> Result<String, AllocError>
    ensures { IfOk result (λ text. string_bytes text ≡ session_text session) }
{
    match session {
        Some(session) => format!(in alloc; "{session}"),
        None => String::from_str(alloc, "-"),
    }
}
