//! Lines about images: docs/PROTOCOL.md, "Images" and "Stock". README.md, "Images".

use crate::words::{bytes_of, frame_at, int, message_at, natural, numbers, put_request};
use frame_core::{FrameKind, FrameRef, Refusal, Setup, frames_of_datagram};
use image_core::{BoundedImage, Image, Inserted};
use std::alloc::{AllocError, Global};

/// An image, and one whose stock is bounded.
#[derive(Drop)]
pub(crate) struct Images {
    plain: Option<Image>,
    bounded: Option<BoundedImage>,
}

impl Images {
    /// No image.
    pub fn new() -> Images {
        Images {
            plain: None,
            bounded: None,
        }
    }

    /// The image whose stock is bounded, if there is one.
    pub fn bounded(&self) -> Option<&BoundedImage> {
        self.bounded.as_ref()
    }

    /// Adds what a line is answered, and returns whether its word is one of these.
    pub fn reply(
        &mut self,
        alloc: Global,
        out: &mut String,
        word: &str,
        rest: &str,
    ) -> Result<bool, Refusal> {
        match word {
            "image" => self.begin(alloc, out, rest)?,
            "bounded" => self.begin_bounded(alloc, out, rest)?,
            _ => return self.reply_of_image(alloc, out, word, rest),
        }
        Ok(true)
    }

    /// Begins an image of a setup frame, and adds where it joins.
    fn begin(&mut self, alloc: Global, out: &mut String, digits: &str) -> Result<(), Refusal> {
        let setup = Setup::decode(bytes_of(alloc, digits)?.as_slice())?;
        let image = Image::from_setup(alloc, &setup)?;
        writeln!(out, "joins {}", image.taken())?;
        self.plain = Some(image);
        Ok(())
    }

    /// The same of an image whose stock is bounded.
    fn begin_bounded(
        &mut self,
        alloc: Global,
        out: &mut String,
        digits: &str,
    ) -> Result<(), Refusal> {
        let setup = Setup::decode(bytes_of(alloc, digits)?.as_slice())?;
        let image = BoundedImage::from_setup(alloc, &setup)?;
        writeln!(out, "joins {}", image.taken())?;
        self.bounded = Some(image);
        Ok(())
    }

    /// Adds what a line about an image is answered, if there is one.
    fn reply_of_image(
        &mut self,
        alloc: Global,
        out: &mut String,
        word: &str,
        rest: &str,
    ) -> Result<bool, Refusal> {
        if let Some(image) = &mut self.plain {
            if reply_of_plain(alloc, out, image, word, rest)? {
                return Ok(true);
            }
        }
        match &mut self.bounded {
            Some(image) => reply_of_bounded(alloc, out, image, word, rest),
            None => Ok(false),
        }
    }
}

/// Adds what a line about an image is answered, and returns whether its word is one of these.
fn reply_of_plain(
    alloc: Global,
    out: &mut String,
    image: &mut Image,
    word: &str,
    rest: &str,
) -> Result<bool, Refusal> {
    match word {
        "insert" => {
            let inserted = image.insert(bytes_of(alloc, rest)?.as_slice())?;
            put_inserted(out, &inserted)?;
        }
        "stands" => {
            write!(out, "rebuilt {} high {} ", image.rebuilt(), image.high())?;
            put_request(alloc, out, image.gap())?;
        }
        _ => return Ok(false),
    }
    Ok(true)
}

/// The same of an image whose stock is bounded.
fn reply_of_bounded(
    alloc: Global,
    out: &mut String,
    image: &mut BoundedImage,
    word: &str,
    rest: &str,
) -> Result<bool, Refusal> {
    match word {
        "offer" => {
            let bytes = bytes_of(alloc, rest)?;
            put_offered(out, &offer(alloc, image, bytes.as_slice())?)?;
        }
        "pad" => offer_pad(alloc, out, image, rest)?,
        "messages" => offer_messages(alloc, out, image, rest)?,
        "take" => take(out, image)?,
        "keeps" => {
            write!(out, "rebuilt {} taken {} ", image.rebuilt(), image.taken())?;
            put_request(alloc, out, image.request())?;
        }
        _ => return Ok(false),
    }
    Ok(true)
}

/// Adds what became of the frames of a datagram.
fn put_inserted(out: &mut String, inserted: &Inserted) -> Result<(), AllocError> {
    write!(out, "joined {} dropped {}", inserted.held, inserted.dropped)?;
    if inserted.heartbeat {
        out.push_str(" heartbeat")?;
    }
    if inserted.foreign {
        out.push_str(" foreign")?;
    }
    out.push('\n')
}

/// The same of a datagram that may be lost.
fn put_offered(out: &mut String, offered: &Option<Inserted>) -> Result<(), AllocError> {
    match offered {
        Some(inserted) => put_inserted(out, inserted),
        None => out.push_str("lost\n"),
    }
}

/// Offers the frames of a datagram.
#[tactic(auto, using(frame_core::proofs::DatagramLemmas::datagram_encodable))]
fn offer(
    alloc: Global,
    image: &mut BoundedImage,
    bytes: &[u8],
) -> Result<Option<Inserted>, Refusal> {
    let frames = frames_of_datagram(alloc, bytes)?;
    image.offer(frames.as_slice())
}

/// Offers a frame as a datagram of its own.
fn offer_frame(
    alloc: Global,
    image: &mut BoundedImage,
    frame: &FrameRef<'_>,
) -> Result<Option<Inserted>, Refusal> {
    let mut bytes = frame.header().to_vec(alloc)?;
    bytes.extend_from_slice(frame.payload)?;
    offer(alloc, image, bytes.as_slice())
}

/// How many bytes a term has.
fn term_length(image: &BoundedImage) -> u64 {
    u64::from(image.geometry().term_length.unsigned_abs())
}

/// Offers a pad, and adds what became of it: its position, and how many bytes it fills.
fn offer_pad(
    alloc: Global,
    out: &mut String,
    image: &mut BoundedImage,
    rest: &str,
) -> Result<(), Refusal> {
    let (position, length, _, _) = numbers(rest)?;
    let frame = frame_at(
        FrameKind::Pad,
        term_length(image),
        natural(position)?,
        int(length)?,
        &[],
    );
    put_offered(out, &offer_frame(alloc, image, &frame)?)?;
    Ok(())
}

/// Offers messages one after another, and adds how many joined, were dropped, and were lost: how many there are, the position of the
/// first one, and how many bytes each has with its header.
fn offer_messages(
    alloc: Global,
    out: &mut String,
    image: &mut BoundedImage,
    rest: &str,
) -> Result<(), Refusal> {
    let (count, position, length, _) = numbers(rest)?;
    let length = natural(length)?;
    let mut position = natural(position)?;
    let (mut joined, mut dropped, mut lost) = (0usize, 0usize, 0usize);
    for _ in 0..natural(count)? {
        let frame = message_at(term_length(image), position, length);
        match offer_frame(alloc, image, &frame)? {
            Some(inserted) => {
                joined = joined.wrapping_add(inserted.held);
                dropped = dropped.wrapping_add(inserted.dropped);
            }
            None => lost = lost.wrapping_add(1),
        }
        position = position.wrapping_add(length);
    }
    writeln!(out, "joined {joined} dropped {dropped} lost {lost}")?;
    Ok(())
}

/// Takes a block, and adds where it begins, how many frames it has, and up to where the image is taken then.
fn take(out: &mut String, image: &mut BoundedImage) -> Result<(), Refusal> {
    match image.take_block()? {
        Some(block) => {
            let count = block.frames.len();
            write!(out, "block {} frames {count} ", block.position)?;
            writeln!(out, "taken {}", image.taken())?;
        }
        None => out.push_str("no block\n")?,
    }
    Ok(())
}
