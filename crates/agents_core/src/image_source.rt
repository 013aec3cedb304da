//! The blocks of an image whose datagrams come from an end: docs/ARCHITECTURE.md, "Blocks from datagrams".

ghost use Rattle.std.specs.Prelude.{◌≡◌, ◌≢◌, ℕ, List, IfOk, IfErr};
ghost use Rattle.std.specs.Bool.{MatchBool};
ghost use Rattle.frame_core.specs.declared.refusal.Refusal.TheVariants.{NoMemory};
ghost use Rattle.agents_core.specs.ImageSource.{GivesFromImage, GivesNoBlock, HasNoBlock, SendsRequest, TakesDatagram};

use crate::block_source::BlockSource;
use frame_core::limits::LONGEST_DATAGRAM;
use frame_core::{Block, Refusal};
use image_core::Image;
use recorder_seats::DatagramEnd;
use std::alloc::Global;
use std::marker::Model;
use std::sync::Wait;

/// The blocks of an image, to which the datagrams of an end are given. To a contract it is the image and the end.
///
/// [`BlockSource::next`] inserts datagrams until there is a block to take. After each that isn't refused the image's gap,
/// where it has one, is asked for once by a NAK frame. A refused datagram changes nothing, and nothing is sent for it:
/// docs/PROTOCOL.md, "Datagrams". It answers None where the end gives no more, and where memory is refused, for a block or
/// for a datagram, which is then lost; asked again it goes on.
#[derive(Drop)]
pub struct ImageSource<E, R> {
    rt: R,
    fed: FedImage<E>,
}

impl<E, R> Model for ImageSource<E, R> {
    ghost use Rattle.agents_core.specs.ImageSource.{SourceState};

    ghost Value = { SourceState E };

    ghost view = { λ s. s.fed };
}

// An image and what it is fed from.
#[derive(Drop)]
struct FedImage<E> {
    image: Image,
    end: E,
    buffer: Vec<u8>,
}

impl<E> Model for FedImage<E> {
    ghost use Rattle.agents_core.specs.ImageSource.{SourceState};

    ghost Value = { SourceState E };

    ghost view = { λ f. record { image = f.image; end = f.end } };
}

impl<E: DatagramEnd + Drop, R: Wait + Drop> ImageSource<E, R> {
    /// The blocks of an image from an end. NoMemory where there is no room for a datagram; the image and the end are let go
    /// then.
    pub fn new(rt: R, alloc: Global, image: Image, end: E) -> Result<ImageSource<E, R>, Refusal>
        ensures made { IfOk result (λ source. source ≡ record { image = image; end = end }) }
        ensures memory { IfErr result (λ refusal. refusal ≡ NoMemory) }
    {
        let buffer = vec![in alloc; 0; LONGEST_DATAGRAM]?;
        Ok(ImageSource {
            rt,
            fed: FedImage { image, end, buffer },
        })
    }

    /// The image, and the end.
    pub fn into_parts(self) -> (Image, E)
        ensures image { result.0 ≡ self.image }
        ensures end { result.1 ≡ self.end }
    {
        let ImageSource { rt: _, fed } = self;
        let FedImage {
            image,
            end,
            buffer: _,
        } = fed;
        (image, end)
    }
}

impl<E: DatagramEnd, R: Wait> BlockSource for ImageSource<E, R> {
    ghost use Rattle.agents_core.specs.ImageSource.{GivesFromImage};

    ghost gives = { λ old block new. GivesFromImage E.receives E.sends old block new };

    fn next(&mut self) -> Option<Block> {
        self.fed.next_block(&self.rt)
    }
}

impl<E: DatagramEnd> FedImage<E> {
    /// The next block, or none where no more datagrams come or memory is refused.
    fn next_block<R: Wait>(&mut self, rt: &R) -> Option<Block>
        ensures { GivesFromImage E.receives E.sends self.old result self.new }
    {
        for _ in rt.forever() {
            match self.image.take_block() {
                Ok(None) => {}
                Ok(Some(block)) => return Some(block),
                Err(_) => return None,
            }
            if !self.take_datagram() {
                return None;
            }
        }
        unreachable!()
    }

    /// Takes the next datagram, and asks for what is missing unless it is refused. Whether the source goes on.
    fn take_datagram(&mut self) -> bool
        requires { HasNoBlock self.old.image }
        ensures { MatchBool result
            ((bytes : List ℕ) × TakesDatagram E.receives E.sends self.old bytes self.new)
            (GivesNoBlock E.receives E.sends self.old self.new) }
    {
        let buffer = self.buffer.as_mut_slice();
        let Some(count) = self.end.receive(buffer) else {
            return false;
        };
        match self.image.insert(&buffer[..count]) {
            Ok(_) => {
                self.request_gap();
                true
            }
            Err(refusal) => goes_on_after(&refusal),
        }
    }

    /// Asks once for what is missing first, where something is.
    fn request_gap(&mut self)
        ensures image { self.new.image ≡ self.old.image }
        ensures sent { SendsRequest E.receives E.sends self.old.image self.old.end self.new.end }
    {
        if let Some(nak) = self.image.gap() {
            self.end.send(&nak.encode());
        }
    }
}

/// Whether a source goes on behind a datagram that was refused: unless memory was.
fn goes_on_after(refusal: &Refusal) -> bool
    ensures { MatchBool result (refusal.now ≢ NoMemory) (refusal.now ≡ NoMemory) }
{
    !matches!(refusal, Refusal::NoMemory)
}
