//! An image and its stock: docs/PROTOCOL.md, "Stock".

ghost use Rattle.std.specs.Prelude.{◌≡◌, ◌≢◌, ◌<◌, ◌≤◌, ◌↔◌, false, length, map, pos, IfErr, IfOk, IsTrue, MatchOption, OnErr};
ghost use Rattle.frame_core.specs.Block.{AreEncodable};
ghost use Rattle.frame_core.specs.FrameEncoding.{frame_of};
ghost use Rattle.frame_core.specs.Setup.{IsUsable};
ghost use Rattle.frame_core.specs.declared.refusal.Refusal.TheVariants.{NoMemory};
ghost use Rattle.image_core.specs.Insert.{tally, uncounted};
ghost use Rattle.image_core.specs.Received.{IsBegun, rebuilt};
ghost use Rattle.image_core.specs.Stock.{Asks, AsksNothing, HoldsItsStock, Offers, kept_bytes};
ghost use Rattle.image_core.specs.Take.{GivesBlock};

use crate::image::Image;
use crate::inserted::Inserted;
use crate::nearness::has_room_for;
use crate::requests::request_of;
use frame_core::{Block, FrameRef, Geometry, Nak, Publication, Refusal, Setup};
use std::alloc::Global;
use std::marker::Model;

/// An image that keeps at most [`STOCK`](crate::STOCK) bytes past what was taken of it. Of each frame that it holds, what it
/// keeps ends within the stock: a message as a whole, and the header of a pad. To a contract it is the image.
#[derive(Drop)]
pub struct BoundedImage {
    image: Image,
}

impl Model for BoundedImage {
    ghost use Rattle.image_core.specs.Received.{Received};
    ghost use Rattle.image_core.specs.Stock.{HoldsItsStock};

    ghost Value = { Received };

    ghost view = { λ b. b.image };

    ghost invariant = { λ b. HoldsItsStock b.image };
}

impl BoundedImage {
    /// As [`Image::from_setup`].
    pub fn from_setup(alloc: Global, setup: &Setup) -> Result<BoundedImage, Refusal>
        ensures begun { IfOk result (IsBegun setup.now) }
        ensures unusable { OnErr result (IsUsable setup.now → ⊥) }
        ensures refusal { IfErr result (λ refusal. refusal ≡ Refusal.BadFrame 0) }
    {
        let image = Image::from_setup(alloc, setup)?;
        Ok(BoundedImage { image })
    }

    /// Offers the frames of a datagram to the image. None if what would be kept of one of them ends past the stock: of a
    /// message all of it, of a pad its header. Then all are lost, as a datagram always may be. NoMemory as of
    /// [`Image::insert_frames`]; nothing changes then. Costs a step for each frame as well.
    pub fn offer(&mut self, frames: &[FrameRef<'_>]) -> Result<Option<Inserted>, Refusal>
        requires { AreEncodable (map frame_of frames.now) }
        ensures offered { IfOk result
            (λ found. Offers self.old (map frame_of frames.now) found self.new) }
        ensures joins { OnErr result
            (0 < (tally (uncounted false) self.old (map frame_of frames.now)).held) }
        ensures memory { IfErr result (λ refusal. refusal ≡ NoMemory) }
        ensures same { OnErr result (self.new ≡ self.old) }
    {
        if !has_room_for(&self.image, frames) {
            return Ok(None);
        }
        let inserted = self.image.insert_frames(frames)?;
        Ok(Some(inserted))
    }

    /// As [`Image::take_block`].
    pub fn take_block(&mut self) -> Result<Option<Block>, Refusal>
        ensures block { IfOk result (λ found. MatchOption found
            ((rebuilt self.old ≡ self.old.from) × (self.new ≡ self.old))
            (λ block. GivesBlock self.old block self.new)) }
        ensures memory { IfErr result (λ refusal. refusal ≡ NoMemory) }
        ensures some { OnErr result (rebuilt self.old ≢ self.old.from) }
        ensures same { OnErr result (self.new ≡ self.old) }
    {
        self.image.take_block()
    }

    /// As [`Image::publication`].
    pub fn publication(&self) -> &Publication
        ensures { result.now ≡ self.now.publication }
    {
        self.image.publication()
    }

    /// As [`Image::geometry`].
    pub fn geometry(&self) -> &Geometry
        ensures { result.now ≡ self.now.geometry }
    {
        self.image.geometry()
    }

    /// Where what was not taken yet begins, in bytes of the stream. What is kept of each held frame ends at most a stock
    /// past it, so all that is kept is no longer than the stock, in no more than 32,768 frames. Does not allocate.
    pub fn taken(&self) -> i64
        ensures value { result ≡ pos self.now.from }
        ensures stock { HoldsItsStock self.now }
        ensures kept { kept_bytes self.now.joined ≤ 1048576 }
        ensures few { length self.now.joined ≤ 32768 }
    {
        self.image.taken()
    }

    /// The rebuild position, in bytes of the stream. Does not allocate.
    pub fn rebuilt(&self) -> i64
        ensures { result ≡ pos (rebuilt self.now) }
    {
        self.image.rebuilt()
    }

    /// Whether something was rebuilt and not taken. Does not allocate.
    pub fn has_block(&self) -> bool
        ensures { IsTrue result ↔ (self.now.from < rebuilt self.now) }
    {
        self.image.taken() < self.image.rebuilt()
    }

    /// A request for what is missing first, as far as the window and the stock have room for it. None where nothing is
    /// missing, or there is no room. Does not allocate.
    pub fn request(&self) -> Option<Nak>
        ensures { MatchOption result (AsksNothing self.now) (Asks self.now) }
    {
        request_of(&self.image)
    }
}
