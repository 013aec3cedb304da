//! Images of publications: docs/PROTOCOL.md, "Images".

ghost use Rattle.std.specs.Prelude.{◌≡◌, ◌≢◌, ◌<◌, ◌≤◌, ◌+◌, ◌&&◌, ◌↔◌, ◌≤ℤ◌, ℕ, pos, length, map, nat_le, IfOk, IfErr, OnOk, OnErr, IsTrue, ◌^◌, ◌*◌, max, unsigned_abs, if◌then◌else◌, None, true, false, MatchOption, []};
ghost use Rattle.std.specs.Vec.{vec_capacity};
ghost use Rattle.frame_core.specs.FrameEncoding.{IsEncodable, aligned_length, frame_of, u16_at};
ghost use Rattle.std.specs.Bool.{MatchBool};
ghost use Rattle.frame_core.specs.Position.{frame_position};
ghost use Rattle.frame_core.specs.Block.{AreEncodable};
ghost use Rattle.frame_core.specs.declared.refusal.Refusal.TheVariants.{NoMemory};
ghost use Rattle.frame_core.specs.Setup.{IsUsable};
ghost use Rattle.image_core.specs.Take.{GivesBlock, IsGap};
ghost use Rattle.image_core.specs.Received.{StandsFor};
ghost use Rattle.image_core.specs.Insert.{Inserts, IsForeign, IsInsertRefusal, TakesIn, tally, uncounted};
ghost use Rattle.image_core.specs.Laws.{LieApart};
ghost use Rattle.image_core.specs.Kept.{HasTerms, IsComing, IsJoining, IsKeptImage, undone};
ghost use Rattle.image_core.specs.Received.{IsBegun, Received, after_frame, begun, fate, frame_fate, gap_end, heartbeat_fate, is_of, is_open, joining_position, rebuilt, received, received_all};

use crate::fate::Fate;
use crate::gaps::{nak_over, term_end};
use crate::held::{chain_end, is_free, next_start, put, withdraw};
use crate::inserted::Inserted;
use crate::joining::{heartbeat_position, joining_position, window};
use crate::taking::{block_length, take_frames};
use byteorder::{ByteOrder, LittleEndian};
use frame_core::{
    Block, Frame, FrameKind, FrameRef, Geometry, Items, Nak, Publication, Refusal, Setup,
    frames_of_datagram,
};
use std::alloc::Global;
use std::collections::BTreeMap;
use std::marker::Model;

/// What a receiver knows of one publication: the frames that joined and that were not taken yet, how far the stream is
/// rebuilt, and its high-water mark. It keeps each frame until it is taken; frames that joined lie at most half a term past
/// the rebuild position, so it keeps what was rebuilt and not taken, and half a term.
#[derive(Drop)]
pub struct Image {
    alloc: Global,
    geometry: Geometry,
    publication: Publication,
    from: u64,
    rebuilt: u64,
    high: u64,
    held: BTreeMap<u64, Frame>,
}

impl Model for Image {
    ghost use Rattle.image_core.specs.Received.{Received};
    ghost use Rattle.image_core.specs.Kept.{IsKeptImage};

    ghost Value = { Received };

    ghost view = { λ i. record {
      geometry = i.geometry;
      publication = i.publication;
      from = i.from;
      joined = i.held.entries;
      high = i.high;
    } };

    ghost invariant = { λ i. IsKeptImage (record {
      geometry = i.geometry;
      publication = i.publication;
      from = i.from;
      joined = i.held.entries;
      high = i.high;
    }) i.rebuilt };
}

impl Image {
    /// An image of the publication that a setup frame tells of, with nothing received. BadFrame with offset 0 where the
    /// frame may not be used: docs/PROTOCOL.md, "Setup frame". Does not allocate.
    pub fn from_setup(alloc: Global, setup: &Setup) -> Result<Image, Refusal>
        ensures begun { IfOk result (IsBegun setup.now) }
        ensures unusable { OnErr result (IsUsable setup.now → ⊥) }
        ensures refusal { IfErr result (λ refusal. refusal ≡ Refusal.BadFrame 0) }
    {
        let position = setup
            .join_position()
            .ok_or(Refusal::BadFrame { offset: 0 })?;
        let publication = Publication {
            session_id: setup.session_id,
            stream_id: setup.stream_id,
        };
        Ok(Image::begun(alloc, setup.geometry(), publication, position as u64))
    }

    /// An image of the publication, with nothing received.
    fn begun(alloc: Global, geometry: Geometry, publication: Publication, position: u64) -> Image
        requires terms { HasTerms geometry }
        requires limit { position ≤ 2 ^ 31 * unsigned_abs geometry.term_length }
        ensures { result ≡ begun geometry publication position }
    {
        Image {
            alloc,
            geometry,
            publication,
            from: position,
            rebuilt: position,
            high: position,
            held: BTreeMap::new(alloc),
        }
    }

    /// Where what was not taken yet begins, in bytes of the stream. The held frames lie one after another from there on.
    /// Does not allocate.
    pub fn taken(&self) -> i64
        ensures value { result ≡ pos self.now.from }
        ensures small { self.now.from ≤ 2 ^ 61 }
        ensures apart { LieApart self.now.from self.now }
    {
        self.from as i64
    }

    /// The terms of the publication. Does not allocate.
    pub fn geometry(&self) -> &Geometry
        ensures { result.now ≡ self.now.geometry }
    {
        &self.geometry
    }

    /// Whose frames it receives. Does not allocate.
    pub fn publication(&self) -> &Publication
        ensures { result.now ≡ self.now.publication }
    {
        &self.publication
    }

    /// The rebuild position, in bytes of the stream: the end of the longest chain of received frames from where the
    /// image joined. Does not allocate.
    pub fn rebuilt(&self) -> i64
        ensures here { result ≡ pos (rebuilt self.now) }
        ensures whole { (all : Received) → StandsFor all self.now → result ≡ pos (rebuilt all) }
    {
        self.rebuilt as i64
    }

    /// The high-water mark, in bytes of the stream: the greatest of the position where the image joined, the ends of the
    /// received frames, and the positions of the publication's heartbeats. Does not allocate.
    pub fn high(&self) -> i64
        ensures here { result ≡ pos self.now.high }
        ensures whole { (all : Received) → StandsFor all self.now → result ≡ pos all.high }
    {
        self.high as i64
    }

    /// A request for what is missing first: from the rebuild position to the nearest received frame behind it, the high
    /// mark or the end of the term, whichever is first. None where the rebuild position is the high-water mark. Takes no
    /// memory. Costs the logarithm of how many frames are held.
    pub fn gap(&self) -> Option<Nak>
        ensures here { MatchOption result (rebuilt self.now ≡ self.now.high) (IsGap self.now) }
        ensures whole { (all : Received) → StandsFor all self.now
            → MatchOption result (rebuilt all ≡ all.high) (IsGap all) }
    {
        if self.rebuilt == self.high {
            return None;
        }
        Some(nak_over(
            &self.geometry,
            &self.publication,
            self.rebuilt,
            self.gap_end(),
        ))
    }

    /// Where the gap ends.
    fn gap_end(&self) -> u64
        requires { rebuilt self.now < self.now.high }
        ensures value { result ≡ gap_end self.now }
        ensures some { rebuilt self.now < result }
        ensures few { result ≤ rebuilt self.now + unsigned_abs self.now.geometry.term_length }
    {
        let next = next_start(&self.held, self.rebuilt, self.high);
        let end = term_end(&self.geometry, self.rebuilt);
        next.min(self.high.min(end))
    }

    /// What becomes of the frames of a datagram, in order. One of at least 8 bytes whose type is neither that of data
    /// nor that of pads is foreign, and changes nothing. BadFrame, with the offset in bytes, where another one is
    /// refused: docs/PROTOCOL.md, "Datagrams". NoMemory where the frames can't be listed or one that joins can't be kept.
    /// A refused datagram changes nothing. Costs for each frame the logarithm of how many are held, and that once more
    /// for each frame by which the rebuild position moves on; a frame is copied only if it joins.
    pub fn insert(&mut self, datagram: &[u8]) -> Result<Inserted, Refusal>
        ensures inserted { IfOk result (λ i. Inserts self.old datagram.now i self.new) }
        ensures refused { IfErr result (IsInsertRefusal datagram.now) }
        ensures same { OnErr result (self.new ≡ self.old) }
    {
        if is_foreign(datagram) {
            return Ok(Inserted::uncounted(true));
        }
        let frames = frames_of_datagram(self.alloc, datagram)?;
        let inserted = self.insert_frames(frames.as_slice())?;
        Ok(inserted)
    }

    /// What becomes of the frames of a datagram, in order. NoMemory where one that joins can't be kept; then none of them
    /// is. Costs for each frame the logarithm of how many are held, and that once more for each frame by which the rebuild
    /// position moves on; a frame is copied only if it joins.
    pub fn insert_frames(&mut self, frames: &[FrameRef<'_>]) -> Result<Inserted, Refusal>
        requires { AreEncodable (map frame_of frames.now) }
        ensures inserted { IfOk result
            (λ i. TakesIn self.old (map frame_of frames.now) i self.new) }
        // Memory lacks only where some frame would join.
        ensures joins { OnErr result
            (0 < (tally (uncounted false) self.old (map frame_of frames.now)).held) }
        ensures memory { IfErr result (λ refusal. refusal ≡ NoMemory) }
        ensures same { OnErr result (self.new ≡ self.old) }
    {
        let rebuilt = self.rebuilt;
        let high = self.high;
        let mut noted = Vec::new(self.alloc);
        let mut inserted = Inserted::uncounted(false);
        for frame in frames {
            match self.take_in(frame, &mut noted) {
                Ok(fate) => inserted = inserted.counted(fate),
                Err(refusal) => {
                    self.leave(noted, rebuilt, high);
                    return Err(refusal);
                }
            }
        }
        Ok(inserted)
    }

    /// A block of the first frames that were not taken, up to the rebuild position: messages that follow one another in
    /// their term within a block's bytes, as many as there are, or one pad: docs/PROTOCOL.md, "Blocks". None where all
    /// frames up to the rebuild position were taken. NoMemory where there is no room for the list of them; nothing
    /// changes then. The image keeps the frames no more. Costs for each frame of the block the logarithm of how many are
    /// held.
    pub fn take_block(&mut self) -> Result<Option<Block>, Refusal>
        ensures block { IfOk result (λ found. MatchOption found
            ((rebuilt self.old ≡ self.old.from) × (self.new ≡ self.old))
            (λ block. GivesBlock self.old block self.new)) }
        ensures memory { IfErr result (λ refusal. refusal ≡ NoMemory) }
        ensures some { OnErr result (rebuilt self.old ≢ self.old.from) }
        ensures same { OnErr result (self.new ≡ self.old) }
    {
        if self.from == self.rebuilt {
            return Ok(None);
        }
        let count = block_length(&self.held, &self.geometry, &self.publication, self.from);
        let mut frames = Vec::with_capacity(self.alloc, count)?;
        let position = self.from as i64;
        let end = take_frames(
            &mut self.held,
            &self.geometry,
            &self.publication,
            self.from,
            &mut frames,
        );
        self.from = end;
        Ok(Some(Block {
            position,
            frames: Items::from_vec(frames),
        }))
    }

    /// Takes in a frame, and notes its position if it joins.
    fn take_in(&mut self, frame: &FrameRef<'_>, noted: &mut Vec<u64>) -> Result<Fate, Refusal>
        requires { IsEncodable (frame_of frame.now) }
        ensures fate { IfOk result (λ it. it ≡ fate self.old (frame_of frame.now)) }
        ensures after { OnOk result (self.new ≡ received self.old (frame_of frame.now)) }
        ensures back { OnOk result ((high : ℕ)
            → undone noted.new.items high self.new ≡ undone noted.old.items high self.old) }
        // Only a frame that joins is copied.
        ensures joins { OnErr result
            ((p : ℕ) × (fate self.old (frame_of frame.now) ≡ Fate.Joins p)) }
        ensures memory { IfErr result (λ refusal. refusal ≡ NoMemory) }
        ensures same { OnErr result (self.new ≡ self.old) }
        ensures unnoted { OnErr result (noted.new.items ≡ noted.old.items) }
    {
        let fate = self.fate(frame);
        match fate {
            Fate::Joins { position } => {
                self.keep(position, frame, noted)?;
                Ok(fate)
            }
            Fate::Tells { position } => {
                self.hear(position);
                Ok(fate)
            }
            Fate::Drops => Ok(fate),
        }
    }

    /// Keeps a frame that joins, and notes its position.
    fn keep(
        &mut self,
        position: u64,
        frame: &FrameRef<'_>,
        noted: &mut Vec<u64>,
    ) -> Result<(), Refusal>
        requires encodable { IsEncodable (frame_of frame.now) }
        requires joins { IsJoining self.old (frame_of frame.now) position }
        ensures after { OnOk result
            (self.new ≡ after_frame self.old (frame_of frame.now) (Fate.Joins position)) }
        ensures back { OnOk result ((high : ℕ)
            → undone noted.new.items high self.new ≡ undone noted.old.items high self.old) }
        ensures memory { IfErr result (λ refusal. refusal ≡ NoMemory) }
        ensures same { OnErr result (self.new ≡ self.old) }
        ensures unnoted { OnErr result (noted.new.items ≡ noted.old.items) }
    {
        noted.reserve(1)?;
        let owned = frame.to_frame(self.alloc)?;
        put(&mut self.held, position, owned)?;
        let reached = chain_end(&self.held, self.rebuilt);
        self.rebuilt = reached;
        self.high = self.high.max(position + frame.aligned_length());
        noted.push_reserved(position);
        Ok(())
    }

    /// Raises the high-water mark to where a heartbeat tells that the publication stands.
    fn hear(&mut self, position: u64)
        requires { position ≤ 2 ^ 31 * unsigned_abs self.old.geometry.term_length }
        ensures { self.new ≡ record self.old { high = max self.old.high position } }
    {
        self.high = self.high.max(position);
    }

    /// Takes frames out again that had joined.
    fn leave(&mut self, positions: Vec<u64>, rebuilt: u64, high: u64)
        requires { IsKeptImage (undone positions.items high self.old) rebuilt }
        ensures { self.new ≡ undone positions.items high self.old }
    {
        withdraw(&mut self.held, positions);
        self.rebuilt = rebuilt;
        self.high = high;
    }

    /// What becomes of a frame.
    fn fate(&self, frame: &FrameRef<'_>) -> Fate
        requires { IsEncodable (frame_of frame.now) }
        ensures fate { result ≡ fate self.now (frame_of frame.now) }
        ensures coming { IsComing self.now (frame_of frame.now) result }
    {
        match frame.kind {
            FrameKind::Pad | FrameKind::Message => self.frame_fate(frame),
            FrameKind::Heartbeat => self.heartbeat_fate(frame),
        }
    }

    /// What becomes of a message or a pad.
    fn frame_fate(&self, frame: &FrameRef<'_>) -> Fate
        requires { IsEncodable (frame_of frame.now) }
        ensures fate { result ≡ frame_fate self.now (frame_of frame.now)
            (joining_position self.now.geometry self.now.publication (frame_of frame.now)) }
        ensures coming { IsComing self.now (frame_of frame.now) result }
    {
        match joining_position(&self.geometry, &self.publication, frame) {
            Some(position) if self.is_open(position, position + frame.aligned_length()) => {
                Fate::Joins { position }
            }
            _ => Fate::Drops,
        }
    }

    /// What becomes of a heartbeat.
    fn heartbeat_fate(&self, frame: &FrameRef<'_>) -> Fate
        ensures fate { result ≡ heartbeat_fate
            (if is_of self.now.publication (frame_of frame.now)
            then frame_position self.now.geometry (frame_of frame.now)
            else None) }
        ensures coming { IsComing self.now (frame_of frame.now) result }
    {
        match heartbeat_position(&self.geometry, &self.publication, frame) {
            Some(position) => Fate::Tells { position },
            None => Fate::Drops,
        }
    }

    /// Whether a range is open to a frame.
    fn is_open(&self, position: u64, end: u64) -> bool
        requires { position < end }
        ensures { result ≡ is_open self.now position end }
    {
        self.rebuilt <= position
            && end <= self.rebuilt + window(&self.geometry)
            && is_free(&self.held, position, end)
    }
}

/// Whether a datagram's type is neither that of data nor that of pads.
#[tactic(auto, unfolding(frame_core::specs::FrameEncoding::u16_at))]
fn is_foreign(datagram: &[u8]) -> bool
    ensures { MatchBool result (IsForeign datagram.now) (IsForeign datagram.now → ⊥) }
{
    datagram.len() >= 8 && LittleEndian::read_u16(&datagram[6..]) > 1
}
