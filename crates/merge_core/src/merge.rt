//! A merge of a replay and the live stream: docs/PROTOCOL.md, "Merging a replay into the live stream".

ghost use Rattle.std.specs.Prelude.{◌≡◌, ◌≢◌, ◌⊎◌, false, Ok, ◌<◌, ◌≤◌, ◌^◌, ◌+◌, ◌||◌, ◌==◌, ◌≤ℤ◌, ◌<ℤ◌, ◌*ℤ◌, pos, unsigned_abs, OnOk, OnErr, IfOk, IfErr, if◌then◌else◌};
ghost use Rattle.std.specs.Ordering.{nat_cmp};
ghost use Rattle.std.specs.BTreeMap.{is_at};
ghost use Rattle.std.specs.Map.{remove_entry};
ghost use Rattle.std.specs.BTreeSet.{insert_key};
ghost use Rattle.frame_core.specs.FrameEncoding.{aligned_length};
ghost use Rattle.frame_core.specs.declared.refusal.Refusal.TheVariants.{NoMemory};
ghost use Rattle.frame_core.specs.Outcome.{Gives};
ghost use Rattle.merge_core.specs.Merge.{Merging, offer_position, offered_at, held_at, ends_at, is_among};

use frame_core::limits::MAX_HELD_FRAMES;
use frame_core::{Frame, FrameKind, Geometry, Refusal};
use std::alloc::{AllocFailed, Global};
use std::collections::{BTreeMap, BTreeSet};
use std::marker::Model;

/// What became of a frame that was offered.
#[derive(Clone, Copy, Debug, PartialEq, Eq)]
pub enum Offered {
    /// It is held until the output comes to its position.
    Held,
    /// It begins before the cursor, or a frame is held at its position.
    Ignored,
    /// So many frames are held that no other may be.
    Full,
}

/// A replay of a recording and the live stream, which come out as one stream. To a contract it is the cursor, the
/// frames that are held, where the live stream may be joined, and whether it has been.
///
/// At most [`MAX_HELD_FRAMES`] frames are held. An end of a live frame is kept only beside a held frame that ends there,
/// and none is added once the live stream is joined.
#[derive(Drop)]
pub struct Merge {
    geometry: Geometry,
    cursor: u64,
    held: BTreeMap<u64, Frame>,
    live_ends: BTreeSet<u64>,
    is_merged: bool,
}

impl Model for Merge {
    ghost use Rattle.std.specs.Prelude.{◌<◌, ◌^◌, ◌+◌};
    ghost use Rattle.merge_core.specs.Merge.{Merging};
    ghost use Rattle.merge_core.specs.Room.{HaveRoom};

    ghost Value = { Merging };

    ghost view = { λ m. record {
      geometry = m.geometry;
      cursor = m.cursor;
      held = m.held.entries;
      live_ends = m.live_ends.keys;
      is_merged = m.is_merged;
    } };

    ghost invariant = { λ m. (m.cursor < 2 ^ 62 + 2 ^ 33) × HaveRoom m.held.entries };
}

impl Merge {
    ghost use Rattle.merge_core.specs.Merge.{opened_merge, answer_to, after_replay_frame, after_live_frame, after_take, next_frame};

    /// A merge whose output begins at a position, in bytes of the stream. Does not allocate.
    pub fn new(alloc: Global, geometry: Geometry, position: i64) -> Merge
        requires low { pos 0 ≤ℤ position }
        requires high { position <ℤ (pos (2 ^ 31) *ℤ geometry.term_length) }
        ensures { result ≡ opened_merge geometry (unsigned_abs position) }
    {
        Merge {
            geometry,
            cursor: position.unsigned_abs(),
            held: BTreeMap::new(alloc),
            live_ends: BTreeSet::new(alloc),
            is_merged: false,
        }
    }

    /// Where the output stands: the end of the frame that was taken last, or the position at which the merge began, in
    /// bytes of the stream. Does not allocate.
    pub fn cursor(&self) -> i64
        ensures { result ≡ pos self.now.cursor }
    {
        self.cursor as i64
    }

    /// Whether the live stream is joined: the cursor was once the end of a live frame that had been held, or ignored
    /// when its end was the cursor or a held frame had its position and end. Does not allocate.
    pub fn is_merged(&self) -> bool
        ensures { result ≡ self.now.is_merged }
    {
        self.is_merged
    }

    /// Offers a frame of the replay. A heartbeat is refused by `BadBlock`, then a frame without a position by
    /// `BadPosition`, then want of memory by `NoMemory`; nothing has changed then. Costs the logarithm of what is
    /// held.
    pub fn replay_frame(&mut self, frame: Frame) -> Result<Offered, Refusal>
        ensures answer { Gives (λ offered. offered) result (answer_to frame self.old) }
        ensures ok { OnOk result (self.new ≡ after_replay_frame frame self.old) }
        ensures err { OnErr result (self.new ≡ self.old) }
        // Want of memory is answered only where the frame would be held.
        ensures memory { IfErr result (λ refusal. refusal ≡ NoMemory
            → answer_to frame self.old ≡ Ok Offered.Held) }
    {
        let position = position_of(&self.geometry, &frame)?;
        match outcome(self.cursor, &self.held, position) {
            Offered::Held => {
                self.held.insert(position, frame)?;
                Ok(Offered::Held)
            }
            Offered::Ignored => Ok(Offered::Ignored),
            Offered::Full => Ok(Offered::Full),
        }
    }

    /// Offers a live frame. Refuses as [`Merge::replay_frame`]. Costs the logarithm of what is held.
    pub fn live_frame(&mut self, frame: Frame) -> Result<Offered, Refusal>
        ensures answer { Gives (λ offered. offered) result (answer_to frame self.old) }
        ensures ok { OnOk result (self.new ≡ after_live_frame frame self.old) }
        ensures err { OnErr result (self.new ≡ self.old) }
        // Want of memory is answered only where the frame would be held, or is ignored before the live stream is joined.
        ensures memory { IfErr result (λ refusal. refusal ≡ NoMemory
            → (answer_to frame self.old ≡ Ok Offered.Held)
            ⊎ ((answer_to frame self.old ≡ Ok Offered.Ignored) × (self.old.is_merged ≡ false))) }
    {
        let position = position_of(&self.geometry, &frame)?;
        let end = position + frame.aligned_length();
        match outcome(self.cursor, &self.held, position) {
            Offered::Held => {
                self.held.insert(position, frame)?;
                match keep_end(&mut self.live_ends, self.is_merged, self.cursor, end) {
                    Ok(is_merged) => {
                        self.is_merged = is_merged;
                        Ok(Offered::Held)
                    }
                    Err(_) => Err(let_go(&mut self.held, position)),
                }
            }
            Offered::Ignored => {
                if !joins_there(self.cursor, &self.held, position, end) {
                    return Ok(Offered::Ignored);
                }
                self.is_merged = keep_end(&mut self.live_ends, self.is_merged, self.cursor, end)?;
                Ok(Offered::Ignored)
            }
            Offered::Full => Ok(Offered::Full),
        }
    }

    /// The frame that is held at the cursor, if there is one: the cursor is then at its end. Does not allocate. Costs the
    /// logarithm of what is held.
    pub fn take(&mut self) -> Option<Frame>
        ensures frame { result ≡ next_frame self.old }
        ensures after { self.new ≡ after_take self.old }
    {
        let frame = self.held.remove(&self.cursor)?;
        self.cursor += frame.aligned_length();
        self.is_merged = has_joined(self.is_merged, &self.live_ends, self.cursor);
        Some(frame)
    }
}

/// Where a frame lies that is offered.
fn position_of(geometry: &Geometry, frame: &Frame) -> Result<u64, Refusal>
    ensures value { result ≡ offer_position geometry.now frame.now }
    ensures small { IfOk result (λ p. p < 2 ^ 62) }
    ensures refusal { IfErr result (λ refusal. refusal ≢ NoMemory) }
{
    match frame.kind {
        FrameKind::Heartbeat => Err(Refusal::BadBlock),
        FrameKind::Pad | FrameKind::Message => {
            frame.position_in(geometry).ok_or(Refusal::BadPosition)
        }
    }
}

/// What becomes of a frame that is offered at a position.
fn outcome(cursor: u64, held: &BTreeMap<u64, Frame>, position: u64) -> Offered
    ensures { (m : Merging) → m.cursor ≡ cursor → m.held ≡ held.now.entries
        → result ≡ offered_at position m }
{
    if position < cursor || held.contains_key(&position) {
        Offered::Ignored
    } else if held.len() >= MAX_HELD_FRAMES {
        Offered::Full
    } else {
        Offered::Held
    }
}

/// Whether an end is the cursor, or that of the frame that is held at the position.
fn joins_there(cursor: u64, held: &BTreeMap<u64, Frame>, position: u64, end: u64) -> bool
    requires { position < 2 ^ 62 }
    ensures { (m : Merging) → m.cursor ≡ cursor → m.held ≡ held.now.entries
        → result ≡ (end == m.cursor || ends_at end position (held_at position m)) }
{
    end == cursor
        || match held.get(&position) {
            Some(frame) => position + frame.aligned_length() == end,
            None => false,
        }
}

/// Keeps an end at which the live stream may be joined, unless it is joined; and says whether it is.
fn keep_end(
    live_ends: &mut BTreeSet<u64>,
    is_merged: bool,
    cursor: u64,
    end: u64,
) -> Result<bool, AllocFailed<u64>>
    ensures joined { IfOk result (λ joined. joined ≡ (is_merged || end == cursor)) }
    ensures ok { OnOk result (live_ends.new.keys ≡ (
        if is_merged || end == cursor then live_ends.old.keys
        else insert_key nat_cmp live_ends.old.keys end)) }
    ensures err { OnErr result (live_ends.new.keys ≡ live_ends.old.keys) }
    ensures unjoined { OnErr result ((is_merged || end == cursor) ≡ false) }
{
    if is_merged || end == cursor {
        return Ok(true);
    }
    live_ends.insert(end)?;
    Ok(false)
}

/// Lets a frame go whose end could not be kept, for want of memory.
fn let_go(held: &mut BTreeMap<u64, Frame>, position: u64) -> Refusal
    ensures entries { held.new.entries ≡ remove_entry (is_at (nat_cmp position)) held.old.entries }
    ensures refusal { result ≡ NoMemory }
{
    held.remove(&position);
    Refusal::NoMemory
}

/// Whether the live stream is joined where the cursor is.
fn has_joined(is_merged: bool, live_ends: &BTreeSet<u64>, cursor: u64) -> bool
    ensures { result ≡ (is_merged || is_among cursor live_ends.now.keys) }
{
    is_merged || live_ends.contains(&cursor)
}
