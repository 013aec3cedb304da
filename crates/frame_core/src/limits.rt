//! The limits of the archive, by name: docs/CONTROL.md, "Limits".

ghost use Rattle.std.specs.Prelude.{◌≡◌, ◌≤ℤ◌, pos, IsTrue};
ghost use Rattle.frame_core.specs.Limits.{is_mtu, is_term_length};

/// Recordings that an archive has at most.
pub const MAX_RECORDINGS: usize = 1_024;
/// Recorder sessions that are open at most.
pub const MAX_ACTIVE_RECORDERS: usize = 64;
/// Replays that are open at most.
pub const MAX_OPEN_REPLAYS: usize = 64;
/// Bytes of a channel at most.
pub const MAX_CHANNEL_LENGTH: usize = 1_024;
/// Bytes of a channel at most that a catalogue of version 1 can hold.
pub const MAX_SHORT_CHANNEL_LENGTH: usize = 512;
/// Bytes of a source at most.
pub const MAX_SOURCE_LENGTH: usize = 128;
/// Bytes of a term at least.
pub const MIN_TERM_LENGTH: i32 = 65_536;
/// Bytes of a term, and of a segment, at most.
pub const MAX_TERM_LENGTH: i32 = 1_073_741_824;
/// Bytes of a data frame at most, header included, as the MTU may allow them.
pub const MAX_MTU: i32 = 65_504;
/// Bytes of a frame's header.
pub const HEADER_LENGTH: usize = 32;
/// Frames begin at multiples of so many bytes.
pub const FRAME_ALIGNMENT: usize = 32;
/// Bytes that the data frames of a block cover at most.
pub const MAX_BLOCK_LENGTH: usize = 65_536;
/// Frames that a merge of a replay and the live stream holds at most.
pub const MAX_HELD_FRAMES: usize = 4_096;
/// Frames that a poll may ask for at most.
pub const MAX_POLL: i64 = 4_096;
/// Descriptors that a listing may ask for at most.
pub const MAX_LIST: i64 = 1_024;
/// Entries that count in a history at most, and so the greatest history limit.
pub const MAX_HISTORY: u32 = 16_777_216;
/// Bytes of a control line at most, its end not counted.
pub const MAX_LINE_LENGTH: usize = 262_144;
/// Bytes of a datagram at most that a receiver takes.
pub const LONGEST_DATAGRAM: usize = 65_536;
/// Bytes of a status message's frame, which carries no feedback of an application.
pub const STATUS_LENGTH: usize = 36;
/// Blocks that wait at most between the thread that receives them and the one that records them.
pub const MAX_WAITING_BLOCKS: usize = 16;
/// Where recording ids and the numbers of sessions and replays stop.
pub const LAST_NUMBER: i64 = 9_223_372_036_854_775_807;

/// Whether a term may have so many bytes: a power of two from `MIN_TERM_LENGTH` to `MAX_TERM_LENGTH`. Takes no memory.
#[tactic(auto, unfolding(crate::specs::Limits::is_term_length))]
pub fn is_term_length(length: i32) -> bool
    ensures value { result ≡ is_term_length length }
    ensures low { IsTrue result → pos 0 ≤ℤ length }
{
    MIN_TERM_LENGTH <= length && length <= MAX_TERM_LENGTH && (length as u32).is_power_of_two()
}

/// Whether an MTU may be so many bytes: a multiple of 32, more than a header and at most `MAX_MTU`. Takes no memory.
#[tactic(auto, unfolding(crate::specs::Limits::is_mtu))]
pub fn is_mtu(mtu: i32) -> bool
    ensures { result ≡ is_mtu mtu }
{
    mtu > HEADER_LENGTH as i32 && mtu <= MAX_MTU && mtu as u32 % FRAME_ALIGNMENT as u32 == 0
}
