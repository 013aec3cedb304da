//! Which replays can be read. docs/CONTROL.md, "Limits" and "Replays".

ghost use Rattle.std.specs.Prelude.{◌≡◌, MatchBool};
ghost use Rattle.recording_reads.specs.Settled.{IsReadable, has_layout};

use archive_model::{Descriptor, Registration, is_aligned};
use control_core::OpenReplay;
use frame_core::limits::{is_mtu, is_term_length};

/// How many terms a stream has at most.
const TERMS: u64 = 2_147_483_648;

/// Whether a replay of a recording can be read: terms, segments, MTU and start of the recording are in the limits of
/// docs/CONTROL.md, "Limits", and the replay goes on at the start or past it. Does not allocate.
#[tactic(auto, using(crate::proofs::SettledLemmas::readable, crate::proofs::SettledLemmas::unreadable))]
pub fn is_readable(known: &Registration, replay: &OpenReplay) -> bool
    ensures { MatchBool result (IsReadable known.now replay.now) (IsReadable known.now replay.now → ⊥) }
{
    let descriptor = &known.descriptor;
    has_layout(descriptor) && descriptor.start_position <= replay.next
}

/// Whether terms, segments, MTU and start of a recording are such that its frames can be found.
fn has_layout(descriptor: &Descriptor) -> bool
    ensures { result ≡ has_layout descriptor.now }
{
    if !is_term_length(descriptor.term_length) || !is_term_length(descriptor.segment_length) {
        return false;
    }
    if descriptor.term_length > descriptor.segment_length || !is_mtu(descriptor.mtu) {
        return false;
    }
    let terms = u64::from(descriptor.term_length.unsigned_abs());
    is_aligned(descriptor.start_position)
        && descriptor.start_position.unsigned_abs() <= terms * TERMS
}
