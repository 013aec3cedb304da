//! The first word that breaks its rule.

ghost use Rattle.std.specs.Prelude.{◌≡◌, ◌&&◌, int_le};
ghost use Rattle.frame_core.specs.Limits.{is_term_length};
ghost use Rattle.archive_model.specs.Descriptor.{is_source};
ghost use Rattle.start_faults.specs.StartFaults.{wrong_word};

use crate::word::StartWord;
use archive_model::{StartFields, is_origin, is_source, may_begin_at};
use frame_core::limits::{is_mtu, is_term_length};

/// The first word of the line, `<source>` before the others, that breaks its rule: why a start is BadParameter. None if each
/// keeps its rule. Costs the lengths of channel and source.
#[tactic(auto, unfolding(crate::specs::StartFaults::wrong_word))]
pub fn wrong_word(fields: &StartFields) -> Option<StartWord>
    ensures { result ≡ wrong_word fields.now }
{
    if !is_source(&fields.source_identity) {
        return Some(StartWord::Source);
    }
    if !is_term_length(fields.term_length) {
        return Some(StartWord::TermLength);
    }
    if !is_mtu(fields.mtu) {
        return Some(StartWord::Mtu);
    }
    if !is_segment_length(fields) {
        return Some(StartWord::SegmentLength);
    }
    if !may_begin_at(&fields.term_length, &fields.start_position) {
        return Some(StartWord::StartPosition);
    }
    if fields.timestamp < 0 {
        return Some(StartWord::Timestamp);
    }
    if !is_origin(&fields.channel, &fields.source_identity) {
        return Some(StartWord::Channel);
    }
    None
}

/// Whether a segment may have the length that is asked for, with terms of that length.
fn is_segment_length(fields: &StartFields) -> bool
    ensures { result ≡ is_term_length fields.now.segment_length && int_le fields.now.term_length fields.now.segment_length }
{
    is_term_length(fields.segment_length) && fields.term_length <= fields.segment_length
}
