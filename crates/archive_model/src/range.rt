//! Which parameters a new recording may have: docs/CONTROL.md, "Limits".

ghost use Rattle.std.specs.Prelude.{◌≡◌, ◌≤ℤ◌, ◌<ℤ◌, ◌*ℤ◌, pos, IsTrue, ◌==◌, ◌%◌, ◌*◌, ◌^◌, ◌&&◌, ℕ, int_le, nat_lt, not, unsigned_abs, chars};
ghost use Rattle.std.specs.List.{list_any};
ghost use Rattle.std.specs.Char.{is_control};
ghost use Rattle.archive_model.specs.Descriptor.{is_aligned, is_blank, is_channel, is_in_range, is_layout, is_negative, is_origin, is_source, is_start_position, may_begin_at};

use crate::channel::Channel;
use crate::command::StartFields;
use crate::source::SourceIdentity;
use frame_core::limits::{
    FRAME_ALIGNMENT, MAX_CHANNEL_LENGTH, MAX_SOURCE_LENGTH, is_mtu, is_term_length,
};

impl StartFields {
    /// Whether each field is one that a recording may have. Costs the lengths of its channel and source.
    pub fn is_in_range(&self) -> bool
        ensures range { result ≡ is_in_range self.now }
        ensures start { IsTrue result → pos 0 ≤ℤ self.now.start_position }
    {
        if !has_layout(self) {
            return false;
        }
        if !is_start(&self.start_position, &self.term_length) {
            return false;
        }
        if self.timestamp < 0 {
            return false;
        }
        is_origin(&self.channel, &self.source_identity)
    }
}

/// Whether a stream whose terms have that length in bytes may be recorded or merged from a position, in bytes of the
/// stream: docs/CONTROL.md, "Limits".
pub fn may_begin_at(term_length: &i32, position: &i64) -> bool
    ensures range { result ≡ may_begin_at term_length.now position.now }
    ensures low { IsTrue result → pos 0 ≤ℤ position.now }
    ensures high { IsTrue result → position.now <ℤ (pos (2 ^ 31) *ℤ term_length.now) }
{
    if !is_term_length(*term_length) {
        return false;
    }
    is_start(position, term_length)
}

/// Whether a position, in bytes of the stream, is from 0 and a multiple of [`FRAME_ALIGNMENT`]: frames begin and end nowhere
/// else.
#[tactic(auto, unfolding(crate::specs::Descriptor::is_aligned))]
pub fn is_aligned(position: i64) -> bool
    ensures { result ≡ is_aligned position }
{
    position >= 0 && position as u64 % FRAME_ALIGNMENT as u64 == 0
}

/// Whether terms, segments and frames have lengths that fit one another.
#[tactic(auto, unfolding(crate::specs::Descriptor::is_layout))]
fn has_layout(fields: &StartFields) -> bool
    ensures { result ≡ is_layout fields.now }
{
    if !is_term_length(fields.term_length) {
        return false;
    }
    if !is_term_length(fields.segment_length) {
        return false;
    }
    if fields.term_length > fields.segment_length {
        return false;
    }
    is_mtu(fields.mtu)
}

/// Whether a recording may begin there.
#[tactic(auto, unfolding(crate::specs::Descriptor::is_start_position))]
fn is_start(position: &i64, term_length: &i32) -> bool
    ensures range { result ≡ is_start_position position.now term_length.now }
    ensures low { IsTrue result → pos 0 ≤ℤ position.now }
    ensures below { IsTrue result
        → position.now <ℤ pos (2 ^ 31 * unsigned_abs term_length.now) }
{
    if *position < 0 {
        return false;
    }
    let position = *position as u64;
    if position % 32 != 0 {
        return false;
    }
    position < 0x8000_0000 * term_length.unsigned_abs() as u64
}

/// Whether a channel and a source are within their limits: docs/CONTROL.md, "Limits". Costs their lengths.
pub fn is_origin(channel: &Channel, source: &SourceIdentity) -> bool
    ensures { result ≡ is_origin channel.now source.now }
{
    is_channel(channel) && is_source(source)
}

/// Whether a text is a channel: docs/CONTROL.md, "Limits". Costs the text.
#[tactic(auto, unfolding(crate::specs::Descriptor::is_channel))]
fn is_channel(channel: &Channel) -> bool
    ensures { result ≡ is_channel channel.now }
{
    let text = channel.as_str();
    if text.is_empty() {
        return false;
    }
    if text.len() > MAX_CHANNEL_LENGTH {
        return false;
    }
    !has_control(text)
}

/// Whether a text has a control character.
fn has_control(text: &str) -> bool
    ensures { result ≡ list_any is_control (chars text.now) }
{
    text.chars().any(|c| c.is_control())
}

/// Whether a text is a source: docs/CONTROL.md, "Limits". Costs the text.
#[tactic(auto, unfolding(crate::specs::Descriptor::is_source))]
pub fn is_source(source: &SourceIdentity) -> bool
    ensures { result ≡ is_source source.now }
{
    let text = source.as_str();
    if text.len() > MAX_SOURCE_LENGTH {
        return false;
    }
    !has_blank(text)
}

/// Whether a text has a blank or a control character.
fn has_blank(text: &str) -> bool
    ensures { result ≡ list_any is_blank (chars text.now) }
{
    text.chars().any(|c| c == ' ' || c.is_control())
}
