//! The lines that are sent.

ghost use Rattle.std.specs.Prelude.{◌≡◌, ◌≤◌, ◌↔◌, IfOk, IsTrue, length};
ghost use Rattle.std.specs.List.{All};
ghost use Rattle.control_client.specs.Lines.{AreSendable, HasNoEnd, IsAnsweredByLines, asks_for_frames, text_of, texts};

use memchr::memchr;
use std::alloc::{AllocError, Global};

/// Bytes of lines with their ends that are sent at once at most. A connection takes so many before the server reads any.
pub const MAX_SENT: usize = 65_536;

/// Whether lines may be sent at once: none has a line end inside, and with their ends they are at most `MAX_SENT` bytes. Costs a
/// step for each byte.
pub fn are_sendable(lines: &[&str]) -> bool
    ensures { IsTrue result ↔ AreSendable (texts lines.now) }
{
    are_lines(lines) && fit(lines)
}

/// Whether no line end is inside one of these.
fn are_lines(lines: &[&str]) -> bool
    ensures { IsTrue result ↔ All HasNoEnd (texts lines.now) }
{
    for line in lines {
        if !is_line(line) {
            return false;
        }
    }
    true
}

/// Whether no line end is inside.
pub fn is_line(line: &str) -> bool
    ensures { IsTrue result ↔ HasNoEnd line.now }
{
    memchr(b'\n', line.as_bytes()).is_none()
}

/// Whether each of these is answered by lines: none asks for frames. Costs a step for each.
pub fn are_answered_by_lines(lines: &[&str]) -> bool
    ensures { IsTrue result ↔ All IsAnsweredByLines (texts lines.now) }
{
    for line in lines {
        if !is_answered_by_lines(line) {
            return false;
        }
    }
    true
}

/// Whether a line is answered by lines.
fn is_answered_by_lines(line: &str) -> bool
    ensures { IsTrue result ↔ IsAnsweredByLines line.now }
{
    !asks_for_frames(line)
}

/// Whether a line asks for frames, which come as bytes.
fn asks_for_frames(line: &str) -> bool
    ensures { result ≡ asks_for_frames line.now }
{
    line.as_bytes().starts_with(b"follow ")
}

/// Whether lines with their ends are at most `MAX_SENT` bytes.
fn fit(lines: &[&str]) -> bool
    ensures { IsTrue result ↔ (length (text_of (texts lines.now)) ≤ 65536) }
{
    let mut room = MAX_SENT;
    for line in lines {
        if line.len() >= room {
            return false;
        }
        room -= line.len() + 1;
    }
    true
}

/// The text of lines: each with its end. Costs the text's length.
pub(crate) fn text_of(alloc: Global, lines: &[&str]) -> Result<Vec<u8>, AllocError>
    ensures { IfOk result (λ text. text.items ≡ text_of (texts lines.now)) }
{
    let mut text = Vec::new(alloc);
    for line in lines {
        text.extend_from_slice(line.as_bytes())?;
        text.push(b'\n')?;
    }
    Ok(text)
}
