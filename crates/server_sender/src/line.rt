//! The lines `send` and `stop-sending`, and their answers. docs/CONTROL.md, "Sendings".

ghost use Rattle.std.specs.Prelude.{◌≡◌, ◌++◌, ℤ, ℕ, List, FitsSigned, IfOk, IfSome, IfNone, codes, string_bytes};
ghost use Rattle.std.specs.Fmt.{signed_decimal};
ghost use Rattle.std.specs.Int.{w64};
ghost use Rattle.server_sender.specs.Lines.{AreFields, IsEndpoint, IsLine, IsRead, fields_text, sends_line_text, sending_text, stopped_text};
ghost use Rattle.server_sender.specs.Texts.{endpoint_text};

use crate::endpoint::Endpoint;
use std::alloc::{AllocError, Global};
use std::net::SocketAddrV4;

/// What the line `send` asks for.
#[derive(Clone, Copy, Debug)]
pub struct SendFields {
    /// The recording's id.
    pub recording: i64,
    /// Where it begins, in bytes of the stream; -1: at the recording's start.
    pub position: i64,
    /// For how many bytes of the stream; -1: as far as the recording grows.
    pub length: i64,
    /// Where it is sent to.
    pub endpoint: Endpoint,
}

/// A line about a sending.
#[derive(Clone, Copy, Debug)]
pub enum SendLine {
    /// A recording is to be sent.
    Send(SendFields),
    /// The sending of this number is to end.
    Stop(i64),
}

/// The line that a text is, without its end. None if it is neither `send` nor `stop-sending` with its words. Each word is as it is
/// printed: no sign but `-`, no zero in front. AllocError if there is no memory.
pub fn send_line(alloc: Global, text: &[u8]) -> Result<Option<SendLine>, AllocError>
    ensures { IfOk result (λ found. IsRead sends_line_text IsLine text.now found) }
{
    match std::str::from_utf8(text) {
        Ok(text) => line_in(alloc, text),
        Err(_) => Ok(None),
    }
}

/// The line that a text is.
fn line_in(alloc: Global, text: &str) -> Result<Option<SendLine>, AllocError>
    ensures { IfOk result (λ found. IsRead sends_line_text IsLine text.now found) }
{
    if let Some(words) = text.strip_prefix("send ") {
        return sending_of(alloc, words);
    }
    if let Some(word) = text.strip_prefix("stop-sending ") {
        return Ok(stop_of(word));
    }
    Ok(None)
}

/// The line `send` with these words.
fn sending_of(alloc: Global, text: &str) -> Result<Option<SendLine>, AllocError>
    ensures { IfOk result (λ found. IsRead sends_line_text IsLine (codes "send" ++ (codes " " ++ text.now)) found) }
{
    match fields_of(alloc, text)? {
        Some(fields) => Ok(Some(SendLine::Send(fields))),
        None => Ok(None),
    }
}

/// The line `stop-sending` with this word.
fn stop_of(word: &str) -> Option<SendLine>
    ensures { IsRead sends_line_text IsLine (codes "stop-sending" ++ (codes " " ++ word.now)) result }
{
    let number = number_of(word)?;
    Some(SendLine::Stop(number))
}

/// What these words of a line ask for.
fn fields_of(alloc: Global, text: &str) -> Result<Option<SendFields>, AllocError>
    ensures { IfOk result (λ found. IsRead fields_text AreFields text.now found) }
{
    let Some((recording, rest)) = number_before(text) else {
        return Ok(None);
    };
    let Some((position, rest)) = number_before(rest) else {
        return Ok(None);
    };
    let Some((length, rest)) = number_before(rest) else {
        return Ok(None);
    };
    match endpoint_of(alloc, rest)? {
        Some(endpoint) => Ok(Some(SendFields {
            recording,
            position,
            length,
            endpoint,
        })),
        None => Ok(None),
    }
}

/// The number before the first blank, and what is left after that.
fn number_before(text: &str) -> Option<(i64, &str)>
    ensures some { IfSome result (λ found. text.now ≡ signed_decimal found.0 ++ (codes " " ++ found.1.now)) }
    ensures none { IfNone result ((z : ℤ) (rest : List ℕ) → FitsSigned w64 z → ¬ (text.now ≡ signed_decimal z ++ (codes " " ++ rest))) }
{
    let (word, rest) = text.split_once(' ')?;
    let number = number_of(word)?;
    Some((number, rest))
}

/// The number that a word is, as it is printed.
fn number_of(word: &str) -> Option<i64>
    ensures { IsRead signed_decimal (FitsSigned w64) word.now result }
{
    let Ok(value) = word.parse::<i64>() else {
        return None;
    };
    if itoa::Buffer::new().format(value) == word {
        Some(value)
    } else {
        None
    }
}

/// The endpoint that a word is, as it is printed.
fn endpoint_of(alloc: Global, word: &str) -> Result<Option<Endpoint>, AllocError>
    ensures { IfOk result (λ found. IsRead endpoint_text IsEndpoint word.now found) }
{
    let Ok(address) = word.parse::<SocketAddrV4>() else {
        return Ok(None);
    };
    let endpoint = Endpoint::of(&address);
    let printed = format!(in alloc; "{}", endpoint.to_socket())?;
    if printed.as_str() == word {
        Ok(Some(endpoint))
    } else {
        Ok(None)
    }
}

/// The answer to `send`: the number of the sending. AllocError if there is no memory.
pub fn print_sending(alloc: Global, number: u64) -> Result<String, AllocError>
    ensures { IfOk result (λ text. string_bytes text ≡ sending_text number) }
{
    let mut out = String::new(alloc);
    writeln!(out, "sending {number}")?;
    Ok(out)
}

/// The answer to `stop-sending`: how far the receiver had consumed the stream, in bytes of it. AllocError if there is no memory.
pub fn print_stopped(alloc: Global, consumed: u64) -> Result<String, AllocError>
    ensures { IfOk result (λ text. string_bytes text ≡ stopped_text consumed) }
{
    let mut out = String::new(alloc);
    writeln!(out, "stopped-sending {consumed}")?;
    Ok(out)
}
