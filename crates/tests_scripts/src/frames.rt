//! Listings of a file's frames. README.md, "Commands".

use crate::commands::{add_line, size};
use crate::fakes::{FullWriter, broken, slow};
use crate::scripts::add_end;
use archive_commands::{Listing, list_frames};
use frame_core::Refusal;
use std::alloc::Global;
use std::io::{Read, Write};
use tool_core::EarlyEnd;

/// Adds what a line of a word answers. Its rest has a number, and then the parts of a file.
pub(crate) fn obey(
    alloc: Global,
    word: &str,
    rest: &str,
    answer: &mut Vec<u8>,
) -> Result<(), Refusal> {
    let (number, parts) = rest.split_once(' ').unwrap_or((rest, ""));
    let file = file_of(alloc, parts)?;
    if word == "frames-broken" {
        add_line(answer, "before")?;
    }
    list(alloc, word, size(number), file.as_slice(), answer)
}

/// Adds the listing of a file by a word and a number: how many bytes its reader gives at once, or for how many its writer has room.
fn list(
    alloc: Global,
    word: &str,
    number: usize,
    file: &[u8],
    answer: &mut Vec<u8>,
) -> Result<(), Refusal> {
    let ended = match word {
        "frames" => listed(alloc, slow(file, number), answer),
        "frames-broken" => listed(alloc, broken(file, number), answer),
        _ => listed(alloc, file, &mut FullWriter { room: number }),
    };
    match ended {
        Ok(Listing::Whole) => Ok(add_line(answer, "whole")?),
        Ok(Listing::Damaged) => Ok(add_line(answer, "damaged")?),
        Err(end) => add_end(Some(end), answer),
    }
}

/// How the listing of what a reader gives ended.
fn listed<R: Read + Drop, W: Write>(
    alloc: Global,
    reader: R,
    writer: &mut W,
) -> Result<Listing, EarlyEnd> {
    list_frames(alloc, reader, writer)
}

/// The bytes of parts between which there is a blank: each is bytes in hexadecimal, and may have `*` and how often they come.
fn file_of(alloc: Global, parts: &str) -> Result<Vec<u8>, Refusal> {
    let mut file = Vec::new(alloc);
    for part in parts.split(' ') {
        add_part(alloc, &mut file, part)?;
    }
    Ok(file)
}

/// Adds a part.
fn add_part(alloc: Global, file: &mut Vec<u8>, part: &str) -> Result<(), Refusal> {
    let (digits, times) = part.split_once('*').unwrap_or((part, "1"));
    match hex::decode(alloc, digits) {
        Ok(bytes) => add_times(file, bytes.as_slice(), size(times)),
        Err(_) => Err(Refusal::BadLine),
    }
}

/// Adds bytes so many times.
fn add_times(file: &mut Vec<u8>, bytes: &[u8], times: usize) -> Result<(), Refusal> {
    for _ in 0..times {
        file.extend_from_slice(bytes)?;
    }
    Ok(())
}
