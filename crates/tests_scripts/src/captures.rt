//! Capture files of the archive of a world's disk. README.md, "Commands".

use crate::commands::{add_line, number, put_back};
use crate::world::World;
use archive_export::Span;
use archive_export::capture::Destination;
use archive_report::export_view;
use frame_core::Refusal;
use std::alloc::{AllocError, Global};
use tool_core::Unobserved;

/// Adds what the command of a word answers.
pub(crate) fn obey(
    alloc: Global,
    world: &mut World,
    word: &str,
    rest: &str,
    answer: &mut Vec<u8>,
) -> Result<(), Refusal> {
    match word {
        "export" => export(alloc, world, rest, answer),
        _ => Ok(destination(alloc, rest, answer)?),
    }
}

/// Adds a part of a recording as a capture file, in hexadecimal. Its words are the recording and two positions, `-` for none.
fn export(
    alloc: Global,
    world: &mut World,
    rest: &str,
    answer: &mut Vec<u8>,
) -> Result<(), Refusal> {
    let mut file = Vec::new(alloc);
    exported(alloc, world, rest, &mut file)?;
    Ok(add_hex(alloc, file.as_slice(), answer)?)
}

/// Adds that capture file to a list.
fn exported(
    alloc: Global,
    world: &mut World,
    rest: &str,
    file: &mut Vec<u8>,
) -> Result<(), Refusal> {
    let mut words = rest.split(' ');
    let recording = number(words.next().unwrap_or("")).unwrap_or(-1);
    let from = number(words.next().unwrap_or(""));
    let to = number(words.next().unwrap_or(""));
    let disk = world.take_disk(alloc);
    let span = Span { from, to };
    let done = export_view(alloc, disk, &recording, &span, file, &mut Unobserved);
    put_back(world, done)
}

/// Adds a line with bytes in hexadecimal.
fn add_hex(alloc: Global, bytes: &[u8], answer: &mut Vec<u8>) -> Result<(), AllocError> {
    let digits = hex::encode(alloc, bytes)?;
    add_line(answer, digits.as_str())
}

/// Adds the address and the port to which the datagrams of a channel go.
fn destination(alloc: Global, channel: &str, answer: &mut Vec<u8>) -> Result<(), AllocError> {
    let Destination { address, port } = Destination::of(channel);
    let text = format!(in alloc; "{address}:{port}")?;
    add_line(answer, text.as_str())
}
