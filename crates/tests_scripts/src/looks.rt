//! Commands that only look at the archive of a world's disk. README.md, "Commands".

use crate::archives::name_of;
use crate::commands::{add_line, number, put_back, refused};
use crate::world::World;
use archive_report::{Finding, Form, Moment, describe_archive, list_view, verify_view};
use archive_view::{ArchiveView, ReadOnly};
use catalogue_log::Hidden;
use disk_core::MemoryDisk;
use engine_core::OpenRefusal;
use frame_core::Refusal;
use std::alloc::Global;
use tool_core::Unobserved;

/// Adds what the command of a word answers.
pub(crate) fn obey(
    alloc: Global,
    world: &mut World,
    word: &str,
    rest: &str,
    answer: &mut Vec<u8>,
) -> Result<(), Refusal> {
    match word {
        "list-read-only" => list(alloc, world, answer),
        "verify-read-only" => verify(alloc, world, rest, answer),
        "describe" => describe(alloc, world, rest, Form::Page, answer),
        "describe-json" => describe(alloc, world, rest, Form::Json, answer),
        "hidden" => hidden(alloc, world, answer),
        _ => moment(alloc, rest, answer),
    }
}

/// Adds the recordings as they stand.
fn list(alloc: Global, world: &mut World, answer: &mut Vec<u8>) -> Result<(), Refusal> {
    let disk = world.take_disk(alloc);
    let done = list_view(alloc, disk, answer, &mut Unobserved);
    put_back(world, done)
}

/// Adds what is verified of each recording as it stands, or of the one that is asked for, and what was found.
fn verify(
    alloc: Global,
    world: &mut World,
    asked: &str,
    answer: &mut Vec<u8>,
) -> Result<(), Refusal> {
    let disk = world.take_disk(alloc);
    match verify_view(alloc, disk, number(asked), answer, &mut Unobserved) {
        Ok((disk, finding)) => {
            world.put_disk(disk);
            add_finding(&finding, answer)
        }
        Err(fault) => Err(refused(world, fault)),
    }
}

/// Adds a line with the verdict, and one that says whether the archive is moving.
fn add_finding(finding: &Finding, answer: &mut Vec<u8>) -> Result<(), Refusal> {
    add_line(answer, name_of(finding.verdict))?;
    let moving = if finding.is_moving {
        "moving"
    } else {
        "not moving"
    };
    Ok(add_line(answer, moving)?)
}

/// Adds what is known of the archive, or of the recording that is asked for, in a form.
fn describe(
    alloc: Global,
    world: &mut World,
    asked: &str,
    form: Form,
    answer: &mut Vec<u8>,
) -> Result<(), Refusal> {
    let disk = world.take_disk(alloc);
    let done = describe_archive(alloc, disk, number(asked), form, answer, &mut Unobserved);
    put_back(world, done)
}

/// Adds whether an entry past the closed gate may have been answered: `none`, `last` if no other entry follows it, or `followed`.
fn hidden(alloc: Global, world: &mut World, answer: &mut Vec<u8>) -> Result<(), Refusal> {
    let found = hidden_entry(alloc, world)?;
    Ok(add_line(answer, hidden_name(&found))?)
}

/// The entry past the closed gate of the disk's catalogue that may have been answered, if there is one.
fn hidden_entry(alloc: Global, world: &mut World) -> Result<Option<Hidden>, Refusal> {
    let disk = world.take_disk(alloc);
    match ArchiveView::open(alloc, ReadOnly::new(disk)) {
        Ok(view) => hidden_in(alloc, world, view),
        Err(OpenRefusal { refusal, disk }) => {
            world.put_disk(disk.into_disk());
            Err(refusal)
        }
    }
}

/// That entry of an archive that is looked at, whose disk goes back.
fn hidden_in(
    alloc: Global,
    world: &mut World,
    view: ArchiveView<MemoryDisk>,
) -> Result<Option<Hidden>, Refusal> {
    let mut view = view;
    let found = view.hidden_entry(alloc);
    world.put_disk(view.into_disk().into_disk());
    found
}

/// Such an entry as a word.
fn hidden_name(found: &Option<Hidden>) -> &'static str {
    match found {
        None => "none",
        Some(hidden) if hidden.is_followed => "followed",
        Some(_) => "last",
    }
}

/// Adds a moment with all digits of its milliseconds.
fn moment(alloc: Global, millis: &str, answer: &mut Vec<u8>) -> Result<(), Refusal> {
    let moment = Moment(number(millis).unwrap_or(0));
    let text = moment.to_string(alloc)?;
    Ok(add_line(answer, text.as_str())?)
}
