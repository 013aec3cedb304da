//! Runs of calls next to the plain book: what was accepted, the command in flight as the disk failed, and what a crash leaves then.

use crate::calls::{event_in, told};
use crate::reference::{Story, text_after, text_of_book};
use crate::scene::{Scene, leaves};
use archive_model::{Command, Reply};
use control_core::Event;
use frame_core::Refusal;
use std::alloc::Global;

/// A run of calls over an archive.
#[derive(Drop)]
pub struct Run {
    /// The book of what was accepted.
    pub story: Story,
    /// What that was answered.
    pub answers: Vec<u8>,
    /// The command that was in flight as a call of the disk failed.
    pub doubt: Option<Command>,
    /// Whether one failed.
    pub has_stopped: bool,
    /// The disk and the archive.
    pub scene: Scene,
}

impl Run {
    /// A run over a new disk.
    pub fn new(alloc: Global) -> Run {
        Run {
            story: Story::new(alloc),
            answers: Vec::new(alloc),
            doubt: None,
            has_stopped: false,
            scene: Scene::new(alloc),
        }
    }

    /// Notes a call that was accepted.
    fn note(&mut self, alloc: Global, event: Event, reply: &Reply) -> Result<(), Refusal> {
        self.answers.append(&mut told(alloc, reply)?)?;
        self.story.note(alloc, event, end_of(reply))
    }

    /// Makes a call.
    fn step(&mut self, alloc: Global, event: Event) -> Result<(), Refusal> {
        match self.scene.step(alloc, &event) {
            Ok(reply) => self.note(alloc, event, &reply),
            Err(Refusal::DeviceFault) => {
                self.has_stopped = true;
                self.doubt = self.story.command(alloc, event);
                Ok(())
            }
            Err(_) => Ok(()),
        }
    }

    /// Makes the call of a line.
    pub fn make(&mut self, alloc: Global, line: &str) -> Result<(), Refusal> {
        self.step(alloc, event_in(alloc, line)?)
    }
}

/// Where a block ends that is written.
fn end_of(reply: &Reply) -> i64 {
    match reply {
        Reply::Written { position } => *position,
        _ => 0,
    }
}

/// Whether a crash leaves the book before the command that was in flight, or after it and a restart; and whether a call of the disk
/// failed.
pub fn survives(alloc: Global, run: &mut Run) -> Result<(bool, bool), Refusal> {
    let before = text_of_book(alloc, &run.story.book)?;
    let after = text_after(alloc, &mut run.story.book, run.doubt.as_ref())?;
    let survives = leaves(alloc, run.scene.disk(), before.as_slice(), after.as_slice())?;
    Ok((survives, run.has_stopped))
}
