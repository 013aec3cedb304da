//! What lines are answered by: an answerer, and a merge of a replay and the live stream. docs/CONTROL.md, "Lines".

ghost use Rattle.std.specs.Prelude.{◌≡◌};
ghost use Rattle.tool_core.specs.Answering.{LineIs, begun_with};

use crate::answerer::{Answerer, record_bytes, write_bytes};
use crate::merging::answer_merge;
use archive_model::Reply;
use control_lines::Line;
use frame_core::Refusal;
use merge_core::Merge;
use std::alloc::Global;

/// What lines are answered by, and change.
#[derive(Drop)]
pub struct ScriptState<A> {
    /// Who answers each line that is not a merge's: an archive, or a part in one that several share.
    pub archive: A,
    /// The merge that was begun last; none before the first one.
    pub merge: Option<Merge>,
}

impl<A> ScriptState<A> {
    /// An answerer, and no merge yet.
    pub fn new(archive: A) -> ScriptState<A>
        ensures { result ≡ begun_with archive }
    {
        ScriptState {
            archive,
            merge: None,
        }
    }

    /// The answerer; the merge goes.
    pub fn into_archive(self) -> A
        ensures { result ≡ self.archive }
    {
        self.archive
    }
}

impl<A: Answerer> ScriptState<A> {
    /// Answers a line that was read, and hands back how the script stands then. Costs what the line asks for.
    pub fn answer(self, alloc: Global, line: &Line) -> (ScriptState<A>, Result<Reply, Refusal>)
        ensures { LineIs A.ways self line.now result.1 result.0 }
    {
        let ScriptState {
            mut archive,
            mut merge,
        } = self;
        let outcome = match line {
            Line::Reopen => {
                let (archive, outcome) = archive.reopen(alloc);
                return (ScriptState { archive, merge }, outcome);
            }
            Line::Compact => {
                let (archive, outcome) = archive.compact(alloc);
                return (ScriptState { archive, merge }, outcome);
            }
            Line::Event(event) => archive.call(alloc, event),
            Line::Write { session, bytes } => {
                write_bytes(alloc, &mut archive, session, bytes.as_slice())
            }
            Line::Block { session, bytes } => {
                record_bytes(alloc, &mut archive, session, bytes.as_slice())
            }
            Line::Merge(line) => answer_merge(alloc, &mut merge, line),
            // A script has no connection that could be sent frames.
            Line::Follow(_) => Err(Refusal::BadLine),
            Line::Quit => Ok(Reply::Bye),
        };
        (ScriptState { archive, merge }, outcome)
    }
}
