//! Scripts of control lines: the lines of a reader, answered on a writer by the archive of a disk or by any other answerer.
#![tactic(auto)]

mod answerer;
mod answers;
mod archive;
mod checkpoints;
mod compacting;
mod fault;
mod history;
pub mod laws;
mod lines;
mod merging;
mod observer;
mod script;
mod state;

pub use answerer::Answerer;
pub use answers::{write_outcome, write_refusal, write_reply};
pub use archive::ScriptArchive;
pub use checkpoints::{CheckpointOutcome, CheckpointedArchive, is_checkpoint_due};
pub use compacting::compact_disk;
pub use fault::{EarlyEnd, ScriptFault};
pub use history::HistoryUse;
pub use lines::{LineBuffer, MAX_READS, count_read, read_line};
pub use merging::answer_merge;
pub use observer::{Beginning, Observer, Unobserved};
pub use script::{READ_AHEAD, answer_lines, run_checkpointed_script, run_script};
pub use state::ScriptState;
