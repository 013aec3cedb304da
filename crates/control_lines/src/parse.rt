//! Control lines read. docs/CONTROL.md, "Lines".

ghost use Rattle.std.specs.Prelude.{◌≡◌, ◌++◌, false, true};
ghost use Rattle.control_lines.specs.Table.{start_row, start_from_row, extend_row, catalogue_rows, asking_rows, archive_rows, merge_rows, rows};
ghost use Rattle.control_lines.specs.Lines.{Reads, copies_by, line_copies, line_of, read, read_by, read_copies, read_of, text_copies, text_of};

use crate::line::{FollowFields, Line};
use crate::merge_line::MergeLine;
use crate::words::Words;
use archive_model::{ExtendFields, SourceIdentity, StartFields};
use control_core::{Event, FindFields, Request};
use frame_core::Refusal;
use frame_core::limits::MAX_LINE_LENGTH;
use std::alloc::Global;

/// Lines to a merge, and the last one.
fn merge_line(alloc: Global, word: &str, words: &mut Words) -> Result<Line, Refusal>
    ensures { Reads (copies_by merge_rows word.now) (λ line. (line, words.new)) result
        (read_by merge_rows word.now words.old) }
{
    Ok(match word {
        "merge" => Line::Merge(MergeLine::Open {
            initial_term_id: words.int()?,
            term_length: words.int()?,
            position: words.long()?,
        }),
        "merge-replay" => Line::Merge(MergeLine::Replay(words.bytes(alloc)?)),
        "merge-live" => Line::Merge(MergeLine::Live(words.bytes(alloc)?)),
        "merge-take" => Line::Merge(MergeLine::Take),
        "merge-state" => Line::Merge(MergeLine::State),
        "quit" => Line::Quit,
        _ => return Err(Refusal::BadLine),
    })
}

/// Lines on replays and on the archive as a whole, before those.
fn archive_line(alloc: Global, word: &str, words: &mut Words) -> Result<Line, Refusal>
    ensures { Reads (copies_by (archive_rows ++ merge_rows) word.now) (λ line. (line, words.new)) result
        (read_by (archive_rows ++ merge_rows) word.now words.old) }
{
    Ok(match word {
        "replay" => Line::Event(Event::ReplayOpen {
            recording: words.long()?,
            position: words.long()?,
            length: words.long()?,
        }),
        "poll" => Line::Event(Event::ReplayPoll {
            replay: words.long()?,
            max: words.long()?,
        }),
        "poll-to" => Line::Event(Event::ReplayPollTo {
            replay: words.long()?,
            max: words.long()?,
            limit: words.long()?,
        }),
        "close" => Line::Event(Event::ReplayClose {
            replay: words.long()?,
        }),
        "follow" => Line::Follow(FollowFields {
            recording: words.long()?,
            position: words.long()?,
            length: words.long()?,
        }),
        "sweep" => Line::Event(Event::Sweep),
        "checkpoint" => Line::Event(Event::Checkpoint),
        "verify" => Line::Event(Event::Verify {
            recording: words.long()?,
        }),
        "reopen" => Line::Reopen,
        "compact" => Line::Compact,
        _ => return merge_line(alloc, word, words),
    })
}

/// Requests that change nothing, before those.
fn asking_line(alloc: Global, word: &str, words: &mut Words) -> Result<Line, Refusal>
    ensures { Reads (copies_by (asking_rows ++ (archive_rows ++ merge_rows)) word.now) (λ line. (line, words.new)) result
        (read_by (asking_rows ++ (archive_rows ++ merge_rows)) word.now words.old) }
{
    Ok(Line::Event(Event::Ask(match word {
        "list" => Request::List {
            from: words.long()?,
            count: words.long()?,
        },
        "find" => Request::Find(FindFields {
            least: words.long()?,
            stream_id: words.int()?,
            session_id: words.int()?,
            fragment: words.text(alloc)?,
        }),
        "positions" => Request::Positions {
            recording: words.long()?,
        },
        "source" => Request::Source {
            recording: words.long()?,
        },
        _ => return archive_line(alloc, word, words),
    })))
}

/// Requests that change the catalogue and open no recorder session, before those.
fn catalogue_line(alloc: Global, word: &str, words: &mut Words) -> Result<Line, Refusal>
    ensures { Reads (copies_by (catalogue_rows ++ (asking_rows ++ (archive_rows ++ merge_rows))) word.now) (λ line. (line, words.new)) result
        (read_by (catalogue_rows ++ (asking_rows ++ (archive_rows ++ merge_rows))) word.now words.old) }
{
    Ok(Line::Event(Event::Ask(match word {
        "stop" => Request::Stop {
            recording: words.long()?,
            timestamp: words.long()?,
        },
        "truncate" => Request::Truncate {
            recording: words.long()?,
            position: words.long()?,
        },
        "purge-segments" => Request::PurgeSegments {
            recording: words.long()?,
            position: words.long()?,
        },
        "purge" => Request::PurgeRecording {
            recording: words.long()?,
        },
        _ => return asking_line(alloc, word, words),
    })))
}

fn start_line(alloc: Global, words: &mut Words) -> Result<Line, Refusal>
    ensures { Reads true (λ line. (line, words.new)) result
        (read start_row.fields start_row.line words.old) }
{
    Ok(Line::Event(Event::Ask(Request::Start(StartFields {
        stream_id: words.int()?,
        session_id: words.int()?,
        initial_term_id: words.int()?,
        term_length: words.int()?,
        mtu: words.int()?,
        segment_length: words.int()?,
        start_position: words.long()?,
        timestamp: words.long()?,
        channel: words.text(alloc)?,
        source_identity: SourceIdentity::none(alloc),
    }))))
}

fn start_from_line(alloc: Global, words: &mut Words) -> Result<Line, Refusal>
    ensures { Reads true (λ line. (line, words.new)) result
        (read start_from_row.fields start_from_row.line words.old) }
{
    Ok(Line::Event(Event::Ask(Request::Start(StartFields {
        source_identity: words.plain(alloc)?,
        stream_id: words.int()?,
        session_id: words.int()?,
        initial_term_id: words.int()?,
        term_length: words.int()?,
        mtu: words.int()?,
        segment_length: words.int()?,
        start_position: words.long()?,
        timestamp: words.long()?,
        channel: words.text(alloc)?,
    }))))
}

fn extend_line(words: &mut Words) -> Result<Line, Refusal>
    ensures { Reads false (λ line. (line, words.new)) result
        (read extend_row.fields extend_row.line words.old) }
{
    Ok(Line::Event(Event::Ask(Request::Extend(ExtendFields {
        recording: words.long()?,
        stream_id: words.int()?,
        session_id: words.int()?,
        initial_term_id: words.int()?,
        term_length: words.int()?,
        mtu: words.int()?,
        join_position: words.long()?,
    }))))
}

/// Lines that open a recorder session or write by one, before those.
fn recorder_line(alloc: Global, word: &str, words: &mut Words) -> Result<Line, Refusal>
    ensures { Reads (copies_by rows word.now) (λ line. (line, words.new)) result
        (read_by rows word.now words.old) }
{
    Ok(match word {
        "start" => start_line(alloc, words)?,
        "start-from" => start_from_line(alloc, words)?,
        "extend" => extend_line(words)?,
        "write" => Line::Write {
            session: words.long()?,
            bytes: words.bytes(alloc)?,
        },
        "settle" => Line::Event(Event::Settle {
            session: words.long()?,
        }),
        "block" => Line::Block {
            session: words.long()?,
            bytes: words.bytes(alloc)?,
        },
        _ => return catalogue_line(alloc, word, words),
    })
}

#[tactic(auto, unfolding(crate::specs::Lines::text_of, crate::specs::Lines::text_copies))]
fn line_of_text(alloc: Global, text: &str) -> Result<Line, Refusal>
    ensures { Reads (text_copies text.now) (λ x. x) result (text_of text.now) }
{
    let mut words = Words::new(text);
    let word = words.word()?;
    let line = recorder_line(alloc, word, &mut words)?;
    if words.is_empty() {
        Ok(line)
    } else {
        Err(Refusal::BadLine)
    }
}

#[tactic(auto, unfolding(crate::specs::Lines::read_of, crate::specs::Lines::read_copies))]
fn line_of_bytes(alloc: Global, line: &[u8]) -> Result<Line, Refusal>
    ensures { Reads (read_copies line.now) (λ x. x) result (read_of line.now) }
{
    match std::str::from_utf8(line) {
        Ok(text) => line_of_text(alloc, text),
        Err(_) => Err(Refusal::BadLine),
    }
}

/// The line that these bytes are, their end not among them: docs/CONTROL.md, "Lines". Costs their length.
///
/// `BadLine` where they are none that the grammar has, also where they are more than 262,144; `NoMemory` where a source, a
/// channel, a fragment or bytes find no memory, and of no line whose first word has none of these.
#[tactic(auto, unfolding(crate::specs::Lines::line_of, crate::specs::Lines::line_copies))]
pub fn parse_line(alloc: Global, line: &[u8]) -> Result<Line, Refusal>
    ensures { Reads (line_copies line.now) (λ x. x) result (line_of line.now) }
{
    if line.len() > MAX_LINE_LENGTH {
        return Err(Refusal::BadLine);
    }
    line_of_bytes(alloc, line)
}
