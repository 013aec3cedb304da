//! 200 random calls with a stop after each change of the disk, three crashes and an opening each. What is opened is what
//! the plain book makes of the accepted calls, or of these and the one in flight. Compactions between such calls, each
//! stopped after each of its changes, leave what the book makes of the calls before. Replays between 500 such calls give
//! the frames of the book.

use crate::calls::TERM;
use crate::reference::{LIMIT, Story, polled, text_of_book};
use crate::runs::{Run, survives};
use crate::scene::{compacts, leaves};
use disk_core::MemoryDisk;
use frame_core::Refusal;
use std::alloc::{AllocError, Global};
use std::process::Abort;
use std::test::Fail;

// Numbers by chance, the same in each run.
#[derive(Clone, Copy)]
struct Dice {
    thrown: u32,
}

impl Dice {
    /// A number below another.
    fn below(&mut self, count: u32) -> i64 {
        self.thrown = self
            .thrown
            .wrapping_mul(1_664_525)
            .wrapping_add(1_013_904_223);
        i64::from((self.thrown >> 8).checked_rem(count).unwrap_or(0))
    }
}

/// One of the last two sessions.
fn session_by_chance(dice: &mut Dice, story: &Story) -> i64 {
    let count = i64::try_from(story.sessions.len()).unwrap_or(0);
    let back = dice.below(8).wrapping_div(5);
    count.wrapping_sub(1).wrapping_sub(back)
}

/// The next call, as a line. A session writes by this word.
fn line_by_chance(
    alloc: Global,
    dice: &mut Dice,
    story: &Story,
    write: &str,
) -> Result<String, AllocError> {
    let number = session_by_chance(dice, story);
    let next = story.next_of(number);
    match dice.below(32) {
        0..=1 if story.book.recordings().len() < 4 => {
            format!(in alloc; "start {}", dice.below(8).wrapping_mul(64))
        }
        2..=14 => format!(in alloc; "{write} {number} {next}"),
        15..=17 => format!(in alloc; "pad {number} {next}"),
        18..=22 => format!(in alloc; "settle {number}"),
        throw => line_of_recording(alloc, dice, throw, story, story.recording_of(number)),
    }
}

/// A call on a recording.
fn line_of_recording(
    alloc: Global,
    dice: &mut Dice,
    throw: i64,
    story: &Story,
    recording: i64,
) -> Result<String, AllocError> {
    let end = story.end_of(recording);
    match throw {
        23 => format!(in alloc; "stop {recording} 2000"),
        24..=25 => format!(in alloc; "extend {recording} {end}"),
        26..=27 => {
            let to = end.wrapping_sub(dice.below(3).wrapping_mul(64));
            format!(in alloc; "truncate {recording} {to}")
        }
        28..=29 => {
            let base = end.wrapping_sub(end.wrapping_rem_euclid(TERM));
            format!(in alloc; "purge-segments {recording} {base}")
        }
        30 => format!(in alloc; "purge {recording}"),
        _ => String::from_str(alloc, "sweep"),
    }
}

/// Makes a call by chance.
fn make_call(alloc: Global, run: &mut Run, dice: &mut Dice, write: &str) -> Result<(), Refusal> {
    let line = line_by_chance(alloc, dice, &run.story, write)?;
    run.make(alloc, line.as_str())
}

/// Makes 200 calls by chance in a new archive, or as many until its disk stops after so many changes.
fn play(alloc: Global, run: &mut Run, changes: u64) -> Result<(), Refusal> {
    run.scene.disk().stop_after(changes.wrapping_add(6));
    run.scene.make(alloc, LIMIT)?;
    let mut dice = Dice { thrown: 1 };
    for _ in 0..200 {
        if run.has_stopped {
            break;
        }
        make_call(alloc, run, &mut dice, "write")?;
    }
    Ok(())
}

/// Whether a compaction that stops after so many changes, and a crash then, leave this text.
fn compaction_leaves(
    alloc: Global,
    disk: &MemoryDisk,
    changes: u64,
    text: &[u8],
) -> Result<bool, Refusal> {
    let mut tried = disk.crash(&[0])?;
    tried.stop_after(changes);
    let _ = compacts(alloc, &mut tried);
    leaves(alloc, &tried, text, text)
}

/// The same of a stop after any of its changes.
fn compactions_leave(alloc: Global, disk: &MemoryDisk, text: &[u8]) -> Result<bool, Refusal> {
    for stop in 0..11u64 {
        if !compaction_leaves(alloc, disk, stop, text)? {
            return Ok(false);
        }
    }
    Ok(true)
}

/// Closes the archive once its recordings have stopped: whether each crash of a compaction leaves the text of the book.
fn is_kept(alloc: Global, run: &mut Run) -> Result<bool, Refusal> {
    run.scene.open(alloc)?;
    run.story.restart(alloc)?;
    let text = text_of_book(alloc, &run.story.book)?;
    compactions_leave(alloc, run.scene.disk(), text.as_slice())
}

/// Whether that is so after 60 calls by chance. The archive is compacted then, and goes on.
fn round_survived(alloc: Global, run: &mut Run, dice: &mut Dice) -> Result<bool, Refusal> {
    for _ in 0..60 {
        make_call(alloc, run, dice, "write")?;
    }
    let is_kept = is_kept(alloc, run)?;
    compacts(alloc, run.scene.disk())?;
    run.scene.open(alloc).and(Ok(is_kept))
}

/// Whether each crash of five compactions with calls between them leaves what the book makes of the calls.
fn compactions_survived(alloc: Global, run: &mut Run) -> Result<bool, Refusal> {
    run.scene.make(alloc, LIMIT)?;
    let mut dice = Dice { thrown: 7 };
    for _ in 0..5 {
        if !round_survived(alloc, run, &mut dice)? {
            return Ok(false);
        }
    }
    Ok(true)
}

/// Whether a run whose disk stops after so many changes leaves what it may, and whether it stopped.
fn survived(alloc: Global, changes: u64) -> Result<(bool, bool), Refusal> {
    let mut run = Run::new(alloc);
    let played = play(alloc, &mut run, changes);
    let survived = survives(alloc, &mut run);
    drop(run);
    played.and(survived)
}

// The lines that commands are answered by, and of a sweep that removes a file.
const WORDS: [&str; 8] = [
    "started ",
    "extended ",
    "settled ",
    "stopped ",
    "truncated ",
    "purged ",
    "purged-recording",
    "swept 1",
];

/// Each of the lines is there.
fn has_all(rt: &impl Abort, text: &str) {
    for word in WORDS {
        assert!(rt; text.contains(word), "{word}");
    }
}

/// Plays the calls: each of the lines is among the answers.
fn answers_all(rt: &impl Abort, alloc: Global, run: &mut Run) -> Result<(), Fail> {
    play(alloc, run, 1_000)?;
    has_all(rt, std::str::from_utf8(run.answers.as_slice())?);
    Ok(())
}

/// Among the 200 random calls each command is accepted at least once, so the other tests of this file ask of each.
#[test]
fn each_command_comes_by_chance(rt: HostRuntime) -> Result<(), Fail> {
    let mut run = Run::new(rt.alloc());
    let answered = answers_all(&rt, rt.alloc(), &mut run);
    drop(run);
    answered
}

/// If the disk stops after any change, a crash leaves what the accepted calls made, or these and the one in flight.
#[test]
fn each_stop_leaves_a_beginning_of_the_calls(rt: HostRuntime) -> Result<(), Fail> {
    for changes in 0..1_000 {
        let (survives, has_stopped) = survived(rt.alloc(), changes)?;
        assert!(rt; survives, "{changes}");
        if !has_stopped {
            break;
        }
    }
    Ok(())
}

/// If the disk stops after any change of one of five compactions between random calls, a crash leaves the recordings and
/// frames before it.
#[test]
fn each_stop_of_a_compaction_leaves_the_state(rt: HostRuntime) -> Result<(), Fail> {
    let mut run = Run::new(rt.alloc());
    let survives = compactions_survived(rt.alloc(), &mut run);
    drop(run);
    assert!(rt; survives?);
    Ok(())
}

/// Stops a recording, truncates it by less than two terms and extends it, as far as that is accepted.
fn go_back(alloc: Global, run: &mut Run, recording: i64, throw: i64) -> Result<(), Refusal> {
    let end = run.story.end_of(recording);
    let term = end.wrapping_sub(end.wrapping_rem_euclid(TERM));
    let back = throw.wrapping_rem(2).wrapping_mul(TERM);
    let to = term.wrapping_sub(back).wrapping_add(throw.wrapping_mul(64));
    run.make(alloc, format!(in alloc; "stop {recording} 2000")?.as_str())?;
    run.make(
        alloc,
        format!(in alloc; "truncate {recording} {to}")?.as_str(),
    )?;
    let end = run.story.end_of(recording);
    run.make(
        alloc,
        format!(in alloc; "extend {recording} {end}")?.as_str(),
    )
}

/// Makes a call, of those that write `world` half of the time, or goes back.
fn call_or_go_back(
    alloc: Global,
    run: &mut Run,
    dice: &mut Dice,
    recording: i64,
) -> Result<(), Refusal> {
    match dice.below(48) {
        throw if throw < 6 => go_back(alloc, run, recording, throw),
        throw if throw < 27 => make_call(alloc, run, dice, "world"),
        _ => make_call(alloc, run, dice, "write"),
    }
}

/// Whether a replay gives these frames, and is then done; it may also go on.
fn is_same(text: &[u8], frames: &[u8]) -> bool {
    let frames = frames.strip_suffix(b"done\n").unwrap_or(frames);
    match text.strip_prefix(frames) {
        Some(rest) => rest == b"done\n".as_slice() || rest.starts_with(b"more "),
        None => false,
    }
}

/// Makes a call, and replays the recording of one of the last two sessions: whether that gives the frames of the book.
fn call_and_replay(alloc: Global, run: &mut Run, dice: &mut Dice) -> Result<bool, Refusal> {
    let number = session_by_chance(dice, &run.story);
    let recording = run.story.recording_of(number);
    call_or_go_back(alloc, run, dice, recording)?;
    match run.story.book.recording(&recording) {
        Some(found) => {
            let frames = polled(alloc, found)?;
            let text = run.scene.replayed(alloc, recording)?;
            Ok(is_same(text.as_slice(), frames.as_slice()))
        }
        None => Ok(true),
    }
}

/// Whether the replays between 500 calls give the frames of the book.
fn replays_of(alloc: Global, run: &mut Run, thrown: u32) -> Result<bool, Refusal> {
    run.scene.make(alloc, LIMIT)?;
    let mut dice = Dice { thrown };
    for _ in 0..500 {
        if !call_and_replay(alloc, run, &mut dice)? {
            return Ok(false);
        }
    }
    Ok(true)
}

/// The same of a new archive.
fn replays_are_right(alloc: Global, thrown: u32) -> Result<bool, Refusal> {
    let mut run = Run::new(alloc);
    let are_right = replays_of(alloc, &mut run, thrown);
    drop(run);
    are_right
}

/// The pages of a recording are kept from one replay to the next.
#[test]
fn replays_between_calls_give_the_frames_of_the_book(rt: HostRuntime) -> Result<(), Fail> {
    for thrown in [3, 5, 11] {
        assert!(rt; replays_are_right(rt.alloc(), thrown)?, "{thrown}");
    }
    Ok(())
}
