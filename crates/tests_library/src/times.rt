//! Files of times: docs/SERVING.md, "When a frame was recorded"; docs/CONTROL.md, "When a frame was recorded".

ghost use Rattle.std.specs.Prelude.{Some};

use recorded_times::{
    AnswerFault, SearchFault, TimesFile, TimesLine, TimesName, added_text, answer, due_line,
    is_name_of, last_line, moment_of,
};
use std::alloc::{AllocError, Global};
use std::io::{self, ErrorKind};
use std::test::*;

/// A file with these bytes.
#[derive(Clone, Copy, Drop)]
struct Bytes<'a>(&'a [u8]);

impl TimesFile for Bytes<'_> {
    ghost bytes = { λ file. Some file.0.now };

    fn size(&self) -> u64 {
        self.0.len() as u64
    }

    fn fill(&self, at: u64, into: &mut [u8]) -> io::Result<()> {
        let Ok(at) = usize::try_from(at) else {
            return Err(io::Error::from(ErrorKind::UnexpectedEof));
        };
        if at > self.0.len() || into.len() > self.0.len() - at {
            return Err(io::Error::from(ErrorKind::UnexpectedEof));
        }
        into.copy_from_slice(&self.0[at..at + into.len()]);
        Ok(())
    }
}

/// A file that has bytes, and whose reads fail.
#[derive(Clone, Copy, Drop)]
struct Unreadable;

impl TimesFile for Unreadable {
    fn size(&self) -> u64 {
        7
    }

    fn fill(&self, _at: u64, _into: &mut [u8]) -> io::Result<()> {
        Err(io::Error::from(ErrorKind::Other))
    }
}

/// Whether the answer of a file at a time is this text.
fn answers(alloc: Global, bytes: &[u8], time: u64, text: &str) -> bool {
    let mut out = Vec::new(alloc);
    answer(alloc, &Bytes(bytes), time, &mut out).is_ok() && out.as_slice() == text.as_bytes()
}

/// Files, each with a time and what is answered then.
const STOOD: &str = "100 64\n200 128\n300 192\n@99@none before 99\n#\
100 64\n200 128\n300 192\n@100@position 64 from 100 to 200\n#\
100 64\n200 128\n300 192\n@299@position 128 from 200 to 300\n#\
100 64\n200 128\n300 192\n@300@position 192 from 300 to -1\n#\
100 64\n100 128\n@100@position 128 from 100 to -1\n#\
@5@none before 5\n#\
\n\n@5@none before 5\n#\
100 64\n200 1@400@position 64 from 100 to -1\n#\
100 64\n200 1-\n300 192\n@250@position 64 from 100 to 300\n#\
100 64\n-\n300 192\n@300@position 192 from 300 to -1\n#\
100 64\n\0\0\0\0\n300 192\n@250@position 64 from 100 to 300\n#\
0100 64\n@400@none before 400\n#\
100  64\n@400@none before 400\n#\
100 64 \n@400@none before 400\n#\
+100 64\n@400@none before 400\n#\
1 18446744073709551616\n@400@none before 400\n#\
1 18446744073709551615\n@1@position 18446744073709551615 from 1 to -1\n";

/// Whether a file's answer is the one of a case, whose parts have an `@` between them.
fn is_answered(alloc: Global, case: &str) -> bool {
    let mut parts = case.split('@');
    let bytes = parts.next().unwrap_or("").as_bytes();
    let time = parts.next().unwrap_or("").parse::<u64>();
    let text = parts.next().unwrap_or("");
    match time {
        Ok(time) => answers(alloc, bytes, time, text),
        Err(_) => false,
    }
}

/// A file has at a time the last line at or before it, and until when it stood; lines that were torn, and texts that are no line, are
/// passed over.
#[test]
fn where_a_recording_stood(rt: HostRuntime) {
    for case in STOOD.split('#') {
        assert!(rt; is_answered(rt.alloc(), case), "{case}");
    }
}

/// Adds the line of an index, and before one of them what a crash may leave.
fn add_line(alloc: Global, bytes: &mut Vec<u8>, index: u64) -> Result<(), AllocError> {
    let line = TimesLine {
        millis: 1_764_000_000_000 + index % 200_000 * 1_000,
        position: index % 200_000 * 64,
    };
    if index == 100_000 {
        bytes.extend_from_slice(&[0; 5_000])?;
    }
    bytes.extend_from_slice(added_text(alloc, index != 100_000, &line)?.as_slice())
}

/// A file of 200,000 lines, a second apart, with bytes of zero in it that a crash may leave.
fn long_file(alloc: Global) -> Result<Vec<u8>, AllocError> {
    let mut bytes = Vec::new(alloc);
    for index in 0..200_000u64 {
        add_line(alloc, &mut bytes, index)?;
    }
    Ok(bytes)
}

/// A file that is longer than what is read at once is searched by halves.
#[test]
fn a_long_file(rt: HostRuntime) -> Result<(), Fail> {
    let bytes = long_file(rt.alloc())?;
    for (time, text) in [
        (0, "none before 0\n"),
        (1_763_999_999_999, "none before 1763999999999\n"),
        (
            1_764_000_000_000,
            "position 0 from 1764000000000 to 1764000001000\n",
        ),
        (
            1_764_100_000_999,
            "position 6400000 from 1764100000000 to 1764100001000\n",
        ),
        (
            1_764_099_999_999,
            "position 6399936 from 1764099999000 to 1764100000000\n",
        ),
        (
            1_764_123_456_500,
            "position 7901184 from 1764123456000 to 1764123457000\n",
        ),
        (u64::MAX, "position 12799936 from 1764199999000 to -1\n"),
    ] {
        assert!(rt; answers(rt.alloc(), bytes.as_slice(), time, text), "{time}");
    }
    Ok(())
}

/// A part of a file without a line that is as long as half of what is read at once is reported, with its offset.
#[test]
fn no_line_for_long(rt: HostRuntime) -> Result<(), Fail> {
    let bytes = vec![in rt.alloc(); 0; 3_000_000]?;
    let mut out = Vec::new(rt.alloc());
    let answered = answer(rt.alloc(), &Bytes(bytes.as_slice()), 5, &mut out);
    let is_reported = matches!(
        answered,
        Err(AnswerFault::Search(SearchFault::NoLine(1_500_000)))
    );
    assert!(rt; is_reported && out.is_empty());
    Ok(())
}

/// A file that can't be read is reported, and nothing is printed.
#[test]
fn an_unreadable_file(rt: HostRuntime) {
    let mut out = Vec::new(rt.alloc());
    let answered = answer(rt.alloc(), &Unreadable, 5, &mut out);
    assert!(rt;
        matches!(answered, Err(AnswerFault::Search(SearchFault::Read(_)))) && out.is_empty()
    );
}

/// The last line of a file.
#[test]
fn the_last_line(rt: HostRuntime) {
    for (bytes, line) in [
        ("", None),
        ("100 64\n-\n", Some((100, 64))),
        ("100 64\n200 128\n300", Some((200, 128))),
        ("18446744073709551615 1\n", Some((u64::MAX, 1))),
    ] {
        assert!(rt; ends_with(rt.alloc(), bytes, line), "{bytes}");
    }
}

/// Whether the last line of a file is this time and position.
fn ends_with(alloc: Global, bytes: &str, line: Option<(u64, u64)>) -> bool {
    match last_line(alloc, &Bytes(bytes.as_bytes())) {
        Ok(Some(found)) => line == Some((found.millis, found.position)),
        Ok(None) => line.is_none(),
        Err(_) => false,
    }
}

/// No time.
const NONE: u64 = u64::MAX;

/// The line of a time and a position, if there is one.
fn line_at(millis: u64, position: u64) -> Option<TimesLine> {
    match millis {
        NONE => None,
        _ => Some(TimesLine { millis, position }),
    }
}

/// A line is due of a recording that moved, once enough time has passed; its time is that of the last one if the clock went back.
#[test]
fn which_line_is_due(rt: HostRuntime) {
    // The time and the position of the last line; the position and the time now; those of the line that is due.
    for [last, stood, position, now, due, moved] in [
        [NONE, 0, 64, 500, 500, 64],
        [500, 64, 64, 5_000, NONE, 0],
        [500, 64, 128, 1_499, NONE, 0],
        [500, 64, 128, 1_500, 1_500, 128],
        [500, 64, 128, 499, 500, 128],
        [500, 128, 64, 1_500, 1_500, 64],
        [500, 64, 128, 0, 500, 128],
    ] {
        assert!(rt;
            due_line(line_at(last, stood), position, now, 1_000) == line_at(due, moved),
            "{position} at {now}"
        );
    }
}

/// Whether a text is what is added, to a file that has lines or not.
fn is_added(alloc: Global, has_lines: bool, text: &[u8]) -> Result<bool, AllocError> {
    let line = TimesLine {
        millis: 1_764_405_696_123,
        position: 65_536,
    };
    Ok(added_text(alloc, has_lines, &line)?.as_slice() == text)
}

/// What is added to a file: a line, and before the first one a mark.
#[test]
fn what_is_added(rt: HostRuntime) -> Result<(), Fail> {
    assert!(rt; is_added(rt.alloc(), false, b"-\n1764405696123 65536\n")?);
    assert!(rt; is_added(rt.alloc(), true, b"1764405696123 65536\n")?);
    Ok(())
}

/// Names of files, and which of them fit a recording.
#[test]
fn names(rt: HostRuntime) {
    for (name, recording, fits) in [
        ("0-1764405696123.times", 0, true),
        ("0--5.times", 0, true),
        ("10-1764405696123.times", 1, false),
        ("1-1764405696123.times", 10, false),
        ("1-1764405696123.times.bak", 1, false),
        ("1.times", 1, false),
        ("-1-5.times", 1, false),
        ("", 1, false),
    ] {
        assert!(rt; is_name_of(name, recording) == fits, "{name}");
    }
}

/// A recording's file has its id and its start timestamp in its name.
#[test]
fn the_name_of_a_file(rt: HostRuntime) -> Result<(), Fail> {
    let name = TimesName {
        recording: 12,
        start_timestamp: 1_764_405_696_123,
    };
    assert!(rt; name.to_string(rt.alloc())?.as_str() == "12-1764405696123.times");
    Ok(())
}

/// Times as words: milliseconds, or a date with its offset.
#[test]
fn times_as_words(rt: HostRuntime) {
    for (word, millis) in [
        ("0", Some(0)),
        ("1764405696123", Some(1_764_405_696_123)),
        ("2025-11-29T08:41:36.123Z", Some(1_764_405_696_123)),
        ("2025-11-29T08:41:36Z", Some(1_764_405_696_000)),
        ("2025-11-29T09:41:36.123+01:00", Some(1_764_405_696_123)),
        ("1970-01-01T00:00:00Z", Some(0)),
        ("1969-12-31T23:59:59Z", None),
        ("2025-11-29T08:41:36.123", None),
        ("2025-11-29", None),
        ("2025-13-29T08:41:36Z", None),
        ("14:31:07", None),
        ("-5", None),
        ("007", None),
        ("", None),
    ] {
        assert!(rt; moment_of(word) == millis, "{word}");
    }
}

/// Whether a file of one line says where its recording stood then; nothing where a request for memory was refused.
fn is_found(alloc: Global, line: &TimesLine) -> Option<bool> {
    let text = added_text(alloc, true, line).ok()?;
    let mut out = Vec::new(alloc);
    let answered = answer(alloc, &Bytes(text.as_slice()), 1, &mut out);
    drop(text);
    answered.ok()?;
    Some(out.as_slice() == b"position 2 from 1 to -1\n".as_slice())
}

/// Want of memory is reported by each call that takes any.
#[test]
fn refused_memory_of_times(rt: HostRuntime) {
    let line = TimesLine {
        millis: 1,
        position: 2,
    };
    let found = match is_found(rt.alloc(), &line) {
        None => is_found(rt.alloc(), &line),
        found => found,
    };
    assert!(rt; found == Some(true));
}
