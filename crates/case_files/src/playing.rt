//! Cases that are played and compared.

use crate::filling::{Word, add_row, words_of};
use crate::paragraphs::{Kind, Paragraph, paragraphs_of};
use crate::steps::{Step, steps_of};
use std::alloc::{AllocError, Global};
use std::io::{self, Write};

/// What cases are played with.
pub trait Player {
    /// Begins a case: nothing of an earlier one is left.
    fn begin(&mut self, alloc: Global) -> Result<(), AllocError>;

    /// What a line is answered: lines, each with its line feed.
    fn answer(&mut self, alloc: Global, line: &str) -> Result<Vec<u8>, AllocError>;

    /// Plays the steps of a run, up to the first one that is answered otherwise, and returns that one if there is one. A player that
    /// has to hold something over several steps has a function of its own here.
    fn play(&mut self, alloc: Global, steps: &[Step]) -> Result<Option<Wrong>, AllocError> {
        for (index, step) in steps.iter().enumerate() {
            let answer = self.answer(alloc, step.line())?;
            if answer.as_slice() != step.awaited().as_bytes() {
                return Ok(Some(Wrong { index, answer }));
            }
        }
        Ok(None)
    }
}

/// A step that was answered otherwise than it says.
#[derive(Drop)]
pub struct Wrong {
    /// Its index among the steps of its run.
    pub index: usize,
    /// What it was answered.
    pub answer: Vec<u8>,
}

/// A file of cases.
#[derive(Drop)]
struct CaseFile<'a> {
    name: &'a str,
    paragraphs: Vec<Paragraph<'a>>,
    words: Vec<Word<'a>>,
}

/// Plays the cases of a file by its name and text, and returns how many of them are answered otherwise than they say. Each case is
/// a line of the output: the file, the case and how often it was played. Each that is answered otherwise is a line of the faults.
/// NoMemory ends it, and so does a writer that fails.
pub fn play_text<P: Player, O: Write, E: Write>(
    alloc: Global,
    name: &str,
    text: &str,
    player: &mut P,
    output: &mut O,
    faults: &mut E,
) -> io::Result<u32> {
    let paragraphs = paragraphs_of(alloc, text)?;
    let words = words_of(alloc, paragraphs.as_slice())?;
    let file = CaseFile {
        name,
        paragraphs,
        words,
    };
    let mut failed = 0u32;
    for paragraph in file.paragraphs.as_slice() {
        if !is_answered(alloc, &file, paragraph, player, output, faults)? {
            failed = failed.wrapping_add(1);
        }
    }
    Ok(failed)
}

/// Whether a paragraph is no case, or a case that is answered as it says.
fn is_answered<P: Player, O: Write, E: Write>(
    alloc: Global,
    file: &CaseFile<'_>,
    paragraph: &Paragraph<'_>,
    player: &mut P,
    output: &mut O,
    faults: &mut E,
) -> io::Result<bool> {
    match paragraph.kind() {
        Kind::Case(case) => {
            let (runs, is_right) = play_case(alloc, file, paragraph, player, faults)?;
            writeln!(output, "{} {case}: {runs}", file.name)?;
            Ok(is_right)
        }
        Kind::Unknown => {
            writeln!(
                faults,
                "{}:{}: this paragraph is no case, no text and no words",
                file.name, paragraph.number
            )?;
            Ok(false)
        }
        _ => Ok(true),
    }
}

/// Plays a case with each of its rows, or once if it has none: how often, and whether each run was answered as it says.
fn play_case<P: Player, E: Write>(
    alloc: Global,
    file: &CaseFile<'_>,
    case: &Paragraph<'_>,
    player: &mut P,
    faults: &mut E,
) -> io::Result<(u32, bool)> {
    let Some(columns) = case.after("each ") else {
        let is_right = play_run(alloc, file, case, file.words.as_slice(), player, faults)?;
        return Ok((1, is_right));
    };
    let mut runs = 0u32;
    let mut is_right = true;
    for line in case.text.lines() {
        if let Some(row) = line.strip_prefix("and ") {
            runs = runs.wrapping_add(1);
            is_right = play_row(alloc, file, case, (columns, row), player, faults)? && is_right;
        }
    }
    Ok((runs, is_right && runs > 0))
}

/// Plays a case with a row of these columns.
fn play_row<P: Player, E: Write>(
    alloc: Global,
    file: &CaseFile<'_>,
    case: &Paragraph<'_>,
    row: (&str, &str),
    player: &mut P,
    faults: &mut E,
) -> io::Result<bool> {
    let mut words = Vec::new(alloc);
    add_row(&mut words, row.0, row.1)?;
    words.extend_from_slice(file.words.as_slice())?;
    play_run(alloc, file, case, words.as_slice(), player, faults)
}

/// Plays a case once, up to the first answer that is another one. Whether there is none, and a step.
fn play_run<P: Player, E: Write>(
    alloc: Global,
    file: &CaseFile<'_>,
    case: &Paragraph<'_>,
    words: &[Word<'_>],
    player: &mut P,
    faults: &mut E,
) -> io::Result<bool> {
    let steps = steps_of(alloc, file.paragraphs.as_slice(), case, words)?;
    player.begin(alloc)?;
    let wrong = player.play(alloc, steps.as_slice())?;
    match &wrong {
        Some(Wrong { index, answer }) => {
            if let Some(step) = steps.as_slice().get(*index) {
                report(file.name, step, answer.as_slice(), faults)?;
            }
            Ok(false)
        }
        None => Ok(!steps.is_empty()),
    }
}

/// Reports an answer that is another one than the step's.
fn report<E: Write>(name: &str, step: &Step, answer: &[u8], faults: &mut E) -> io::Result<()> {
    let got = std::str::from_utf8(answer).unwrap_or("bytes that are not UTF-8");
    writeln!(
        faults,
        "{name}:{}: {}\n  awaited: {:?}\n  got:     {got:?}",
        step.number(),
        step.line(),
        step.awaited()
    )
}
