//! A script of control lines, from a reader to a writer. docs/CONTROL.md, "Scripts".

ghost use Rattle.std.specs.Prelude.{◌≡◌, ◌⊎◌, ◌↔◌, ◌<◌, Contains, IfErr, IfOk, IsTrue, MatchBool, OnOk};
ghost use Rattle.std.specs.Io.KnownBytes.{IsAtEnd, Keeps};
ghost use Rattle.std.specs.Io.Buffered.{reader_remaining};
ghost use Rattle.tool_core.specs.InputLines.{ReadsLine};
ghost use Rattle.tool_core.specs.Transcript.{WritesText};
ghost use Rattle.tool_core.specs.Answering.{AnswersFirstLines, AnswersLines, EndsEarly, IsAnswer, Prepares, RepliesTo, asked, asked_copies, ended_by, is_checkpoint, quits};
ghost use Rattle.tool_core.specs.CheckpointedScript.{IsCheckpointedScript, IsCheckpointedScriptOfFirst, IsCheckpointedTranscript, IsCheckpointedTranscriptOfFirst};
ghost use Rattle.tool_core.specs.Archives.{IsScript, IsScriptOfFirst, IsUnopened, disk_of, early_end_of};
ghost use Rattle.catalogue_log.specs.LogState.{Banks};
ghost use Rattle.tool_core.specs.ScriptLines.{Standing};
ghost use Rattle.tool_core.specs.Script.{Begins, IsTranscript, IsTranscriptOfFirst};

use crate::answerer::Answerer;
use crate::answers::write_outcome;
use crate::archive::ScriptArchive;
use crate::checkpoints::CheckpointedArchive;
use crate::fault::{EarlyEnd, ScriptFault};
use crate::lines::{LineBuffer, MAX_READS, read_line};
use crate::observer::Observer;
use crate::state::ScriptState;
use archive_model::Reply;
use control_core::Event;
use control_lines::{Line, parse_line};
use disk_core::Disk;
use engine_core::laws::an_image_recovers_to_one_state;
use frame_core::Refusal;
use memchr::memchr;
use std::alloc::Global;
use std::io::{BufReader, Read, Write};

/// Bytes that are read at once at most.
pub const READ_AHEAD: usize = 65_536;

/// Whether a line asks for a checkpoint.
fn is_checkpoint(line: &Line) -> bool
    ensures { result ≡ is_checkpoint line.now }
{
    matches!(line, Line::Event(Event::Checkpoint))
}

/// What may be done before a line: a checkpoint, of which an observer gets what became of it.
fn prepared<A: Answerer, O: Observer>(
    alloc: Global,
    state: ScriptState<A>,
    observer: &mut O,
) -> ScriptState<A>
    ensures { Prepares A.checkpoints state result }
{
    let mut state = state;
    if let Some(outcome) = state.archive.prepare(alloc) {
        observer.checkpointed(&outcome);
    }
    state
}

/// How the script stands behind a line, what that is answered, and whether no further line is read. A line that is too
/// long is `BadLine`.
fn outcome_of<A: Answerer>(
    alloc: Global,
    state: ScriptState<A>,
    line: &LineBuffer,
) -> (ScriptState<A>, Result<Reply, Refusal>, bool)
    ensures answer { IsAnswer A.ways (asked_copies line.now) state
        (asked (A.checkpoints.offers state.archive) line.now) result.1 result.0 }
    ensures last { result.2 ≡ quits line.now }
{
    let Some(bytes) = line.bytes() else {
        return (state, Err(Refusal::BadLine), false);
    };
    if bytes == b"quit".as_slice() {
        return (state, Ok(Reply::Bye), true);
    }
    let offers = state.archive.offers_checkpoints();
    match parse_line(alloc, bytes) {
        Ok(line) => {
            if is_checkpoint(&line) && !offers {
                return (state, Err(Refusal::BadLine), false);
            }
            let (state, outcome) = state.answer(alloc, &line);
            (state, outcome, false)
        }
        Err(refusal) => (state, Err(refusal), false),
    }
}

/// Answers a line, and says whether no further line is read.
fn answer_line<W: Write, A: Answerer, O: Observer>(
    alloc: Global,
    state: ScriptState<A>,
    line: &LineBuffer,
    writer: &mut W,
    observer: &mut O,
) -> (ScriptState<A>, Result<(), EarlyEnd>, bool)
    ensures replied { RepliesTo A.ways A.checkpoints (W.contents writer.old) (W.contents writer.new) line.now state result.0 result.1 }
    ensures last { result.2 ≡ quits line.now }
{
    let state = prepared(alloc, state, observer);
    let (state, outcome, is_last) = outcome_of(alloc, state, line);
    observer.answered(line.bytes(), &outcome);
    report_history(&state.archive, observer);
    (state, write_outcome(alloc, &outcome, writer), is_last)
}

/// Gives an observer how much of its history an archive has used.
fn report_history<A: Answerer, O: Observer>(archive: &A, observer: &mut O) {
    if let Some(history) = archive.history() {
        observer.used(&history);
    }
}

/// Whether a whole line is at hand.
fn has_line(buffered: &[u8]) -> bool
    ensures { IsTrue result ↔ Contains buffered.now 10 }
{
    memchr(b'\n', buffered).is_some()
}

/// Reads the next line, and answers whether there was one. What was written is handed on before, unless a whole line is at
/// hand, so that nobody waits for a reply that is there. `reads` counts the reads of the buffer; `Write` where what was
/// written could not be handed on, else as `read_line`.
fn next_line<R: Read, W: Write>(
    reader: &mut BufReader<R>,
    writer: &mut W,
    reads: &mut u64,
    line: &mut LineBuffer,
) -> Result<bool, EarlyEnd>
    ensures kept { Keeps (W.contents writer.old) (W.contents writer.new) }
    ensures counted { OnOk result ((reads.old < MAX_READS) × (reads.old < reads.new)) }
    ensures found { IfOk result (λ is_line. MatchBool is_line
        (ReadsLine (reader_remaining R.remaining reader.old) (reader_remaining R.remaining reader.new) line.new)
        (IsAtEnd (reader_remaining R.remaining reader.old))) }
{
    if !has_line(reader.buffer()) && writer.flush().is_err() {
        return Err(EarlyEnd::Write);
    }
    read_line(reader, reads, line)
}

/// Answers line after line, up to the one that quits or the end of the input.
fn run_lines<R: Read + Drop, W: Write, A: Answerer, O: Observer>(
    alloc: Global,
    state: ScriptState<A>,
    reader: &mut BufReader<R>,
    writer: &mut W,
    observer: &mut O,
) -> (ScriptState<A>, Result<(), EarlyEnd>)
    ensures whole { OnOk result.1 (WritesText (reader_remaining R.remaining reader.old)
        (W.contents writer.old) (W.contents writer.new)
        (AnswersLines A.ways A.checkpoints state result.0)) }
    ensures early { IfErr result.1 (λ end. EndsEarly end (AnswersFirstLines A.ways A.checkpoints state result.0)
        (reader_remaining R.remaining reader.old) (W.contents writer.old) (W.contents writer.new)) }
{
    let mut state = state;
    let mut line = LineBuffer::new(alloc);
    let mut reads = 0u64;
    'lines: loop {
        match next_line(reader, writer, &mut reads, &mut line) {
            Ok(true) => {}
            Ok(false) => return (state, Ok(())),
            Err(end) => return (state, Err(end)),
        }
        let (next, answered, is_last) = answer_line(alloc, state, &line, writer, observer);
        state = next;
        match answered {
            Ok(()) => {}
            Err(end) => return (state, Err(end)),
        }
        if is_last {
            return (state, Ok(()));
        }
    }
}

/// Answers the control lines of a reader on a writer, up to the line `quit` or the end of the input, as the answerer
/// answers their calls, once it has prepared each line: docs/CONTROL.md, "Scripts". A line to a merge is answered by the one that is given; it, `quit`, and
/// what is no line make no call; `block` makes two at most. The answerer and the merge come back as the lines left them, also
/// where they end early. An observer gets each answer before it is written.
///
/// Each line is answered before the next one is waited for. What the writer had stays before what it gains. `Read`
/// where the reader fails, or was read 9,223,372,036,854,775,807 times; `Memory` where a reply's text or the reader's
/// buffer finds no memory; `Write` where the writer fails. What was answered before stays written.
pub fn answer_lines<R: Read + Drop, W: Write, A: Answerer, O: Observer>(
    alloc: Global,
    reader: R,
    writer: &mut W,
    state: ScriptState<A>,
    observer: &mut O,
) -> (ScriptState<A>, Result<(), EarlyEnd>)
    ensures whole { OnOk result.1 (WritesText (R.remaining reader) (W.contents writer.old) (W.contents writer.new)
        (AnswersLines A.ways A.checkpoints state result.0)) }
    ensures early { IfErr result.1 (λ end. EndsEarly end (AnswersFirstLines A.ways A.checkpoints state result.0)
        (R.remaining reader) (W.contents writer.old) (W.contents writer.new)) }
{
    let Ok(mut reader) = BufReader::with_capacity(alloc, READ_AHEAD, reader) else {
        return (state, Err(EarlyEnd::Memory));
    };
    let (state, outcome) = run_lines(alloc, state, &mut reader, writer, observer);
    let is_flushed = writer.flush().is_ok();
    (state, after_flush(outcome, is_flushed))
}

/// How a script ended, once what it wrote was handed on or could not be.
fn after_flush(outcome: Result<(), EarlyEnd>, is_flushed: bool) -> Result<(), EarlyEnd>
    ensures { result ≡ ended_by outcome is_flushed }
{
    match outcome {
        Ok(()) if !is_flushed => Err(EarlyEnd::Write),
        outcome => outcome,
    }
}

/// Answers the control lines of a reader on a writer as `answer_lines`, over the archive of a disk, and without a merge at
/// first. Where no file is there it is made, with a history of 1,048,576 entries; else it is opened, and where that is
/// refused every line is `Broken` but those that need no archive, until `reopen` opens it. An observer gets which of
/// these it was. The disk comes back. docs/CONTROL.md, "Scripts".
///
/// The faults of `answer_lines`; `Memory` also where the opening finds no memory.
pub fn run_script<R: Read + Drop, W: Write, D: Disk, O: Observer>(
    alloc: Global,
    reader: R,
    writer: &mut W,
    disk: D,
    observer: &mut O,
) -> Result<D, ScriptFault<D>>
    // Whatever the disk holds and does: each line is answered as `Engine::step`, `Engine::open` and `compact` say.
    ensures whole { IfOk result (λ back. WritesText (R.remaining reader) (W.contents writer.old) (W.contents writer.new)
        (IsScript (D.life disk) (D.life back))) }
    ensures early { IfErr result (λ fault. EndsEarly (early_end_of fault)
        (IsScriptOfFirst (D.life disk) (D.life (disk_of fault)))
        (R.remaining reader) (W.contents writer.old) (W.contents writer.new)
        ⊎ IsUnopened (D.life disk) (D.life (disk_of fault)) (W.contents writer.old) (W.contents writer.new) (early_end_of fault)) }
    // Where the disk obeys the crash model: the exact answers, and what a crash leaves at every moment.
    ensures kept { IfOk result (λ back. (first : Standing) (banks : Banks) → Begins (D.life disk) first banks →
        IsTrue (D.life back).obeys →
        WritesText (R.remaining reader) (W.contents writer.old) (W.contents writer.new)
        (IsTranscript first banks (D.life disk) (D.life back))) }
    ensures kept_early { IfErr result (λ fault. (first : Standing) (banks : Banks) → Begins (D.life disk) first banks →
        IsTrue (D.life (disk_of fault)).obeys → EndsEarly (early_end_of fault)
        (IsTranscriptOfFirst first banks (D.life disk) (D.life (disk_of fault)))
        (R.remaining reader) (W.contents writer.old) (W.contents writer.new)
        ⊎ IsUnopened (D.life disk) (D.life (disk_of fault)) (W.contents writer.old) (W.contents writer.new) (early_end_of fault)) }
{
    an_image_recovers_to_one_state();
    let (archive, beginning) = match ScriptArchive::of_disk(alloc, disk) {
        Ok(found) => found,
        Err(disk) => return Err(ScriptFault::Memory(disk)),
    };
    observer.began(&beginning);
    report_history(&archive, observer);
    let state = ScriptState::new(archive);
    let (state, outcome) = answer_lines(alloc, reader, writer, state, observer);
    let disk = state.into_archive().into_disk();
    match outcome {
        Ok(()) => Ok(disk),
        Err(end) => Err(ScriptFault::new(end, disk)),
    }
}

/// Answers the control lines of a reader on a writer as `run_script`, and makes checkpoints: before each line at which one is
/// due, which nobody is answered, and where the line `checkpoint` asks for one. An observer gets what became of those that were
/// due. docs/STORAGE.md, "Checkpoints".
///
/// The faults of `run_script`.
pub fn run_checkpointed_script<R: Read + Drop, W: Write, D: Disk, O: Observer>(
    alloc: Global,
    reader: R,
    writer: &mut W,
    disk: D,
    observer: &mut O,
) -> Result<D, ScriptFault<D>>
    ensures whole { IfOk result (λ back. WritesText (R.remaining reader) (W.contents writer.old) (W.contents writer.new)
        (IsCheckpointedScript (D.life disk) (D.life back))) }
    ensures early { IfErr result (λ fault. EndsEarly (early_end_of fault)
        (IsCheckpointedScriptOfFirst (D.life disk) (D.life (disk_of fault)))
        (R.remaining reader) (W.contents writer.old) (W.contents writer.new)
        ⊎ IsUnopened (D.life disk) (D.life (disk_of fault)) (W.contents writer.old) (W.contents writer.new) (early_end_of fault)) }
    // Where the disk obeys the crash model: the transcript with a `checkpoint` before each line at which one is due.
    ensures kept { IfOk result (λ back. (first : Standing) (banks : Banks) → Begins (D.life disk) first banks →
        IsTrue (D.life back).obeys →
        WritesText (R.remaining reader) (W.contents writer.old) (W.contents writer.new)
        (IsCheckpointedTranscript first banks (D.life disk) (D.life back))) }
    ensures kept_early { IfErr result (λ fault. (first : Standing) (banks : Banks) → Begins (D.life disk) first banks →
        IsTrue (D.life (disk_of fault)).obeys → EndsEarly (early_end_of fault)
        (IsCheckpointedTranscriptOfFirst first banks (D.life disk) (D.life (disk_of fault)))
        (R.remaining reader) (W.contents writer.old) (W.contents writer.new)
        ⊎ IsUnopened (D.life disk) (D.life (disk_of fault)) (W.contents writer.old) (W.contents writer.new) (early_end_of fault)) }
{
    an_image_recovers_to_one_state();
    let (archive, beginning) = match ScriptArchive::of_disk(alloc, disk) {
        Ok(found) => found,
        Err(disk) => return Err(ScriptFault::Memory(disk)),
    };
    observer.began(&beginning);
    report_history(&archive, observer);
    let state = ScriptState::new(CheckpointedArchive { archive });
    let (state, outcome) = answer_lines(alloc, reader, writer, state, observer);
    let CheckpointedArchive { archive } = state.into_archive();
    let disk = archive.into_disk();
    match outcome {
        Ok(()) => Ok(disk),
        Err(end) => Err(ScriptFault::new(end, disk)),
    }
}
