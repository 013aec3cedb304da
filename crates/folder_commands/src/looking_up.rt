//! The command `when`. docs/CONTROL.md, "When a frame was recorded".

ghost use Rattle.std.specs.Prelude.{◌≡◌, IfErr};
ghost use Rattle.frame_core.specs.declared.refusal.Refusal.TheVariants.{BadParameter, DeviceFault, UnknownRecording};
ghost use Rattle.folder_commands.specs.declared.status.Ending.TheVariants.{Refused};
ghost use Rattle.folder_commands.specs.Folders.{ending_in};
ghost use Rattle.folder_commands.specs.When.{IsNoFile, LooksUp, LooksUpIn};

use crate::exit::Exit;
use crate::serving::misworded;
use crate::status::Ending;
use crate::times_files::{OpenTimes, names_of};
use crate::why::Why;
use archive_commands::Screen;
use command_line::UsageError;
use frame_core::Refusal;
use recorded_times::{AnswerFault, SearchFault, TimesFile, answer, moment_of};
use std::alloc::Global;
use std::io::{self, Write};
use tool_core::EarlyEnd;

/// Prints where a recording stood at a time, by its file in a folder of times. If several fit it, they are reported on standard error.
pub(crate) fn when<W: Write>(
    rt: HostRuntime,
    folder: &str,
    recording: i64,
    time: &str,
    writer: &mut W,
) -> Result<(), Exit>
    ensures { LooksUp time.now (W.contents writer.old) (W.contents writer.new) (ending_in result) }
{
    let Some(time) = moment_of(time) else {
        return Err(misworded(UsageError::Time));
    };
    let file = file_of(rt, folder, recording)?;
    answered_of(rt.alloc(), &file, time, writer)
}

/// Prints where a recording stood at a time, by its file.
fn answered_of<F: TimesFile, W: Write>(
    alloc: Global,
    file: &F,
    time: u64,
    writer: &mut W,
) -> Result<(), Exit>
    ensures { LooksUpIn (F.bytes file.now) time (W.contents writer.old) (W.contents writer.new) (ending_in result) }
{
    match answer(alloc, file, time, writer) {
        Ok(true) => Ok(()),
        Ok(false) => Err(Exit::reported(Ending::NoneBefore)),
        Err(AnswerFault::Output(error)) => Err(Exit {
            ending: Ending::Cut(EarlyEnd::Write),
            why: Why::Output(Some(error)),
        }),
        Err(AnswerFault::Search(SearchFault::Memory)) => {
            Err(Exit::cut(EarlyEnd::Memory, Why::Reported))
        }
        Err(AnswerFault::Search(SearchFault::Read(error))) => Err(unread(Why::File(error))),
        Err(AnswerFault::Search(SearchFault::NoLine(offset))) => Err(unread(Why::NoLine(offset))),
    }
}

/// A file of times was not read, for this reason.
fn unread(why: Why) -> Exit
    ensures { result.ending ≡ Refused DeviceFault }
{
    Exit {
        ending: Ending::Refused(Refusal::DeviceFault),
        why,
    }
}

/// The one file of a folder that fits a recording.
fn file_of(rt: HostRuntime, folder: &str, recording: i64) -> Result<OpenTimes, Exit>
    ensures { IfErr result (λ exit. IsNoFile exit.ending) }
{
    let Ok(id) = u64::try_from(recording) else {
        return Err(unknown());
    };
    let names = match names_of(&rt, folder, id) {
        Ok(names) => names,
        Err(error) => return Err(unread(Why::TimesFolder(error))),
    };
    match names.as_slice() {
        [] => Err(unknown()),
        [name] => open_in(rt, folder, name.as_str()),
        several => Err(several_of(rt, several)),
    }
}

/// Opens a file of a folder.
fn open_in(rt: HostRuntime, folder: &str, name: &str) -> Result<OpenTimes, Exit>
    ensures { IfErr result (λ exit. IsNoFile exit.ending) }
{
    let Ok(path) = format!(in rt.alloc(); "{folder}/{name}") else {
        return Err(unread(Why::Reported));
    };
    match OpenTimes::open(&rt, path.as_str()) {
        Ok(file) => Ok(file),
        Err(error) => Err(unread(Why::File(error))),
    }
}

/// No file fits.
fn unknown() -> Exit
    ensures { result.ending ≡ Refused UnknownRecording }
{
    Exit::reported(Ending::Refused(Refusal::UnknownRecording))
}

/// Several files fit: they are reported.
fn several_of(rt: HostRuntime, names: &[String]) -> Exit
    ensures { result.ending ≡ Refused BadParameter }
{
    let screen = Screen::new(&rt);
    for name in names {
        screen.report(name.as_str());
    }
    Exit {
        ending: Ending::Refused(Refusal::BadParameter),
        why: Why::SeveralTimes,
    }
}
