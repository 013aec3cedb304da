//! What the words of a command line lead to. docs/CONTROL.md, "The program".

ghost use Rattle.std.specs.Prelude.{◌≡◌, map, string_bytes};
ghost use Rattle.clap.specs.Words.{kind_of};
ghost use Rattle.host_disk.specs.Events.{Given};
ghost use Rattle.folder_commands.specs.Answering.{AnswersWords, ReportsKind};
ghost use Rattle.folder_commands.specs.Left.{left_life};

use crate::commands::obeyed;
use crate::concluding::reported;
use crate::exit::Exit;
use crate::outcome::Outcome;
use crate::status::Ending;
use clap::Error;
use clap::error::ErrorKind;
use command_line::command_of;
use std::io::{Eprint, Read, Write};
use std::net::{Net, TcpListener, TcpStream};
use std::rt::Clock;
use std::sync::Wait;
use std::thread::Threads;

/// Does what the words of a command line ask for, the program's name first, and answers how that ended, and what it left; of words
/// that ask for no command it prints on standard error what is wrong with them, or on standard output the help that they ask for. What a command
/// writes goes to a writer, and is handed on; the control lines of `run` come from an input.
pub fn answered<
    R: Threads + Wait + Clock + Eprint + Net<Listener = TcpListener, Stream = TcpStream> + Sync,
    I: Read + Drop,
    W: Write,
>(net: &R, rt: HostRuntime, words: &[String], input: I, writer: &mut W) -> Outcome
    ghost given: { Given }
    ensures { AnswersWords given (map string_bytes words.now) (I.remaining input) (W.contents writer.old) (W.contents writer.new)
        (left_life result.looked) (left_life result.left) result.exit.ending }
{
    match command_of(rt.alloc(), words) {
        Ok(command) => obeyed(net, rt, &command, input, writer),
        Err(error) => Outcome::from(no_command(rt, &error)),
    }
}

/// Tells why a command line asks for no command, or gives the help that it asks for.
pub fn no_command(rt: HostRuntime, error: &Error) -> Exit
    ensures { ReportsKind (kind_of error.now) result.ending }
{
    match error.to_string(rt.alloc()) {
        Ok(text) => reported(
            error.kind(),
            text.as_str(),
            &mut rt.stdout(),
            &mut rt.stderr(),
        ),
        Err(_) => Exit::reported(Ending::NoCommand(ErrorKind::OutOfMemory)),
    }
}
