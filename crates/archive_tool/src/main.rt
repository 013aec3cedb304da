//! The program of the archive: it records Aeron streams in a folder, and replays them.
#![tactic(auto)]

use command_line::unreadable_words;
use folder_commands::{Ending, Exit, Outlet, answered, concluded, no_command};
use std::env;
use std::io::{self, BufWriter, Eprint, Read, Write};
use std::net::{Net, TcpListener, TcpStream};
use std::process::ExitCode;
use std::rt::{Clock, Env};
use std::sync::Wait;
use std::thread::Threads;
use tool_core::EarlyEnd;

/// Bytes of standard output that are written at once at most, but for longer texts.
const WRITTEN_AT_ONCE: usize = 65_536;

/// Does what the command line asks for, over standard input and output, and answers the status. Threads and sockets are made by
/// the handle, folders opened by the runtime.
fn main(rt: HostRuntime) -> ExitCode {
    let outlet = Outlet::new(rt.stdout());
    let exit = match BufWriter::with_capacity(rt.alloc(), WRITTEN_AT_ONCE, outlet) {
        Ok(mut writer) => {
            let exit = commanded(&rt, rt, rt.reader(), &mut writer);
            exit.with_output_fault(writer.get_ref().fault())
        }
        Err(_) => Exit::reported(Ending::Cut(EarlyEnd::Memory)),
    };
    ExitCode::from(concluded(&rt, exit))
}

/// Does what the command line asks for. A word that is no UTF-8 is a wrong one.
fn commanded<
    R: Threads + Wait + Clock + Eprint + Net<Listener = TcpListener, Stream = TcpStream> + Sync,
    I: Read + Drop,
    W: Write,
>(net: &R, rt: HostRuntime, input: I, writer: &mut W) -> Exit {
    match words_of(&rt) {
        Ok(words) => answered(net, rt, words.as_slice(), input, writer).exit,
        Err(error) if error.kind() == io::ErrorKind::InvalidData => {
            no_command(rt, &unreadable_words(rt.alloc()))
        }
        Err(error) => Exit::reported(Ending::Failed(error.kind())),
    }
}

/// The words of the command line, the program's name first.
fn words_of<R: AllocGlobal + Env>(rt: &R) -> io::Result<Vec<String>> {
    let mut words = Vec::new(rt.alloc());
    for word in env::args(rt)? {
        if words.push(word).is_err() {
            return Err(io::Error::from(io::ErrorKind::OutOfMemory));
        }
    }
    Ok(words)
}
