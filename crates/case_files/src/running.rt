//! The program of a player: its words name files of cases.

use crate::playing::{Player, play_text};
use std::alloc::Global;
use std::io::{self, BufWriter, Write};
use std::process::ExitCode;
use std::{env, fs};

/// Plays the files of cases that the program's words name, and returns its exit status: 0 if there is a file, and every case is answered
/// as it says; else 1. Standard output has a line for each case, standard error each answer that is another one, and what fails.
pub fn play_files<P: Player>(rt: HostRuntime, player: &mut P) -> ExitCode {
    match failed_of(rt, player) {
        Ok(0) => ExitCode::SUCCESS,
        Ok(failed) => {
            let _ = writeln!(&mut rt.stderr(), "{failed} cases are answered otherwise");
            ExitCode::FAILURE
        }
        Err(error) => {
            let _ = writeln!(
                &mut rt.stderr(),
                "the cases were not played to their end: {error}"
            );
            ExitCode::FAILURE
        }
    }
}

/// How many cases of these files are answered otherwise than they say. An error without a file.
fn failed_of<P: Player>(rt: HostRuntime, player: &mut P) -> io::Result<u32> {
    let mut output = BufWriter::new(rt.alloc(), rt.stdout())?;
    let mut failed = 0u32;
    let mut files = 0u32;
    for name in env::args(&rt)?.skip(1) {
        let text = fs::read_to_string(&rt, name.as_str())?;
        let wrong = play_text(
            rt.alloc(),
            name.as_str(),
            text.as_str(),
            player,
            &mut output,
            &mut rt.stderr(),
        )?;
        failed = failed.wrapping_add(wrong);
        files = files.wrapping_add(1);
    }
    output.flush()?;
    if files == 0 {
        return Err(io::Error::from(io::ErrorKind::InvalidInput));
    }
    Ok(failed)
}
