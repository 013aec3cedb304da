//! A first look without a build: lines of a script over the archive of a folder, or of a disk in memory. The first word is the folder;
//! without one the archive is gone at the end. Lines come by standard input, and each is answered on standard output, as by
//! `archive_tool run`: docs/CONTROL.md, "Scripts".
#![tactic(auto)]

use disk_core::{Disk, MemoryDisk};
use host_disk::HostDisk;
use std::env;
use std::io::{self, BufWriter, ErrorKind, Write};
use std::path::Path;
use std::process::ExitCode;
use tool_core::{Unobserved, run_script};

fn main(rt: HostRuntime) -> ExitCode {
    match answered(rt) {
        Ok(()) => ExitCode::SUCCESS,
        Err(error) => {
            let _ = writeln!(&mut rt.stderr(), "{error}");
            ExitCode::FAILURE
        }
    }
}

/// Answers the lines over the folder that the first word names, or in memory. An error if the folder can't be opened, or the lines are
/// not answered to their end.
fn answered(rt: HostRuntime) -> io::Result<()> {
    match env::args(&rt)?.nth(1) {
        Some(folder) => in_folder(rt, folder.as_str()),
        None => {
            let disk = answered_over(rt, MemoryDisk::new(rt.alloc()))?;
            drop(disk);
            Ok(())
        }
    }
}

/// Answers the lines over the archive of a folder.
fn in_folder(rt: HostRuntime, folder: &str) -> io::Result<()> {
    match HostDisk::open(rt, rt.alloc(), Path::new(folder)) {
        Ok(disk) => {
            let disk = answered_over(rt, disk)?;
            drop(disk);
            Ok(())
        }
        Err(_) => Err(io::Error::from(ErrorKind::NotFound)),
    }
}

/// Answers the lines over the archive of a disk, and gives the disk back.
fn answered_over<D: Disk + Drop>(rt: HostRuntime, disk: D) -> io::Result<D> {
    let mut writer = BufWriter::new(rt.alloc(), rt.stdout())?;
    match run_script(rt.alloc(), rt.reader(), &mut writer, disk, &mut Unobserved) {
        Ok(disk) => Ok(disk),
        Err(fault) => {
            let (_, disk) = fault.into_parts();
            drop(disk);
            Err(io::Error::from(ErrorKind::Other))
        }
    }
}
