//! The command `when` over a real folder, and the options of times: docs/CONTROL.md, "When a frame was recorded"; docs/SERVING.md, "When a
//! frame was recorded".

use crate::folders::{emptied, obeys_each, unused};
use crate::serving::{change_each, check_option};
use std::fs;
use std::io::Eprint;
use std::net::{Net, TcpListener, TcpStream};
use std::rt::Clock;
use std::sync::Wait;
use std::test::*;
use std::thread::Threads;

/// Writes a file of a folder.
fn write_file(rt: HostRuntime, folder: &str, name: &str, text: &str) -> Result<(), Fail> {
    let path = format!(in rt.alloc(); "{folder}/{name}")?;
    fs::write(&rt, path.as_str(), text)?;
    Ok(())
}

/// Makes a folder with these files of times.
fn make_folder(rt: HostRuntime, folder: &str, files: &[(&str, &str)]) -> Result<(), Fail> {
    fs::create_dir(&rt, folder)?;
    for (name, text) in files {
        write_file(rt, folder, name, text)?;
    }
    Ok(())
}

/// Looks up times in such a folder.
fn looks_up_in<
    R: Threads + Wait + Clock + Eprint + Net<Listener = TcpListener, Stream = TcpStream> + Sync,
>(
    net: &R,
    rt: HostRuntime,
    folder: &str,
    files: &[(&str, &str)],
    script: &str,
) -> Result<(), Fail> {
    make_folder(rt, folder, files)?;
    obeys_each(net, rt, folder, script)
}

/// The same in a folder of its own, which is not there before and after.
fn looks_up<
    R: Threads + Wait + Clock + Eprint + Net<Listener = TcpListener, Stream = TcpStream> + Sync,
>(net: &R, rt: HostRuntime, test: &str, files: &[(&str, &str)], script: &str) -> Result<(), Fail> {
    let folder = unused(rt, test)?;
    let looked = looks_up_in(net, rt, folder.as_str(), files, script);
    let emptied = emptied(rt, folder.as_str());
    drop(folder);
    looked?;
    Ok(emptied?)
}

const STOOD: &str = "\
when @ 0 2025-11-29T08:41:36.123Z => 0 position 64 from 1764405696123 to 1764405697000;
when @ 0 1764405697000 => 0 position 128 from 1764405697000 to -1;
when @ 0 1764405696122 => 1 none before 1764405696122;
when @ 2 5 => 1
when @ 1 500 => 1
when @ 0 yesterday => 2
";

/// `when` prints where a recording stood at a time, or that there is nothing before; of a recording without a file, with two files, or
/// at no time it prints nothing.
#[test]
fn where_a_recording_stood(rt: HostRuntime) -> Result<(), Fail> {
    let files = [
        ("0-5.times", "1764405696123 64\n1764405697000 128\n"),
        ("1-5.times", "100 64\n"),
        ("1-6.times", "100 64\n"),
        ("notes", ""),
    ];
    looks_up(&rt, rt, "when", &files, STOOD)
}

const UNREAD: &str = "\
mkdir 3-1.times
when @ 3 5 => 3
when @/none 0 5 => 3
";

/// A folder that is not there, and a file that is a folder or a link, are reported by a device fault.
#[test]
fn a_folder_of_times_that_cannot_be_read(rt: HostRuntime) -> Result<(), Fail> {
    looks_up(&rt, rt, "when_unread", &[("times", "1 64\n")], UNREAD)
}

const TIMES: &str = "\
--times b: times: Some(\"b\")
--times=b --times-every 10: times: Some(\"b\"); times_every: 10
--times-every=60000: times_every: 60000
";

/// `serve` takes a folder of times, and how often they are noted.
#[test]
fn serve_has_its_times(rt: HostRuntime) -> Result<(), Fail> {
    change_each(&rt, rt.alloc(), TIMES)
}

/// Lines of times may be 10 milliseconds to a minute apart.
#[test]
fn times_out_of_their_range(rt: HostRuntime) -> Result<(), Fail> {
    for (options, value) in [
        ("--times-every 9", "'9' for '--times-every <milliseconds>'"),
        (
            "--times-every 60001",
            "'60001' for '--times-every <milliseconds>'",
        ),
        ("--times-every x", "'x' for '--times-every <milliseconds>'"),
    ] {
        check_option(rt.alloc(), options, value)?;
    }
    Ok(())
}
