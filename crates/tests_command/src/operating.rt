//! What an operator does beside a running server: docs/CONTROL.md, "The program"; docs/SERVING.md, "How to run it".

use crate::asking::free_ports;
use crate::folders::{NO_LINES, disk_of, emptied, ended, obeys_each, plays, unused};
use command_line::ToolCommand;
use host_disk::HostDisk;
use std::io::Eprint;
use std::net::{Net, TcpListener, TcpStream};
use std::rt::Clock;
use std::sync::Wait;
use std::test::*;
use std::thread::{self, Threads};
use std::time::Duration;

const ONE: &str = "\
create @ --history 16 => 0 created;
record
record-more
damage
describe @ 1 => 0 recording 1, active;  channel    c;  stream     1001;  session    7;  started    1970-01-01T00:00:01Z;  stopped    -;  positions  0 to 64;  recorded   64 bytes;  on disk    64 bytes in 1 segment files;  lengths    term 65536, segment 131072, MTU 1408;;
describe @ 2 => 1
describe @ 2 --json => 1
verify @ 0 --read-only => 3 error 15 Damaged 0 0;
verify @ 1 --read-only => 0 verified 1;
verify @ 2 --read-only => 1
verify @ 0 => 3 error 15 Damaged 0 0;
verify @ 1 => 0 verified 1;
verify @ 2 => 1
";

/// `verify` and `describe` of one recording say nothing of a damaged other one. They are refused if the recording is not there.
#[test]
fn one_recording_alone(rt: HostRuntime) -> Result<(), Fail> {
    plays(&rt, rt, "one", ONE)
}

const NONE: &str = "\
create @ --history 16 => 0 created;
verify @ 0 => 1 ! error 1 UnknownRecording;
";

/// `verify` of a recording that is not there prints that refusal on standard error, and ends with status 1.
#[test]
fn a_recording_that_is_not_there(rt: HostRuntime) -> Result<(), Fail> {
    plays(&rt, rt, "none", NONE)
}

/// Waits for 300 milliseconds, and closes the folder then.
fn leaves<R: Clock>(net: &R, held: HostDisk) {
    thread::sleep(net, Duration::from_millis(300));
    drop(held);
}

/// The status of a list of a folder that is waited for.
fn status_of_list<
    R: Threads + Wait + Clock + Eprint + Net<Listener = TcpListener, Stream = TcpStream> + Sync,
>(net: &R, rt: HostRuntime, folder: &str) -> u8 {
    let mut out = Vec::new(rt.alloc());
    let command = ToolCommand::List {
        folder,
        read_only: false,
        wait: Some(60),
    };
    ended(net, rt, command, NO_LINES, &mut out).status()
}

/// The same of one that another opening has for a while.
fn status_behind<
    R: Threads + Wait + Clock + Eprint + Net<Listener = TcpListener, Stream = TcpStream> + Sync,
>(net: &R, rt: HostRuntime, folder: &str) -> Result<u8, Fail> {
    let held = disk_of(rt, folder)?;
    let ((), status) = thread::join(
        net,
        move || leaves(net, held),
        move || status_of_list(net, rt, folder),
    );
    Ok(status)
}

const IN_USE: &str = "\
create @ --history 16 => 0 created;
held list @ --wait 1 => 3
";

/// A new archive is waited for while another opening has it.
fn waits<
    R: Threads + Wait + Clock + Eprint + Net<Listener = TcpListener, Stream = TcpStream> + Sync,
>(net: &R, rt: HostRuntime, folder: &str) -> Result<u8, Fail> {
    obeys_each(net, rt, folder, IN_USE)?;
    status_behind(net, rt, folder)
}

/// With `--wait` a command waits for a folder in use: it opens it once it is free, and is refused after that time.
#[test]
fn a_folder_in_use_is_waited_for(rt: HostRuntime) -> Result<(), Fail> {
    let path = unused(rt, "waited-for")?;
    let status = waits(&rt, rt, path.as_str());
    let emptied = emptied(rt, path.as_str());
    drop(path);
    assert!(rt; status? == 0);
    Ok(emptied?)
}

/// `serve --no-create` refuses a folder without an archive, says so, and makes nothing in it.
#[test]
fn no_archive_is_made(rt: HostRuntime) -> Result<(), Fail> {
    let (control, receive) = free_ports(rt)?;
    let script = format!(in rt.alloc();
        "create @ --history 0 => 1\nserve @ --control {control} --receive {receive} --quiet --no-create => 1 ! \
        the folder has no archive, and none is made with --no-create\nempty"
    )?;
    plays(&rt, rt, "not-made", script.as_str())
}
