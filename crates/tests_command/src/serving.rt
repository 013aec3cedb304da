//! The words of `serve`, and how it ends before it serves: docs/SERVING.md, "How to run it".

use crate::asking::free_ports;
use crate::folders::{check, plays};
use crate::words::{asks_for, check_missing, check_value};
use std::alloc::{AllocError, Global};
use std::io::Eprint;
use std::net::{Net, TcpListener, TcpStream};
use std::process::Abort;
use std::rt::Clock;
use std::sync::Wait;
use std::test::*;
use std::thread::Threads;

// What `serve a --control 1 --receive 2` asks for beside its folder, a field a line.
const USUAL: &str = "\
control: 1
receive: 2
receive_on: \"127.0.0.1\"
idle: 60
settle_every: 5
is_aeron: false
window: None
clients: None
consumers: None
consumers_on: None
streams: []
from: []
send_to: []
send_on: None
segment_length: None
is_quiet: false
is_strict: false
metrics: None
times: None
times_every: 1000
checkpoints: false
no_checkpoints: false
name: None
logs_times: false
no_create: false
wait: None
";

/// A field, or what stands in its place among changes, which are parted by semicolons.
fn changed<'a>(field: &'a str, changes: &'a str) -> &'a str {
    let (name, _) = field.split_once(": ").unwrap_or((field, ""));
    for change in changes.split("; ") {
        if let Some((found, _)) = change.split_once(": ") {
            if found == name {
                return change;
            }
        }
    }
    field
}

/// Adds the fields, but for changes.
fn put_fields(text: &mut String, changes: &str) -> Result<(), AllocError> {
    text.push_str("Serve(ServeWords { folder: \"a\"")?;
    for field in USUAL.lines() {
        text.push_str(", ")?;
        text.push_str(changed(field, changes))?;
    }
    text.push_str(" })")
}

/// What `serve a --control 1 --receive 2` asks for, but for changes, as text.
fn serve_with(alloc: Global, changes: &str) -> Result<String, AllocError> {
    let mut text = String::new(alloc);
    let put = put_fields(&mut text, changes);
    put.and(Ok(text))
}

/// Whether a command line asks for that.
fn asks_to_serve(alloc: Global, line: &str, changes: &str) -> Result<bool, AllocError> {
    let command = serve_with(alloc, changes)?;
    asks_for(alloc, line, command.as_str())
}

/// Whether it does with these options.
pub(crate) fn is_served_with(
    alloc: Global,
    options: &str,
    changes: &str,
) -> Result<bool, AllocError> {
    let line = format!(in alloc; "serve a --control 1 --receive 2 {options}")?;
    asks_to_serve(alloc, line.as_str(), changes)
}

/// Each line of a text has options of `serve`, and behind a colon what they change.
pub(crate) fn change_each(rt: &impl Abort, alloc: Global, rows: &str) -> Result<(), Fail> {
    for row in rows.lines() {
        let (options, changes) = row.split_once(": ").unwrap_or((row, ""));
        assert!(rt; is_served_with(alloc, options, changes)?, "{row}");
    }
    Ok(())
}

/// `serve` takes its folder, ports, address, idle time and `--quiet`, and has their defaults.
#[test]
fn serve_has_its_words(rt: HostRuntime) -> Result<(), Fail> {
    let alloc = rt.alloc();
    assert!(rt; asks_to_serve(alloc, "serve a --control 1 --receive 2", "")?);
    let line = "serve a --control 1 --receive 65535 --receive-on 10.0.0.1 --idle 1 --quiet";
    let changes = "receive: 65535; receive_on: \"10.0.0.1\"; idle: 1; is_quiet: true";
    assert!(rt; asks_to_serve(alloc, line, changes)?);
    Ok(())
}

const OPTIONS: &str = "\
--settle-every 0: settle_every: 0
--settle-every 1000: settle_every: 1000
--aeron: is_aeron: true
--aeron --window 4096: is_aeron: true; window: Some(4096)
--window=1048576 --aeron: is_aeron: true; window: Some(1048576)
--window 4100 --settle-every=1: settle_every: 1; window: Some(4100)
--clients 1: clients: Some(1)
--clients=64 --aeron: is_aeron: true; clients: Some(64)
";

/// `serve` takes each option at its limits. A window that no server can have, or one without `--aeron`, is refused by `serve`,
/// not by the command line.
#[test]
fn serve_has_its_options(rt: HostRuntime) -> Result<(), Fail> {
    change_each(&rt, rt.alloc(), OPTIONS)
}

const REPORTS: &str = "\
--strict: is_strict: true
--metrics b.prom: metrics: Some(\"b.prom\")
--metrics=./c --strict: is_strict: true; metrics: Some(\"./c\")
";

/// `serve` takes `--strict`, and the file of `--metrics` as it is given.
#[test]
fn serve_has_its_reports(rt: HostRuntime) -> Result<(), Fail> {
    change_each(&rt, rt.alloc(), REPORTS)
}

const CHECKPOINTS: &str = "\
--checkpoints: checkpoints: true
--aeron --no-checkpoints: is_aeron: true; no_checkpoints: true
--no-checkpoints --checkpoints: checkpoints: true; no_checkpoints: true
";

/// `serve` takes `--checkpoints` and `--no-checkpoints`. Both together are refused by `serve`, not by the command line.
#[test]
fn serve_has_its_checkpoints(rt: HostRuntime) -> Result<(), Fail> {
    change_each(&rt, rt.alloc(), CHECKPOINTS)
}

const OPERATION: &str = "\
--name a-1: name: Some(\"a-1\")
--log-times --name=: name: Some(\"\"); logs_times: true
--no-create --wait 30: no_create: true; wait: Some(30)
--wait=1 --no-create --log-times: logs_times: true; no_create: true; wait: Some(1)
";

/// `serve` takes `--name`, `--log-times`, `--no-create` and `--wait`.
#[test]
fn serve_has_its_operation(rt: HostRuntime) -> Result<(), Fail> {
    change_each(&rt, rt.alloc(), OPERATION)
}

const STREAMS: &str = "\
--aeron --record 1001: is_aeron: true; streams: [1001]
--record 7 --record=-5 --aeron --record 7: is_aeron: true; streams: [7, -5, 7]
--record=-2147483648 --record 2147483647: streams: [-2147483648, 2147483647]
--record=0 --segment-length 65536: streams: [0]; segment_length: Some(65536)
--segment-length=1073741824: segment_length: Some(1073741824)
";

/// `serve` takes streams in the order of its words, and the length of their segments. Those without `--aeron` are refused by
/// `serve`, not by the command line.
#[test]
fn serve_has_its_streams(rt: HostRuntime) -> Result<(), Fail> {
    change_each(&rt, rt.alloc(), STREAMS)
}

const CONSUMERS: &str = "\
--consumers 1: consumers: Some(1)
--consumers=65535 --consumers-on 10.0.0.1: consumers: Some(65535); consumers_on: Some(\"10.0.0.1\")
--consumers-on=x: consumers_on: Some(\"x\")
";

/// `serve` takes a port of consumers and its address. An address without a port is refused by `serve`, not by the command line.
#[test]
fn serve_has_its_consumers(rt: HostRuntime) -> Result<(), Fail> {
    change_each(&rt, rt.alloc(), CONSUMERS)
}

/// The value of an option of `serve` is a usage error.
pub(crate) fn check_option(alloc: Global, options: &str, value: &str) -> Result<(), Fail> {
    let line = format!(in alloc; "serve a {options}")?;
    check_value(alloc, line.as_str(), value)
}

/// A value of an option of `serve` that is out of its range, or not a number, is a usage error.
#[test]
fn options_of_a_server_out_of_range(rt: HostRuntime) -> Result<(), Fail> {
    for (options, value) in [
        ("--control 0 --receive 1", "'0' for '--control <port>'"),
        (
            "--control 1 --receive 65536",
            "'65536' for '--receive <port>'",
        ),
        (
            "--settle-every 1001",
            "'1001' for '--settle-every <milliseconds>'",
        ),
        (
            "--settle-every=-1",
            "'-1' for '--settle-every <milliseconds>'",
        ),
        ("--aeron --window 4064", "'4064' for '--window <bytes>'"),
        (
            "--aeron --window 1048577",
            "'1048577' for '--window <bytes>'",
        ),
        (
            "--aeron --window 1048608",
            "'1048608' for '--window <bytes>'",
        ),
        ("--aeron --window x", "'x' for '--window <bytes>'"),
        ("--clients 0", "'0' for '--clients <count>'"),
        ("--clients 65", "'65' for '--clients <count>'"),
        ("--consumers 0", "'0' for '--consumers <port>'"),
        ("--consumers 65536", "'65536' for '--consumers <port>'"),
        ("--record x", "'x' for '--record <stream id>'"),
        (
            "--record 1 --record 2147483648",
            "'2147483648' for '--record <stream id>'",
        ),
        (
            "--record=-2147483649",
            "'-2147483649' for '--record <stream id>'",
        ),
        (
            "--segment-length 65535",
            "'65535' for '--segment-length <bytes>'",
        ),
        (
            "--segment-length 1073741825",
            "'1073741825' for '--segment-length <bytes>'",
        ),
    ] {
        check_option(rt.alloc(), options, value)?;
    }
    Ok(())
}

/// `serve` without one of its ports is a usage error that names it.
#[test]
fn a_missing_port(rt: HostRuntime) -> Result<(), Fail> {
    check_missing(rt.alloc(), "serve a --control 1", "--receive <port>")
}

/// A folder that is not there is served with options, which stand between bars if they begin with one, and comes to what stands
/// behind them. No port is taken.
fn check_unserved<
    R: Threads + Wait + Clock + Eprint + Net<Listener = TcpListener, Stream = TcpStream> + Sync,
>(net: &R, rt: HostRuntime, options: &str) -> Result<(), Fail> {
    let line = if options.starts_with('|') {
        format!(in rt.alloc(); "serve|/archive_tool-unserved|--control|1|--receive|2{options}")?
    } else {
        format!(in rt.alloc(); "serve /archive_tool-unserved --control 1 --receive 2 {options}")?
    };
    check(net, rt, "@", line.as_str())
}

/// The same of a server of streams with an option that is given so many times.
pub(crate) fn check_repeated<
    R: Threads + Wait + Clock + Eprint + Net<Listener = TcpListener, Stream = TcpStream> + Sync,
>(net: &R, rt: HostRuntime, option: &str, count: usize, outcome: &str) -> Result<(), Fail> {
    let all = option.repeat(rt.alloc(), count)?;
    let line = format!(in rt.alloc(); "--aeron{}{outcome}", all.as_str());
    drop(all);
    check_unserved(net, rt, line?.as_str())
}

/// The same of each line of a text.
pub(crate) fn check_each_unserved<
    R: Threads + Wait + Clock + Eprint + Net<Listener = TcpListener, Stream = TcpStream> + Sync,
>(net: &R, rt: HostRuntime, rows: &str) -> Result<(), Fail> {
    for row in rows.lines() {
        check_unserved(net, rt, row)?;
    }
    Ok(())
}

const WRONG_WORDS: &str = "\
--receive-on 10.0.0 => 2 ! --receive-on wants an IPv4 address
--receive-on 224.0.0.0 => 2 ! --receive-on wants an address of this machine, not a multicast address
--receive-on 239.255.255.255 => 2 ! --receive-on wants an address of this machine, not a multicast address
--receive-on 223.255.255.255 --aeron --window 4100 => 2 ! --window wants a multiple of 32
--aeron --window 4100 => 2 ! --window wants a multiple of 32
--window 4096 => 2 ! --window needs --aeron
--aeron --window 4096 => 3 ! the folder is not there
--aeron --window 1048576 => 3 ! the folder is not there
--aeron => 3 ! the folder is not there
--quiet => 3 ! the folder is not there
";

/// Wrong words of `serve` are a usage error, and its folder is not opened. It is opened if they are right.
#[test]
fn wrong_words_of_a_server(rt: HostRuntime) -> Result<(), Fail> {
    check_each_unserved(&rt, rt, WRONG_WORDS)
}

const NAMES: &str = "\
|--name=AZaz09_.-0123456789012345678901234567890123456789012345678901234 => 3 ! the folder is not there
|--name=a => 3 ! the folder is not there
|--name=AZaz09_.-01234567890123456789012345678901234567890123456789012345 => 2 ! --name wants 1 to 64 of the characters A-Z, a-z, 0-9, _, . and -
|--name= => 2 ! --name wants 1 to 64 of the characters A-Z, a-z, 0-9, _, . and -
|--name=a b => 2 ! --name wants 1 to 64 of the characters A-Z, a-z, 0-9, _, . and -
|--name=a\" => 2 ! --name wants 1 to 64 of the characters A-Z, a-z, 0-9, _, . and -
|--name=/ => 2 ! --name wants 1 to 64 of the characters A-Z, a-z, 0-9, _, . and -
|--name=: => 2 ! --name wants 1 to 64 of the characters A-Z, a-z, 0-9, _, . and -
|--name=@ => 2 ! --name wants 1 to 64 of the characters A-Z, a-z, 0-9, _, . and -
|--name=[ => 2 ! --name wants 1 to 64 of the characters A-Z, a-z, 0-9, _, . and -
|--name=` => 2 ! --name wants 1 to 64 of the characters A-Z, a-z, 0-9, _, . and -
|--name={ => 2 ! --name wants 1 to 64 of the characters A-Z, a-z, 0-9, _, . and -
|--name=\u{e9} => 2 ! --name wants 1 to 64 of the characters A-Z, a-z, 0-9, _, . and -
";

/// A name of a recorder has 1 to 64 letters, digits, `_`, `.` and `-`.
#[test]
fn names_of_a_server(rt: HostRuntime) -> Result<(), Fail> {
    check_each_unserved(&rt, rt, NAMES)
}

const WRONG_CONSUMERS: &str = "\
--consumers-on 127.0.0.1 => 2 ! --consumers-on needs --consumers
--consumers-on x => 2 ! --consumers-on needs --consumers
--consumers 3 --consumers-on 10.0.0 => 2 ! --consumers-on wants an IPv4 address
--consumers 3 --consumers-on 224.0.0.1 => 2 ! --consumers-on wants an address of this machine, not a multicast address
--consumers 3 --consumers-on 127.0.0.1 => 3 ! the folder is not there
--consumers 3 => 3 ! the folder is not there
";

/// An address of consumers without their port, and one that no machine has, are usage errors too.
#[test]
fn wrong_consumers_of_a_server(rt: HostRuntime) -> Result<(), Fail> {
    check_each_unserved(&rt, rt, WRONG_CONSUMERS)
}

const WRONG_NETWORKS: &str = "\
--from 10.1.0.0/16 => 2 ! --from needs --aeron
--aeron --from 127.0.0.1 => 3 ! the folder is not there
--aeron --from 0.0.0.0/0 => 3 ! the folder is not there
--aeron --from 127.0.0.1/32 => 3 ! the folder is not there
--aeron --from 127.0.0.1/33 => 2 ! --from wants an IPv4 address, or one and a number of bits, as 10.1.0.0/16
--aeron --from 127.0.0.1/ => 2 ! --from wants an IPv4 address, or one and a number of bits, as 10.1.0.0/16
--aeron --from 127.0.0/8 => 2 ! --from wants an IPv4 address, or one and a number of bits, as 10.1.0.0/16
--aeron --from 127.0.0.1/8/8 => 2 ! --from wants an IPv4 address, or one and a number of bits, as 10.1.0.0/16
--aeron --from ::1 => 2 ! --from wants an IPv4 address, or one and a number of bits, as 10.1.0.0/16
--aeron --from= => 2 ! --from wants an IPv4 address, or one and a number of bits, as 10.1.0.0/16
";

/// Networks without `--aeron`, too many of them, and words that are no network are usage errors. Each of 16 networks is right.
#[test]
fn wrong_networks_of_a_server(rt: HostRuntime) -> Result<(), Fail> {
    check_each_unserved(&rt, rt, WRONG_NETWORKS)?;
    let option = " --from 10.1.0.0/16";
    check_repeated(&rt, rt, option, 16, " => 3 ! the folder is not there")?;
    let many = " => 2 ! --from may be given at most 16 times";
    check_repeated(&rt, rt, option, 17, many)
}

/// `serve` takes the networks of `--from` in their order, as they were given.
#[test]
fn serve_takes_networks(rt: HostRuntime) -> Result<(), Fail> {
    let options = "--from 10.1.0.0/16 --from=127.0.0.1";
    let changes = "from: [\"10.1.0.0/16\", \"127.0.0.1\"]";
    assert!(rt; is_served_with(rt.alloc(), options, changes)?);
    Ok(())
}

const WRONG_STREAMS: &str = "\
--record 0 => 2 ! --record needs --aeron
--aeron --segment-length 65536 => 2 ! --segment-length needs --record
--aeron --record 0 --segment-length 65537 => 2 ! --segment-length wants a power of two
--aeron --record 0 --segment-length 1073741823 => 2 ! --segment-length wants a power of two
--aeron --record 0 --segment-length 65536 => 3 ! the folder is not there
--aeron --record 0 --segment-length 1073741824 => 3 ! the folder is not there
";

/// Streams without `--aeron`, too many of them, and a bad length of their segments are usage errors too.
#[test]
fn wrong_streams_of_a_server(rt: HostRuntime) -> Result<(), Fail> {
    check_each_unserved(&rt, rt, WRONG_STREAMS)?;
    let option = " --record 5";
    check_repeated(&rt, rt, option, 64, " => 3 ! the folder is not there")?;
    let many = " => 2 ! --record may be given at most 64 times";
    check_repeated(&rt, rt, option, 65, many)
}

const WRONG_CHECKPOINTS: &str = "\
--no-checkpoints => 2 ! --no-checkpoints needs --aeron
--checkpoints --no-checkpoints => 2 ! --checkpoints and --no-checkpoints contradict each other
--aeron --checkpoints --no-checkpoints => 2 ! --checkpoints and --no-checkpoints contradict each other
--aeron --no-checkpoints => 3 ! the folder is not there
--aeron --checkpoints => 3 ! the folder is not there
--checkpoints => 3 ! the folder is not there
";

/// `--no-checkpoints` without `--aeron`, and with `--checkpoints`, is a usage error too.
#[test]
fn wrong_checkpoints_of_a_server(rt: HostRuntime) -> Result<(), Fail> {
    check_each_unserved(&rt, rt, WRONG_CHECKPOINTS)
}

const HIDDEN: &str = "\
list @ --read-only => 0 recording 0 1000 -1 0 -1 42 131072 65536 1408 7 1001 c;end 1;
list @ => 0 recording 0 1000 -1 0 0 42 131072 65536 1408 7 1001 c;end 1;
";

/// A Settle past the closed gate, with its frames: a strict server leaves the archive alone, and its recording active.
#[test]
fn a_strict_server_and_a_hidden_entry(rt: HostRuntime) -> Result<(), Fail> {
    let (control, receive) = free_ports(rt)?;
    let script = format!(in rt.alloc();
        "create @ --history 16 => 0 created;\nrecord\nclose-gate\n\
        serve @ --control {control} --receive {receive} --quiet --strict => 3 ! \
        the archive is not opened, since entries may be hidden\n{HIDDEN}"
    )?;
    plays(&rt, rt, "hidden", script.as_str())
}
