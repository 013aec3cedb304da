//! The command `ask`: its words, and what it comes to over scripted servers, and over a served archive.
//! docs/SERVING.md, "Control lines".

use crate::folders::{NO_LINES, emptied, ended, ends, unused};
use crate::words::{Full, Streams, ask_for_each, check_missing, check_value, words_in};
use command_line::{AskWords, ToolCommand};
use folder_commands::concluded;
use std::alloc::{AllocError, Global};
use std::io::{Eprint, Read, Write};
use std::net::{Net, TcpListener, TcpStream, UdpSocket};
use std::rt::Clock;
use std::sync::Wait;
use std::test::*;
use std::thread::{self, Threads};
use std::time::Duration;
use std::{fs, io};

/// Words of `ask`, with lines between bars.
fn words_of<'a>(
    alloc: Global,
    port: u32,
    lines: &'a str,
    until: Option<&'a str>,
    wait: u32,
) -> Result<AskWords<'a>, AllocError> {
    let mut all = Vec::new(alloc);
    for line in lines.split('|') {
        all.push(line)?;
    }
    Ok(AskWords {
        port,
        lines: all,
        until,
        wait,
    })
}

const WORDS: &str = "\
ask 8010 sweep: Ask(AskWords { port: 8010, lines: [\"sweep\"], until: None, wait: 60 })
ask 1 a b c: Ask(AskWords { port: 1, lines: [\"a\", \"b\", \"c\"], until: None, wait: 60 })
ask 65535 sweep --until swept: Ask(AskWords { port: 65535, lines: [\"sweep\"], until: Some(\"swept\"), wait: 60 })
ask --wait 1 8010 a b --until=c: Ask(AskWords { port: 8010, lines: [\"a\", \"b\"], until: Some(\"c\"), wait: 1 })
ask 8010 a --wait=86400 b: Ask(AskWords { port: 8010, lines: [\"a\", \"b\"], until: None, wait: 86400 })
ask 8010 -- -a --until: Ask(AskWords { port: 8010, lines: [\"-a\", \"--until\"], until: None, wait: 60 })
";

/// `ask` takes each option at its limits, before and after its lines. Words after `--` are lines, whatever they begin with.
#[test]
fn ask_has_its_words(rt: HostRuntime) -> Result<(), Fail> {
    ask_for_each(&rt, rt.alloc(), WORDS)
}

/// A port or a wait of `ask` that is out of its range, or not a number, is a usage error.
#[test]
fn words_of_ask_out_of_range(rt: HostRuntime) -> Result<(), Fail> {
    for (line, value) in [
        ("ask 0 a", "'0' for '<port>'"),
        ("ask 65536 a", "'65536' for '<port>'"),
        ("ask a b", "'a' for '<port>'"),
        ("ask 1 a --wait 0", "'0' for '--wait <seconds>'"),
        ("ask 1 a --wait 86401", "'86401' for '--wait <seconds>'"),
        ("ask 1 a --wait x", "'x' for '--wait <seconds>'"),
    ] {
        check_value(rt.alloc(), line, value)?;
    }
    Ok(())
}

/// `ask` without a line is a usage error that names the missing word.
#[test]
fn a_missing_line(rt: HostRuntime) -> Result<(), Fail> {
    check_missing(rt.alloc(), "ask 8010", "<line>...")
}

/// Lines that are sent, the reply that is awaited, what a server answers on each connection, between bars, and how `ask` ends:
/// its line on standard error, if there is one, and its status.
#[derive(Clone, Copy)]
struct Exchange {
    lines: &'static str,
    until: Option<&'static str>,
    replies: &'static str,
    told: &'static str,
    status: u8,
}

/// Whether the bytes are these pieces, between bars.
fn are_pieces(bytes: &[u8], pieces: &str) -> bool {
    let mut rest = bytes;
    for piece in pieces.split('|') {
        match rest.strip_prefix(piece.as_bytes()) {
            Some(more) => rest = more,
            None => return false,
        }
    }
    rest.is_empty()
}

/// Whether the bytes are these lines, between bars, each with its end.
fn are_lines(bytes: &[u8], lines: &str) -> bool {
    let mut rest = bytes;
    for line in lines.split('|') {
        match rest.strip_prefix(line.as_bytes()) {
            Some([b'\n', more @ ..]) => rest = more,
            _ => return false,
        }
    }
    rest.is_empty()
}

/// Reads a connection to its end, and answers it. Whether these lines came.
fn answers(stream: &TcpStream, alloc: Global, lines: &str, reply: &str) -> bool {
    let mut came = Vec::new(alloc);
    let mut connection = stream;
    connection.read_to_end(&mut came).is_ok()
        && are_lines(came.as_slice(), lines)
        && connection.write_all(reply.as_bytes()).is_ok()
}

/// Answers a connection for each reply. Whether the lines came on each.
fn answers_each(listener: &TcpListener, alloc: Global, exchange: Exchange) -> bool {
    for reply in exchange.replies.split('|') {
        match listener.accept() {
            Ok((stream, _)) if answers(&stream, alloc, exchange.lines, reply) => {}
            _ => return false,
        }
    }
    true
}

/// Whether `ask` prints all replies of the server of a port, and ends as it has to.
fn ends_so<
    R: Threads + Wait + Clock + Eprint + Net<Listener = TcpListener, Stream = TcpStream> + Sync,
>(net: &R, rt: HostRuntime, port: u32, exchange: Exchange) -> bool {
    let Ok(words) = words_of(rt.alloc(), port, exchange.lines, exchange.until, 10) else {
        return false;
    };
    let mut out = Vec::new(rt.alloc());
    let ended = ended(net, rt, ToolCommand::Ask(words), NO_LINES, &mut out);
    let streams = Streams::new(rt.alloc(), exchange.told);
    concluded(&streams, ended) == exchange.status
        && streams.awaited_came.get() == !exchange.told.is_empty()
        && are_pieces(out.as_slice(), exchange.replies)
}

/// Whether a server that answers so is asked so.
fn goes_so<
    R: Threads + Wait + Clock + Eprint + Net<Listener = TcpListener, Stream = TcpStream> + Sync,
>(net: &R, rt: HostRuntime, exchange: Exchange) -> Option<bool> {
    let listener = TcpListener::bind(net, "127.0.0.1:0").ok()?;
    let port = u32::from(listener.local_addr().ok()?.port());
    let alloc = rt.alloc();
    let (is_heard, is_right) = thread::join(
        net,
        move || answers_each(&listener, alloc, exchange),
        move || ends_so(net, rt, port, exchange),
    );
    Some(is_heard && is_right)
}

/// `ask` prints replies of one line and of several. It ends by what came: a refusal, an early end, a line cut off, or the awaited
/// reply.
#[test]
fn what_a_server_answers(rt: HostRuntime) {
    for (lines, until, replies, told, status) in [
        ("sweep", None, "swept 0\n", "", 0),
        (
            "list 0 9|poll 0 2|images|replays|sends|send 0|merge-take|merge-take|sweep",
            None,
            "recording 0\nend 1\nframe 0 00\nmore 64\nimage 0\nend 1\nopen 0\nopen 1\nend 2\nsend 0\nsend 1\nend 2\nsending 2\nframe 0 00\nnone\nswept 0\n",
            "",
            0,
        ),
        ("a|sweep", None, "error 22 BadLine\nswept 0\n", "", 1),
        (
            "sweep|sweep",
            None,
            "swept 0\nswept 0",
            "the server answered 1 of 2 lines",
            3,
        ),
        (
            "poll 0 9",
            None,
            "frame 0 00\nframe 64 00\n",
            "the server answered 0 of 1 lines",
            3,
        ),
        (
            "a|sweep",
            None,
            "error 22 BadLine\n",
            "the server answered 1 of 2 lines",
            3,
        ),
        (
            "sweep",
            Some("swept 0"),
            "swept 1\n|swept 1\n|swept 0\n",
            "",
            0,
        ),
        (
            "sweep",
            Some("swept 0"),
            "swept 1\n|error 17 DeviceFault\n",
            "",
            1,
        ),
        (
            "sweep|sweep",
            Some("swept 0"),
            "swept 0\nswept 1\n|swept 1\nswept 0\n",
            "",
            0,
        ),
    ] {
        let exchange = Exchange {
            lines,
            until,
            replies,
            told,
            status,
        };
        assert!(rt;
            goes_so(&rt, rt, exchange) == Some(true),
            "{lines} {replies}"
        );
    }
}

/// Whether `ask` ends with status 3 over a server that answers, if its output takes nothing.
fn fails_to_print<
    R: Threads + Wait + Clock + Eprint + Net<Listener = TcpListener, Stream = TcpStream> + Sync,
>(net: &R, rt: HostRuntime, port: u32) -> bool {
    let Ok(words) = words_of(rt.alloc(), port, "sweep", None, 10) else {
        return false;
    };
    let ended = ended(net, rt, ToolCommand::Ask(words), NO_LINES, &mut Full);
    ended.status() == 3
}

/// `ask` ends with status 3 if its output takes nothing.
#[test]
fn an_output_that_takes_nothing(rt: HostRuntime) -> Result<(), Fail> {
    let listener = TcpListener::bind(&rt, "127.0.0.1:0")?;
    let port = u32::from(listener.local_addr()?.port());
    let (net, alloc) = (&rt, rt.alloc());
    let exchange = Exchange {
        lines: "sweep",
        until: None,
        replies: "swept 0\n",
        told: "",
        status: 3,
    };
    let (is_heard, is_right) = thread::join(
        net,
        move || answers_each(&listener, alloc, exchange),
        move || fails_to_print(net, rt, port),
    );
    assert!(rt; is_heard && is_right);
    Ok(())
}

/// Whether `ask` prints nothing, and ends by this line and this status.
fn is_unanswered<
    R: Threads + Wait + Clock + Eprint + Net<Listener = TcpListener, Stream = TcpStream> + Sync,
>(net: &R, rt: HostRuntime, words: AskWords<'_>, told: &str, status: u8) -> bool {
    let mut out = Vec::new(rt.alloc());
    let ended = ended(net, rt, ToolCommand::Ask(words), NO_LINES, &mut out);
    let streams = Streams::new(rt.alloc(), told);
    concluded(&streams, ended) == status
        && streams.awaited_came.get() == !told.is_empty()
        && out.is_empty()
}

/// Whether that is so of a port that is sent these lines, between bars.
fn leaves_unanswered<
    R: Threads + Wait + Clock + Eprint + Net<Listener = TcpListener, Stream = TcpStream> + Sync,
>(net: &R, rt: HostRuntime, asked: (u32, &str, Option<&str>), told: &str, status: u8) -> bool {
    let (port, lines, until) = asked;
    match words_of(rt.alloc(), port, lines, until, 1) {
        Ok(words) => is_unanswered(net, rt, words, told, status),
        Err(_) => false,
    }
}

/// Whether `ask` says that nobody listens on a port.
fn is_refused<
    R: Threads + Wait + Clock + Eprint + Net<Listener = TcpListener, Stream = TcpStream> + Sync,
>(net: &R, rt: HostRuntime, port: u32) -> Result<bool, AllocError> {
    let told = format!(in rt.alloc(); "no server on port {port}: Connection refused")?;
    Ok(leaves_unanswered(net, rt, (port, "sweep", None), told.as_str(), 3))
}

/// `ask` ends with status 3 and says why, if a server sends nothing in time, or nobody listens on the port.
#[test]
fn nobody_answers(rt: HostRuntime) -> Result<(), Fail> {
    let listener = TcpListener::bind(&rt, "127.0.0.1:0")?;
    let address = listener.local_addr();
    let port = match address {
        Ok(address) => u32::from(address.port()),
        Err(_) => 0,
    };
    let told = "nothing came for 1 seconds";
    let is_late = leaves_unanswered(&rt, rt, (port, "sweep", None), told, 3);
    drop(listener);
    assert!(rt; is_late);
    assert!(rt; is_refused(&rt, rt, port)?);
    Ok(())
}

/// Wrong words are a usage error, and nothing is sent: nobody listens on the port.
#[test]
fn wrong_words_of_ask(rt: HostRuntime) -> Result<(), Fail> {
    let lines = "lines have no line feed, and with their ends at most 65536 bytes";
    let follow = "follow is answered by bytes, and not by lines alone";
    for (port, line, until, told) in [
        (65_536, "sweep", None, ""),
        (1, "sweep\n", None, lines),
        (1, "a|\n|b", None, lines),
        (1, "sweep|follow 0 0 -1", None, follow),
        (
            1,
            "sweep",
            Some("swept 0\n"),
            "--until wants a line without a line feed",
        ),
    ] {
        let asked = (port, line, until);
        assert!(rt; leaves_unanswered(&rt, rt, asked, told, 2), "{line}");
    }
    Ok(())
}

/// Whether a line of so many bytes is left unanswered so.
fn is_long<
    R: Threads + Wait + Clock + Eprint + Net<Listener = TcpListener, Stream = TcpStream> + Sync,
>(net: &R, rt: HostRuntime, length: usize, told: &str, status: u8) -> Result<bool, AllocError> {
    let line = "a".repeat(rt.alloc(), length)?;
    Ok(leaves_unanswered(net, rt, (1, line.as_str(), None), told, status))
}

/// Lines of 65,536 bytes with their ends are sent. One byte more is a usage error.
#[test]
fn the_longest_lines(rt: HostRuntime) -> Result<(), Fail> {
    let refused = "no server on port 1: Connection refused";
    let lines = "lines have no line feed, and with their ends at most 65536 bytes";
    for (length, told, status) in [(65_535, refused, 3), (65_536, lines, 2)] {
        assert!(rt; is_long(&rt, rt, length, told, status)?, "{length}");
    }
    Ok(())
}

/// Serves the archive of a folder by a line until another one quits. Whether its status is 0.
fn is_served<
    R: Threads + Wait + Clock + Eprint + Net<Listener = TcpListener, Stream = TcpStream> + Sync,
>(net: &R, rt: HostRuntime, folder: &str, line: &str) -> bool {
    let Ok(words) = words_in(rt.alloc(), line, folder) else {
        return false;
    };
    let mut out = Vec::new(rt.alloc());
    ends(net, rt, words.as_slice(), &mut out, "") == Some((0, false))
}

/// Whether a server begins to answer on a port within about 10 seconds.
fn comes_up<
    R: Threads + Wait + Clock + Eprint + Net<Listener = TcpListener, Stream = TcpStream> + Sync,
>(net: &R, rt: HostRuntime, port: u32) -> bool {
    let exchange = Exchange {
        lines: "find 0 1 1 a",
        until: None,
        replies: "found -1\n",
        told: "",
        status: 0,
    };
    for _ in 0..1_000 {
        if ends_so(net, rt, port, exchange) {
            return true;
        }
        thread::sleep(net, Duration::from_millis(10));
    }
    false
}

/// Whether a served archive answers as it has to, and then quits.
fn is_asked<
    R: Threads + Wait + Clock + Eprint + Net<Listener = TcpListener, Stream = TcpStream> + Sync,
>(net: &R, rt: HostRuntime, port: u32) -> bool {
    let mut is_right = comes_up(net, rt, port);
    for (lines, until, replies, told, status) in [
        (
            "start 1001 7 42 65536 1408 131072 0 1000 live|positions 0",
            None,
            "started 0 0\npositions 0 0 -1\n",
            "",
            0,
        ),
        (
            "list 0 9|find 0 1001 7 live",
            None,
            "recording 0 1000 -1 0 -1 42 131072 65536 1408 7 1001 live\nend 1\nfound 0\n",
            "",
            0,
        ),
        (
            "positions 9|positions 0",
            None,
            "error 1 UnknownRecording\npositions 0 0 -1\n",
            "",
            1,
        ),
        ("sweep", Some("swept 0"), "swept 0\n", "", 0),
        (
            "quit|sweep",
            None,
            "bye\n",
            "the server answered 1 of 2 lines",
            3,
        ),
    ] {
        let exchange = Exchange {
            lines,
            until,
            replies,
            told,
            status,
        };
        is_right = ends_so(net, rt, port, exchange) && is_right;
    }
    is_right
}

/// Ports that were free a moment ago: of control lines, and of datagrams.
pub(crate) fn free_ports(rt: HostRuntime) -> io::Result<(u32, u32)> {
    let listener = TcpListener::bind(&rt, "127.0.0.1:0")?;
    let socket = UdpSocket::bind(&rt, "127.0.0.1:0")?;
    let (control, receive) = (listener.local_addr()?, socket.local_addr()?);
    Ok((u32::from(control.port()), u32::from(receive.port())))
}

/// Makes a folder, and serves an archive in it while it is asked. Whether all goes as it has to.
fn serves<
    R: Threads + Wait + Clock + Eprint + Net<Listener = TcpListener, Stream = TcpStream> + Sync,
>(net: &R, rt: HostRuntime, folder: &str) -> Result<bool, Fail> {
    fs::create_dir(&rt, folder)?;
    let (control, receive) = free_ports(rt)?;
    let line = format!(in rt.alloc(); "serve @ --control {control} --receive {receive} --quiet")?;
    let line = line.as_str();
    let (is_served, is_right) = thread::join(
        net,
        move || is_served(net, rt, folder, line),
        move || is_asked(net, rt, control),
    );
    Ok(is_served && is_right)
}

/// `ask` asks a served archive in one process: two lines, a reply of several lines, a refusal, an awaited reply, and a line after
/// `quit`.
#[test]
fn a_served_archive(rt: HostRuntime) -> Result<(), Fail> {
    let folder = unused(rt, "asked")?;
    let is_right = serves(&rt, rt, folder.as_str());
    let emptied = emptied(rt, folder.as_str());
    drop(folder);
    assert!(rt; is_right?);
    Ok(emptied?)
}
