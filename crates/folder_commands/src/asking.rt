//! The command `ask`: its words, and the server that its lines are sent to. docs/SERVING.md, "Control lines".

ghost use Rattle.std.specs.Prelude.{◌≡◌, ◌↔◌, IsTrue, MatchResult};
ghost use Rattle.clap.specs.declared.error.ErrorKind.TheVariants.{ValueValidation};
ghost use Rattle.folder_commands.specs.declared.status.Ending.TheVariants.{NoCommand};
ghost use Rattle.folder_commands.specs.Asking.{IsUnaskable, AsksServer, EndsAsking, FailsAsking, IsOneLine};
ghost use Rattle.folder_commands.specs.Folders.{ending_in};

use crate::exit::Exit;
use crate::serving::{misworded, port_of};
use crate::status::Ending;
use crate::why::Why;
use command_line::{AskWords, UsageError};
use control_client::{
    AskFault, ConnectionFault, Question, Server, Verdict, are_answered_by_lines, are_sendable,
    is_line,
};
use std::io::{self, ErrorKind, Write};
use std::net::{Ipv4Addr, Net, Shutdown, SocketAddr, TcpListener, TcpStream};
use std::rt::Clock;
use std::sync::Wait;
use std::time::Duration;
use tool_core::EarlyEnd;

/// A server of control lines on this machine.
#[derive(Drop)]
struct LocalServer<'a, R> {
    net: &'a R,
    port: u16,
    /// For how long it may send nothing.
    patience: Duration,
}

impl<R: Net<Listener = TcpListener, Stream = TcpStream>> Server for LocalServer<'_, R> {
    /// Nothing is known of what it answers.
    ghost answers = { λ _ _ _. Unit {0} };

    type Replies = TcpStream;

    fn send(&self, text: &[u8]) -> Result<TcpStream, ConnectionFault> {
        let address = SocketAddr::from((Ipv4Addr::LOCALHOST, self.port));
        let stream = match TcpStream::connect_timeout(self.net, &address, self.patience) {
            Ok(stream) => stream,
            Err(error) => return Err(ConnectionFault::Unreachable(error)),
        };
        match send_over(&stream, text, self.patience) {
            Ok(()) => Ok(stream),
            Err(error) => Err(ConnectionFault::Lost(error)),
        }
    }
}

/// Sends bytes on a connection, and ends its sending side. A read or a write of it waits so long at most from then on.
fn send_over(stream: &TcpStream, text: &[u8], patience: Duration) -> io::Result<()> {
    stream.set_read_timeout(Some(patience))?;
    stream.set_write_timeout(Some(patience))?;
    let mut sending = stream;
    sending.write_all(text)?;
    stream.shutdown(Shutdown::Write)
}

/// Sends the lines of the words to the server of a port of this machine, and prints what it answers, until asking ends. If the
/// words are wrong, nothing is sent.
pub(crate) fn ask<R: Wait + Clock + Net<Listener = TcpListener, Stream = TcpStream>, W: Write>(
    net: &R,
    rt: HostRuntime,
    words: &AskWords<'_>,
    writer: &mut W,
) -> Result<(), Exit>
    ensures { AsksServer words.now (W.contents writer.old) (W.contents writer.new) (ending_in result) }
{
    let local = LocalServer {
        net,
        port: port_to_ask(words)?,
        patience: Duration::from_secs(u64::from(words.wait)),
    };
    let question = Question {
        lines: words.lines.as_slice(),
        until: words.until,
    };
    match control_client::ask(net, rt.alloc(), &local, &question, writer) {
        Ok(verdict) => answered_by(verdict, words),
        Err(fault) => Err(unanswered_by(fault, words)),
    }
}

/// The port that the words name. Refused if it is none, if the lines may not be sent at once, if one asks for frames, or if the
/// reply that has to come last is more than one line.
fn port_to_ask(words: &AskWords<'_>) -> Result<u16, Exit>
    ensures { MatchResult result
        (λ _. IsUnaskable words.now → ⊥)
        (λ exit. IsUnaskable words.now × (exit.ending ≡ NoCommand ValueValidation)) }
{
    if !are_sendable(words.lines.as_slice()) {
        return Err(misworded(UsageError::Lines));
    }
    if !are_answered_by_lines(words.lines.as_slice()) {
        return Err(misworded(UsageError::Follow));
    }
    if !is_one_line(words.until) {
        return Err(misworded(UsageError::Until));
    }
    port_of(words.port)
}

/// Whether a text, if there is one, is one line.
fn is_one_line(text: Option<&str>) -> bool
    ensures { IsTrue result ↔ IsOneLine text.entry }
{
    match text {
        None => true,
        Some(text) => is_line(text),
    }
}

/// How the command ends by a verdict.
fn answered_by(verdict: Verdict, words: &AskWords<'_>) -> Result<(), Exit>
    ensures { EndsAsking verdict (ending_in result) }
{
    match verdict {
        Verdict::Answered => Ok(()),
        Verdict::Refused => Err(Exit::reported(Ending::LineRefused)),
        Verdict::Unanswered(left) => {
            let lines = words.lines.len();
            Err(Exit {
                ending: Ending::Failed(ErrorKind::UnexpectedEof),
                why: Why::Unanswered(lines.saturating_sub(left), lines),
            })
        }
    }
}

/// How the command ends by a fault.
fn unanswered_by(fault: AskFault, words: &AskWords<'_>) -> Exit
    ensures { FailsAsking fault result.ending }
{
    match fault {
        AskFault::Output => Exit::cut(EarlyEnd::Write, Why::Reported),
        AskFault::Memory => Exit::cut(EarlyEnd::Memory, Why::Reported),
        AskFault::Connection(ConnectionFault::Unreachable(error)) => Exit {
            ending: Ending::Failed(error.kind()),
            why: Why::Unreachable(words.port, error),
        },
        AskFault::Connection(ConnectionFault::Lost(error)) => Exit {
            ending: Ending::Failed(error.kind()),
            why: if is_late(error) {
                Why::Silent(words.wait)
            } else {
                Why::Lost(error)
            },
        },
    }
}

/// Whether a read or a write has only waited for too long.
fn is_late(error: io::Error) -> bool {
    error.kind() == ErrorKind::WouldBlock || error.kind() == ErrorKind::TimedOut
}
