//! Lines are asked of a server, on one connection after another until an awaited line comes.

ghost use Rattle.std.specs.Prelude.{◌≡◌, ℕ, List, Option, IfErr, IfOk, option_map};
ghost use Rattle.control_client.specs.Asking.{AsksUpTo, EndsOnce, FailsOnce, HasAsked};
ghost use Rattle.control_client.specs.Lines.{text_of, texts};

use crate::answer::Verdict;
use crate::fault::{AskFault, ConnectionFault};
use crate::lines::text_of;
use crate::printing::print_replies;
use std::alloc::Global;
use std::io::{Read, Write};
use std::rt::Clock;
use std::sync::Wait;
use std::thread;
use std::time::Duration;

/// Milliseconds that a client waits before it asks again.
const PAUSE: u64 = 10;

/// What is asked.
#[derive(Clone, Copy, Debug)]
pub struct Question<'a> {
    /// The lines that are sent, without their ends.
    pub lines: &'a [&'a str],
    /// The line, without its end, that has to come last before asking ends. None: the lines are sent once.
    pub until: Option<&'a str>,
}

/// A server of control lines.
pub trait Server {
    /// What a client may have left to read, if it is known, once the server took these bytes and no more.
    ghost answers: { Self → List ℕ → Option (List ℕ) → Type 0 };

    /// What a client reads of a connection.
    type Replies: Read + Drop;

    /// Sends bytes on a new connection, and ends its sending side.
    fn send(&self, text: &[u8]) -> Result<Self::Replies, ConnectionFault>
        ensures { IfOk result (λ replies. answers self.now text.now (Self.Replies.remaining replies)) };
}

/// Sends the lines of a question to a server, and prints all that comes until the server ends the connection. Does so on one new
/// connection after another, 10 milliseconds apart, until the awaited line comes last. It has no end of its own if that never
/// comes. Costs memory for the lines' text, 65,536 bytes, and a front of a line that is a byte longer than the awaited one.
///
/// Ends too if a line has no whole reply, or a reply is a refusal. The lines have to be ones that `are_sendable` takes: else the
/// server sees other lines, or a connection takes no more of them before it is read.
///
/// `Connection` if the server is not reached, or a connection fails; `Output` if what is printed to fails; `Memory` if there is
/// none. What came before is printed.
pub fn ask<R: Wait + Clock, S: Server, W: Write>(
    rt: &R,
    alloc: Global,
    server: &S,
    question: &Question<'_>,
    out: &mut W,
) -> Result<Verdict, AskFault>
    ensures asked { IfOk result (HasAsked (S.answers server.now) (texts question.now.lines.now)
        (option_map (λ text. text.now) question.now.until) (W.contents out.old) (W.contents out.new)) }
    ensures early { IfErr result (AsksUpTo (S.answers server.now) (texts question.now.lines.now)
        (option_map (λ text. text.now) question.now.until) (W.contents out.old) (W.contents out.new)) }
{
    let text = text_of(alloc, question.lines)?;
    for _ in rt.forever() {
        match ask_once(alloc, server, text.as_slice(), question, out)? {
            Some(verdict) => return Ok(verdict),
            None => thread::sleep(rt, Duration::from_millis(PAUSE)),
        }
    }
    unreachable!()
}

/// Sends the text of a question's lines on a new connection, prints all that comes, and answers how asking ends by that; none if
/// the lines are to be sent again.
fn ask_once<S: Server, W: Write>(
    alloc: Global,
    server: &S,
    text: &[u8],
    question: &Question<'_>,
    out: &mut W,
) -> Result<Option<Verdict>, AskFault>
    ensures once { IfOk result (EndsOnce (S.answers server.now) text.now (texts question.now.lines.now)
        (option_map (λ text. text.now) question.now.until) (W.contents out.old) (W.contents out.new)) }
    ensures early { IfErr result (FailsOnce (S.answers server.now) text.now (W.contents out.old) (W.contents out.new)) }
{
    let mut replies = server.send(text)?;
    let answer = print_replies(alloc, question, &mut replies, out)?;
    Ok(answer.verdict())
}
