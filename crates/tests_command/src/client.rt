//! A client of a server whose connections give replies in pieces, and fail: crates/control_client/README.md.

ghost use Rattle.std.specs.Prelude.{◌≤◌, length};

use control_client::{AskFault, ConnectionFault, Question, Server, Verdict, ask};
use std::io::{self, ErrorKind, Read};
use std::test::*;

/// A server whose connections give these pieces, between bars, a piece a read. `~` is a read that a signal interrupts, and `!` one
/// that fails.
#[derive(Clone, Copy, Drop)]
struct Pieces<'a>(&'a str);

/// The pieces that a connection has left.
#[derive(Drop)]
struct PiecesLeft<'a>(&'a str);

impl Read for PiecesLeft<'_> {
    fn read(&mut self, buf: &mut [u8]) -> io::Result<usize> {
        let (piece, left) = match self.0.split_once("|") {
            Some(parts) => parts,
            None => (self.0, ""),
        };
        self.0 = left;
        match piece {
            "!" => Err(io::Error::from(ErrorKind::ConnectionReset)),
            "~" => Err(io::Error::from(ErrorKind::Interrupted)),
            piece => Ok(copied(piece.as_bytes(), buf)),
        }
    }
}

/// Copies bytes to a buffer, as many as fit: how many.
fn copied(bytes: &[u8], buf: &mut [u8]) -> usize
    ensures { result ≤ length buf.new }
{
    let count = bytes.len().min(buf.len());
    buf[..count].copy_from_slice(&bytes[..count]);
    count
}

impl<'a> Server for Pieces<'a> {
    ghost answers = { λ _ _ _. Unit {0} };

    type Replies = PiecesLeft<'a>;

    fn send(&self, text: &[u8]) -> Result<PiecesLeft<'a>, ConnectionFault> {
        if text == b"sweep\n".as_slice() {
            Ok(PiecesLeft(self.0))
        } else {
            Err(ConnectionFault::Unreachable(io::Error::from(ErrorKind::Other)))
        }
    }
}

/// What came is printed and judged, also in pieces, after an interrupted read, and if the connection fails before or after a
/// whole reply.
#[test]
fn replies_in_pieces(rt: HostRuntime) {
    for (pieces, printed, verdict) in [
        ("swept 0\n", "swept 0\n", Some(Verdict::Answered)),
        ("swe|pt 0|\n", "swept 0\n", Some(Verdict::Answered)),
        ("~|swept|~| 0\n|~", "swept 0\n", Some(Verdict::Answered)),
        (
            "err|or 22 BadLine\n",
            "error 22 BadLine\n",
            Some(Verdict::Refused),
        ),
        (
            "fr|ame 0 00\ndo|ne\n",
            "frame 0 00\ndone\n",
            Some(Verdict::Answered),
        ),
        (
            "frame 0 00\n|frame",
            "frame 0 00\nframe",
            Some(Verdict::Unanswered(1)),
        ),
        ("", "", Some(Verdict::Unanswered(1))),
        ("swep|!|t 0\n", "swep", None),
        ("swept 0\n|!", "swept 0\n", None),
        ("error 22 BadLine\n|!", "error 22 BadLine\n", None),
    ] {
        let mut out = Vec::new(rt.alloc());
        let question = Question {
            lines: &["sweep"],
            until: None,
        };
        let asked = ask(&rt, rt.alloc(), &Pieces(pieces), &question, &mut out);
        let is_right = match asked {
            Ok(found) => Some(found) == verdict,
            Err(AskFault::Connection(ConnectionFault::Lost(_))) => verdict.is_none(),
            Err(_) => false,
        };
        assert!(rt;
            is_right && out.as_slice() == printed.as_bytes(),
            "{pieces}"
        );
    }
}

/// A server that can't be reached is a fault, and nothing is printed.
#[test]
fn faults_of_a_client(rt: HostRuntime) {
    let mut out = Vec::new(rt.alloc());
    let question = Question {
        lines: &["sweep", "sweep"],
        until: None,
    };
    let asked = ask(&rt, rt.alloc(), &Pieces(""), &question, &mut out);
    let is_unreachable = matches!(
        asked,
        Err(AskFault::Connection(ConnectionFault::Unreachable(_)))
    );
    assert!(rt; is_unreachable && out.is_empty());
}
