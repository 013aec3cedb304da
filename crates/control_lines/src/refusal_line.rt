//! Refusals as text. docs/CONTROL.md, "Refusals".

ghost use Rattle.std.specs.Prelude.{◌≡◌, ◌++◌, ◌+◌, ◌≤◌, [], length, codes};
ghost use Rattle.control_lines.specs.RefusalText.{name_of, details_of, refusal_text};

use frame_core::Refusal;
use std::marker::Model;

// More than any refusal's line has.
const ROOM: usize = 80;

/// A refusal's line, which lies in no memory but its own. To a contract it is its bytes.
#[derive(Debug, Drop)]
pub struct RefusalLine {
    bytes: [u8; ROOM],
    length: usize,
}

impl Model for RefusalLine {
    ghost use Rattle.std.specs.Prelude.{ℕ, ◌≤◌, List, take};

    ghost Value = { List ℕ };

    ghost view = { λ line. take line.length line.bytes };

    ghost invariant = { λ line. line.length ≤ 80 };
}

impl RefusalLine {
    fn new() -> RefusalLine
        ensures { result ≡ [] }
    {
        RefusalLine {
            bytes: [0; ROOM],
            length: 0,
        }
    }

    fn put(&mut self, text: &str)
        requires { length self.old + length text.now ≤ 80 }
        ensures { self.new ≡ self.old ++ text.now }
    {
        let end = self.length + text.len();
        self.bytes[self.length..end].copy_from_slice(text.as_bytes());
        self.length = end;
    }

    /// The line's bytes, its end among them.
    pub fn as_bytes(&self) -> &[u8]
        ensures { result.now ≡ self.now }
    {
        &self.bytes[..self.length]
    }
}

fn name(refusal: &Refusal) -> &'static str
    ensures text { result.now ≡ name_of refusal.now }
    ensures short { length result.now ≤ 16 }
{
    match refusal {
        Refusal::UnknownRecording => "UnknownRecording",
        Refusal::ActiveRecording => "ActiveRecording",
        Refusal::NotActive => "NotActive",
        Refusal::ActiveReplay => "ActiveReplay",
        Refusal::BadPosition => "BadPosition",
        Refusal::BadExtension => "BadExtension",
        Refusal::MaxRecordings => "MaxRecordings",
        Refusal::MaxReplays => "MaxReplays",
        Refusal::UnknownReplay => "UnknownReplay",
        Refusal::BadParameter => "BadParameter",
        Refusal::HistoryFull => "HistoryFull",
        Refusal::StaleSession => "StaleSession",
        Refusal::BadBlock => "BadBlock",
        Refusal::NeedSettle => "NeedSettle",
        Refusal::Damaged { .. } => "Damaged",
        Refusal::Broken => "Broken",
        Refusal::DeviceFault => "DeviceFault",
        Refusal::NoMemory => "NoMemory",
        Refusal::NotCatalogue => "NotCatalogue",
        Refusal::NewerVersion => "NewerVersion",
        Refusal::BadFrame { .. } => "BadFrame",
        Refusal::BadLine => "BadLine",
        Refusal::NeedCompact => "NeedCompact",
    }
}

fn put_details(line: &mut RefusalLine, refusal: &Refusal)
    requires { length line.old ≤ 37 }
    ensures text { line.new ≡ line.old ++ details_of refusal.now }
    ensures short { length line.new ≤ 79 }
{
    match refusal {
        Refusal::Damaged {
            recording,
            position,
        } => {
            line.put(" ");
            line.put(itoa::Buffer::new().format(*recording));
            line.put(" ");
            line.put(itoa::Buffer::new().format(*position));
        }
        Refusal::BadFrame { offset } => {
            line.put(" ");
            line.put(itoa::Buffer::new().format(*offset));
        }
        _ => {}
    }
}

/// The refusal's line, with its end: docs/CONTROL.md, "Refusals". Does not allocate.
#[tactic(auto, unfolding(crate::specs::RefusalText::refusal_text))]
pub fn print_refusal(refusal: &Refusal) -> RefusalLine
    ensures { result ≡ refusal_text refusal.now }
{
    let mut line = RefusalLine::new();
    line.put("error ");
    line.put(itoa::Buffer::new().format(refusal.number()));
    line.put(" ");
    line.put(name(refusal));
    put_details(&mut line, refusal);
    line.put("\n");
    line
}
