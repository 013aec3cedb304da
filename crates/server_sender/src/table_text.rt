//! The answer to the line `sends`. docs/CONTROL.md, "Sendings".

ghost use Rattle.std.specs.Prelude.{◌≡◌, ◌++◌, IfOk, OnOk, string_bytes};
ghost use Rattle.std.specs.List.{flat_map};
ghost use Rattle.server_sender.specs.Texts.{send_line, send_target, send_way, send_table_text, send_state_text};

use crate::record::{SendRecord, SendState};
use crate::table::SendTable;
use std::alloc::{AllocError, Global};

impl SendTable {
    /// A line for each sending, and a line with how many there are: the answer to the line `sends`.
    pub fn text(&self, alloc: Global) -> Result<String, AllocError>
        ensures { IfOk result (λ text. string_bytes text ≡ send_table_text self.now.sends) }
    {
        let mut out = String::new(alloc);
        put_sends(&mut out, self.records())?;
        writeln!(out, "end {}", self.records().len())?;
        Ok(out)
    }
}

fn put_sends(out: &mut String, sends: &[SendRecord]) -> Result<(), AllocError>
    ensures { OnOk result (string_bytes out.new ≡ string_bytes out.old ++ flat_map send_line sends.now) }
{
    for sending in sends {
        put_send(out, sending)?;
    }
    Ok(())
}

/// A sending's line.
fn put_send(out: &mut String, sending: &SendRecord) -> Result<(), AllocError>
    ensures { OnOk result (string_bytes out.new ≡ string_bytes out.old ++ send_line sending.now) }
{
    put_target(out, sending)?;
    put_way(out, sending)
}

/// Its number, its recording, where it goes to, and its state.
#[tactic(auto, unfolding(crate::specs::Texts::send_target))]
fn put_target(out: &mut String, sending: &SendRecord) -> Result<(), AllocError>
    ensures { OnOk result (string_bytes out.new ≡ string_bytes out.old ++ send_target sending.now) }
{
    write!(
        out,
        "send {} {} {} {}",
        sending.number,
        sending.recording,
        sending.endpoint.to_socket(),
        sending.state.text(),
    )
}

/// How far it is, and where it ends.
#[tactic(auto, unfolding(crate::specs::Texts::send_way))]
fn put_way(out: &mut String, sending: &SendRecord) -> Result<(), AllocError>
    ensures { OnOk result (string_bytes out.new ≡ string_bytes out.old ++ send_way sending.now) }
{
    writeln!(
        out,
        " {} {} {} {} {}",
        sending.position, sending.limit, sending.consumed, sending.bound, sending.repeats,
    )
}

impl SendState {
    /// Its word in the answer.
    pub fn text(&self) -> &'static str
        ensures { result.now ≡ send_state_text self.now }
    {
        match self {
            SendState::Waiting => "waiting",
            SendState::Sending => "sending",
            SendState::Done => "done",
            SendState::Gone => "gone",
            SendState::Refused => "refused",
        }
    }
}
