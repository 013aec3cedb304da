//! A refusal as text.

use control_lines::print_refusal;
use frame_core::Refusal;
use std::fmt;

/// The line of a refusal, without its end.
#[derive(Clone, Copy, Drop)]
pub(crate) struct RefusalText(pub Refusal);

impl fmt::Display for RefusalText {
    fn fmt<W: fmt::Write>(&self, f: &mut fmt::Formatter<W>) -> fmt::Result {
        let line = print_refusal(&self.0);
        match std::str::from_utf8(line.as_bytes()) {
            Ok(text) => f.write_str(text.trim_end()),
            Err(_) => Ok(()),
        }
    }
}
