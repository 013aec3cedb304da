//! A client of a server's control lines: it sends lines, prints what comes, and says what that answers. docs/CONTROL.md,
//! "Lines".
#![tactic(auto)]

mod answer;
mod asking;
mod fault;
mod lines;
mod printing;
mod replies;
mod tally;

pub use answer::{Answer, Verdict};
pub use asking::{Question, Server, ask};
pub use fault::{AskFault, ConnectionFault};
pub use lines::{MAX_SENT, are_answered_by_lines, are_sendable, is_line};
