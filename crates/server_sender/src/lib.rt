//! Recordings that a server sends as publications: which there are, what goes to whom, and what the lines about them say.
#![tactic(auto)]

mod endpoint;
mod feedback;
mod line;
mod publishing;
mod read_frames;
mod record;
mod send_end;
mod stepping;
mod table;
mod table_text;

pub use endpoint::{Endpoint, is_sendable};
pub use feedback::{Feedback, feedback_of};
pub use line::{SendFields, SendLine, print_sending, print_stopped, send_line};
pub use publishing::{LastFrames, Publishing, SendOver, SendProgress};
pub use read_frames::ReadFrames;
pub use record::{SendRecord, SendRequest, SendState};
pub use send_end::SendEnd;
pub use stepping::{Stepped, send_next, send_some};
pub use table::{MAX_ENDED, SendTable};
