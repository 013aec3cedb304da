//! What a receiver sends to the sender of a publication, and when: status messages, NAKs and requests for a setup frame.
#![tactic(auto)]

mod consumption;
mod feedback;
pub mod laws;
mod setups;
mod timing;
mod windows;

pub use consumption::told_position;
pub use feedback::{Feedback, SentRequest, SentStatus};
pub use setups::{SetupRequest, SetupRequests, setup_request};
pub use windows::{
    INITIAL_WINDOW, LONGEST_WINDOW, SHORTEST_WINDOW, five_sixteenths, settled_bound, window_of,
};
