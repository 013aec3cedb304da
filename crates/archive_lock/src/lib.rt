//! An archive that threads share: one lock, and one history of their calls.
#![tactic(auto)]

mod held;
mod history;
pub mod laws;
mod naming;
mod records;
mod shared;
mod standing;

pub use held::{Closed, Held, MissingPass};
pub use history::{Call, Made};
pub use naming::Naming;
pub use shared::{LockRefusal, SharedArchive};
pub use standing::Standing;
