//! What an archive knows and does, as values: descriptors, commands and their replies, and the register.
#![tactic(auto)]

mod channel;
mod command;
mod descriptor;
pub mod laws;
mod numbered;
mod range;
mod register;
mod registration;
mod reply;
mod source;
mod stream;
mod version;

pub use channel::Channel;
pub use command::{Command, ExtendFields, StartFields};
pub use descriptor::Descriptor;
pub use numbered::{Numbered, index_of};
pub use range::{is_aligned, is_origin, is_source, may_begin_at};
pub use register::Register;
pub use registration::{Change, Registration};
pub use reply::{PolledFrame, Reply};
pub use source::SourceIdentity;
pub use version::BankVersion;
