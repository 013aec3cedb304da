//! What the program prints of an archive that is only looked at: its recordings, whether they are whole, and a page for people.
#![tactic(auto)]

mod dates;
mod describe;
mod document;
mod export;
mod form;
mod list;
mod page;
mod progress;
mod summary;
mod verify;
mod version;
mod viewing;

pub use dates::Moment;
pub use describe::describe_archive;
pub use export::export_view;
pub use form::Form;
pub use list::list_view;
pub use progress::{ExportObserver, ExportReporter, Extent};
pub use verify::{Finding, verify_view};
