//! An archive beside the pages that are kept of it. docs/ARCHITECTURE.md, "The engine".

ghost use Rattle.engine_core.specs.Engine.{IsTied};

use crate::Storage;
use control_core::Desk;

/// An archive beside the pages that are kept of it: its files with the log of its catalogue, and its desk. While no write has
/// failed, log and desk count alike.
#[derive(Drop)]
pub(crate) struct StoredArchive<D> {
    pub(crate) storage: Storage<D>,
    pub(crate) desk: Desk,
    pub ghost tied: { IsTied storage.log desk.state },
}
