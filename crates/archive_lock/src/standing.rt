//! Whether an archive can record on. docs/CONTROL.md, "Control state".

ghost use Rattle.std.specs.Prelude.{◌≡◌};
ghost use Rattle.archive_lock.specs.Standing.{standing_of};

use archive_model::BankVersion;
use control_core::Desk;

/// Where an archive stands: it records nothing more once a write of it has failed, or once its history is full.
#[derive(Clone, Copy, Debug, PartialEq, Eq)]
pub struct Standing {
    /// Whether a write of the archive has failed.
    pub is_broken: bool,
    /// How many entries of its history count.
    pub counted: u64,
    /// How many may count.
    pub limit: u32,
    /// How many recordings are active.
    pub active: u64,
    /// The version of the bank of the catalogue that is in use.
    pub version: BankVersion,
}

/// Where a desk stands.
pub(crate) fn standing_of(desk: &Desk) -> Standing
    ensures { result ≡ standing_of desk.now.state }
{
    Standing {
        is_broken: desk.is_broken(),
        counted: desk.counted(),
        limit: desk.limit(),
        active: desk.active_count() as u64,
        version: desk.version(),
    }
}
