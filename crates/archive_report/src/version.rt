//! The version of a catalogue as a number. docs/STORAGE.md, "Banks".

ghost use Rattle.std.specs.Prelude.{◌≡◌};
ghost use Rattle.catalogue_log.specs.Bank.{number_of};

use archive_model::BankVersion;

/// The number of a version.
pub(crate) fn version_number(version: BankVersion) -> u8
    ensures { result ≡ number_of version }
{
    match version {
        BankVersion::One => 1,
        BankVersion::Two => 2,
    }
}
