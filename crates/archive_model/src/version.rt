//! Versions of the catalogue, and what a bank of each can hold: docs/STORAGE.md, "The catalogue".

ghost use Rattle.std.specs.Prelude.{◌≡◌};
ghost use Rattle.archive_model.specs.Version.{holds, max_channel, max_source};

use crate::channel::Channel;
use crate::source::SourceIdentity;
use frame_core::limits::{MAX_CHANNEL_LENGTH, MAX_SHORT_CHANNEL_LENGTH, MAX_SOURCE_LENGTH};

/// The version of a catalogue's bank: docs/STORAGE.md, "The catalogue".
#[derive(Clone, Copy, Debug, PartialEq, Eq)]
pub enum BankVersion {
    /// Channels of at most 512 bytes, and no sources.
    One,
    /// Channels of at most 1,024 bytes, and sources.
    Two,
}

impl BankVersion {
    /// Whether a bank of this version can hold a recording of this channel and source. Takes constant time.
    pub fn holds(self, channel: &Channel, source: &SourceIdentity) -> bool
        ensures { result ≡ holds self channel.now source.now }
    {
        channel.as_str().len() <= self.max_channel() && source.as_str().len() <= self.max_source()
    }

    /// Bytes of a channel at most.
    pub fn max_channel(self) -> usize
        ensures { result ≡ max_channel self }
    {
        match self {
            BankVersion::One => MAX_SHORT_CHANNEL_LENGTH,
            BankVersion::Two => MAX_CHANNEL_LENGTH,
        }
    }

    /// Bytes of a source at most.
    pub fn max_source(self) -> usize
        ensures { result ≡ max_source self }
    {
        match self {
            BankVersion::One => 0,
            BankVersion::Two => MAX_SOURCE_LENGTH,
        }
    }
}
