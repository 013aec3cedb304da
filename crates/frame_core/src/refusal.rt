//! Why a call did nothing.

ghost use Rattle.std.specs.Prelude.{◌≡◌};
ghost use Rattle.frame_core.specs.declared.refusal.Refusal.TheVariants.{NoMemory};

use std::alloc::{AllocError, AllocFailed};

/// Why a call did nothing: docs/CONTROL.md, "Refusals". Each has a number, which the control lines print.
#[derive(Clone, Copy, Debug, PartialEq, Eq)]
pub enum Refusal {
    /// No recording has this id.
    UnknownRecording,
    /// The recording is active, and the call needs one that is not.
    ActiveRecording,
    /// The recording is not active, and the call needs one that is.
    NotActive,
    /// A replay of the recording is open.
    ActiveReplay,
    /// The position is none that the call may use.
    BadPosition,
    /// What is to extend the recording does not fit it.
    BadExtension,
    /// No further recording or recorder session may be had.
    MaxRecordings,
    /// No further replay may be open.
    MaxReplays,
    /// No open replay has this number.
    UnknownReplay,
    /// A parameter is out of its range.
    BadParameter,
    /// The history has as many entries as it may have.
    HistoryFull,
    /// No open recorder session has this number.
    StaleSession,
    /// The frames are no block of this recording at this position.
    BadBlock,
    /// Written blocks have to be settled first.
    NeedSettle,
    /// What a file holds at this position is not what was recorded there. The recording is -1 where the file is the
    /// catalogue's, and the position then is an offset in bytes.
    Damaged {
        /// The recording's id, or -1 for the catalogue.
        recording: i64,
        /// A position in the stream, or an offset in the catalogue's file, in bytes.
        position: i64,
    },
    /// A write has failed before: the archive must be opened again.
    Broken,
    /// The device failed.
    DeviceFault,
    /// A request for memory was refused.
    NoMemory,
    /// No catalogue is there.
    NotCatalogue,
    /// The catalogue is of a version that this program does not know.
    NewerVersion,
    /// The bytes at this offset are no frame.
    BadFrame {
        /// Bytes from the start of what was read.
        offset: usize,
    },
    /// The line is none that the grammar has.
    BadLine,
    /// The catalogue is of version 1, which can't hold the recording's channel or source: compact it first.
    NeedCompact,
}

impl Refusal {
    ghost use Rattle.frame_core.specs.Refusal.{number_of};

    /// The number that the control lines print, from 1 to 23: docs/CONTROL.md, "Refusals".
    pub fn number(&self) -> u8
        ensures { result ≡ number_of self.now }
    {
        match self {
            Refusal::UnknownRecording => 1,
            Refusal::ActiveRecording => 2,
            Refusal::NotActive => 3,
            Refusal::ActiveReplay => 4,
            Refusal::BadPosition => 5,
            Refusal::BadExtension => 6,
            Refusal::MaxRecordings => 7,
            Refusal::MaxReplays => 8,
            Refusal::UnknownReplay => 9,
            Refusal::BadParameter => 10,
            Refusal::HistoryFull => 11,
            Refusal::StaleSession => 12,
            Refusal::BadBlock => 13,
            Refusal::NeedSettle => 14,
            Refusal::Damaged { .. } => 15,
            Refusal::Broken => 16,
            Refusal::DeviceFault => 17,
            Refusal::NoMemory => 18,
            Refusal::NotCatalogue => 19,
            Refusal::NewerVersion => 20,
            Refusal::BadFrame { .. } => 21,
            Refusal::BadLine => 22,
            Refusal::NeedCompact => 23,
        }
    }
}

impl From<AllocError> for Refusal {
    ghost from_gives = { λ _ refusal. refusal ≡ NoMemory };

    fn from(_: AllocError) -> Self {
        Refusal::NoMemory
    }
}

impl<T: Drop> From<AllocFailed<T>> for Refusal {
    ghost from_gives = { λ _ refusal. refusal ≡ NoMemory };

    fn from(_: AllocFailed<T>) -> Self {
        Refusal::NoMemory
    }
}
