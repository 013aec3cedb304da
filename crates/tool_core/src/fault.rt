//! Why a script ended before its last line. docs/CONTROL.md, "Scripts".

ghost use Rattle.std.specs.Prelude.{◌≡◌};
ghost use Rattle.tool_core.specs.declared.fault.EarlyEnd.TheVariants.{Memory};
ghost use Rattle.tool_core.specs.Archives.{disk_of, early_end_of};

use std::alloc::AllocError;

/// Why a script, or a listing of a file's frames, ended before its last line.
#[derive(Clone, Copy, Debug, PartialEq, Eq)]
pub enum EarlyEnd {
    /// Its input could not be read on, or was read as often as may be.
    Read,
    /// What was answered could not be written.
    Write,
    /// A request for memory was refused where no line could say so.
    Memory,
}

impl From<AllocError> for EarlyEnd {
    ghost from_gives = { λ _ fault. fault ≡ Memory };

    fn from(_: AllocError) -> Self {
        EarlyEnd::Memory
    }
}

/// Why a script ended before its last line, and the disk of its archive.
#[derive(Drop)]
pub enum ScriptFault<D> {
    /// Its input could not be read on, or was read as often as may be.
    Read(D),
    /// What was answered could not be written.
    Write(D),
    /// A request for memory was refused where no line could say so.
    Memory(D),
}

impl<D> ScriptFault<D> {
    /// The fault of a script that ended so, with its disk.
    pub fn new(end: EarlyEnd, disk: D) -> ScriptFault<D>
        ensures end { early_end_of result ≡ end }
        ensures disk { disk_of result ≡ disk }
    {
        match end {
            EarlyEnd::Read => ScriptFault::Read(disk),
            EarlyEnd::Write => ScriptFault::Write(disk),
            EarlyEnd::Memory => ScriptFault::Memory(disk),
        }
    }

    /// Why, and the disk.
    pub fn into_parts(self) -> (EarlyEnd, D)
        ensures end { result.0 ≡ early_end_of self }
        ensures disk { result.1 ≡ disk_of self }
    {
        match self {
            ScriptFault::Read(disk) => (EarlyEnd::Read, disk),
            ScriptFault::Write(disk) => (EarlyEnd::Write, disk),
            ScriptFault::Memory(disk) => (EarlyEnd::Memory, disk),
        }
    }
}
