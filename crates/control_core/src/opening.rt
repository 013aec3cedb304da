//! The desk of an archive that is opened. docs/CONTROL.md, "Control state".

ghost use Rattle.std.specs.Prelude.{◌≡◌};
ghost use Rattle.control_core.specs.Desk.{opened_desk};
ghost use Rattle.control_core.specs.Orderly.{AreLaid};

use crate::desk::Desk;
use crate::replays::Replays;
use crate::sessions::Sessions;
use archive_model::{BankVersion, Register};
use std::alloc::Global;

impl Desk {
    /// The desk of an archive with these recordings, each laid out and recorded inside its stream up to a multiple of 32, of
    /// whose history so many entries count and may, and whose catalogue's bank has this version: nobody calls yet, and the
    /// numbers of sessions and replays begin at 0. Does not allocate.
    pub fn opened(
        alloc: Global,
        register: Register,
        counted: u64,
        limit: u32,
        version: BankVersion,
    ) -> Desk
        requires { AreLaid register.state }
        ensures { result.state ≡ opened_desk register.state counted limit version }
    {
        Desk {
            register,
            sessions: Sessions::new(alloc),
            replays: Replays::new(alloc),
            counted,
            limit,
            version,
            is_broken: false,
        }
    }
}
