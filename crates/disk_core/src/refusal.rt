//! A failed call of the disk as a refusal: docs/CONTROL.md, "Refusals".
ghost use Rattle.std.specs.Prelude.{◌≡◌};
ghost use Rattle.disk_core.specs.Refused.{refusal_of};
ghost use Rattle.frame_core.specs.declared.refusal.Refusal.TheVariants.{DeviceFault};

use crate::{Fault, ListFault};
use frame_core::Refusal;

impl From<Fault> for Refusal {
    ghost from_gives = { λ _ refusal. refusal ≡ DeviceFault };

    fn from(_: Fault) -> Self {
        Refusal::DeviceFault
    }
}

impl From<ListFault> for Refusal {
    ghost from_gives = { λ fault refusal. refusal ≡ refusal_of fault };

    fn from(fault: ListFault) -> Self {
        match fault {
            ListFault::Device => Refusal::DeviceFault,
            ListFault::NoMemory => Refusal::NoMemory,
        }
    }
}
