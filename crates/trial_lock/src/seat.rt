//! A thread's seat at a shared archive.

ghost use Rattle.std.specs.Prelude.{◌≡◌};

use archive_lock::{Made, Naming, SharedArchive};
use archive_model::Reply;
use call_history::Pass;
use control_core::Event;
use disk_core::Disk;
use frame_core::Refusal;
use std::alloc::Global;
use std::marker::PhantomData;
use std::sync::Wait;

/// A pass of the archive of a name.
#[derive(Drop)]
pub(crate) struct Seat<A: Naming> {
    pass: Pass<Made>,
    of: PhantomData<A>,
    ghost named: { pass.table ≡ A.table },
}

impl<A: Naming> Seat<A> {
    /// The seat of a pass.
    pub(crate) fn new(pass: Pass<Made>) -> Seat<A>
        requires { pass.table ≡ A.table }
    {
        Seat {
            pass,
            of: PhantomData,
        }
    }

    /// Its pass.
    pub(crate) fn into_pass(self) -> Pass<Made>
        ensures { result.table ≡ A.table }
    {
        self.pass
    }

    /// What the archive answers to an event.
    pub(crate) fn call<D: Disk, R: Wait>(
        &mut self,
        rt: &R,
        alloc: Global,
        archive: &SharedArchive<D, A>,
        event: &Event,
    ) -> Result<Reply, Refusal> {
        archive.call(rt, alloc, &mut self.pass, event)
    }
}
