//! What is noted of an archive after a call, and the end of a strict server whose archive can record nothing any more.
//! docs/SERVING.md, "A server that ends by itself".

ghost use Rattle.std.specs.Prelude.{◌≡◌};
ghost use Rattle.server_recorder.specs.Stopping.{is_stuck};

use archive_lock::Standing;
use server_state::{Reporter, Shared};

/// Notes where an archive stands after a call: how much of its history is used, and for the metrics that a write has failed.
/// Stops a strict server whose archive can record nothing any more.
pub fn note_standing<T: Reporter>(shared: &Shared<T>, standing: &Standing) {
    shared.note_history(standing.counted, standing.limit);
    if shared.is_strict() && is_stuck(standing) {
        shared.stop();
    }
    if standing.is_broken {
        shared.meter.set_broken();
    }
}

/// Whether an archive that stands so can record nothing any more: a write has failed, or its history is full.
fn is_stuck(standing: &Standing) -> bool
    ensures { result ≡ is_stuck standing.now }
{
    standing.is_broken || standing.counted >= u64::from(standing.limit)
}
