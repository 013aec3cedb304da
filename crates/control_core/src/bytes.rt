//! By what the bytes are read that a recorder session writes. docs/CONTROL.md, "Recorder sessions".

ghost use Rattle.std.specs.Prelude.{◌≡◌};
ghost use Rattle.control_core.specs.Bytes.{terms_in};

use crate::desk::Desk;
use frame_core::{Geometry, Refusal};

/// The terms by which the bytes that a session writes are read: those of its recording. `Broken` where a write has
/// failed, else `StaleSession` where no session of that number is open. Costs the open sessions; does not allocate.
pub fn read_terms(desk: &Desk, session: &i64) -> Result<Geometry, Refusal>
    ensures { result ≡ terms_in desk.now.state session.now }
{
    if desk.is_broken() {
        return Err(Refusal::Broken);
    }
    let writer = desk.session(session).ok_or(Refusal::StaleSession)?;
    Ok(writer.known.descriptor.geometry())
}
