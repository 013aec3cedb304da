//! Where frames of a recording begin and end. docs/STORAGE.md, "Boundaries".

ghost use Rattle.std.specs.Prelude.{◌≡◌, ◌<◌, ◌≤ℤ◌, pos, IfErr, IfOk, IsErrOf, IsTrue, unsigned_abs};
ghost use Rattle.frame_core.specs.declared.refusal.Refusal.TheVariants.{DeviceFault};
ghost use Rattle.disk_core.specs.DiskImage.{reads};
ghost use Rattle.disk_core.specs.Life.{HasFailed, IsQuiet};
ghost use Rattle.control_core.specs.Orderly.{IsLaid};
ghost use Rattle.recording_reads.specs.Reading.{RefusesBoundaryIn, TellsBoundaryIn, TellsWritten, term_start};

use crate::layout_of;
use archive_model::{Descriptor, Registration};
use disk_core::Disk;
use frame_core::Refusal;
use segment_store::is_reached;

/// Whether a frame of a recording begins or ends at a position, in bytes of the stream, none past the recorded one. Only
/// frames of the position's term are read, since no frame crosses the end of one; none where the position is the start, the
/// recorded one, or a multiple of the term length between them.
///
/// `Damaged` with the position at which the frames of its term break off before it; `DeviceFault`. The disk stays as it is.
/// docs/STORAGE.md, "Boundaries". Does not allocate. Costs a step for each frame of the term before the position.
pub fn is_boundary<D: Disk>(
    disk: &mut D,
    registration: &Registration,
    position: i64,
) -> Result<bool, Refusal>
    requires { IsLaid registration.now }
    ensures answer { IfOk result (λ told. IsTrue (D.life disk.new).obeys →
        TellsBoundaryIn (reads (D.life disk.old).now) registration.now position told) }
    ensures refused { IfErr result (RefusesBoundaryIn (D.life disk.new).obeys (reads (D.life disk.old).now) registration.now position) }
    ensures quiet { IsQuiet (D.life disk.old) (D.life disk.new) }
    ensures cause { IsErrOf result DeviceFault → HasFailed (D.life disk.old) (D.life disk.new) }
{
    let descriptor = &registration.descriptor;
    let recorded = registration.recorded;
    if position < descriptor.start_position || position > recorded {
        return Ok(false);
    }
    if position == recorded {
        return Ok(true);
    }
    let from = term_start(descriptor, position);
    is_reached(
        disk,
        &layout_of(descriptor),
        &descriptor.geometry(),
        recorded,
        from,
        position,
    )
}

/// Whether frames stand, whole, one after another from a recording's recorded position up to another, in bytes of the stream,
/// as they do once a settle up to there was begun. `DeviceFault`. The disk stays as it is. docs/STORAGE.md, "A closed gate".
/// Does not allocate. Costs a step for each frame between the two.
pub fn is_written_to<D: Disk>(
    disk: &mut D,
    registration: &Registration,
    position: i64,
) -> Result<bool, Refusal>
    requires { IsLaid registration.now }
    ensures answer { IfOk result (λ told. IsTrue (D.life disk.new).obeys →
        TellsWritten (reads (D.life disk.old).now) registration.now position told) }
    ensures refusal { IfErr result (λ refusal. refusal ≡ DeviceFault) }
    ensures quiet { IsQuiet (D.life disk.old) (D.life disk.new) }
    ensures cause { IsErrOf result DeviceFault → HasFailed (D.life disk.old) (D.life disk.new) }
{
    let descriptor = &registration.descriptor;
    let reached = is_reached(
        disk,
        &layout_of(descriptor),
        &descriptor.geometry(),
        position,
        registration.recorded,
        position,
    );
    match reached {
        Err(Refusal::Damaged { .. }) => Ok(false),
        answer => answer,
    }
}

/// Where the term of a position begins, or the recording where that is later, in bytes of the stream.
fn term_start(descriptor: &Descriptor, position: i64) -> i64
    requires from_start { descriptor.now.start_position ≤ℤ position }
    requires start { pos 0 ≤ℤ descriptor.now.start_position }
    requires term { 0 < unsigned_abs descriptor.now.term_length }
    ensures { result ≡ pos (term_start descriptor.now (unsigned_abs position)) }
{
    let at = position.unsigned_abs();
    let term = at - at % u64::from(descriptor.term_length.unsigned_abs());
    descriptor.start_position.unsigned_abs().max(term) as i64
}
