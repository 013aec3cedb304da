//! The catalogue of a closed archive, written anew. docs/STORAGE.md, "Compaction".

ghost use Rattle.engine_core.specs.Compacting.{Compacts};

use crate::laws::a_catalogue_of_the_same_register_keeps_the_state;
use disk_core::Disk;
use frame_core::Refusal;
use std::alloc::Global;

/// Writes the catalogue of a closed archive anew into the bank that is not in use, of version 2 and with the next
/// epoch: the next id, each recording as it is, and no other entry. So the history is empty again, the state is the same, and
/// a catalogue of version 1 becomes one of version 2.
///
/// `ActiveRecording` where a recording is active, which opening the archive stops; `NotCatalogue` where the other bank may
/// not be written; `HistoryFull` at the last epoch; else the refusals of an opening. After these and `NoMemory` each file
/// reads as before. `DeviceFault` where a call of the disk fails: the state is the same then too, and the archive has to be
/// opened again, or compacted again. By at most nine calls of the disk that change something. docs/STORAGE.md,
/// "Compaction". Costs reading the catalogue, and the memory of the recordings.
pub fn compact<D: Disk>(alloc: Global, disk: &mut D) -> Result<(), Refusal>
    ensures { Compacts (D.life disk.old) (D.life disk.new) result }
{
    a_catalogue_of_the_same_register_keeps_the_state();
    catalogue_log::compact(alloc, disk)
}
