//! What commands make of recordings that lie by rising id.

ghost use Rattle.std.specs.Prelude.{◌≡◌, IfSome, map};
ghost use Rattle.archive_model.specs.Commands.{restarted};
ghost use Rattle.archive_model.specs.Keyed.{change as changed_at, find, without};
ghost use Rattle.plain_book.specs.Kept.{MayChange, Rising, made_of};
ghost use Rattle.archive_model.specs.State.{id_of};

use crate::recording::Recording;
use archive_model::{Change, index_of};

/// Changes the recording of an id, if there is one. Does not allocate.
pub(crate) fn change_one(recordings: &mut Vec<Recording>, id: &i64, change: &Change)
    requires { IfSome (find id_of id.now recordings.old.items) (λ r. MayChange r change.now) }
    ensures { recordings.new.items
        ≡ changed_at id_of id.now (made_of change.now) recordings.old.items }
{
    let Some(index) = index_of(recordings.as_slice(), id) else {
        return;
    };
    let recording = &mut recordings[index];
    recording.change(change);
}

/// Removes the recording of an id, if there is one. Costs a move of each behind it; does not allocate.
pub(crate) fn remove_one(recordings: &mut Vec<Recording>, id: &i64)
    requires { Rising recordings.old.items }
    ensures { recordings.new.items ≡ without id_of id.now recordings.old.items }
{
    let Some(index) = index_of(recordings.as_slice(), id) else {
        return;
    };
    let _ = recordings.remove(index);
}

/// Each active recording stops where it is recorded to, without a timestamp. Does not allocate.
pub(crate) fn restart_each(recordings: &mut Vec<Recording>)
    ensures { recordings.new.items ≡ map restarted recordings.old.items }
{
    for recording in recordings.iter_mut() {
        recording.restart();
    }
}
