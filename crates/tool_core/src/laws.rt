//! Laws of the definitions, each the contract of a function that does nothing.

ghost use Rattle.std.specs.Prelude.{◌≡◌, None};
ghost use Rattle.disk_core.specs.DiskImage.{DiskImage, MayLeave, begun, reads};
ghost use Rattle.disk_core.specs.Life.{Life};
ghost use Rattle.archive_model.specs.State.{State};
ghost use Rattle.catalogue_log.specs.LogState.{Banks};
ghost use Rattle.control_core.specs.Exact.{Archive};
ghost use Rattle.tool_core.specs.Left.{LeavesBanks, LeavesStanding};
ghost use Rattle.tool_core.specs.Script.{GoesOnFrom, GoesOnFromEither};
ghost use Rattle.tool_core.specs.ScriptLines.{doubtful, opened};

/// Another script begins where one ended, with the restart of its archive and with its banks, or with that of one of the
/// states that were in doubt: on the disk that it left, and on what a crash left of that.
pub fn a_script_begins_where_one_ended()
    ensures again { (life : Life) (a : Archive) (b : Banks) → a.doubt ≡ None → LeavesStanding life (opened a) →
        LeavesBanks life b → MayLeave life.now (reads life.now) → GoesOnFrom a b life }
    ensures crashed { (life left : Life) (a : Archive) (b : Banks) (image : DiskImage) → a.doubt ≡ None →
        LeavesStanding life (opened a) → LeavesBanks life b → MayLeave life.now image → left.now ≡ begun image →
        GoesOnFrom a b left }
    ensures in_doubt { (life : Life) (s u : State) → LeavesStanding life (doubtful s u) →
        MayLeave life.now (reads life.now) → GoesOnFromEither s u life }
    ensures crashed_in_doubt { (life left : Life) (s u : State) (image : DiskImage) →
        LeavesStanding life (doubtful s u) → MayLeave life.now image → left.now ≡ begun image →
        GoesOnFromEither s u left }
{}
