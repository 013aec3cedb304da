//! Names of archives.

use std::marker::Brand;

/// Names one archive: of which history its passes are and how many, whether that keeps records of its calls, and what the archive was
/// when it came under its lock. Of what lies under a lock nothing else is known.
pub trait Naming {
    ghost use Rattle.std.specs.Prelude.{ℕ, Bool};
    ghost use Rattle.call_history.specs.Values.{TableId};
    ghost use Rattle.engine_core.specs.Engine.{EngineState};

    /// The history.
    ghost table: { TableId };

    /// How many passes it has.
    ghost passes: { ℕ };

    /// Whether records of the calls are kept; else they are counted alone.
    ghost keeps: { Bool };

    /// The archive's opening.
    ghost opening: { EngineState };
}

impl Naming for Brand {
    ghost use Rattle.std.specs.Prelude.{false};
    ghost use Rattle.call_history.specs.Values.{no_table};
    ghost use Rattle.archive_lock.specs.Names.{no_engine};

    ghost table = { no_table };

    ghost passes = { 0 };

    ghost keeps = { false };

    ghost opening = { no_engine };
}
