//! What says which segment files are needed: docs/STORAGE.md, "Stale files".

use crate::layout::Layout;

/// What says which segment files are needed.
#[derive(Clone, Copy, Debug)]
pub enum Keep {
    /// Recordings with ids below this one were given; those that no [`Keep::Recording`] names are gone.
    Below {
        /// The next recording id.
        next: i64,
    },
    /// A recording that is there.
    Recording {
        /// Where its frames lie.
        layout: Layout,
        /// The recorded position, in bytes of the stream.
        recorded: i64,
        /// Whether it is still recorded.
        active: bool,
    },
}
