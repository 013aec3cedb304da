//! What becomes of a frame.

// What becomes of a frame, positions in bytes of the stream.
#[derive(Clone, Copy)]
pub enum Fate {
    // It joins where it begins.
    Joins { position: u64 },
    // It tells that the publication stands there.
    Tells { position: u64 },
    // It changes nothing.
    Drops,
}
