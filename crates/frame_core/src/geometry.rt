//! What has to be known of a publication to reckon with its positions.

/// The terms of a publication: docs/PROTOCOL.md, "Positions".
#[derive(Clone, Copy, Debug, PartialEq, Eq)]
pub struct Geometry {
    /// The id of the first term.
    pub initial_term_id: i32,
    /// Bytes of each term.
    pub term_length: i32,
    /// Bytes that a data frame has at most, its header included.
    pub mtu: i32,
}
