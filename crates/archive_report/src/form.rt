//! In which form an archive is described. docs/CONTROL.md, "A page for people".

/// In which form an archive is described.
#[derive(Clone, Copy, Debug, PartialEq, Eq)]
pub enum Form {
    /// As a page for people.
    Page,
    /// As one JSON text.
    Json,
}
