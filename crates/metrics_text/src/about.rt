//! Which recorder a text of metrics is of: docs/SERVING.md, "Metrics".

/// Which recorder a text of metrics is of, which program it runs, and since when. In no text is anything to be escaped: none has a
/// quotation mark, a backslash or a line feed.
#[derive(Clone, Copy, Debug, PartialEq, Eq)]
pub struct RecorderAbout<'a> {
    /// Its name, the label `recorder` of each number.
    pub name: &'a str,
    /// The program's version.
    pub version: &'a str,
    /// The version of the catalogues that the program writes.
    pub catalogue: &'a str,
    /// When the server began, in microseconds since 1970.
    pub started_micros: u64,
}
