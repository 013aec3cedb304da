//! What `archive_tool --version` tells: docs/CONTROL.md, "The program".

/// The program's version.
pub const PROGRAM_VERSION: &str = "0.2.0";

/// The version of the catalogues that the program writes: docs/STORAGE.md, "Banks".
pub const CATALOGUE_VERSION: &str = "2";

/// Both versions, and the toolchains that the program is proved with and built by.
pub(crate) const VERSION: &str =
    "0.2.0 (catalogue 2, rattle-kit-13b or later of logic dac8208d650f15bf)";
