//! The path of a file in a folder: docs/STORAGE.md, "Folders".
ghost use Rattle.std.specs.Prelude.{◌≡◌, ◌++◌, string_bytes, OnOk};
ghost use Rattle.disk_core.specs.FileNames.{name_of};
ghost use Rattle.host_disk.specs.Names.{path_text};

use crate::system::FolderPath;
use disk_core::FileId;
use std::fmt::Write;
use std::io;

/// Lets a text be the path of a file: the folder's, with the file's name behind it.
pub(crate) fn write_path(path: &mut String, folder: &FolderPath, file: FileId) -> io::Result<()>
    ensures { OnOk result (string_bytes path.new ≡ path_text folder.now ++ name_of file) }
{
    path.clear();
    if write!(path, "{}{file}", folder.as_str()).is_err() {
        return Err(io::ErrorKind::OutOfMemory.into());
    }
    Ok(())
}
