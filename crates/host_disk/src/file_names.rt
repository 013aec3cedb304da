//! Which file a name of a folder is: docs/STORAGE.md, "Files".
ghost use Rattle.std.specs.Prelude.{◌≡◌, ◌≢◌, ◌<◌, ◌≤◌, ◌^◌, ℕ, pos, List, ◌∷◌, ◌++◌, IfOk, IfSome, IfNone, IsSomeAnd};
ghost use Rattle.std.specs.Char.{digit_value};
ghost use Rattle.std.specs.Fmt.{decimal};
ghost use Rattle.disk_core.specs.declared.file_id.FileId.{FileId};
ghost use Rattle.disk_core.specs.FileNames.{name_of};
ghost use Rattle.host_disk.specs.ArchiveFiles.{IsCount, IsArchiveFile};

use disk_core::FileId;
use std::alloc::{AllocError, Global};

/// The file of an archive that has this name, if one has: none for a text that no number prints as, and for
/// numbers below zero. `AllocError` where there is no memory to compare the two.
pub(crate) fn file_named(alloc: Global, name: &str) -> Result<Option<FileId>, AllocError>
    ensures found { IfOk result (λ found.
        IfSome found (λ file. IsArchiveFile file × (name_of file ≡ name.now))) }
    ensures none { IfOk result (λ found.
        IfNone found ((file : FileId) → IsArchiveFile file → name_of file ≢ name.now)) }
{
    let Some(file) = file_like(name) else {
        return Ok(None);
    };
    // A number in another form, as 03, is in no file's name.
    let is_its_name = file.name(alloc)?.as_str() == name;
    Ok(is_its_name.then_some(file))
}

/// The one file of an archive that may have this name.
fn file_like(name: &str) -> Option<FileId>
    ensures proper { IfSome result IsArchiveFile }
    ensures sole { (file : FileId) → IsArchiveFile file → name_of file ≡ name.now →
        result ≡ Some file }
{
    match name {
        "catalogue-a.bank" => Some(FileId::BankA),
        "catalogue-b.bank" => Some(FileId::BankB),
        _ => segment_like(name),
    }
}

/// The one segment that may have this name.
fn segment_like(name: &str) -> Option<FileId>
    ensures proper { IfSome result IsArchiveFile }
    ensures sole { (recording base : ℕ) → recording < 2 ^ 63 → base < 2 ^ 63 →
        name_of (FileId.Segment (pos recording) (pos base)) ≡ name.now →
        result ≡ Some (FileId.Segment (pos recording) (pos base)) }
{
    let (recording, rest) = count_before(name, '-')?;
    let (base, _) = count_before(rest, '.')?;
    Some(FileId::Segment { recording, base })
}

/// The one number from 0 on that may stand before the first such mark, and the text behind it.
fn count_before(text: &str, mark: char) -> Option<(i64, &str)>
    requires ascii { mark < 128 }
    requires no_digit { 10 ≤ digit_value mark }
    ensures proper { IfSome result (λ parts. IsCount parts.0) }
    ensures sole { (n : ℕ) (rest : List ℕ) → n < 2 ^ 63 → decimal n ++ mark ∷ rest ≡ text.now →
        IsSomeAnd result (λ parts. (parts.0 ≡ pos n) × (parts.1.now ≡ rest)) }
{
    let (number, rest) = text.split_once(mark)?;
    Some((count_of(number)?, rest))
}

/// The one number from 0 on that may print as this text.
fn count_of(text: &str) -> Option<i64>
    ensures proper { IfSome result IsCount }
    ensures sole { (n : ℕ) → n < 2 ^ 63 → decimal n ≡ text.now → result ≡ Some (pos n) }
{
    match text.parse() {
        Ok(number) if number >= 0 => Some(number),
        _ => None,
    }
}
