//! Files of which a sync has failed.
ghost use Rattle.std.specs.Prelude.{◌≡◌, ◌↔◌, true, IfSome, IsNone};

use disk_core::FileId;

/// The files of which nothing is asked any more, since a sync of theirs has failed.
#[derive(Clone, Copy, Drop)]
pub enum Lost {
    Nothing,
    One(FileId),
    All,
}

impl Lost {
    ghost use Rattle.host_disk.specs.Lost.{covers, with_lost, is_nothing};

    /// Whether a file counts as lost.
    pub fn covers(&self, file: FileId) -> bool
        ensures { result ≡ covers self.now file }
    {
        match self {
            Lost::Nothing => false,
            Lost::One(this) => file.compare(this).is_eq(),
            Lost::All => true,
        }
    }

    /// The same files and this one, or all.
    pub fn with(&self, file: FileId) -> Lost
        ensures { result ≡ with_lost file self.now }
    {
        match self {
            Lost::Nothing => Lost::One(file),
            Lost::One(this) => {
                if file.compare(this).is_eq() {
                    Lost::One(*this)
                } else {
                    Lost::All
                }
            }
            Lost::All => Lost::All,
        }
    }

    /// One of the lost files, if there are any.
    pub fn any(&self) -> Option<FileId>
        ensures lost { IfSome result (λ file. covers self.now file ≡ true) }
        ensures none { IsNone result ↔ (is_nothing self.now ≡ true) }
    {
        match self {
            Lost::Nothing => None,
            Lost::One(this) => Some(*this),
            Lost::All => Some(FileId::BankA),
        }
    }
}
