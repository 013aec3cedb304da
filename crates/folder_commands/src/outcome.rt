//! How a command ended, and what it left of its folder. docs/CONTROL.md, "The program".

ghost use Rattle.std.specs.Prelude.{◌≡◌, None};

use crate::exit::Exit;
use crate::status::Ending;
use host_disk::ClosedDisk;

/// What a command left of the folder that it opened: its life up to its closing, for clauses to report of. None if it opened none.
pub type Left = Option<ClosedDisk>;

/// How a command ended, and what it left of its folder.
#[derive(Drop)]
pub struct Outcome {
    pub exit: Exit,
    pub left: Left,
    /// The folder as it was looked at, if what was seen is why its archive was not opened. None if that is not why.
    pub looked: Left,
}

impl Outcome {
    ghost use Rattle.folder_commands.specs.Folders.{ending_in};
    ghost use Rattle.folder_commands.specs.Left.{ends_with, leaves, left_life, sees};

    /// How a command ended that answers so, and what it left.
    pub(crate) fn of(answer: Result<Left, Outcome>) -> Outcome
        ensures ending { result.exit.ending ≡ ends_with answer }
        ensures left { left_life result.left ≡ leaves answer }
        ensures looked { left_life result.looked ≡ sees answer }
    {
        match answer {
            Ok(left) => Outcome {
                exit: Exit::reported(Ending::Done),
                left,
                looked: None,
            },
            Err(outcome) => outcome,
        }
    }

    /// What a command answers that was done, or ended so, and left this.
    pub(crate) fn leaving(done: Result<(), Exit>, left: Left) -> Result<Left, Outcome>
        ensures ending { ends_with result ≡ ending_in done }
        ensures left { leaves result ≡ left_life left }
    {
        match done {
            Ok(()) => Ok(left),
            Err(exit) => Err(Outcome {
                exit,
                left,
                looked: None,
            }),
        }
    }
}

impl From<Exit> for Outcome {
    ghost from_gives = { λ exit outcome. outcome ≡ record { exit = exit; left = None; looked = None } };

    /// It ended so without a folder.
    fn from(exit: Exit) -> Self {
        Outcome {
            exit,
            left: None,
            looked: None,
        }
    }
}
