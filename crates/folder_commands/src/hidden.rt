//! A warning that entries of a catalogue may be hidden behind a closed gate. docs/STORAGE.md, "A closed gate".

ghost use Rattle.std.specs.Prelude.{IfSome};
ghost use Rattle.host_disk.specs.ClosedDisk.{closed_life};
ghost use Rattle.host_disk.specs.Events.{Given};
ghost use Rattle.folder_commands.specs.Hidden.{MayHideEntries};

use crate::log::{Level, Log};
use archive_commands::Screen;
use archive_view::{ArchiveView, ReadOnly};
use catalogue_log::Bank;
use host_disk::{ClosedDisk, ReadFolder};
use std::fmt;
use std::io::Eprint;
use std::path::Path;
use std::rt::Clock;

/// The bank behind whose closed gate entries may be hidden, and where the gate stands in its file.
#[derive(Clone, Copy)]
pub(crate) struct HiddenPlace {
    bank: Bank,
    gate: u64,
}

/// A folder whose catalogue may hide entries: where, and what is left of the look that saw it.
#[derive(Drop)]
pub(crate) struct HidingFolder {
    pub(crate) place: HiddenPlace,
    pub(crate) looked: ClosedDisk,
}

impl fmt::Display for HiddenPlace {
    fn fmt<W: fmt::Write>(&self, f: &mut fmt::Formatter<W>) -> fmt::Result {
        write!(
            f,
            "{}: a whole entry stands past the closed gate at offset {}, so entries that were answered may be hidden: copy the folder before anything opens it",
            self.bank.file(),
            self.gate
        )
    }
}

/// Reports on standard error if the catalogue of a folder may hide entries that were answered, and then gives what is left of the
/// look that saw it. Nothing is reported of a folder that can't be looked at: what opens it says why. Costs a read of the catalogue.
pub(crate) fn warns_of_hidden<R: Eprint>(
    rt: HostRuntime,
    folder: Path<'_>,
    screen: &Screen<'_, R>,
) -> Option<ClosedDisk>
    ghost given: { Given }
    ensures { IfSome result (λ looked. MayHideEntries given (closed_life looked)) }
{
    let HidingFolder { place, looked } = hidden_place(rt, folder)?;
    screen.report(place);
    Some(looked)
}

/// The same of a server's folder, by one of the server's lines.
pub(crate) fn warns_of_hidden_by<R: Eprint + Clock>(
    rt: HostRuntime,
    folder: Path<'_>,
    log: &Log<'_, R>,
) -> Option<ClosedDisk>
    ghost given: { Given }
    ensures { IfSome result (λ looked. MayHideEntries given (closed_life looked)) }
{
    let HidingFolder { place, looked } = hidden_place(rt, folder)?;
    log.print(Level::Error, place);
    Some(looked)
}

/// Where entries that were answered may be hidden still: a second look at the catalogue of a folder, after one that found them
/// at a place. None if either look found none, or the second one another place: a process that writes the folder has opened its
/// entry's gate meanwhile. Costs a read of the catalogue if the first look found one.
pub(crate) fn still_hidden_place(
    rt: HostRuntime,
    folder: Path<'_>,
    before: Option<HidingFolder>,
) -> Option<HidingFolder>
    ghost given: { Given }
    ensures { IfSome result (λ found. MayHideEntries given (closed_life found.looked)) }
{
    let before = before?.place;
    let found = hidden_place(rt, folder)?;
    let place = found.place;
    if place.gate == before.gate && place.bank.file() == before.bank.file() {
        Some(found)
    } else {
        None
    }
}

/// Where entries that were answered may be hidden in the catalogue of a folder, which is only read, and closed. None if none may be,
/// or the folder can't be looked at.
pub(crate) fn hidden_place(rt: HostRuntime, folder: Path<'_>) -> Option<HidingFolder>
    ghost given: { Given }
    ensures { IfSome result (λ found. MayHideEntries given (closed_life found.looked)) }
{
    let Ok(disk) = ReadFolder::open(rt, rt.alloc(), folder) else {
        return None;
    };
    let Ok(mut view) = ArchiveView::open(rt.alloc(), ReadOnly::new(disk)) else {
        return None;
    };
    let Ok(Some(_)) = view.hidden_entry(rt.alloc()) else {
        return None;
    };
    let log = view.log();
    let place = HiddenPlace {
        bank: log.bank(),
        gate: log.gate(),
    };
    let disk = view.into_disk().into_disk();
    Some(HidingFolder {
        place,
        looked: disk.close(),
    })
}
