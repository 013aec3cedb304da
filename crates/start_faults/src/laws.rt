//! Laws, each the contract of a function that does nothing.

ghost use Rattle.std.specs.Prelude.{◌↔◌, IsNone, IsTrue};
ghost use Rattle.archive_model.specs.declared.command.StartFields.{StartFields};
ghost use Rattle.archive_model.specs.Descriptor.{is_in_range};
ghost use Rattle.start_faults.specs.StartFaults.{wrong_word};

/// No word is named exactly if the archive takes the start's parameters.
pub fn none_is_wrong_in_range()
    ensures { (fields : StartFields) → IsNone (wrong_word fields) ↔ IsTrue (is_in_range fields) }
{}
