//! Laws of the definitions, each the contract of a function that does nothing.

ghost use Rattle.std.specs.Prelude.{◌≡◌, ◌<◌, ◌^◌, ℕ, List, Some};
ghost use Rattle.recorded_times.specs.declared.found.Found.{Found};
ghost use Rattle.recorded_times.specs.declared.line.TimesLine.{TimesLine};
ghost use Rattle.recorded_times.specs.Found.{IsFoundIn, IsLastAtOrBefore, IsOrdered};
ghost use Rattle.recorded_times.specs.Times.{times_line_of, line_text};

/// In a file whose times never fall, what is found is the last line at or before the time: each line up to it is, and each after it is
/// later.
#[tactic(auto, using(crate::proofs::FoundLemmas::last_at_or_before))]
pub fn what_is_found_is_the_last()
    ensures { (time : ℕ) (lines : List TimesLine) (found : Found) →
        IsOrdered lines → IsFoundIn time lines found → IsLastAtOrBefore time lines found }
{}

/// A line has one text, which is no other line's.
pub fn a_line_has_one_text()
    ensures { (line : TimesLine) (text : List ℕ) → line.millis < 2 ^ 64 → line.position < 2 ^ 64 →
        (times_line_of (line_text line) ≡ Some line) × (times_line_of text ≡ Some line → text ≡ line_text line) }
{}
