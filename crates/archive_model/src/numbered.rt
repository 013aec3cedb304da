//! Values in a list that are found by their number.

ghost use Rattle.std.specs.Prelude.{◌≡◌, ℤ, MatchOption};
ghost use Rattle.std.specs.Ordering.{int_eq};
ghost use Rattle.archive_model.specs.Numbered.{IsIndexOf, IsNone};

/// A value that has a number.
pub trait Numbered {
    /// Its number.
    ghost number_of: { Self → ℤ };

    /// Whether it has this number.
    fn has_number(&self, number: &i64) -> bool
        ensures { result ≡ int_eq number.now (number_of self.now) };
}

/// Where the first value of a number stands. Costs the list's length.
pub fn index_of<T: Numbered>(values: &[T], number: &i64) -> Option<usize>
    ensures { MatchOption result (IsNone T.number_of number.now values.now)
        (IsIndexOf T.number_of number.now values.now) }
{
    for (index, value) in values.iter().enumerate() {
        if value.has_number(number) {
            return Some(index);
        }
    }
    None
}
