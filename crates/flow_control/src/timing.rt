//! Times and distances: docs/PROTOCOL.md, "Status messages and NAKs of a receiver".

ghost use Rattle.std.specs.Prelude.{◌≡◌};
ghost use Rattle.flow_control.specs.Feedback.{has_passed, is_quarter};

/// Whether so many milliseconds or more have passed since a time.
pub fn has_passed(pause: u64, at: u64, time: u64) -> bool
    ensures { result ≡ has_passed pause at time }
{
    pause <= time.saturating_sub(at)
}

/// Whether it is a quarter of the window or more from one position to another.
pub fn is_quarter(window: i32, from: u64, to: u64) -> bool
    ensures { result ≡ is_quarter window from to }
{
    u64::from(window.max(0).unsigned_abs()) <= to.saturating_sub(from).saturating_mul(4)
}
