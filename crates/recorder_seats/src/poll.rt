//! What a poll is answered.

ghost use Rattle.std.specs.Prelude.{◌≡◌, ℤ, List, Option, is_none};
ghost use Rattle.archive_model.specs.declared.reply.PolledFrame.{PolledFrame};
ghost use Rattle.archive_model.specs.declared.reply.Reply.TheVariants.{Polled};
ghost use Rattle.recorder_seats.specs.Poll.{frames_of_reply};

use archive_model::{PolledFrame, Reply};
use frame_core::Items;

/// The frames of a poll, and whether its replay is done.
pub fn polled(reply: Reply) -> (Items<PolledFrame>, bool)
    requires { (frames : List PolledFrame) × (next : Option ℤ) × (reply ≡ Polled frames next) }
    ensures frames { result.0 ≡ frames_of_reply reply }
    ensures done { (frames : List PolledFrame) (next : Option ℤ) → reply ≡ Polled frames next →
        result.1 ≡ is_none next }
{
    match reply {
        Reply::Polled { frames, next } => (frames, next.is_none()),
        _ => unreachable!(),
    }
}
