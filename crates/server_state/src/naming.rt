//! Which word of a start is wrong. docs/SERVING.md, "If `start` is `error 10 BadParameter`".

ghost use Rattle.std.specs.Prelude.{◌≡◌};
ghost use Rattle.server_state.specs.Naming.{named_word};

use archive_model::Reply;
use control_core::{Event, Request};
use frame_core::Refusal;
use start_faults::{StartWord, wrong_word};

/// The word that is wrong of a call that was answered so, if it is a start that is BadParameter.
pub(crate) fn named_word(event: &Event, outcome: &Result<Reply, Refusal>) -> Option<StartWord>
    ensures { result ≡ named_word event.now outcome.now }
{
    match (event, outcome) {
        (Event::Ask(Request::Start(fields)), Err(Refusal::BadParameter)) => wrong_word(fields),
        _ => None,
    }
}
