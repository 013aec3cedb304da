//! What came answers.

ghost use Rattle.std.specs.Prelude.{◌≡◌};
ghost use Rattle.control_client.specs.Replies.{verdict_after};

/// What the bytes that came on one connection answer.
#[derive(Clone, Copy, Debug, PartialEq, Eq)]
pub struct Answer {
    /// How many of the lines that were sent have no whole reply.
    pub left: usize,
    /// Whether a line that came is a refusal.
    pub is_refused: bool,
    /// Whether the last line that came is the one that is awaited, if one is.
    pub is_awaited: bool,
}

/// How asking ended.
#[derive(Clone, Copy, Debug, PartialEq, Eq)]
pub enum Verdict {
    /// Each line was answered, and none refused. The last line that came is the awaited one, if one is.
    Answered,
    /// Each line was answered, one at least by a refusal.
    Refused,
    /// The server ended the connection before so many of the lines were answered.
    Unanswered(usize),
}

impl Answer {
    /// How asking ends by this answer; none if the lines are to be sent again.
    pub fn verdict(&self) -> Option<Verdict>
        ensures { result ≡ verdict_after self.now }
    {
        if self.left > 0 {
            Some(Verdict::Unanswered(self.left))
        } else if self.is_refused {
            Some(Verdict::Refused)
        } else if self.is_awaited {
            Some(Verdict::Answered)
        } else {
            None
        }
    }
}
