//! Whether an image is in question, and when its publication is another one. One sign may be a late duplicate, so it takes two.

ghost use Rattle.std.specs.Prelude.{◌≡◌, None};
ghost use Rattle.image_rules.specs.Questions.{after_sign, decides, is_another, is_in_question, is_open_at, may_begin_question};

use crate::signs::Sign;

/// Milliseconds that a question lasts.
const LASTS: u64 = 300;
/// Milliseconds after its beginning in which a second sign of the same kind counts for the first one.
const APART: u64 = 100;
/// Milliseconds from a question's beginning to that of the next one, at least.
const RESTS: u64 = 2_300;

/// A question whether an image's publication is another one.
#[derive(Clone, Copy, Debug, PartialEq, Eq)]
pub struct Question {
    /// The sign that it began with.
    pub first: Sign,
    /// When it began, in milliseconds.
    pub since: u64,
}

impl Question {
    /// Whether it is open: 300 milliseconds have not passed.
    fn is_open_at(&self, now: u64) -> bool
        ensures { result ≡ is_open_at now self.now }
    {
        now.saturating_sub(self.since) <= LASTS
    }

    /// Whether a sign after the first one decides that the publication is another one: a sign of another kind, one that comes 100
    /// milliseconds or more after the first, or three further frames that came again.
    fn decides(&self, sign: Sign, now: u64) -> bool
        ensures { result ≡ decides sign now self.now }
    {
        sign != self.first || sign == Sign::Repeats || APART <= now.saturating_sub(self.since)
    }
}

/// The last question of an image, if there was one.
#[derive(Clone, Copy, Debug, PartialEq, Eq)]
pub struct Doubt {
    /// The last question.
    pub last: Option<Question>,
}

impl Doubt {
    /// There was no question.
    pub fn new() -> Doubt
        ensures { result ≡ record { last = None } }
    {
        Doubt { last: None }
    }

    /// Whether the image is in question: no status message goes out but a request for a setup frame, no frame joins, and nothing is
    /// asked for. Does not allocate.
    pub fn is_in_question(&self, now: u64) -> bool
        ensures { result ≡ is_in_question now self.now }
    {
        match self.last {
            Some(question) => question.is_open_at(now),
            None => false,
        }
    }

    /// A sign came. Whether the publication is another one. If not, the image is in question from now on, if it is not yet, and
    /// no question began within 2,300 milliseconds. In a group frames that came again begin no question, since other receivers ask for
    /// them. Does not allocate.
    pub fn hear(&mut self, sign: Sign, is_group: bool, now: u64) -> bool
        ensures another { result ≡ is_another sign now self.old }
        ensures after { self.new ≡ after_sign sign is_group now self.old }
    {
        let is_another = self.is_another(sign, now);
        if self.may_begin_question(sign, is_group, now) {
            self.last = Some(Question {
                first: sign,
                since: now,
            });
        }
        is_another
    }

    /// Whether a sign decides the question that is open.
    fn is_another(&self, sign: Sign, now: u64) -> bool
        ensures { result ≡ is_another sign now self.now }
    {
        match self.last {
            Some(question) => question.is_open_at(now) && question.decides(sign, now),
            None => false,
        }
    }

    /// Whether a sign begins a question.
    fn may_begin_question(&self, sign: Sign, is_group: bool, now: u64) -> bool
        ensures { result ≡ may_begin_question sign is_group now self.now }
    {
        if is_group && sign == Sign::Repeats {
            return false;
        }
        match self.last {
            Some(question) => RESTS <= now.saturating_sub(question.since),
            None => true,
        }
    }
}
