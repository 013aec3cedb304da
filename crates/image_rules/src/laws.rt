//! Laws of the definitions, each the contract of a function that does nothing.

ghost use Rattle.std.specs.Prelude.{◌≡◌, ◌≤◌, ◌+◌, ◌⊎◌, ◌∷◌, [], ℕ, List, Bool, Some, None, true, false};
ghost use Rattle.image_rules.specs.Questions.{SignHeard, Has, ShowAnother, after_sign, after_signs, is_another, is_decided_by};
ghost use Rattle.image_rules.specs.declared.questions.Doubt.{Doubt};
ghost use Rattle.image_rules.specs.declared.questions.Question.{Question};
ghost use Rattle.image_rules.specs.declared.signs.Sign.{Sign};
ghost use Rattle.image_rules.specs.declared.signs.Sign.TheVariants.{Heartbeat, Repeats, Setup};

/// A publication is another one only by two signs that came: the second one at most 300 milliseconds after the first, and of another
/// kind, of frames that came again, or 100 milliseconds or more later.
#[tactic(auto, using(crate::proofs::QuestionLemmas::two_signs))]
pub fn an_image_ends_by_two_signs()
    ensures { (is_group : Bool) (signs : List SignHeard) (last : SignHeard) →
        is_another last.sign last.time (after_signs is_group signs (record { last = None })) ≡ true →
        (first : SignHeard) × Has first signs × ShowAnother first last }
{}

/// A question that a sign begins, after another one that began, begins 2,300 milliseconds later or more. Each lasts 300, so signs that
/// anybody sends hold no sender for longer than that in each 2,300 milliseconds.
pub fn questions_begin_far_apart()
    ensures { (sign : Sign) (is_group : Bool) (time : ℕ) (before after : Question) →
        after_sign sign is_group time (record { last = Some before }) ≡ record { last = Some after } →
        (after ≡ before) ⊎ (before.since + 2300 ≤ after.since) }
{}

/// Signs of publishers that come back, and of datagrams that were delayed, as they are decided. Times are milliseconds. In a group
/// (`true`) frames come again because other receivers asked for them.
pub fn what_comes_back_is_decided()
    // A driver repeats its setup frame each 100 milliseconds.
    ensures setup_frames { is_decided_by false (record { sign = Setup; time = 1000 } ∷ record { sign = Setup; time = 1100 } ∷ []) ≡ true }
    // The first setup frame of a publisher that was admitted is lost, or its first heartbeat comes with it.
    ensures two_kinds { is_decided_by false (record { sign = Heartbeat; time = 1000 } ∷ record { sign = Setup; time = 1001 } ∷ []) ≡ true }
    // A driver that was admitted by a status message under way sends no setup frame.
    ensures frames_alone { is_decided_by false (record { sign = Repeats; time = 1000 } ∷ record { sign = Repeats; time = 1002 } ∷ []) ≡ true }
    ensures frames_and_setup { is_decided_by true (record { sign = Setup; time = 1000 } ∷ record { sign = Repeats; time = 1020 } ∷ []) ≡ true }
    // A setup frame that was delayed comes once, or twice in one burst.
    ensures late_duplicate { is_decided_by false (record { sign = Setup; time = 1000 } ∷ []) ≡ false }
    ensures late_pair { is_decided_by false (record { sign = Setup; time = 1000 } ∷ record { sign = Setup; time = 1003 } ∷ []) ≡ false }
    // The second one comes too late, and begins no question of its own.
    ensures too_late { is_decided_by false (record { sign = Setup; time = 1000 } ∷ record { sign = Setup; time = 1301 } ∷ record { sign = Setup; time = 1401 } ∷ []) ≡ false }
    // Other receivers of a group ask for frames, again and again.
    ensures repeats_of_a_group { is_decided_by true (record { sign = Repeats; time = 1000 } ∷ record { sign = Repeats; time = 1100 } ∷ record { sign = Repeats; time = 1200 } ∷ []) ≡ false }
{}
