//! The laws of the table as text: how it agrees with the reply table.
ghost use Rattle.apex_words.specs.Law.{RefusalsAreListed};
ghost use Rattle.apex_words.specs.Replies.{RepliesAreGiven};

/// Outside of IDLE, only a check that its service lists refuses a call. There is nothing to run.
#[tactic(auto, using(crate::proofs::LawLemmas::refusals_listed))]
pub fn refusals_are_listed()
    ensures { RefusalsAreListed }
{}

/// `can_give` and `can_give_code` hold for each reply to a call of the service. There is nothing to run.
pub fn replies_are_given()
    ensures { RepliesAreGiven }
{}
