// What checking a grammar answers.
ghost use Rattle.std.specs.Prelude.{◌≡◌};
ghost use Rattle.reply.specs.Answers.{check_reply};

use crate::{Refuses, Reply, answer};

// Kind 0 is accepted.
#[tactic(auto, unfolding(crate::specs::Answers::check_reply))]
pub fn check_reply<R: Refuses>(verdict: Result<(), R>) -> Reply
    ensures { result ≡ check_reply R.replied verdict }
{
    match verdict {
        Ok(()) => answer(0, 0),
        Err(refusal) => refusal.reply(),
    }
}
