// What writing into a buffer answers, and what checking a flat text does: how many bytes or lines there are.
ghost use Rattle.std.specs.Prelude.{◌≡◌};
ghost use Rattle.reply.specs.Answers.{count_reply};

use crate::{Refuses, Reply, answer};

// Kind 1 is done; the value is the count.
#[tactic(auto, unfolding(crate::specs::Answers::count_reply))]
pub fn count_reply<R: Refuses>(counted: Result<usize, R>) -> Reply
    ensures { result ≡ count_reply R.replied counted }
{
    match counted {
        Ok(count) => answer(1, count),
        Err(refusal) => refusal.reply(),
    }
}
