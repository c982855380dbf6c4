// What checking a listing answers.
ghost use Rattle.std.specs.Prelude.{◌≡◌};
ghost use Rattle.reply.specs.Answers.{listing_reply};

use crate::{Refuses, Reply, answer};
use listing::Judgement;

// Kind 0 is right, kind 1 wrong; the value is the index.
#[tactic(auto, unfolding(crate::specs::Answers::listing_reply))]
pub fn listing_reply<R: Refuses>(judged: Result<Judgement, R>) -> Reply
    ensures { result ≡ listing_reply R.replied judged }
{
    match judged {
        Ok(judgement) => match judgement {
            Judgement::Right => answer(0, 0),
            Judgement::Wrong(index) => answer(1, index),
        },
        Err(refusal) => refusal.reply(),
    }
}
