// What reading a text answers.
ghost use Rattle.std.specs.Prelude.{◌≡◌};
ghost use Rattle.reply.specs.Answers.{read_reply};

use crate::{Refuses, Reply, answer};
use engine::Answer;

// Kind 0 is none, kind 1 one, kind 2 several; the value of one is the length of its listing.
#[tactic(auto, unfolding(crate::specs::Answers::read_reply))]
pub fn read_reply<R: Refuses>(read: Answer<R>) -> Reply
    ensures { result ≡ read_reply R.replied read }
{
    match read {
        Answer::None => answer(0, 0),
        Answer::One(length) => answer(1, length),
        Answer::Several => answer(2, 0),
        Answer::Refused(refusal) => refusal.reply(),
    }
}
