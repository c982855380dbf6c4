// What the conflict question answers.
ghost use Rattle.std.specs.Prelude.{◌≡◌};
ghost use Rattle.reply.specs.Answers.{conflict_reply};

use crate::{Refuses, Reply, answer};

// Kind 0 is no, kind 1 yes.
#[tactic(auto, unfolding(crate::specs::Answers::conflict_reply))]
pub fn conflict_reply<R: Refuses>(question: Result<bool, R>) -> Reply
    ensures { result ≡ conflict_reply R.replied question }
{
    match question {
        Ok(conflicts) => {
            if conflicts {
                return answer(1, 0);
            }
            answer(0, 0)
        }
        Err(refusal) => refusal.reply(),
    }
}
