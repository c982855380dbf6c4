// What the question for the reason of a conflict answers.
ghost use Rattle.std.specs.Prelude.{◌≡◌};
ghost use Rattle.reply.specs.Answers.{reason_reply, cause_value, Few, FewOf};

use crate::{Refuses, Reply, answer};
use reason::Cause;

// How many values the line of a conflict may have, with room for none.
const LINE_VALUES: usize = 4;

// Kind 0 is no conflict, kind 1 a conflict; its value is 4 × the count or the declaration + its line.
#[tactic(auto, unfolding(crate::specs::Answers::reason_reply))]
pub fn reason_reply<R: Refuses>(reason: Result<Option<Cause>, R>) -> Reply
    requires { Few reason }
    ensures { result ≡ reason_reply R.replied reason }
{
    match reason {
        Ok(cause) => match cause {
            None => answer(0, 0),
            Some(cause) => answer(1, cause_value(cause)),
        },
        Err(refusal) => refusal.reply(),
    }
}

// The value of what is behind a conflict.
fn cause_value(cause: Cause) -> usize
    requires { FewOf cause }
    ensures { result ≡ cause_value cause }
{
    match cause {
        Cause::Higher(n) => LINE_VALUES * n + 1,
        Cause::AtFirst(d) => LINE_VALUES * d + 2,
        Cause::AtLast(d) => LINE_VALUES * d + 3,
    }
}
