// What a step down a sheet answers.
ghost use Rattle.std.specs.Prelude.{◌≡◌};
ghost use Rattle.reply.specs.Answers.{step_reply, Near};

use crate::{Refuses, Reply, answer};
use common::wide;
use sheet::Stepped;

// How many values a summary byte has.
const SUMMARY_VALUES: usize = 4;

// Kind 0 is no line left, kind 1 a line; the value of a line is 4 × where the next one starts + its summary byte.
#[tactic(auto, unfolding(crate::specs::Answers::step_reply))]
pub fn step_reply<R: Refuses>(stepped: Stepped<R>) -> Reply
    requires { Near stepped.step stepped.next }
    ensures { result ≡ step_reply R.replied stepped.step stepped.next }
{
    match stepped.step {
        Ok(line) => match line {
            None => answer(0, 0),
            Some(byte) => answer(1, SUMMARY_VALUES * stepped.next + wide(byte)),
        },
        Err(refusal) => refusal.reply(),
    }
}
