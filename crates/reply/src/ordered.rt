// What comparing two parses gives.
ghost use Rattle.std.specs.Prelude.{◌≡◌};
ghost use Rattle.reply.specs.Answers.{order_value, compare_reply};

use crate::{Refuses, Reply, answer};
use order::Order;

// Kind 1 is compared; its value says how.
#[tactic(auto, unfolding(crate::specs::Answers::compare_reply))]
pub fn compare_reply<R: Refuses>(compared: Result<Order, R>) -> Reply
    ensures { result ≡ compare_reply R.replied compared }
{
    match compared {
        Ok(order) => answer(1, order_value(order)),
        Err(refusal) => refusal.reply(),
    }
}

// 02's number, and 1.
fn order_value(order: Order) -> usize
    ensures { result ≡ order_value order }
{
    match order {
        Order::Below => 0,
        Order::Equal => 1,
        Order::Above => 2,
        Order::Neither => 3,
    }
}
