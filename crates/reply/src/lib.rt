// The answer of an operation, in the form in which all calls give it. A module to each kind of answer says what it is in this form.
#![tactic(auto)]

pub mod check;
pub mod check_listing;
pub mod conflict;
pub mod count;
pub mod ordered;
pub mod read;
pub mod step;
pub mod why;

ghost use Rattle.std.specs.Prelude.{◌≡◌};
ghost use Rattle.reply.specs.Reply.{Fits, answered, refused_by, refused, number_of, place_of};

use refusal::Refusal;

// Its kind, its value, and the place of a refusal, 0 for none. The kind is a number, as it is in C.
#[derive(Clone, Copy)]
pub struct Reply {
    pub kind: usize,
    pub value: usize,
    pub place: usize,
}

// The kind of a refusal; its value is the number.
pub const REFUSED: usize = 3;

// What is no refusal.
pub fn answer(kind: usize, value: usize) -> Reply
    ensures { result ≡ answered kind value }
{
    Reply {
        kind,
        value,
        place: 0,
    }
}

// A refusal by its number and its place.
pub fn refusal(number: usize, place: usize) -> Reply
    ensures { result ≡ refused_by number place }
{
    Reply {
        kind: REFUSED,
        value: number,
        place,
    }
}

pub fn refused(r: Refusal) -> Reply
    ensures { result ≡ refused r }
{
    refusal(r.fault.number(), r.place)
}

// What refuses an input, as a reply: a fault and its place, or any number and a place.
pub trait Refuses {
    ghost use Rattle.reply.specs.declared.Reply.{Reply};

    ghost replied: { Self → Reply };

    fn reply(self) -> Reply
        ensures { result ≡ replied self };
}

impl Refuses for Refusal {
    ghost replied = { refused };

    fn reply(self) -> Reply {
        refused(self)
    }
}

// A refusal by its number, whether an operation has it or not.
#[derive(Clone, Copy, PartialEq, Eq)]
pub struct Numbered {
    pub number: usize,
    pub place: usize,
}

impl Refuses for Numbered {
    ghost replied = { λ r. refused_by r.number r.place };

    fn reply(self) -> Reply {
        refusal(self.number, self.place)
    }
}

// The answer as one number, 4 × value + kind.
pub fn number(reply: Reply) -> u64
    requires { Fits reply }
    ensures { result ≡ number_of reply }
{
    4 * (reply.value as u64) + reply.kind as u64
}

pub fn place(reply: Reply) -> u64
    ensures { result ≡ place_of reply }
{
    reply.place as u64
}
