// Why an input is refused: a fault, which has a number, and the place at which it was found.
#![tactic(auto)]

ghost use Rattle.std.specs.Prelude.{◌≡◌};
ghost use Rattle.refusal.specs.Fault.{number_of};
ghost use Rattle.refusal.specs.Verdict.{refusal};

#[derive(Clone, Copy, PartialEq, Eq)]
pub enum Fault {
    // The grammar is too short for its header, or for its counts.
    Short,
    // A byte of the header is out of range.
    Header,
    // A count is over its limit.
    Count,
    // The length is not the one that the counts call for.
    Length,
    // A result or an argument names nothing.
    Name,
    // A declaration has no such kind, names no production, or is of a group that ends before it begins; or a question names no production or argument.
    Absent,
    // Two productions are equal.
    Repeated,
    // A production is higher than itself.
    Circle,
    // The text is over its limit.
    LongText,
    // A listing's bytes are odd, or over their limit.
    BadListing,
    // The chart is too short.
    ShortChart,
    // A written grammar doesn't fit its buffer.
    LongFlat,
    // A listing doesn't fit its buffer.
    LongListing,
    // The listing is not right.
    WrongListing,
    // A page doesn't fit its buffer.
    LongPage,
    // The sheet is over its limit.
    LongSheet,
    // The summary is too short.
    ShortSummary,
    // A flat text is not in the written form.
    Form,
    // A class of a flat text, or the root, names a line that is not there.
    NoLine,
    // One of two listings is not right.
    WrongPair,
}

#[derive(Clone, Copy, PartialEq, Eq)]
pub struct Refusal {
    pub fault: Fault,
    pub place: usize,
}

impl Fault {
    // The number by which programs know it: from 1 on in the order of the cases, without 6 and without 12 to 19. By sums, since a match would be a table in the library.
    pub fn number(self) -> usize
        ensures { result ≡ number_of self }
    {
        let index = self as usize;
        if index < Fault::Absent as usize {
            return index + 1;
        }
        if index < Fault::ShortChart as usize {
            return index + 2;
        }
        index + 10
    }

    // A refusal for it.
    pub fn at(self, place: usize) -> Refusal
        ensures { result ≡ refusal self place }
    {
        Refusal { fault: self, place }
    }
}
