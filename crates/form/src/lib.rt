// The written form of a character class grammar (01's flat book), byte by byte: where in it a text is, and whether some text of the form goes on from there.
#![tactic(auto)]

ghost use Rattle.std.specs.Prelude.{◌≡◌, true, ◌-◌, ◌*◌, ◌<◌, ◌≤◌};
ghost use Rattle.ccg.specs.Text.{number_limit};
ghost use Rattle.common.specs.Below.{between};
ghost use Rattle.layout.specs.Limits.{production_limit, argument_limit};
ghost use Rattle.writing.specs.Digits.{is_digit};
ghost use Rattle.writing.specs.Numeral.{digit_zero, numeral_base};
ghost use Rattle.form.specs.Step.{last_from, allowed, meets, begins, begun, state, ending_length, ending_byte, behind_number, in_number, behind_open, behind_slash, behind_dash, in_line, behind_class, in_ending, step, start, goes_on, may_end, ShortSpot, Small};

use charset::CHARACTERS;
use common::wide;
use layout::limits::{ARGUMENT_LIMIT, PRODUCTION_LIMIT};
use tables::FIRST_PRODUCTION;
use writing::digit;

// The last character, and the last number that a line could have.
const LAST_CHARACTER: usize = CHARACTERS - 1;

const LAST_NUMBER: usize = FIRST_PRODUCTION + PRODUCTION_LIMIT - 1;
// How many bytes the end of a line has, from its arrow on.
const ENDING_LENGTH: usize = 10;

// Where in a line a text is.
#[derive(Clone, Copy)]
pub enum Spot {
    // An argument or the line's end begins here.
    Between,
    // Behind the bracket that opens a class.
    Opened,
    // Behind the backslash of a number that ends a range, if the first entry says so, and is at least the second.
    Slash(bool, usize),
    // In such a number, behind digits of this value.
    Number(bool, usize, usize),
    // Behind the dash of a range that ends in this number or a higher one.
    Dash(usize),
    // Behind the bracket that closes a class.
    Closed,
    // Behind so many bytes of the line's end.
    Ending(usize),
    // Where no text of the form goes on.
    Stuck,
}

#[derive(Clone, Copy)]
pub struct State {
    // How many lines are complete, and how many arguments of the next.
    pub line: usize,
    pub argument: usize,
    pub spot: Spot,
}

// ---- which numbers may come

// The last number of the kind that a class has whose next number is at least `low`.
fn last_from(low: usize) -> usize
    ensures { result ≡ last_from low }
{
    if low < FIRST_PRODUCTION {
        return LAST_CHARACTER;
    }
    LAST_NUMBER
}

fn within(low: usize, high: usize, n: usize) -> bool
    ensures { result ≡ between low high n }
{
    low <= n && n <= high
}

// Whether n may come next.
#[tactic(auto, unfolding(crate::specs::Step::allowed))]
fn allowed(low: usize, n: usize) -> bool
    ensures { result ≡ allowed low n }
{
    within(low, last_from(low), n) || (low == 0 && within(FIRST_PRODUCTION, LAST_NUMBER, n))
}

#[tactic(auto, unfolding(crate::specs::Step::meets))]
fn meets(low: usize, high: usize, a: usize, b: usize) -> bool
    ensures { result ≡ meets low high a b }
{
    a <= high && low <= b
}

// Whether the digits of v begin the numeral of a number from low to high.
#[tactic(auto, unfolding(crate::specs::Step::begins))]
fn begins(low: usize, high: usize, v: usize) -> bool
    requires { v < number_limit * numeral_base }
    ensures { result ≡ begins low high v }
{
    let with_digit = meets(low, high, v * 10, v * 10 + 9);
    let with_two = meets(low, high, v * 100, v * 100 + 99);
    low <= high && (meets(low, high, v, v) || (1 <= v && (with_digit || with_two)))
}

// Whether they begin the numeral of a number that may come next.
#[tactic(auto, unfolding(crate::specs::Step::begun))]
fn begun(low: usize, v: usize) -> bool
    requires { v < number_limit * numeral_base }
    ensures { result ≡ begun low v }
{
    begins(low, last_from(low), v) || (low == 0 && begins(FIRST_PRODUCTION, LAST_NUMBER, v))
}

// ---- one byte

#[tactic(auto, unfolding(writing::specs::Digits::is_digit))]
fn is_digit(byte: u8) -> bool
    ensures { result ≡ is_digit byte }
{
    b'0' <= byte && byte <= b'9'
}

fn digit_value(byte: u8) -> usize
    requires { is_digit byte ≡ true }
    ensures { result ≡ byte - digit_zero }
{
    wide(byte - b'0')
}

// Behind a number: a dash if it begins its range, another range, or the class's end.
fn behind_number(dashed: bool, v: usize, byte: u8) -> Spot
    requires { v < number_limit }
    ensures { result ≡ behind_number dashed v byte }
{
    if byte == b'-' {
        if dashed {
            return Spot::Stuck;
        }
        return Spot::Dash(v + 1);
    }
    if byte == b'\\' {
        return Spot::Slash(false, v + 2);
    }
    if byte == b']' {
        return Spot::Closed;
    }
    Spot::Stuck
}

// In a number that has the value v so far.
fn in_number(dashed: bool, low: usize, v: usize, byte: u8) -> Spot
    requires { v < number_limit }
    ensures { result ≡ in_number dashed low v byte }
{
    if is_digit(byte) {
        if v == 0 {
            return Spot::Stuck;
        }
        return Spot::Number(dashed, low, v * 10 + digit_value(byte));
    }
    if allowed(low, v) {
        return behind_number(dashed, v, byte);
    }
    Spot::Stuck
}

// Behind the bracket that opens a class.
fn behind_open(byte: u8) -> Spot
    ensures { result ≡ behind_open byte }
{
    if byte == b'\\' {
        return Spot::Slash(false, 0);
    }
    if byte == b']' {
        return Spot::Closed;
    }
    Spot::Stuck
}

// Behind a backslash.
fn behind_slash(dashed: bool, low: usize, byte: u8) -> Spot
    ensures { result ≡ behind_slash dashed low byte }
{
    if is_digit(byte) {
        return Spot::Number(dashed, low, digit_value(byte));
    }
    Spot::Stuck
}

// Behind the dash of a range.
fn behind_dash(low: usize, byte: u8) -> Spot
    ensures { result ≡ behind_dash low byte }
{
    if byte == b'\\' {
        return Spot::Slash(true, low);
    }
    Spot::Stuck
}

// Where an argument or the end of a line may begin.
fn in_line(line: usize, argument: usize, byte: u8) -> Spot
    ensures { result ≡ in_line line argument byte }
{
    if PRODUCTION_LIMIT <= line {
        return Spot::Stuck;
    }
    if byte == b'-' {
        return Spot::Ending(1);
    }
    if ARGUMENT_LIMIT <= argument {
        return Spot::Stuck;
    }
    if byte == b'[' {
        return Spot::Opened;
    }
    Spot::Stuck
}

// A state of line and argument.
fn at(line: usize, argument: usize, spot: Spot) -> State
    ensures { result ≡ state line argument spot }
{
    State {
        line,
        argument,
        spot,
    }
}

// Where every text begins.
pub fn start() -> State
    ensures { result ≡ start }
{
    at(0, 0, Spot::Between)
}

// Behind an argument's class.
fn behind_class(line: usize, argument: usize, byte: u8) -> State
    requires { argument ≤ argument_limit }
    ensures { result ≡ behind_class line argument byte }
{
    if byte == b' ' {
        return at(line, argument + 1, Spot::Between);
    }
    at(line, argument, Spot::Stuck)
}

// Byte k of the end of a line.
fn ending_byte(line: usize, k: usize) -> u8
    requires { (line < production_limit) × (k < ending_length) }
    ensures { result ≡ ending_byte line k }
{
    let number = FIRST_PRODUCTION + line;
    let ending = [
        b'-',
        b'>',
        b' ',
        b'[',
        b'\\',
        digit(number / 100),
        digit(number / 10 % 10),
        digit(number % 10),
        b']',
        b'\n',
    ];
    ending[k]
}

// Behind k bytes of the end of a line.
fn in_ending(line: usize, argument: usize, k: usize, byte: u8) -> State
    requires { (line < production_limit) × (k < ending_length) }
    ensures { result ≡ in_ending line argument k byte }
{
    if byte == ending_byte(line, k) {
        if k + 1 == ENDING_LENGTH {
            return at(line + 1, 0, Spot::Between);
        }
        return at(line, argument, Spot::Ending(k + 1));
    }
    at(line, argument, Spot::Stuck)
}

// The state behind one byte more.
pub fn step(state: State, byte: u8) -> State
    requires { Small state }
    ensures { result ≡ step state byte }
{
    let line = state.line;
    let argument = state.argument;
    let spot = state.spot;
    match spot {
        Spot::Between => at(line, argument, in_line(line, argument, byte)),
        Spot::Opened => at(line, argument, behind_open(byte)),
        Spot::Slash(dashed, low) => at(line, argument, behind_slash(dashed, low, byte)),
        Spot::Number(dashed, low, v) => at(line, argument, in_number(dashed, low, v, byte)),
        Spot::Dash(low) => at(line, argument, behind_dash(low, byte)),
        Spot::Closed => behind_class(line, argument, byte),
        Spot::Ending(k) => in_ending(line, argument, k, byte),
        Spot::Stuck => at(line, argument, Spot::Stuck),
    }
}

// ---- whether a text goes on

// Whether some text of the form goes on from here.
pub fn goes_on(spot: Spot) -> bool
    requires { ShortSpot spot }
    ensures { result ≡ goes_on spot }
{
    match spot {
        Spot::Between => true,
        Spot::Opened => true,
        Spot::Slash(_, low) => low <= last_from(low),
        Spot::Number(_, low, v) => begun(low, v),
        Spot::Dash(low) => low <= last_from(low),
        Spot::Closed => true,
        Spot::Ending(_) => true,
        Spot::Stuck => false,
    }
}

// Whether the text may end here: behind a line.
pub fn may_end(state: State) -> bool
    ensures { result ≡ may_end state }
{
    let line = state.line;
    let argument = state.argument;
    let spot = state.spot;
    match spot {
        Spot::Between => (1 <= line) & (argument == 0),
        Spot::Opened => false,
        Spot::Slash(_, _) => false,
        Spot::Number(_, _, _) => false,
        Spot::Dash(_) => false,
        Spot::Closed => false,
        Spot::Ending(_) => false,
        Spot::Stuck => false,
    }
}
