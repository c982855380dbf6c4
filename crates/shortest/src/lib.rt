// A shortest chain of declarations by which a production is higher than another (02, [8]). The search goes breadth first, back from the lower one.
#![tactic(auto)]

ghost use Rattle.std.specs.Prelude.{◌≡◌, ◌+◌, ◌<◌, length};
ghost use Rattle.grammar.specs.Formed.{WellFormed};
ghost use Rattle.refusal.specs.Verdict.{accepted};
ghost use Rattle.layout.specs.Layout.{declaration_at};
ghost use Rattle.layout.specs.Limits.{production_limit};
ghost use Rattle.priority.specs.Check.{checked};
ghost use Rattle.priority.specs.Priorities.{Higher};
ghost use Rattle.shortest.specs.Search.{far, RoundMore, way, Steps};
ghost use Rattle.shortest.specs.Written.{chain_after, ShortestWritten};

use layout::limits::PRODUCTION_LIMIT;
use layout::{declaration_at, declaration_count};
use priority::{HIGHER, read_declaration};

// The distance of a production from which no chain was found: more than any that was.
const FAR: usize = PRODUCTION_LIMIT;

// Writes a shortest chain from p to q to the start of the buffer, as much of it as fits, and gives its whole length.
pub fn write_chain(book: &[u8], p: usize, q: usize, out: &mut [u8]) -> usize
    requires { (checked book.now ≡ accepted) × Higher book.now p q }
    ensures { ShortestWritten book.now p q out.old result out.new }
{
    let start = declaration_at(book, 0);
    let mut distance = [FAR; PRODUCTION_LIMIT];
    let mut next = [0; PRODUCTION_LIMIT];
    distance[q] = 0;
    let mut k = 0;
    while distance[p] == FAR {
        round(book, start, k, &mut distance, &mut next);
        k += 1;
    }
    let count = distance[p];
    follow(book, start, p, count, &next, out);
    count
}

// Finds the productions that a declaration leads from to one that is k away.
fn round(book: &[u8], start: usize, k: usize, distance: &mut [usize], next: &mut [u8])
    requires well_formed { WellFormed book.now × (start ≡ declaration_at book.now 0) × (k + 1 < far) }
    requires distance_len { (length distance.old ≡ production_limit) × (length next.old ≡ production_limit) }
    ensures { RoundMore book.now k distance.old next.old distance.new next.new }
{
    for d in 0..declaration_count(book) {
        let own = read_declaration(book, start, d);
        let first = own.first;
        let second = own.second;
        if own.kind == HIGHER && distance[first] == FAR && distance[second] == k {
            distance[first] = k + 1;
            next[first] = d as u8;
        }
    }
}

// Writes the declarations of `count` steps from p, as many as fit.
fn follow(book: &[u8], start: usize, p: usize, count: usize, next: &[u8], out: &mut [u8])
    requires well_formed { WellFormed book.now × (start ≡ declaration_at book.now 0) }
    requires next_len { (length next.now ≡ production_limit) × (p < production_limit) × Steps book.now next.now p count }
    ensures { out.new ≡ chain_after (way book.now next.now p count) out.old }
{
    let mut x = p;
    for k in 0..count.min(out.len()) {
        out[k] = next[x];
        let own = read_declaration(book, start, usize::from(next[x]));
        x = own.second;
    }
}
