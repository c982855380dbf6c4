// Where each part of a grammar stands among its bytes, and what it says.
#![tactic(auto)]

pub mod limits;

ghost use Rattle.std.specs.Prelude.{◌≡◌, ◌<◌, ◌≤◌, length};
ghost use Rattle.layout.specs.Limits.{header_length};
ghost use Rattle.layout.specs.Layout.{byte_at, sorts, productions, classes, declarations, start_sort, argument_count, range_count, bodies_at, production_at, result_sort, argument, class_at, declaration_at};
ghost use Rattle.layout.specs.Framed.{Framed};

use crate::limits::{DECLARATION_LENGTH, HEADER_LENGTH};

// Byte k as a number.
pub fn byte_at(book: &[u8], k: usize) -> usize
    requires { k < length book.now }
    ensures { result ≡ byte_at book.now k }
{
    usize::from(book[k])
}

pub fn sort_count(book: &[u8]) -> usize
    requires { header_length ≤ length book.now }
    ensures { result ≡ sorts book.now }
{
    byte_at(book, 0)
}

pub fn production_count(book: &[u8]) -> usize
    requires { header_length ≤ length book.now }
    ensures { result ≡ productions book.now }
{
    byte_at(book, 1)
}

pub fn class_count(book: &[u8]) -> usize
    requires { header_length ≤ length book.now }
    ensures { result ≡ classes book.now }
{
    byte_at(book, 2)
}

pub fn declaration_count(book: &[u8]) -> usize
    requires { header_length ≤ length book.now }
    ensures { result ≡ declarations book.now }
{
    byte_at(book, 3)
}

pub fn start_sort(book: &[u8]) -> usize
    requires { header_length ≤ length book.now }
    ensures { result ≡ start_sort book.now }
{
    byte_at(book, 4)
}

// Where the contents end and the bodies begin.
pub fn bodies_at(book: &[u8]) -> usize
    requires { header_length ≤ length book.now }
    ensures { result ≡ bodies_at book.now }
{
    HEADER_LENGTH + production_count(book) + class_count(book)
}

// ---- the contents

pub fn argument_count(book: &[u8], p: usize) -> usize
    requires book_in_bounds { bodies_at book.now ≤ length book.now }
    requires p_bound { p < productions book.now }
    ensures { result ≡ argument_count book.now p }
{
    byte_at(book, HEADER_LENGTH + p)
}

pub fn range_count(book: &[u8], k: usize) -> usize
    requires book_in_bounds { bodies_at book.now ≤ length book.now }
    requires k_bound { k < classes book.now }
    ensures { result ≡ range_count book.now k }
{
    byte_at(book, HEADER_LENGTH + production_count(book) + k)
}

// ---- where the bodies stand

// Production p; with p the number of productions, where the classes begin.
pub fn production_at(book: &[u8], p: usize) -> usize
    requires book_in_bounds { bodies_at book.now ≤ length book.now }
    requires p_bound { p ≤ productions book.now }
    ensures { result ≡ production_at book.now p }
{
    let mut at = bodies_at(book);
    for q in 0..p {
        at += 1 + argument_count(book, q);
    }
    at
}

// Class k; with k the number of classes, where the declarations begin.
pub fn class_at(book: &[u8], k: usize) -> usize
    requires book_in_bounds { bodies_at book.now ≤ length book.now }
    requires k_bound { k ≤ classes book.now }
    ensures { result ≡ class_at book.now k }
{
    let mut at = production_at(book, production_count(book));
    for j in 0..k {
        at += 2 * range_count(book, j);
    }
    at
}

// Declaration d; with d the number of declarations, the end.
pub fn declaration_at(book: &[u8], d: usize) -> usize
    requires book_in_bounds { bodies_at book.now ≤ length book.now }
    requires d_bound { d ≤ declarations book.now }
    ensures { result ≡ declaration_at book.now d }
{
    class_at(book, class_count(book)) + DECLARATION_LENGTH * d
}

// ---- what the bodies say

// The result sort of production p.
pub fn result(book: &[u8], p: usize) -> usize
    requires framed { Framed book.now }
    requires p_bound { p < productions book.now }
    ensures { result ≡ result_sort book.now p }
{
    byte_at(book, production_at(book, p))
}

// The byte of argument i of production p.
pub fn argument(book: &[u8], p: usize, i: usize) -> usize
    requires framed { Framed book.now }
    requires p_bound { p < productions book.now }
    requires i_bound { i < argument_count book.now p }
    ensures { result ≡ argument book.now p i }
{
    byte_at(book, production_at(book, p) + 1 + i)
}
