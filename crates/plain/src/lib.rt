// Rows in the plain shape, which nearly all files have: three numbers with one space between them, then a newline, where a number is an optional
// minus, one to three digits, and perhaps a point with at most seven digits after it. Such a row breaks no rule by itself, so that one pass over its
// bytes is enough to know its end and its samples. Of every other line nothing is said here.
#![tactic(auto)]

mod digits;
mod number;
mod rows;

pub use rows::{Run, fill_rows, pass_rows};
