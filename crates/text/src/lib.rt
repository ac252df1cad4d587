// Lines, words, keywords and titles: the text of a file, up to its numbers.
#![tactic(auto)]

mod cursor;
mod keywords;
mod lines;
mod runs;
mod title;
mod words;

pub use cursor::{Cursor, Line};
pub use keywords::{is_named, keyword_of};
pub use lines::{byte_fault, form_of};
pub use runs::every;
pub use title::title_of;
pub use words::{Word, next_word};
