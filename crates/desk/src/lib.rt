// What the programs at the desk share: a table loaded from a file, arguments as numbers, and what is printed.
#![tactic(auto)]

mod arguments;
mod cures;
mod failures;
mod host;
mod loading;
mod names;
mod outcomes;
mod printing;
mod refusals;
mod reports;
mod tables;

pub use arguments::{Unfit, is_word_at, number_in, optional_number};
pub use failures::{say_error, say_error_of};
pub use host::{
    Host, Input, Output, Reason, argument, argument_count, hold, is_link, is_no_file, word_at,
};
pub use loading::{NoTable, Table, Unfetched, fetch_file, load_argument};
pub use names::name_at;
pub use outcomes::Outcome;
pub use printing::write_sample;
pub use refusals::{refuse, write_refused};
pub use reports::{outcome_of, report_input};
pub use tables::{write_domains, write_size, write_title};
