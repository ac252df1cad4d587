// Reading: the bytes of one file to a description and samples, or a refusal with its number and line.
#![tactic(auto)]

mod checks;
mod first_pass;
mod lines;
mod runs;
mod second_pass;
mod state;

ghost use Rattle.rules.specs.Promises.{Reads, Checks};

use first_pass::judge_file;
use rules::{Description, Kind, Refused};
use second_pass::fill;

// The samples are written only once the whole file is accepted: a refusal leaves the table as it was.
pub fn read(file: &[u8], table: &mut [i64]) -> Result<Description, Refused>
    ensures { Reads file.now table.old result table.new }
{
    let description = judge_file(file, table.len())?;
    fill(file, &mut *table);
    Ok(description)
}

// A file judged with no table: what reading it answers where there is room for every table.
pub fn check(file: &[u8]) -> Result<Description, Refused>
    ensures { Checks file.now result }
{
    judge_file(file, Kind::MOST_PLACES)
}
