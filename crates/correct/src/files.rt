// From the file IN to the file OUT. The output is written beside OUT, under a name of its own, and takes OUT's name when it is whole.
ghost use Rattle.std.specs.Prelude.{◌≡◌, false, ◌+◌, ◌<◌, ◌≤◌, IfOk, length};
ghost use Rattle.io.specs.Counts.{IsPrefixLen};
ghost use Rattle.lettering.specs.Putting.{Room, Puts};
ghost use Rattle.desk.specs.Outcomes.{EndsAs};
ghost use Rattle.correct.specs.Outcomes.{outcome_of};
ghost use Rattle.correct.specs.Parts.{most_name, part_name};

use crate::call::Wanted;
use crate::ends::Ends;
use crate::outcomes::{Story, outcome_of};
use crate::pictures::pass_pictures;
use crate::space::{Space, Table};
use crate::words;
use crate::words::{Failure, Trouble};
use desk::{Host, Input, Outcome, Output, is_link, is_no_file, say_error, word_at};
use lettering::Pen;
use std::io::{Error, ErrorKind};

// The longest name that the system takes.
const LAST: usize = 4095;

// The last part name that is tried, and how much longer than OUT's they are.
const LAST_PART: u8 = 99;

const PART_BYTES: usize = 8;

const CANNOT_WRITE: &str = "cannot write OUT";

// ---- names

// The name that an argument gives, put at the start of `path`, and how many bytes it has.
fn name_at(host: &Host, place: usize, what: &'static str, path: &mut [u8]) -> Result<usize, Trouble>
    ensures counts { IfOk result (λ n. IsPrefixLen n path.new) }
    ensures within { IfOk result (λ n. n ≤ most_name) }
{
    let Some(n) = word_at(host, place, &mut *path) else {
        return Err(Trouble::LongName(what));
    };
    if n > LAST {
        return Err(Trouble::LongName(what));
    }
    if n == 0 {
        return Err(Trouble::EmptyName(what));
    }
    Ok(n)
}

// ---- OUT, as it is found

// Why OUT cannot be written, by what the system says: it may be a device or a pipe, and not a file that can be replaced.
fn unwritable(error: Error) -> Trouble {
    if is_no_file(error) {
        return Trouble::NoFile;
    }
    Trouble::System(Failure {
        what: CANNOT_WRITE,
        error,
    })
}

// Whether the output can take this name, which is new or that of a file. A file stays as it is. What is written by renaming would take a link's place and not
// that of the file that it leads to.
fn check_out(host: &Host, path: &[u8]) -> Result<(), Trouble> {
    if is_link(host, path) {
        return Err(Trouble::Link);
    }
    match host.open_to_update(path) {
        Ok(file) => file.sync_all().map_err(|error| unwritable(error)),
        Err(error) if error.kind() == ErrorKind::NotFound => Ok(()),
        Err(error) => Err(unwritable(error)),
    }
}

// ---- the part

fn put_part_name(part: &mut [u8], path: &[u8], number: u8) -> usize
    requires number_bound { number < 100 }
    requires room { Room part.old 0 (part_name path.now number) }
    ensures { Puts part.old 0 (part_name path.now number) result part.new }
{
    let mut pen = Pen { bytes: part, at: 0 };
    pen.put(path);
    pen.put(b".part-");
    pen.put_byte(b'0' + number / 10);
    pen.put_byte(b'0' + number % 10);
    pen.at
}

// Makes the first part whose name is not taken, open to write.
fn make_part(host: &Host, path: &[u8], part: &mut [u8]) -> Result<Output, Error>
    requires { length path.now + 8 ≤ length part.old }
{
    for number in 0..LAST_PART {
        let n = put_part_name(&mut *part, path, number);
        let made = host.create(&part[..n]);
        if !matches!(made, Err(error) if error.kind() == ErrorKind::AlreadyExists) {
            return made;
        }
    }
    let n = put_part_name(&mut *part, path, LAST_PART);
    host.create(&part[..n])
}

// All pictures are written: the part is brought to the disk and takes OUT's name.
fn finish(host: &Host, to: Output, part: &[u8], path: &[u8]) -> Result<(), Error> {
    to.sync_all()?;
    host.rename(part, path)
}

// Takes the part away. Where it cannot, that is said, and the work has failed.
fn drop_part(host: &mut Host, outcome: Outcome, part: &[u8]) -> Outcome
    ensures { EndsAs outcome result }
{
    if let Err(error) = host.remove(part) {
        say_error(host, "cannot take away the file beside OUT", error);
        return Outcome::Failed;
    }
    outcome
}

// By what became of the pictures: the part takes OUT's name, or goes, so that nothing of it stays.
fn settle(host: &mut Host, story: Story, to: Output, part: &[u8], path: &[u8]) -> Outcome
    ensures { EndsAs (outcome_of false story) result }
{
    let outcome = outcome_of(false, story);
    if let Outcome::Done = outcome {
        let Err(error) = finish(host, to, part, path) else {
            return outcome;
        };
        say_error(host, CANNOT_WRITE, error);
        return drop_part(host, Outcome::Failed, part);
    }
    drop_part(host, outcome, part)
}

// ---- the work

fn open_in(host: &mut Host) -> Result<Input, Trouble> {
    let mut path = io::buffer();
    let n = name_at(host, 3, "IN", &mut path)?;
    host.open(&path[..n]).map_err(|error| Trouble::System(Failure {
        what: "cannot open IN",
        error,
    }))
}

// From an open file to the one of this name, by way of a part.
fn correct_to(
    host: &mut Host,
    from: Input,
    path: &[u8],
    table: Table<'_>,
    wanted: Wanted,
    space: &mut Space<'_>,
) -> Result<Outcome, Trouble>
    requires path_len_bound { length path.now ≤ most_name }
{
    let mut part = [0u8; 4104];
    let to = make_part(host, path, &mut part).map_err(|error| Trouble::System(Failure {
        what: "cannot make a file beside OUT",
        error,
    }))?;
    let mut ends = Ends {
        from,
        to,
        named: true,
    };
    let story = pass_pictures(host, &mut ends, table, wanted, space);
    let part = &part[..path.len() + PART_BYTES];
    Ok(settle(host, story, ends.to, part, path))
}

// The pictures in the file IN, to the file OUT, where both can be had.
fn correct_named(
    host: &mut Host,
    table: Table<'_>,
    wanted: Wanted,
    space: &mut Space<'_>,
) -> Result<Outcome, Trouble> {
    let mut path = io::buffer();
    let n = name_at(host, 4, "OUT", &mut path)?;
    check_out(host, &path[..n])?;
    let from = open_in(host)?;
    correct_to(host, from, &path[..n], table, wanted, space)
}

// The same, and where one cannot be had that is said.
pub fn correct_files(
    host: &mut Host,
    table: Table<'_>,
    wanted: Wanted,
    space: &mut Space<'_>,
) -> Outcome {
    match correct_named(host, table, wanted, space) {
        Ok(outcome) => outcome,
        Err(trouble) => {
            words::say_trouble(host, trouble);
            Outcome::Failed
        }
    }
}
