// How a program's work ended.
ghost use Rattle.std.specs.Prelude.{◌≡◌, cond, is_ok};
ghost use Rattle.desk.specs.Outcomes.{status_of, worse_of, ends_without};
ghost use Rattle.desk.specs.declared.outcomes.Outcome.TheVariants.{Failed};

use crate::failures::say_error;
use crate::host::Host;
use crate::loading::NoTable;
use std::io;

// Done; refused, for what the file or the picture says; or failed, by a call that is not understood or by the system. The later the worse.
// Stays: `Result<(), End>` would have no place in it for the worse of two, and a status is made of all three.
#[derive(Clone, Copy, Debug, PartialEq, Eq)]
pub enum Outcome {
    Done,
    Refused,
    Failed,
}

impl Outcome {
    // What a script goes by.
    pub fn status(self) -> u32
        ensures { result ≡ status_of self }
    {
        match self {
            Outcome::Done => 0,
            Outcome::Refused => 1,
            Outcome::Failed => 2,
        }
    }

    // The worse of two ends: the one with the greater status.
    pub fn worse(self, other: Outcome) -> Outcome
        ensures { result ≡ worse_of self other }
    {
        if self.status() < other.status() {
            return other;
        }
        self
    }

    // This end, where all was written to standard output; else it is said why it was not, and the work has failed.
    pub fn when_written(self, host: &mut Host, written: io::Result<()>) -> Outcome
        ensures { result ≡ cond (is_ok written) self Failed }
    {
        match written {
            Ok(()) => self,
            Err(error) => {
                say_error(host, "cannot write standard output", error);
                Outcome::Failed
            }
        }
    }
}

// Where there is no table: its file is refused, or could not be read.
impl From<NoTable> for Outcome {
    ghost from_gives = { λ why end. end ≡ ends_without why };

    #[tactic(auto, unfolding(crate::specs::Outcomes::ends_without))]
    fn from(why: NoTable) -> Outcome {
        match why {
            NoTable::Refused => Outcome::Refused,
            NoTable::Unread => Outcome::Failed,
        }
    }
}
