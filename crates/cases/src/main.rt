// Document 01's cases that are not marked P, with samples A.2, A.3 and A.4, and those that document 02 changes or adds, answered by the proved code.
// One line for each: its name, then all that the call answered and left in lent memory, parted by tabs.
// tests/second/src/cases.rs has the format, and prints the same bytes by other means.
#![tactic(auto)]

mod checks;
mod inverses;
mod longest;
mod looks;
mod mixed;
mod pictures;
mod print;
mod reads;
mod two_halves;
mod writes;

fn main() {
    reads::words();
    reads::lines();
    reads::sizes();
    reads::cubes();
    reads::samples();
    reads::half_domains();
    looks::run();
    pictures::run();
    checks::run();
    mixed::run();
    writes::run();
    two_halves::run();
    inverses::run();
}
