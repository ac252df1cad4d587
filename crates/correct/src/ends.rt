// Where pictures come from and where they go.
use desk::{Input, Output};

// What is read and what is written, and whether they are the files IN and OUT, or standard input and output.
#[derive(Drop)]
pub struct Ends {
    pub from: Input,
    pub to: Output,
    pub named: bool,
}
