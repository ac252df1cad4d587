// The header that is read and the one that is written.
ghost use Rattle.std.specs.Prelude.{◌≡◌, ◌*◌, ◌≤◌, length};
ghost use Rattle.lettering.specs.Putting.{Puts};
ghost use Rattle.ppm.specs.Header.{SizedFrame};
ghost use Rattle.ppm.specs.Written.{header_text};
ghost use Rattle.correct.specs.Headers.{settled, SizedHeading, longest_header};
ghost use Rattle.correct.specs.Jobs.{Agrees};
ghost use Rattle.correct.specs.Pieces.{most_pixels};

use crate::jobs::Job;
use desk::{Input, Output};
use ppm::{Fault, Frame, header_of, put_header};
use std::io::{Error, Write};

// Why a picture has no header: what was read of it is wrong; it does not end within the space that there is for it; there is not one byte of it; or the
// system could not read.
#[derive(Clone, Copy)]
pub enum NoHeader {
    Wrong(Fault),
    TooLong,
    Empty,
    Unread(Error),
}

// Whether more bytes cannot change what a header says.
fn is_settled(header: Result<Frame, Fault>) -> bool
    ensures { result ≡ settled header }
{
    !matches!(header, Err(Fault::EndsEarly))
}

// The input ends after so many bytes of a header.
fn ended_after(n: usize) -> NoHeader {
    if n == 0 {
        NoHeader::Empty
    } else {
        NoHeader::Wrong(Fault::EndsEarly)
    }
}

// Byte by byte, so that no pixel is read with the header.
fn read_into(from: &mut Input, bytes: &mut [u8]) -> Result<Frame, NoHeader>
    ensures { SizedHeading result }
{
    for n in 0..bytes.len() {
        let more = match from.fill(&mut bytes[n..n + 1]) {
            Ok(more) => more,
            Err(error) => return Err(NoHeader::Unread(error)),
        };
        if more == 0 {
            return Err(ended_after(n));
        }
        let header = header_of(&bytes[..n + 1]);
        if is_settled(header) {
            return header.map_err(|fault| NoHeader::Wrong(fault));
        }
    }
    Err(NoHeader::TooLong)
}

// The header of the next picture; it ends within 4,096 bytes.
pub fn read(from: &mut Input) -> Result<Frame, NoHeader>
    ensures { SizedHeading result }
{
    let mut bytes = io::buffer();
    read_into(from, &mut bytes)
}

// The header in its plainest form, with the output's maxval, which is that of the codes; comments are left out.
fn put_text(job: Job, text: &mut [u8]) -> usize
    requires agrees { Agrees job }
    requires longest_header_in_bounds { longest_header ≤ length text.old }
    ensures { Puts text.old 0 (header_text job.frame.width job.frame.height job.maxval) result text.new }
{
    let frame = job.frame;
    put_header(text, frame.width, frame.height, job.maxval)
}

pub fn write(to: &mut Output, job: Job) -> Result<(), Error>
    requires { Agrees job }
{
    let mut text = [0u8; 31];
    let n = put_text(job, &mut text);
    to.write_all(&text[..n])
}

pub fn pixels(frame: Frame) -> u64
    requires { SizedFrame frame }
    ensures { (result ≡ frame.width * frame.height) × (result ≤ most_pixels) }
{
    frame.width * frame.height
}
