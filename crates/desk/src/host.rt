// What a program at the desk runs on: its arguments, its files, and the two streams that it writes.
ghost use Rattle.std.specs.Prelude.{◌≤◌, IfOk, IfSome, length};

use std::alloc::Global;
use std::env::FillError;
use std::fs::{File, OpenOptions};
use std::io::{Cursor, Read, Write};
use std::rt::{Env, Files};
use std::{fmt, fs, io, str};

// What Linux calls a name that is no text (EILSEQ). Names are UTF-8 here.
const NOT_TEXT: i32 = 84;

// What it calls a file that cannot be brought to a disk, as a device or a pipe cannot (EINVAL).
const NO_FILE: i32 = 22;

// ---- where bytes come from

// Stays: each of the three is a reader of its own type. `Box<dyn Read>` would ask for memory, and `Input<R: Read>` would make every caller generic.
#[derive(Drop)]
enum Source {
    Stream(io::Stdin),
    Opened(File),
    Held(Cursor<Vec<u8>>),
}

// Standard input, a file that is open to read, or bytes that were read before.
#[derive(Drop)]
pub struct Input {
    source: Source,
}

impl Read for Input {
    fn read(&mut self, space: &mut [u8]) -> io::Result<usize> {
        match &mut self.source {
            Source::Stream(stream) => stream.read(space),
            Source::Opened(file) => file.read(space),
            Source::Held(held) => held.read(space),
        }
    }
}

impl Input {
    pub fn standard(host: &Host) -> Input {
        Input {
            source: Source::Stream(host.rt.stdin()),
        }
    }

    // The first bytes that an input has, as far as there is space. A read that fails is not the end of the input: what came before it is no answer.
    pub fn fill(&mut self, space: &mut [u8]) -> io::Result<usize>
        ensures { IfOk result (λ n. n ≤ length space.new) }
    {
        // Stays: `for n in (0..space.len()).step_by(..)` cannot say it, since a turn's step is what a read gave.
        let mut n = 0;
        while n < space.len() {
            let more = self.read(&mut space[n..])?;
            if more == 0 {
                return Ok(n);
            }
            n += more;
        }
        Ok(n)
    }
}

// ---- where bytes go

// Stays: each of the three is a writer of its own type, as with Source.
#[derive(Drop)]
enum Sink {
    Out(io::Stdout),
    Err(io::Stderr),
    Opened(File),
}

// Standard output, standard error or a file that is open to write.
#[derive(Drop)]
pub struct Output {
    sink: Sink,
}

impl Write for Output {
    fn write(&mut self, text: &[u8]) -> io::Result<usize> {
        match &mut self.sink {
            Sink::Out(stream) => stream.write(text),
            Sink::Err(stream) => stream.write(text),
            Sink::Opened(file) => file.write(text),
        }
    }

    // What is written is with the system at once.
    fn flush(&mut self) -> io::Result<()> {
        Ok(())
    }
}

impl Output {
    pub fn standard(host: &Host) -> Output {
        Output::to(Sink::Out(host.rt.stdout()))
    }

    fn to(sink: Sink) -> Output {
        Output { sink }
    }

    // Brings what was written to a file to its disk.
    pub fn sync_all(&self) -> io::Result<()> {
        match &self.sink {
            Sink::Out(_) => Ok(()),
            Sink::Err(_) => Ok(()),
            Sink::Opened(file) => file.sync_all(),
        }
    }
}

// ---- the program's surroundings

// The system, standard output and standard error, what the program is called in each line there, and the bytes of a file that was read before it is asked for.
#[derive(Drop)]
pub struct Host {
    rt: HostRuntime,
    pub out: Output,
    pub err: Output,
    pub program: &'static str,
    held: Option<Vec<u8>>,
}

impl Host {
    pub fn of(rt: HostRuntime) -> Host {
        Host {
            rt,
            out: Output::to(Sink::Out(rt.stdout())),
            err: Output::to(Sink::Err(rt.stderr())),
            program: "erythmoda",
            held: None,
        }
    }
}

// ---- arguments

// The argument at a place, put at the start of the space, and how many bytes it has.
pub fn word_at(host: &Host, place: usize, space: &mut [u8]) -> Option<usize>
    ensures { IfSome result (λ n. n ≤ length space.new) }
{
    match host.rt.arg(place, space) {
        Ok(n) => Some(n),
        Err(_) => None,
    }
}

// The same, as if one that is missing, or longer than the space, were empty.
pub fn argument(host: &Host, place: usize, space: &mut [u8]) -> usize
    ensures { result ≤ length space.new }
{
    match word_at(host, place, space) {
        Some(n) => n,
        None => 0,
    }
}

// Whether there is an argument at a place.
fn is_there(host: &Host, place: usize) -> bool {
    let mut space = [0u8; 1];
    match host.rt.arg(place, &mut space) {
        Ok(_) => true,
        Err(FillError::TooLong) => true,
        Err(FillError::NotPresent) => false,
    }
}

// More arguments than this are not counted.
const MOST_ARGUMENTS: usize = 1_000_000_000;

// How many arguments there are, the program's name among them.
pub fn argument_count(host: &Host) -> usize {
    for place in 0..MOST_ARGUMENTS {
        if !is_there(host, place) {
            return place;
        }
    }
    MOST_ARGUMENTS
}

// ---- files

// A name as text, which the system's library asks for.
fn text_of(path: &[u8]) -> io::Result<&str> {
    match str::from_utf8(path) {
        Ok(text) => Ok(text),
        Err(_) => Err(io::Error::from_raw_os_error(NOT_TEXT)),
    }
}

fn open(rt: HostRuntime, path: &[u8]) -> io::Result<File> {
    File::open(&rt, text_of(path)?)
}

impl Host {
    // The file with this name, open to read. Where a file is held, the first that is asked for is that one.
    pub fn open(&mut self, path: &[u8]) -> io::Result<Input> {
        let source = match self.held.take() {
            Some(bytes) => Source::Held(Cursor::new(bytes)),
            None => Source::Opened(open(self.rt, path)?),
        };
        Ok(Input { source })
    }

    // A new file with this name, which no file has yet, open to write.
    pub fn create(&self, path: &[u8]) -> io::Result<Output> {
        let file = File::create_new(&self.rt, text_of(path)?)?;
        Ok(Output::to(Sink::Opened(file)))
    }

    // The file with this name, open to read and to write, with its bytes as they are. A device is not waited for: it is not even opened.
    pub fn open_to_update(&self, path: &[u8]) -> io::Result<Output> {
        let name = text_of(path)?;
        if is_device(self.rt, name) {
            return Err(io::Error::from_raw_os_error(NO_FILE));
        }
        let mut how = OpenOptions::new();
        how.read(true);
        how.write(true);
        let file = how.open(&self.rt, name)?;
        Ok(Output::to(Sink::Opened(file)))
    }

    // Gives the file with one name the other.
    pub fn rename(&self, from: &[u8], to: &[u8]) -> io::Result<()> {
        fs::rename(&self.rt, text_of(from)?, text_of(to)?)
    }

    pub fn remove(&self, path: &[u8]) -> io::Result<()> {
        fs::remove_file(&self.rt, text_of(path)?)
    }

    // How many bytes there are to read under a name, none in a folder or where no file has the name; or nobody knows.
    pub fn extent(&self, path: &[u8]) -> Option<u64> {
        match measured(self.rt, path) {
            Ok(found) => found,
            Err(_) => Some(0),
        }
    }
}

// How much is read at once of a file that is held.
const CHUNK: usize = 16_384;

// All bytes of a file, or the first ones up to one past the most.
fn bytes_of(rt: HostRuntime, path: &[u8], most: usize) -> io::Result<Vec<u8>> {
    let mut file = open(rt, path)?;
    let mut bytes = Vec::new(rt.alloc());
    let mut chunk = [0u8; CHUNK];
    for _ in 0..u64::MAX {
        let n = file.read(&mut chunk)?;
        if n == 0 {
            return Ok(bytes);
        }
        bytes.extend_from_slice(&chunk[..n])?;
        if bytes.len() > most {
            return Ok(bytes);
        }
    }
    Ok(bytes)
}

// Reads the file with this name before it is asked for, so that it can be seen how much space it takes. Where that fails, nothing is held, and whoever
// asks for it learns why.
pub fn hold(host: &mut Host, path: &[u8], most: usize) {
    host.held = match bytes_of(host.rt, path, most) {
        Ok(bytes) => Some(bytes),
        Err(_) => None,
    };
}

impl Host {
    // The bytes that are held, if a file is.
    pub fn held(&self) -> &[u8] {
        match &self.held {
            Some(bytes) => bytes.as_slice(),
            None => &[],
        }
    }

    pub fn alloc(&self) -> Global {
        self.rt.alloc()
    }
}

// Whether a name is that of a device or a pipe.
fn is_device(rt: HostRuntime, name: &str) -> bool {
    match fs::metadata(&rt, name) {
        Ok(about) => !about.is_file() && !about.is_dir(),
        Err(_) => false,
    }
}

fn leads_on(rt: HostRuntime, path: &[u8]) -> io::Result<bool> {
    let about = fs::symlink_metadata(&rt, text_of(path)?)?;
    Ok(about.is_symlink())
}

// Whether this name is that of a link.
pub fn is_link(host: &Host, path: &[u8]) -> bool {
    match leads_on(host.rt, path) {
        Ok(leads) => leads,
        Err(_) => false,
    }
}

fn measured(rt: HostRuntime, path: &[u8]) -> io::Result<Option<u64>> {
    let about = fs::metadata(&rt, text_of(path)?)?;
    if about.is_dir() {
        return Ok(Some(0));
    }
    if !about.is_file() {
        return Ok(None);
    }
    let told = about.len();
    if told > 0 {
        return Ok(Some(told));
    }
    // A file of the system has bytes, though it tells none.
    let bytes = bytes_of(rt, path, usize::MAX)?;
    Ok(Some(bytes.len() as u64))
}

// ---- what failed

// Whether a call failed since what is open is no file, but a device or a pipe.
pub fn is_no_file(error: io::Error) -> bool {
    error.raw_os_error() == Some(NO_FILE)
}

// The system's own words for an error, without its number: the first piece that it is written in.
#[derive(Clone, Copy)]
pub struct Reason(pub io::Error);

#[derive(Drop)]
struct FirstPiece<'a, W: fmt::Write> {
    out: &'a mut fmt::Formatter<W>,
    is_written: bool,
}

impl<W: fmt::Write> fmt::Write for FirstPiece<'_, W> {
    fn write_str(&mut self, piece: &str) -> fmt::Result {
        if self.is_written || piece.is_empty() {
            return Ok(());
        }
        self.is_written = true;
        self.out.write_str(piece)
    }
}

impl fmt::Display for Reason {
    fn fmt<W: fmt::Write>(&self, f: &mut fmt::Formatter<W>) -> fmt::Result {
        let error = self.0;
        let mut first = FirstPiece {
            out: f,
            is_written: false,
        };
        fmt::Write::write_fmt(&mut first, format_args!("{error}"))
    }
}
