// Import: makes records of a table of orders. The file is read twice: first to check it, then to write its records to standard output. What is
// wrong with it is told in one line on standard error.
#![tactic(auto)]

mod rows;
mod tables;
mod telling;

ghost use Rattle.std.specs.Prelude.{◌≡◌, ◌≤◌, length};
ghost use Rattle.table_buffer.specs.Buffers.{INPUT, OUT};
ghost use Rattle.import.specs.Reading.{FileRead};

use std::env::FillError;
use std::io::{Error, ErrorKind};
use std::rt::{Env, Files};
use std::{fs, io, str};
use streams::Streams;
use table::Refused;

// Bytes of the buffer of lines.
const INPUT: usize = table_buffer::INPUT;

// Bytes of the records of a buffer's lines.
const OUT: usize = 327720;

// Why a file was not read to its end: its table is refused, or something failed. Either was told.
#[derive(Clone, Copy)]
pub enum Stop {
    Refused(Refused),
    Failed,
}

// Opens the file by its name, which has to be text.
fn open_file<R: Files>(files: &R, file: &[u8]) -> io::Result<R::File> {
    match str::from_utf8(file) {
        Ok(name) => fs::open(files, name),
        Err(_) => Err(Error::new(ErrorKind::InvalidFilename, "the name is not UTF-8")),
    }
}

// Opens the file and reads it; where it is to be printed, its records are written.
fn read_file(
    files: &impl Files,
    streams: Streams,
    file: &[u8],
    input: &mut [u8],
    out: &mut [u8],
    print: bool,
) -> Result<u64, Stop>
    requires { (length file.now ≤ 4096) × (length input.old ≡ INPUT) × (length out.old ≡ OUT) }
    ensures { FileRead result }
{
    match open_file(files, file) {
        Ok(mut from) => tables::read_table(&mut from, streams, file, input, out, print),
        Err(reason) => {
            streams::fail(streams.error, file, reason);
            Err(Stop::Failed)
        }
    }
}

// The second reading comes to what the first came to, or the file has changed.
fn write_file(
    files: &impl Files,
    streams: Streams,
    file: &[u8],
    input: &mut [u8],
    out: &mut [u8],
    lines: u64,
)
    requires { (length file.now ≤ 4096) × (length input.old ≡ INPUT) × (length out.old ≡ OUT) }
{
    match read_file(files, streams, file, input, out, true) {
        Ok(line) => {
            if line != lines {
                telling::tell_changed(streams);
            }
        }
        Err(Stop::Refused(_)) => telling::tell_changed(streams),
        Err(Stop::Failed) => (),
    }
}

// Checks the file, and writes its records where nothing is wrong with it.
fn run(files: &impl Files, streams: Streams, file: &[u8], input: &mut [u8], out: &mut [u8])
    requires { (length file.now ≤ 4096) × (length input.old ≡ INPUT) × (length out.old ≡ OUT) }
{
    if let Ok(lines) = read_file(files, streams, file, input, out, false) {
        write_file(files, streams, file, input, out, lines);
    }
}

// The system's numbers for a word that is missing, and for one that is too long.
const MISSING: i32 = 22;

const TOO_LONG: i32 = 36;

// Why the name of the file was not taken.
fn reason_of(error: FillError) -> Error {
    match error {
        FillError::NotPresent => Error::from_raw_os_error(MISSING),
        FillError::TooLong => Error::from_raw_os_error(TOO_LONG),
    }
}

// Takes the name of the file from the command line, and makes records of what it says.
fn import(rt: &(impl Env + Files), streams: Streams) {
    let mut name = [0u8; 4096];
    match rt.arg(1, &mut name) {
        Ok(size) => {
            let mut input = streams::zeros::<INPUT>();
            let mut out = streams::zeros::<OUT>();
            run(rt, streams, &name[..size], &mut input, &mut out);
        }
        Err(reason) => {
            streams::fail(
                streams.error,
                b"import: the name of the file",
                reason_of(reason),
            );
        }
    }
}

fn main(rt: HostRuntime) {
    let streams = Streams::new(&rt);
    if !streams::has_word(&rt, 1) || streams::has_word(&rt, 2) {
        telling::tell_use(streams);
        return;
    }
    import(&rt, streams);
}
