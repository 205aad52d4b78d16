// Standard input, output and error, as the programs use them. A complaint is what a program says, before the system's reason, of what it could not do.
#![tactic(auto)]

ghost use Rattle.std.specs.Prelude.{◌≡◌, length, replicate};
ghost use Rattle.streams.specs.Input.{Within, RecordsWithin};

use std::env::FillError;
use std::io::{Error, Read, Stderr, Stdin, Stdout};
use std::rt::Env;

// The streams that a program has from its start.
#[derive(Clone, Copy)]
pub struct Streams {
    pub input: Stdin,
    pub output: Stdout,
    pub error: Stderr,
}

impl Streams {
    pub fn new(rt: &HostRuntime) -> Streams {
        Streams {
            input: rt.stdin(),
            output: rt.stdout(),
            error: rt.stderr(),
        }
    }
}

// What follows the bytes of a filling: more may, since the buffer is full; nothing, since the input ended; or what a read that failed kept back.
#[derive(Clone, Copy, Debug, PartialEq, Eq)]
pub enum Follows {
    More,
    Ended,
    Failed,
}

// What a filling of a buffer brought: how many bytes, and what follows them.
#[derive(Clone, Copy)]
pub struct Filled {
    pub size: usize,
    pub follows: Follows,
}

// Something failed, and was told on standard error.
#[derive(Clone, Copy, Debug)]
pub struct Told;

// Zeros, as a buffer.
pub fn zeros<const N: usize>() -> [u8; N]
    ensures zeros { result ≡ replicate N 0 }
    ensures len { length result ≡ N }
{
    [0; N]
}

// Fills a buffer from a reader. A read that fails is told.
pub fn fill<R: Read>(from: &mut R, input: &mut [u8], told: Stderr, complaint: &[u8]) -> Filled
    ensures { Within result (length input.old) }
{
    let mut size: usize = 0;
    // A `while`, since std's `read_exact` says neither how much was read nor what is left after an `Err`.
    while size < input.len() {
        match from.read(&mut input[size..]) {
            Ok(0) => {
                return Filled {
                    size: size,
                    follows: Follows::Ended,
                };
            }
            Ok(n) => size += n,
            Err(reason) => {
                fail(told, complaint, reason);
                return Filled {
                    size: size,
                    follows: Follows::Failed,
                };
            }
        }
    }
    Filled {
        size: size,
        follows: Follows::More,
    }
}

// Fills a buffer with records from standard input. After a read that failed only the whole records before it are to be called.
pub fn fill_records(streams: Streams, input: &mut [u8], complaint: &[u8]) -> Filled
    ensures { RecordsWithin result (length input.old) }
{
    let mut from = streams.input;
    let filled = fill(&mut from, input, streams.error, complaint);
    match filled.follows {
        Follows::Failed => Filled {
            size: filled.size - filled.size % 40,
            follows: Follows::Failed,
        },
        _ => filled,
    }
}

// Writes bytes to standard output. Where it takes no more, that is told.
pub fn print(streams: Streams, bytes: &[u8], complaint: &[u8]) -> Result<(), Told> {
    match streams.output.write_all(bytes) {
        Ok(()) => Ok(()),
        Err(reason) => {
            fail(streams.error, complaint, reason);
            Err(Told)
        }
    }
}

// Writes a line to standard error.
pub fn tell(told: Stderr, line: &[u8]) {
    let _ = told.write_all(line);
}

// Writes a complaint and the reason for it to standard error, in one line.
pub fn fail(told: Stderr, complaint: &[u8], reason: Error) {
    let _ = told.write_all(complaint);
    let _ = told.write_all(b": ");
    let _ = told.println(reason);
}

// Whether the command line has a word at that place. The program's name stands at 0.
pub fn has_word(words: &impl Env, at: usize) -> bool {
    let mut word = [0u8; 1];
    match words.arg(at, &mut word) {
        Err(FillError::NotPresent) => false,
        _ => true,
    }
}
