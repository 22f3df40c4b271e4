// What the programs share: an input is read to its end, an answer is written whole, and what failed is said on standard error.
// No contract can say what a read delivers or whether a write succeeds: those are the system's. It says what of the buffer counts.
#![tactic(auto)]

ghost use Rattle.std.specs.Prelude.{◌≡◌, ◌<◌, ◌≤◌, length, take, drop, eqb, IfOk};
ghost use Rattle.std.specs.Io.KnownBytes.{Appends, ReadConsumes, WriteAppends};
ghost use Rattle.files.specs.Input.{GivesAll, Piece, Whole, nothing, received};

use arrayvec::ArrayString;
use std::env::{Env, FillError};
use std::fmt::Write as _;
use std::fs::Files;
use std::io::{ErrorKind, Read, Write};
use std::{fs, io, str};

// What reading gave: a number of bytes at the start of the buffer, or a failure.
#[derive(Drop)]
pub struct Received {
    pub length: usize,
    pub failed: bool,
}

// How many bytes of an input a program reads at most.
pub const LARGEST_INPUT: usize = 65_536;

// The error of an argument that is missing, and of one that is longer than any file's name, as the system counts them.
const INVALID_ARGUMENT: i32 = 22;

const NAME_TOO_LONG: i32 = 36;

// With how many words a program was started, its own name among them.
pub fn word_count<R: Env>(rt: &R) -> usize {
    let mut first = [0u8; 1];
    for i in 0..usize::MAX {
        if let Err(FillError::NotPresent) = rt.arg(i, &mut first) {
            return i;
        }
    }
    usize::MAX
}

// Whether a program was started with as many words as it takes, its own name among them. Where not, its usage goes to standard error.
pub fn started_with<E: Write>(err: &mut E, given: usize, due: usize, usage: &[u8]) -> bool
    ensures { result ≡ eqb given due }
{
    let as_due = given == due;
    if !as_due {
        let _ = err.write_all(usage);
    }
    as_due
}

// Reads a file to its end, or until the buffer is full.
// A failure is said on standard error, by the program's and the file's name, and nothing of the buffer counts then.
pub fn read_whole<E: Write, R: Read>(
    err: &mut E,
    file: &mut R,
    program: &[u8],
    name: &[u8],
    buffer: &mut [u8],
) -> Received
    ensures whole { Whole buffer.new result }
    ensures bytes { GivesAll (R.remaining file.old) buffer.new result }
{
    let mut length: usize = 0;
    while length < buffer.len() {
        match read_piece(file, buffer, length) {
            Ok(more) => {
                if more == 0 {
                    break;
                }
                length += more;
            }
            Err(error) => return failure(err, program, name, &error),
        }
    }
    Received {
        length,
        failed: false,
    }
}

// Reads the file that an argument names. In a message `word` stands for a name that is empty or too long.
pub fn read_argument<R: Env + Files, E: Write>(
    rt: &R,
    err: &mut E,
    program: &[u8],
    argument: usize,
    word: &[u8],
    buffer: &mut [u8],
) -> Received
    ensures { Whole buffer.new result }
{
    let mut words = [0u8; 4096];
    match rt.arg(argument, &mut words) {
        Ok(length) => {
            let path = &words[..length];
            if length == 0 {
                return read_named(rt, err, program, path, word, buffer);
            }
            read_named(rt, err, program, path, &words[..length], buffer)
        }
        Err(FillError::TooLong) => failure(
            err,
            program,
            word,
            &io::Error::from_raw_os_error(NAME_TOO_LONG),
        ),
        Err(FillError::NotPresent) => failure(
            err,
            program,
            word,
            &io::Error::from_raw_os_error(INVALID_ARGUMENT),
        ),
    }
}

// Reads the file of a name, which has to be UTF-8. A message calls it by `shown`.
fn read_named<R: Files, E: Write>(
    rt: &R,
    err: &mut E,
    program: &[u8],
    name: &[u8],
    shown: &[u8],
    buffer: &mut [u8],
) -> Received
    ensures { Whole buffer.new result }
{
    match open(rt, name) {
        Ok(mut file) => read_whole(err, &mut file, program, shown, buffer),
        Err(error) => failure(err, program, shown, &error),
    }
}

fn open<R: Files>(rt: &R, name: &[u8]) -> io::Result<R::File> {
    match str::from_utf8(name) {
        Ok(path) => fs::open(rt, path),
        Err(_) => Err(io::Error::from(ErrorKind::InvalidFilename)),
    }
}

// One read, behind the bytes that have been read. The programs handle no signal, so none interrupts it.
fn read_piece<R: Read>(file: &mut R, buffer: &mut [u8], at: usize) -> io::Result<usize>
    requires { at ≤ length buffer.old }
    ensures piece { Piece at buffer.old buffer.new (received result) }
    ensures bytes { ReadConsumes (R.remaining file.old) (R.remaining file.new) result (drop at buffer.new) }
{
    let part = &mut buffer[at..];
    file.read(part)
}

// Says that reading failed, and gives nothing.
fn failure<E: Write>(err: &mut E, program: &[u8], name: &[u8], error: &io::Error) -> Received
    ensures { result ≡ nothing }
{
    fail(err, program, name, error);
    Received {
        length: 0,
        failed: true,
    }
}

// Writes an answer to standard output. Returns how many of its bytes were taken: fewer than all where a write failed, which is said on
// standard error.
pub fn write_output<E: Write, W: Write>(
    err: &mut E,
    out: &mut W,
    program: &[u8],
    bytes: &[u8],
) -> usize
    ensures taken { result ≤ length bytes.now }
    ensures bytes { Appends (W.contents out.old) (W.contents out.new) (take result bytes.now) }
{
    let mut written: usize = 0;
    while written < bytes.len() {
        let part = &bytes[written..];
        match write_piece(out, part) {
            Ok(taken) => written += taken,
            Err(error) => {
                fail(err, program, b"standard output", &error);
                return written;
            }
        }
    }
    written
}

// One write of bytes that there are. One that takes none is a failure.
fn write_piece<W: Write>(out: &mut W, part: &[u8]) -> io::Result<usize>
    ensures taken { IfOk result (λ n. (0 < n) × (n ≤ length part.now)) }
    ensures bytes { WriteAppends (W.contents out.old) (W.contents out.new) result part.now }
{
    match out.write(part) {
        Ok(0) => Err(io::Error::from(ErrorKind::WriteZero)),
        outcome => outcome,
    }
}

// Says what failed: the program, the file, and the reason. Where standard error takes nothing, nothing can be said.
fn fail<E: Write>(err: &mut E, program: &[u8], name: &[u8], error: &io::Error) {
    let mut text = ArrayString::<512>::new();
    let _ = write!(text, "{error}");
    let reason = without_number(text.as_str());
    let _ = err.write_all(program);
    let _ = err.write_all(b": ");
    let _ = err.write_all(name);
    let _ = err.write_all(b": ");
    let _ = err.write_all(reason.as_bytes());
    let _ = err.write_all(b"\n");
}

// The words of an error of the system, which std follows by its number.
fn without_number(text: &str) -> &str {
    match text.split_once(" (os error ") {
        Some((words, _)) => words,
        None => text,
    }
}
