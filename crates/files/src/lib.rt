// The words of the command line, and files that a program reads to their end or writes whole, over the handles that `main` is given. What is wrong
// is said on standard error; a write there that fails is passed over.
//
// The contracts cite specs/Rooms.antt. No contract can say which words are given, nor what is read from a file or written to one.
#![tactic(auto)]

ghost use Rattle.std.specs.Prelude.{length};
ghost use Rattle.std.specs.Io.{ReadsAtMost};
ghost use Rattle.files.specs.Rooms.{Within, Held};

use std::env::FillError;
use std::fs::OpenOptions;
use std::io::{ErrorKind, Read, Write};
use std::rt::{Env, Files};
use std::{fs, io, str};

// The most bytes of a word, which hold any path.
pub const WORD_ROOM: usize = 4_096;

// The system's numbers of errors that this crate names itself.
const BAD_DESCRIPTOR: i32 = 9;

const INVALID_ARGUMENT: i32 = 22;

const NAME_TOO_LONG: i32 = 36;

// The most bytes that the system's words for an error take, with its number behind them.
const REASON_ROOM: usize = 280;

// Why a file was not read to its end: its bytes fill all the room, or a read failed.
#[derive(Clone, Copy)]
pub enum ReadError {
    TooLong,
    Failed(io::Error),
}

// Reads to the end of a file and answers how many bytes it has. A file that fills the room is too long: whether anything is left of it is not asked.
pub fn read_all<S: Read>(source: &mut S, room: &mut [u8]) -> Result<usize, ReadError>
    ensures { Within (length room.new) result }
{
    let mut done = 0;
    // A `while`, since each read says how far it came.
    while done < room.len() {
        match source.read(&mut room[done..]) {
            Ok(0) => return Ok(done),
            Ok(n) => done += n,
            Err(e) => return Err(ReadError::Failed(e)),
        }
    }
    Err(ReadError::TooLong)
}

// Says something on standard error.
pub fn say(rt: &impl Eprint, text: &str) {
    let _ = rt.eprint(text);
}

// The words that some bytes are: standard error takes text.
fn words_of(bytes: &[u8]) -> &str {
    str::from_utf8(bytes).unwrap_or("what is no text in UTF-8")
}

// The system's words for an error, without its number.
fn reason<'a>(error: io::Error, room: &'a mut [u8; REASON_ROOM]) -> &'a str {
    let mut free = &mut room[..];
    let _ = write!(free, "{error}");
    let used = REASON_ROOM.saturating_sub(free.len());
    let text = str::from_utf8(&room[..used]).unwrap_or("");
    match text.split_once(" (os error ") {
        Some((words, _)) => words,
        None => text,
    }
}

// Says a line on standard error: what failed, a colon and the system's words for it.
pub fn fail(rt: &impl Eprint, what: &str, error: io::Error) {
    let mut room = [0u8; REASON_ROOM];
    let words = reason(error, &mut room);
    let _ = eprintln!(rt; "{what}: {words}");
}

// Puts word i of the command line at the start of a room and answers how long it is; word 0 is the program's own name. A word that is missing and
// one that is longer than the room are errors.
pub fn word(rt: &impl Env, i: usize, room: &mut [u8]) -> io::Result<usize>
    ensures { ReadsAtMost result room.new }
{
    match rt.arg(i, room) {
        Ok(n) => Ok(n),
        Err(FillError::TooLong) => Err(io::Error::from_raw_os_error(NAME_TOO_LONG)),
        Err(FillError::NotPresent) => Err(io::Error::from_raw_os_error(INVALID_ARGUMENT)),
    }
}

// The text of a path.
pub fn path_text(path: &[u8]) -> io::Result<&str> {
    str::from_utf8(path).map_err(|_| io::Error::new(
        ErrorKind::InvalidFilename,
        "not text in UTF-8",
    ))
}

// Opens the file of a path to read. A path with a byte 0 is no path.
pub fn open<R: Files>(rt: &R, path: &str) -> io::Result<R::File> {
    if path.contains('\0') {
        return Err(io::Error::from_raw_os_error(INVALID_ARGUMENT));
    }
    fs::open(rt, path)
}

// The path that word i of the command line names.
fn path_word<'a>(rt: &impl Env, i: usize, room: &'a mut [u8; WORD_ROOM]) -> io::Result<&'a str> {
    let n = word(rt, i, room)?;
    path_text(&room[..n])
}

// Whether word i is a dash alone.
fn is_dash(rt: &impl Env, i: usize) -> bool {
    let mut letters = [0u8; WORD_ROOM];
    matches!(path_word(rt, i, &mut letters), Ok("-"))
}

// Whether a word before word i, and after the program's name, is a dash alone: standard input has been read to its end for it, and serves once.
fn is_dash_before(rt: &impl Env, i: usize) -> bool {
    for j in 1..i {
        if is_dash(rt, j) {
            return true;
        }
    }
    false
}

// Reads the whole file that is open. The path is its name where something is said of it, and `too_long` is what is said where it fills the room.
fn load_open<S: Read>(
    rt: &impl Eprint,
    source: &mut S,
    path: &str,
    too_long: &str,
    room: &mut [u8],
) -> Option<usize>
    ensures { Held (length room.new) result }
{
    match read_all(source, room) {
        Ok(n) => Some(n),
        Err(ReadError::TooLong) => {
            say(rt, path);
            say(rt, too_long);
            None
        }
        Err(ReadError::Failed(e)) => {
            fail(rt, path, e);
            None
        }
    }
}

// Reads the whole of standard input, for which word i stands.
fn load_input<R: Env + Input + Eprint>(
    rt: &R,
    i: usize,
    path: &str,
    too_long: &str,
    room: &mut [u8],
) -> Option<usize>
    ensures { Held (length room.new) result }
{
    if is_dash_before(rt, i) {
        fail(rt, path, io::Error::from_raw_os_error(BAD_DESCRIPTOR));
        return None;
    }
    let mut source = rt.reader();
    load_open(rt, &mut source, path, too_long, room)
}

// Reads the whole file of a path.
fn load_path<R: Files + Eprint>(
    rt: &R,
    path: &str,
    too_long: &str,
    room: &mut [u8],
) -> Option<usize>
    ensures { Held (length room.new) result }
{
    match open(rt, path) {
        Ok(mut source) => load_open(rt, &mut source, path, too_long, room),
        Err(e) => {
            fail(rt, path, e);
            None
        }
    }
}

// Reads the whole file of a path, which word i names. Where `dash` holds the path `-` stands for standard input.
fn load<R: Env + Files + Input + Eprint>(
    rt: &R,
    i: usize,
    path: &str,
    dash: bool,
    too_long: &str,
    room: &mut [u8],
) -> Option<usize>
    ensures { Held (length room.new) result }
{
    if dash && path == "-" {
        return load_input(rt, i, path, too_long, room);
    }
    load_path(rt, path, too_long, room)
}

// Reads the whole file that word i of the command line names. `what` is what is said to have failed where that is no path.
pub fn load_word<R: Env + Files + Input + Eprint>(
    rt: &R,
    i: usize,
    what: &[u8],
    dash: bool,
    too_long: &[u8],
    room: &mut [u8],
) -> Option<usize>
    ensures { Held (length room.new) result }
{
    let mut letters = [0u8; WORD_ROOM];
    match path_word(rt, i, &mut letters) {
        Ok(path) => load(rt, i, path, dash, words_of(too_long), room),
        Err(e) => {
            fail(rt, words_of(what), e);
            None
        }
    }
}

// Writes bytes to a new file. A file that exists is left as it is; one that can't be written whole is removed.
fn save<R: Files + Eprint>(rt: &R, path: &str, bytes: &[u8]) {
    let made = OpenOptions::new()
        .write(true)
        .create_new(true)
        .open(rt, path);
    match made {
        Ok(mut file) => {
            if let Err(e) = file.write_all(bytes) {
                fail(rt, path, e);
                let _ = fs::remove_file(rt, path);
            }
        }
        Err(e) => fail(rt, path, e),
    }
}

// Writes bytes to the new file that word i of the command line names. `what` is what is said to have failed where that is no path.
pub fn save_word<R: Env + Files + Eprint>(rt: &R, i: usize, what: &[u8], bytes: &[u8]) {
    let mut letters = [0u8; WORD_ROOM];
    match path_word(rt, i, &mut letters) {
        Ok(path) => save(rt, path, bytes),
        Err(e) => fail(rt, words_of(what), e),
    }
}

// How many words the program was started with, its own name among them.
pub fn word_count(rt: &impl Env) -> usize {
    let mut none = [0u8; 0];
    for i in 0..usize::MAX {
        if let Err(FillError::NotPresent) = rt.arg(i, &mut none) {
            return i;
        }
    }
    usize::MAX
}
