// What the programs do with their arguments: kinds of grammar by name, and files, of which `-` is standard input.
#![tactic(auto)]

ghost use Rattle.std.specs.Prelude.{◌≤◌, IfOk, length};

use std::env::{Env, FillError};
use std::fs::File;
use std::io;
use std::io::{Read, Stdin};

// The system's numbers of errors: no such argument, a name that is too long, and one that is no text.
const EINVAL: i32 = 22;

const ENAMETOOLONG: i32 = 36;

const EILSEQ: i32 = 84;

// Where a source is read from.
#[derive(Drop)]
pub enum Opened {
    Input(Stdin),
    File(File),
}

impl Read for Opened {
    fn read(&mut self, buf: &mut [u8]) -> io::Result<usize> {
        match self {
            Opened::Input(input) => input.read(buf),
            Opened::File(file) => file.read(buf),
        }
    }
}

// The kinds by their names.
pub fn kind_of(word: &[u8]) -> Option<u32> {
    match word {
        b"original" => Some(1),
        b"grmtools" => Some(2),
        b"eco" => Some(3),
        b"posix" => Some(4),
        _ => None,
    }
}

// How many arguments there are, with the program's name.
pub fn count(rt: &impl Env) -> usize {
    for i in 0..usize::MAX {
        if let Err(FillError::NotPresent) = rt.arg(i, &mut []) {
            return i;
        }
    }
    usize::MAX
}

// Puts argument `i` at the start of `word`, and returns its length.
pub fn take(rt: &impl Env, i: usize, word: &mut [u8]) -> io::Result<usize>
    ensures { IfOk result (λ n. n ≤ length word.new) }
{
    let number = match rt.arg(i, word) {
        Ok(n) => return Ok(n),
        Err(FillError::TooLong) => ENAMETOOLONG,
        Err(FillError::NotPresent) => EINVAL,
    };
    Err(io::Error::from_raw_os_error(number))
}

// A file whose name is not UTF-8 can't be opened: std's paths are text.
pub fn open(rt: &HostRuntime, file: &[u8]) -> io::Result<Opened> {
    if let b"-" = file {
        return Ok(Opened::Input(rt.stdin()));
    }
    let path = std::str::from_utf8(file).map_err(|_| io::Error::from_raw_os_error(EILSEQ))?;
    Ok(Opened::File(File::open(rt, path)?))
}

// Reads what an argument names until the room is full or it ends, and returns what was read. Where less came than there is room for, one more read tells whether an error cut it short.
pub fn read<'a>(rt: &HostRuntime, file: &[u8], text: &'a mut [u8]) -> io::Result<&'a [u8]>
    ensures { IfOk result (λ s. length s.now ≤ length text.old) }
{
    let mut source = open(rt, file)?;
    let n = streams::read_full(&mut source, text);
    if n < text.len() {
        source.read(&mut [0])?;
    }
    Ok(&text[..n])
}
