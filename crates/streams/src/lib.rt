// What the programs ask of the system beside std: a text read until its room is full, and the system's words for what failed.
#![tactic(auto)]

ghost use Rattle.std.specs.Prelude.{◌≡◌, ◌≤◌, length, take};

use std::io;
use std::io::{Read, Write};

// What std puts behind the system's words for an error, before its number.
const BEFORE_NUMBER: &[u8] = b" (os error ";

// Reads until `buf` is full, the input ends or a read fails, and returns how many bytes it put at the start of `buf`.
pub fn read_full(from: &mut impl Read, buf: &mut [u8]) -> usize
    ensures { result ≤ length buf.new }
{
    let mut done = 0;
    while done < buf.len() {
        match from.read(&mut buf[done..]) {
            Ok(0) | Err(_) => break,
            Ok(n) => done += n,
        }
    }
    done
}

// The words before the number that std puts behind the system's.
fn words_of(text: &[u8]) -> &[u8]
    ensures { result.now ≡ take (length result.now) text.now }
{
    let end = text
        .windows(BEFORE_NUMBER.len())
        .position(|part| part == BEFORE_NUMBER);
    match end {
        Some(n) => &text[..n],
        None => text,
    }
}

// Says on standard error what failed, as the caller names it, and why, in the system's words alone, as many bytes of them as there is room for.
pub fn fail(rt: &HostRuntime, what: &[u8], error: io::Error) {
    let mut text = [0; 256];
    let mut room = &mut text[..];
    let _ = write!(room, "{error}");
    let left = room.len();
    let words = words_of(&text[..text.len().saturating_sub(left)]);
    let err = rt.stderr();
    for part in [what, b": ", words, b"\n"] {
        let _ = err.write_all(part);
    }
}
