// What every scan of a source shares: one byte, classes of bytes and runs of them, words looked ahead for, ends of lines.
#![tactic(auto)]

ghost use Rattle.std.specs.Prelude.{◌≡◌, ◌≤◌, length};
ghost use Rattle.scan.specs.Scan.{is_at, starts_at, is_letter, is_digit, is_eol, in_class, run_end_at, eight_at, Runs};
ghost use Rattle.scan.specs.Lines.{lines_at};

// A part of the source: its first byte, and the byte behind its last.
#[derive(Clone, Copy)]
pub struct Place {
    pub from: usize,
    pub to: usize,
}

// Bytes that may begin or continue a word or a text.
#[derive(Clone, Copy)]
pub enum Class {
    NameStart,
    NameByte,
    TokenStart,
    TokenByte,
    Digit,
    LineByte,
    // No line feed, and not the quote that is given.
    Unquoted(u8),
    // No line end, and no `*`.
    CommentByte,
    // No line end, and no `>`.
    TagByte,
    // No line end, and no `%`.
    CodeByte,
    // Plain bytes of an action, no line end and no brace among them.
    TextByte,
    // A code point by itself that is no blank.
    Graphic,
    Ascii,
}

// Whether the byte at `k` is `b`.
pub fn is_at(s: &[u8], k: usize, b: u8) -> bool
    ensures { result ≡ is_at b s.now k }
{
    if k < s.len() { s[k] == b } else { false }
}

// Whether `word` stands at `at` (the crate's `lookahead_is`).
pub fn starts(s: &[u8], at: usize, word: &[u8]) -> bool
    ensures { result ≡ starts_at word.now s.now at }
{
    for (k, b) in word.iter().enumerate() {
        if !is_at(s, at + k, *b) {
            return false;
        }
    }
    true
}

pub fn is_letter(c: u8) -> bool
    ensures { result ≡ is_letter c }
{
    ((65 <= c) & (c <= 90)) | ((97 <= c) & (c <= 122))
}

pub fn is_digit(c: u8) -> bool
    ensures { result ≡ is_digit c }
{
    (48 <= c) & (c <= 57)
}

pub fn is_eol(c: u8) -> bool
    ensures { result ≡ is_eol c }
{
    (c == 10) | (c == 13)
}

pub fn in_class(c: u8, class: Class) -> bool
    ensures { result ≡ in_class class c }
{
    let letter = is_letter(c) | (c == b'_');
    match class {
        Class::NameStart => letter | (c == b'.'),
        Class::NameByte => letter | (c == b'.') | is_digit(c),
        Class::TokenStart => letter,
        Class::TokenByte => letter | is_digit(c),
        Class::Digit => is_digit(c),
        Class::LineByte => !is_eol(c),
        Class::Unquoted(q) => (c != q) & (c != 10),
        Class::CommentByte => !is_eol(c) & (c != b'*'),
        Class::TagByte => !is_eol(c) & (c != b'>'),
        Class::CodeByte => !is_eol(c) & (c != b'%'),
        Class::TextByte => (13 < c) & (c < b'{'),
        Class::Graphic => (32 < c) & (c < 127),
        Class::Ascii => c < 128,
    }
}

// The end of the run of bytes of the class that begins at `from`.
pub fn run_end(s: &[u8], from: usize, class: Class) -> usize
    requires { from ≤ length s.now }
    ensures value { result ≡ run_end_at (in_class class) s.now from }
    ensures runs { Runs (in_class class) s.now from result }
{
    for i in from..s.len() {
        if !in_class(s[i], class) {
            return i;
        }
    }
    s.len()
}

// Whether the eight bytes from `i` on are of the class; not so, where there are not so many.
fn eight_in(s: &[u8], i: usize, class: Class) -> bool
    requires { i ≤ length s.now }
    ensures { result ≡ eight_at (in_class class) s.now i }
{
    if s.len() - i < 8 {
        return false;
    }
    // no test waits for another: straight code
    in_class(s[i], class)
        & in_class(s[i + 1], class)
        & in_class(s[i + 2], class)
        & in_class(s[i + 3], class)
        & in_class(s[i + 4], class)
        & in_class(s[i + 5], class)
        & in_class(s[i + 6], class)
        & in_class(s[i + 7], class)
}

// The same end as `run_end`, eight bytes at a time: for long runs.
pub fn far_end(s: &[u8], from: usize, class: Class) -> usize
    requires { from ≤ length s.now }
    ensures value { result ≡ run_end_at (in_class class) s.now from }
    ensures runs { Runs (in_class class) s.now from result }
{
    let mut i = from;
    // by hand: no range's end says where it stops, and the scan goes on from there
    while eight_in(s, i, class) {
        i += 8;
    }
    run_end(s, i, class)
}

// How many lines end with the byte at `k`: one with an LF, or with a CR that no LF follows; none past the end.
pub fn lines_at(s: &[u8], k: usize) -> usize
    ensures value { result ≡ lines_at s.now k }
    ensures upper_bound { result ≤ 1 }
{
    if s.len() <= k {
        return 0;
    }
    let c = s[k];
    match c {
        10 => 1,
        13 => {
            if starts(s, k + 1, b"\n") {
                return 0;
            }
            1
        }
        _ => 0,
    }
}
