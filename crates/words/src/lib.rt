// The words of a specification: names, tokens, tags, integers, strings.
#![tactic(auto)]

ghost use Rattle.std.specs.Prelude.{◌≡◌, ◌≤◌, length};
ghost use Rattle.words.specs.Words.{word_at, name_at, token_at, quoted_at, is_quote, Worded, Named, Tokened};
ghost use Rattle.words.specs.Tags.{tag_at, Tagged};
ghost use Rattle.words.specs.Numbers.{int_at, Counted};
ghost use Rattle.words.specs.Strings.{string_at, Stringed};

use scan::{Class, Place};

#[derive(Clone, Copy)]
pub enum TagError {
    // No `>` closes it on its line: where its `<` stands.
    OpenTag(usize),
    // No `<` stands here.
    NoTag(usize),
}

#[derive(Clone, Copy)]
pub enum IntError {
    NoDigits(usize),
    TooLarge(usize),
}

#[derive(Clone, Copy)]
pub enum QuoteError {
    // No quote opens a string here.
    NotOpened(usize),
    LineInside(usize),
    // A backslash before anything but a quote, or at the end.
    BadEscape(usize),
    // The source's end.
    NotClosed(usize),
}

// The end of a word: a byte of one class, then a run of another.
pub fn word_at(s: &[u8], from: usize, first: Class, rest: Class) -> Option<usize>
    requires { from ≤ length s.now }
    ensures value { result ≡ word_at first rest s.now from }
    ensures worded { Worded s.now from result }
{
    if s.len() <= from {
        return None;
    }
    let c = s[from];
    if scan::in_class(c, first) {
        Some(scan::run_end(s, from + 1, rest))
    } else {
        None
    }
}

// A name's end, or where none begins.
pub fn parse_name(s: &[u8], from: usize) -> Result<usize, usize>
    requires { from ≤ length s.now }
    ensures value { result ≡ name_at s.now from }
    ensures named { Named s.now from result }
{
    match word_at(s, from, Class::NameStart, Class::NameByte) {
        Some(to) => Ok(to),
        None => Err(from),
    }
}

pub fn is_quote(c: u8) -> bool
    ensures { result ≡ is_quote c }
{
    (c == b'"') | (c == b'\'')
}

// A token behind the quote `q` at `from`: the first character may be the quote itself, and the next quote closes. Its answer is `parse_token`'s.
pub fn quoted(s: &[u8], from: usize, q: u8) -> Result<(Place, usize, bool), usize>
    requires { from ≤ length s.now }
    ensures value { result ≡ quoted_at q s.now from }
    ensures tokened { Tokened s.now from result }
{
    let i = from + 1;
    if s.len() <= i {
        return Err(from);
    }
    if s[i] == 10 {
        return Err(from);
    }
    let to = scan::run_end(s, i + 1, Class::Unquoted(q));
    if scan::is_at(s, to, q) {
        Ok((Place { from: i, to }, to + 1, true))
    } else {
        Err(from)
    }
}

// A token: its place without quotes, the end behind the closing quote if there is one, and whether it is quoted; or where none begins.
pub fn parse_token(s: &[u8], from: usize) -> Result<(Place, usize, bool), usize>
    requires { from ≤ length s.now }
    ensures value { result ≡ token_at s.now from }
    ensures tokened { Tokened s.now from result }
{
    if s.len() <= from {
        return Err(from);
    }
    let q = s[from];
    if is_quote(q) {
        return quoted(s, from, q);
    }
    match word_at(s, from, Class::TokenStart, Class::TokenByte) {
        Some(to) => Ok((Place { from, to }, to, false)),
        None => Err(from),
    }
}

// A tag: the place between the brackets, and the end behind `>`.
pub fn parse_tag(s: &[u8], from: usize) -> Result<(Place, usize), TagError>
    requires { from ≤ length s.now }
    ensures value { result ≡ tag_at s.now from }
    ensures tagged { Tagged s.now from result }
{
    if !scan::is_at(s, from, b'<') {
        return Err(TagError::NoTag(from));
    }
    let i = from + 1;
    let to = scan::run_end(s, i, Class::TagByte);
    if scan::is_at(s, to, b'>') {
        Ok((Place { from: i, to }, to + 1))
    } else {
        Err(TagError::OpenTag(from))
    }
}

// A number, and the end of its digits.
pub fn parse_int(s: &[u8], from: usize) -> Result<(u64, usize), IntError>
    requires { from ≤ length s.now }
    ensures value { result ≡ int_at s.now from }
    ensures counted { Counted s.now from result }
{
    let to = scan::run_end(s, from, Class::Digit);
    if to <= from {
        return Err(IntError::NoDigits(from));
    }
    let mut v: u64 = 0;
    for &b in &s[from..to] {
        let d = (b - b'0') as u64;
        let Some(w) = v.checked_mul(10) else {
            return Err(IntError::TooLarge(from));
        };
        let Some(n) = w.checked_add(d) else {
            return Err(IntError::TooLarge(from));
        };
        v = n;
    }
    Ok((v, to))
}

// The end of a quoted string, behind its closing quote.
pub fn parse_string(s: &[u8], from: usize) -> Result<usize, QuoteError>
    requires { from ≤ length s.now }
    ensures value { result ≡ string_at s.now from }
    ensures stringed { Stringed s.now from result }
{
    if s.len() <= from {
        return Err(QuoteError::NotOpened(from));
    }
    let q = s[from];
    if !is_quote(q) {
        return Err(QuoteError::NotOpened(from));
    }
    let mut j = from + 1;
    // by hand: a backslash and its quote are one step of two bytes
    while j < s.len() {
        let c = s[j];
        if c == q {
            return Ok(j + 1);
        }
        match c {
            10 | 13 => {
                return Err(QuoteError::LineInside(j));
            }
            92 => {
                let k = j + 1;
                if s.len() <= k {
                    return Err(QuoteError::BadEscape(j));
                }
                let e = s[k];
                if !is_quote(e) {
                    return Err(QuoteError::BadEscape(j));
                }
                j = k + 1;
            }
            _ => {
                j += 1;
            }
        }
    }
    Err(QuoteError::NotClosed(j))
}
