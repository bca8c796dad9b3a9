// Texts: to the line end, to a single colon, to the mark `%}`, and actions between braces; to a colon and actions with their trimmed places.
#![tactic(auto)]

ghost use Rattle.std.specs.Prelude.{◌≡◌, ◌≤◌, ◌<◌, length};
ghost use Rattle.texts.specs.Colon.{single_at, colon_text_at, Singled, ColonTexts};
ghost use Rattle.texts.specs.Action.{braced_at, action_at, Braced, Acted};
ghost use Rattle.texts.specs.Mark.{marked_at, Marked};
ghost use Rattle.texts.specs.Line.{line_end_at, Lined};

use scan::{Class, Place};

pub fn parse_to_eol(s: &[u8], from: usize) -> usize
    requires { from ≤ length s.now }
    ensures value { result ≡ line_end_at s.now from }
    ensures lined { Lined s.now from result }
{
    scan::far_end(s, from, Class::LineByte)
}

// Where the single colon stands, and the lines that end before it; or the source's end, where there is none.
pub fn single_colon(s: &[u8], from: usize) -> Result<(usize, usize), usize>
    requires { from ≤ length s.now }
    ensures value { result ≡ single_at s.now from }
    ensures singled { Singled s.now from result }
{
    let mut j = from;
    let mut n = 0;
    // by hand: two colons are one step of two bytes
    while j < s.len() {
        let c = s[j];
        match c {
            58 => {
                let k = j + 1;
                if !scan::is_at(s, k, b':') {
                    return Ok((j, n));
                }
                j = k + 1;
            }
            10 | 13 => {
                n += scan::lines_at(s, j);
                j += 1;
            }
            _ => {
                j += 1;
            }
        }
    }
    Err(j)
}

// The same, and the trimmed place of the text in front of the colon.
pub fn parse_to_single_colon(s: &[u8], from: usize) -> Result<(usize, usize, Place), usize>
    requires { from ≤ length s.now }
    ensures value { result ≡ colon_text_at s.now from }
    ensures colon_texts { ColonTexts s.now from result }
{
    let (to, n) = single_colon(s, from)?;
    Ok((to, n, trim::trim(s, from, to)))
}

// The brace that closes the one in front of `from`, and the lines that end before it.
pub fn closing_brace(s: &[u8], from: usize) -> Option<(usize, usize)>
    requires { from ≤ length s.now }
    ensures value { result ≡ braced_at s.now from }
    ensures braced { Braced s.now from result }
{
    let mut j = from;
    let mut n = 0;
    let mut depth: usize = 0;
    // by hand: a step is a byte or a run of bytes
    while j < s.len() {
        let c = s[j];
        match c {
            123 => {
                depth += 1;
                j += 1;
            }
            125 => {
                if depth == 0 {
                    return Some((j, n));
                }
                depth -= 1;
                j += 1;
            }
            10 | 13 => {
                n += scan::lines_at(s, j);
                j += 1;
            }
            _ => {
                j = scan::far_end(s, j + 1, Class::TextByte);
            }
        }
    }
    None
}

// The first `%}` from `from` on, and the lines that end before it: nothing else is looked at.
pub fn closing_mark(s: &[u8], from: usize) -> Option<(usize, usize)>
    requires { from ≤ length s.now }
    ensures value { result ≡ marked_at s.now from }
    ensures marked { Marked s.now from result }
{
    let mut j = from;
    let mut n = 0;
    // by hand: a step is a byte or a run of bytes
    while j < s.len() {
        let c = s[j];
        match c {
            37 => {
                if scan::is_at(s, j + 1, b'}') {
                    return Some((j, n));
                }
                j += 1;
            }
            10 | 13 => {
                n += scan::lines_at(s, j);
                j += 1;
            }
            _ => {
                j = scan::far_end(s, j + 1, Class::CodeByte);
            }
        }
    }
    None
}

// The action whose brace opens at `at`: the end behind the closing brace, the lines that end inside, the trimmed place, and the crate's span. An error is where braces open that don't balance.
pub fn parse_action(s: &[u8], at: usize) -> Result<(usize, usize, Place, Place), usize>
    requires { at < length s.now }
    ensures value { result ≡ action_at s.now at }
    ensures acted { Acted s.now at result }
{
    let from = at + 1;
    match closing_brace(s, from) {
        Some((to, n)) => {
            let text = trim::trim(s, from, to);
            let a = text.from;
            let b = text.to;
            Ok((
                to + 1,
                n,
                text,
                Place {
                    from,
                    to: from + (b - a),
                },
            ))
        }
        None => Err(at),
    }
}
