// Spacing: blanks, line ends and comments between the words of a specification.
#![tactic(auto)]

ghost use Rattle.std.specs.Prelude.{◌≡◌, ◌≤◌, length};
ghost use Rattle.spacing.specs.Spacing.{spaces_at, Spaces};

use scan::Class;

#[derive(Clone, Copy)]
pub enum SpacingError {
    // A line end where none is allowed: its place, or that of the comment that holds it.
    LineEnd(usize),
    // A comment that is never closed: its first byte.
    OpenComment(usize),
}

// The first byte behind the spacing, and how many lines were passed.
pub fn parse_ws(
    s: &[u8],
    kind: u32,
    from: usize,
    ends_allowed: bool,
) -> Result<(usize, usize), SpacingError>
    requires { from ≤ length s.now }
    ensures value { result ≡ spaces_at kind ends_allowed s.now from }
    ensures spaces { Spaces s.now from result }
{
    let mut i = from;
    let mut n = 0;
    // by hand: a step is a byte or a whole comment
    'gap: while i < s.len() {
        let c = s[i];
        match c {
            9 | 32 => {
                i += 1;
            }
            10 | 13 => {
                if !ends_allowed {
                    return Err(SpacingError::LineEnd(i));
                }
                n += scan::lines_at(s, i);
                i += 1;
            }
            47 => {
                let j = i + 1;
                if s.len() <= j {
                    break 'gap;
                }
                let d = s[j];
                match d {
                    47 => {
                        let e = scan::far_end(s, j, Class::LineByte);
                        if s.len() <= e {
                            i = e;
                        } else {
                            n = n + scan::lines_at(s, e);
                            i = e + 1;
                        }
                    }
                    42 => {
                        let mut k = j + 1;
                        // by hand: a step is a byte, a run of bytes, or the two bytes that close the comment
                        'comment: loop {
                            if s.len() <= k {
                                return Err(SpacingError::OpenComment(i));
                            }
                            let e = s[k];
                            let b = k;
                            k += 1;
                            match e {
                                10 | 13 => {
                                    if !ends_allowed {
                                        return Err(SpacingError::LineEnd(i));
                                    }
                                    n += scan::lines_at(s, b);
                                    if (kind != 4) & scan::is_at(s, k, b'/') {
                                        k += 1;
                                        break 'comment;
                                    }
                                }
                                42 => {
                                    if scan::is_at(s, k, b'/') {
                                        k += 1;
                                        break 'comment;
                                    }
                                }
                                _ => {
                                    k = scan::far_end(s, k, Class::CommentByte);
                                }
                            }
                        }
                        i = k;
                    }
                    _ => break 'gap,
                }
            }
            _ => break 'gap,
        }
    }
    Ok((i, n))
}
