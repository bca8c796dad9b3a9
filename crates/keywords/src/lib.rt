// Which declaration stands at a place.
#![tactic(auto)]

ghost use Rattle.std.specs.Prelude.{◌≡◌, ◌≤◌, length};
ghost use Rattle.keywords.specs.Keywords.{seen_at, Sees};

#[derive(Clone, Copy)]
pub enum Keyword {
    Percents,
    TokenWord,
    ActiontypeWord,
    StartWord,
    EppWord,
    ExpectRrWord,
    ExpectUnusedWord,
    ExpectWord,
    AvoidInsertWord,
    ParseParamWord,
    ParseGenericsWord,
    ImplicitTokensWord,
    LeftWord,
    RightWord,
    NonassocWord,
    PrologueWord,
    UnionWord,
    TypeWord,
    NoKeyword,
}

// A keyword, and where it ends.
#[derive(Clone, Copy)]
pub struct Seen {
    pub word: Keyword,
    pub end: usize,
}

pub fn at_end(word: Keyword, end: usize) -> Seen
    ensures { result ≡ record { word = word; end = end } }
{
    Seen { word, end }
}

// The first keyword, in the order of the source document and kind 4's own three last, that stands here and that the kind knows.
pub fn look(src: &[u8], at: usize, kind: u32) -> Seen
    requires { at ≤ length src.now }
    ensures is { result ≡ seen_at kind src.now at }
    ensures moved { Sees src.now at result }
{
    if scan::starts(src, at, b"%%") {
        return at_end(Keyword::Percents, at + 2);
    }
    if scan::starts(src, at, b"%token") {
        return at_end(Keyword::TokenWord, at + 6);
    }
    if ((kind == 1) | (kind == 4)) & scan::starts(src, at, b"%actiontype") {
        return at_end(Keyword::ActiontypeWord, at + 11);
    }
    if scan::starts(src, at, b"%start") {
        return at_end(Keyword::StartWord, at + 6);
    }
    if scan::starts(src, at, b"%epp") {
        return at_end(Keyword::EppWord, at + 4);
    }
    if scan::starts(src, at, b"%expect-rr") {
        return at_end(Keyword::ExpectRrWord, at + 10);
    }
    if scan::starts(src, at, b"%expect-unused") {
        return at_end(Keyword::ExpectUnusedWord, at + 14);
    }
    if scan::starts(src, at, b"%expect") {
        return at_end(Keyword::ExpectWord, at + 7);
    }
    if scan::starts(src, at, b"%avoid_insert") {
        return at_end(Keyword::AvoidInsertWord, at + 13);
    }
    if scan::starts(src, at, b"%parse-param") {
        return at_end(Keyword::ParseParamWord, at + 12);
    }
    if scan::starts(src, at, b"%parse-generics") {
        return at_end(Keyword::ParseGenericsWord, at + 15);
    }
    if (kind == 3) & scan::starts(src, at, b"%implicit_tokens") {
        return at_end(Keyword::ImplicitTokensWord, at + 16);
    }
    if scan::starts(src, at, b"%left") {
        return at_end(Keyword::LeftWord, at + 5);
    }
    if scan::starts(src, at, b"%right") {
        return at_end(Keyword::RightWord, at + 6);
    }
    if scan::starts(src, at, b"%nonassoc") {
        return at_end(Keyword::NonassocWord, at + 9);
    }
    if (kind == 4) & scan::starts(src, at, b"%{") {
        return at_end(Keyword::PrologueWord, at + 2);
    }
    if (kind == 4) & scan::starts(src, at, b"%union") {
        return at_end(Keyword::UnionWord, at + 6);
    }
    if (kind == 4) & scan::starts(src, at, b"%type") {
        return at_end(Keyword::TypeWord, at + 5);
    }
    at_end(Keyword::NoKeyword, at)
}
