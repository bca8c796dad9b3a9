// What the program `speccheck` does: for each file that its arguments name it prints what is wrong, in the form that editors and test machines read, with the line that is meant.
#![tactic(auto)]

ghost use Rattle.std.specs.Prelude.{◌≡◌, ◌≤◌, length};
ghost use Rattle.places.specs.Places.{line_start};
ghost use Rattle.checking.specs.Lines.{line_of};

use grammar::{Refusal, Told};
use loading::LoadError;
use places::Spot;
use quiltrudder::LoadingAt;
use scan::{Class, Place};
use std::fs::OpenOptions;
use std::io::Write;
use std::ops::ControlFlow;

// A line of more bytes is cut, so many bytes before the place and behind its begin.
const WIDEST: usize = 160;

const SIDE: usize = 60;

const USAGE: &str =
    "usage: speccheck [--kind original|grmtools|eco|posix] [--quiet|--json] [--no-warnings] [--] FILE ..";

const HELP: &str =
    "Says what is wrong in Yacc grammars, each of up to 65,536 bytes, and which rules and tokens nothing uses. The file - is standard input.
An option holds for the files behind it:
  --kind K       the kind of grammar; original, Yacc's own, if nothing is said; posix is Yacc as POSIX has it
  --quiet        nothing but the last line of each file, its errors and warnings counted
  --json         one JSON object a line: file, line, column, from, to, number, severity, message, name
  --no-warnings  unused rules and tokens are not looked for
  --             no option follows
The status is 0 without errors, 1 with errors, 2 where a file can't be read or an option is not known.";

// ---- What is lent for a file. ----

// The tables and indexes that a reading fills. The bits and lists that are made of it stand by themselves, since the borrow check does not cover a struct of which some are lent to be changed and some to be read.
#[derive(Drop)]
struct Rooms<'a> {
    t1: &'a mut [u32],
    t2: &'a mut [u32],
    t3: &'a mut [u32],
    t4: &'a mut [u32],
    t5: &'a mut [u32],
    t6: &'a mut [u32],
    t7: &'a mut [u32],
    t8: &'a mut [u32],
    t9: &'a mut [u32],
    t10: &'a mut [u32],
    i1: &'a mut [u32],
    i7: &'a mut [u32],
    t16: &'a mut [u32],
    t17: &'a mut [u32],
}

impl Rooms<'_> {
    // The cells of table 14 hold table 15 while the source is read, which nothing asks for afterwards.
    fn load(&mut self, src: &[u8], kind: u32, t14: &mut [u32]) -> LoadingAt {
        quiltrudder::load(
            src, kind, self.t1, self.t2, self.t3, self.t4, self.t5, self.t6, self.t7, self.t8,
            self.t9, self.t10, self.i1, self.i7, t14, self.t16, self.t17,
        )
    }

    // How many faults a reading has; they are in table 14.
    fn faults(&self, src: &[u8], loaded: LoadingAt, t14: &mut [u32]) -> Result<usize, Told> {
        let listed = quiltrudder::faults(
            src,
            loaded.counts,
            loaded.singles,
            self.t1,
            self.t2,
            self.t3,
            self.t4,
            self.t5,
            self.t6,
            self.t7,
            self.t8,
            self.t9,
            self.t10,
            self.i1,
            self.i7,
            t14,
        );
        listed
            .answer
            .map_err(|_| numbers::of_fault_listing(listed.answer))
    }

    // How many rules and tokens nothing uses; the cells of table 14 hold two for each, its kind and its row.
    fn unused(
        &self,
        src: &[u8],
        loaded: LoadingAt,
        work: &mut [u32],
        t14: &mut [u32],
    ) -> Result<usize, Told> {
        let listed = quiltrudder::report(
            src,
            loaded.counts,
            loaded.singles,
            self.t1,
            self.t2,
            self.t3,
            self.t4,
            self.t5,
            self.t6,
            self.t7,
            self.t8,
            self.t9,
            self.t10,
            self.i1,
            self.i7,
            work,
            t14,
        );
        listed
            .answer
            .map_err(|_| numbers::of_listing(listed.answer))
    }
}

// ---- What is found, and its words: README's table. ----

// An error by its number in document 01, or what is said besides.
#[derive(Clone, Copy)]
pub enum Matter {
    Error(u32),
    UnusedRule,
    UnusedToken,
    FirstGiven,
}

// What is to be said of which place.
#[derive(Clone, Copy)]
pub struct Finding {
    pub matter: Matter,
    pub from: u32,
    pub to: u32,
}

// Words alone, or before and behind the name at the place. They need no escapes in JSON; the name may.
#[derive(Clone, Copy)]
enum Message {
    Plain(&'static str),
    Named(&'static str, &'static str),
}

impl Matter {
    fn severity(self) -> &'static str {
        match self {
            Matter::Error(_) => "error",
            Matter::UnusedRule | Matter::UnusedToken => "warning",
            Matter::FirstGiven => "note",
        }
    }

    // A warning or a note has no number.
    fn number(self) -> Option<u32> {
        match self {
            Matter::Error(number) => Some(number),
            _ => None,
        }
    }

    // Whether a line is shown: not where a file is too long, or a kind or a start is missing.
    fn has_line(self) -> bool {
        !matches!(self, Matter::Error(30 | 41..=45))
    }

    fn message(self, src: &[u8], at: usize) -> Message {
        match self {
            Matter::Error(number) => match number {
                1..=19 => Message::Plain(refusal_words(number, src, at)),
                20..=29 => repeat_message(number),
                30..=39 => fault_message(number),
                50..=52 => Message::Plain(marked_words(number)),
                _ => Message::Plain(other_words(number)),
            },
            Matter::UnusedRule => Message::Named("nothing uses the rule ", ""),
            Matter::UnusedToken => Message::Named("nothing uses the token ", ""),
            Matter::FirstGiven => Message::Plain("first given here"),
        }
    }
}

// What stands at the place tells what is likely to be meant.
fn no_token_words(src: &[u8], at: usize) -> &'static str {
    match src.get(at).copied() {
        Some(b':') => {
            "a token is wanted here, not a colon: if a rule begins here, the `;` of the one before it is missing, or the %% before the first"
        }
        Some(b'\'' | b'"') => {
            "the text in quotes that begins here is empty or does not close on its line"
        }
        _ => "a token is wanted here: a letter or `_`, then those or digits, or a text in quotes",
    }
}

// What begins with no `%` is no declaration; often the `%%` before it is missing.
fn unknown_words(src: &[u8], at: usize) -> &'static str {
    match src.get(at).copied() {
        Some(b'%') => "this declaration is not known, in this kind of grammar at least",
        _ => "a declaration or %% is wanted here",
    }
}

fn refusal_words(number: u32, src: &[u8], at: usize) -> &'static str {
    match number {
        1 => "a whole number that fits 64 bits is wanted here",
        2 => "a name is wanted here: a letter, `_` or `.`, then those or digits",
        3 => no_token_words(src, at),
        4 => "the last rule is not finished when the file ends: a rule ends with `;`",
        5 => "the comment that begins here does not end",
        6 => "the action that begins here has a brace that does not close",
        7 => "a colon is wanted behind the rule's name",
        8 => "`->` and the rule's type are wanted behind its name",
        9 => "%empty stands in a production that is not empty",
        10 => "the file ends where %% or a declaration is wanted",
        11 => "behind an action only `|` or `;` may stand",
        12 => unknown_words(src, at),
        13 => "the line ends too early here: what the declaration takes has to stand on its line",
        14 => "a string in quotes is wanted here",
        15 => "a rule's name or a quoted token is wanted here",
        16 => "a single colon is wanted, and the file ends without one; `::` is none",
        17 => "the string has a line end here: it has to close on its line",
        18 => "this backslash is wrong: in a string it may stand before a quote alone",
        _ => "the string does not close before the file ends",
    }
}

fn repeat_message(number: u32) -> Message {
    match number {
        20 => Message::Named("", " was given a precedence before"),
        21 => Message::Named("", " stands in %avoid_insert before"),
        22 => Message::Named("", " stands in %implicit_tokens before"),
        23 => Message::Plain("%expect was given before"),
        24 => Message::Plain("%expect-rr was given before"),
        25 => Message::Plain("%start was given before"),
        26 => Message::Plain("%actiontype was given before"),
        _ => Message::Named("the key ", " of %epp was given before"),
    }
}

fn fault_message(number: u32) -> Message {
    match number {
        30 => Message::Plain("there is no start rule: no rule is given"),
        31 => Message::Named("the start rule ", " does not exist"),
        32 => Message::Named(
            "no rule is named ",
            "; a token has to be declared by %token",
        ),
        33 => Message::Named("no token is named ", ""),
        34 => Message::Named(
            "the token ",
            " has no precedence; %left, %right or %nonassoc gives one",
        ),
        _ => Message::Named("the key ", " of %epp is no token"),
    }
}

// What kind 4 refuses besides.
fn marked_words(number: u32) -> &'static str {
    match number {
        50 => {
            "a tag is wanted here, or the one that begins here does not close on its line: `<`, a text, `>`"
        }
        51 => "the text that begins with this %{ does not end: %} is missing",
        _ => {
            "this %union has no body in braces behind it on its line, or one that does not close"
        }
    }
}

fn other_words(number: u32) -> &'static str {
    match number {
        40 => "the file is not UTF-8 from this byte on",
        41 => "the file has more than 65,536 bytes",
        42 => "a table is full",
        43 => "there is no such kind of grammar",
        44 => "the tables are no reading of this source",
        _ => "an index has a wrong size",
    }
}

// ---- The line of a place. ----

// The part of a line that is shown, and the part of it that is meant.
#[derive(Clone, Copy)]
pub struct View {
    pub from: usize,
    pub to: usize,
    pub at: usize,
    pub past: usize,
    pub is_cut_before: bool,
    pub is_cut_behind: bool,
}

// Where the line of a place begins, by the place's column.
fn line_begin(s: &[u8], at: usize) -> usize
    requires at_in_bounds { at ≤ length s.now }
    requires s_len_bound { length s.now ≤ 65536 }
    ensures value { result ≡ line_start s.now at }
    ensures upper_bound { result ≤ at }
{
    let p = places::spot_in(s, at);
    at + 1 - (p.column as usize)
}

// The line of a place, without its end; nothing where the source has no such place.
fn line_at(s: &[u8], at: usize) -> Place
    ensures { result ≡ line_of s.now at }
{
    let len = s.len();
    if 65536 < len {
        return Place { from: 0, to: 0 };
    }
    if len < at {
        return Place { from: 0, to: 0 };
    }
    let from = line_begin(s, at);
    Place {
        from,
        to: scan::run_end(s, from, Class::LineByte),
    }
}

// Whether a byte is inside a character.
fn is_inside(c: u8) -> bool {
    matches!(c, 128..=191)
}

fn is_inside_at(s: &[u8], k: usize) -> bool {
    s.get(k).is_some_and(|c| is_inside(*c))
}

// Where the part of a long line before a place begins to be shown: with a character.
fn cut_before(s: &[u8], first: usize, at: usize) -> usize {
    if at <= first || at - first <= SIDE {
        return first;
    }
    (at - SIDE..at).find(|k| !is_inside_at(s, *k)).unwrap_or(at)
}

// Where the part behind the place's begin ends: before a character.
fn cut_behind(s: &[u8], at: usize, last: usize) -> usize {
    if last <= at || last - at <= SIDE {
        return last;
    }
    (at + 1..at + SIDE + 1)
        .rev()
        .find(|k| !is_inside_at(s, *k))
        .unwrap_or(at)
}

// A line of the source, or of a long one the part around the place.
fn view_of(s: &[u8], from: u32, to: u32) -> View {
    let line = line_at(s, from as usize);
    // the LF of a CR LF is behind the line's end
    let at = line.to.min(from as usize);
    let (a, b) = if line.to.saturating_sub(line.from) <= WIDEST {
        (line.from, line.to)
    } else {
        (cut_before(s, line.from, at), cut_behind(s, at, line.to))
    };
    View {
        from: a,
        to: b,
        at,
        past: b.min(to as usize),
        is_cut_before: a != line.from,
        is_cut_behind: b != line.to,
    }
}

// ---- The marks under a line. ----

// As many as there is room for.
#[derive(Drop)]
struct Marks {
    bytes: [u8; 256],
    count: usize,
    ghost within: { count ≤ 256 },
}

impl Marks {
    fn put(&mut self, c: u8) {
        if self.count < 256 {
            self.bytes[self.count] = c;
            self.count += 1;
        }
    }

    // What keeps the columns: a tab, a blank for any other character.
    fn put_blanks(&mut self, text: &[u8]) {
        for c in text {
            match *c {
                b'\t' => self.put(b'\t'),
                128..=191 => {}
                _ => self.put(b' '),
            }
        }
    }

    // A caret for each character of the place, and one where there is none.
    fn put_carets(&mut self, text: &[u8]) {
        self.put(b'^');
        for c in text.iter().skip(1) {
            if !is_inside(*c) {
                self.put(b'^');
            }
        }
    }

    fn as_bytes(&self) -> &[u8] {
        &self.bytes[..self.count]
    }
}

fn marks_of(s: &[u8], v: View) -> Marks {
    let mut marks = Marks {
        bytes: [0; 256],
        count: 0,
    };
    // the dots of a cut line are as wide as three characters
    if v.is_cut_before {
        marks.put_blanks(b"   ");
    }
    marks.put_blanks(names::part(s, v.from, v.at));
    marks.put_carets(names::part(s, v.at, v.past));
    marks
}

// ---- What is said of a file. ----

#[derive(Clone, Copy)]
pub enum Form {
    Plain,
    Quiet,
    Json,
}

// How the files behind an option are read, and what is said of them.
#[derive(Clone, Copy)]
pub struct Asked {
    pub kind: u32,
    pub form: Form,
    pub warns: bool,
}

// Where and how it is said, of which file with which text, and what there was to say up to now.
#[derive(Drop)]
struct Report<'a, P> {
    to: &'a P,
    form: Form,
    file: &'a [u8],
    src: &'a [u8],
    errors: u64,
    warnings: u64,
}

impl<P: Print> Report<'_, P> {
    fn say(&self, words: &[u8]) {
        let _ = self.to.write_all(words);
    }

    // Whether a byte can't stand in a text as it is: a control, and in JSON a quote or a backslash.
    fn is_special(&self, c: u8) -> bool {
        match c {
            0..=31 => true,
            b'"' | b'\\' => matches!(self.form, Form::Json),
            _ => false,
        }
    }

    fn say_escaped(&self, c: u8) {
        if c < 32 {
            let _ = print!(self.to; "\\u{c:04x}");
        } else {
            self.say(&[b'\\', c]);
        }
    }

    // A part of the source or of the arguments.
    fn say_text(&self, text: &[u8]) {
        for part in text.split_inclusive(|c| self.is_special(*c)) {
            match part.split_last() {
                Some((last, plain)) if self.is_special(*last) => {
                    self.say(plain);
                    self.say_escaped(*last);
                }
                _ => self.say(part),
            }
        }
    }

    fn say_message(&self, f: Finding) {
        match f.matter.message(self.src, f.from as usize) {
            Message::Plain(words) => self.say(words.as_bytes()),
            Message::Named(before, behind) => {
                let _ = print!(self.to; "{before}`");
                self.say_text(names::part(self.src, f.from as usize, f.to as usize));
                let _ = print!(self.to; "`{behind}");
            }
        }
    }

    fn say_dots(&self, is_cut: bool) {
        if is_cut {
            self.say(b"...");
        }
    }

    // The line of a place and the marks under it.
    fn say_line(&self, line: u32, f: Finding) {
        let v = view_of(self.src, f.from, f.to);
        let _ = print!(self.to; "{line:>5} | ");
        self.say_dots(v.is_cut_before);
        self.say(names::part(self.src, v.from, v.to));
        self.say_dots(v.is_cut_behind);
        self.say(b"\n      | ");
        self.say(marks_of(self.src, v).as_bytes());
        self.say(b"\n");
    }

    fn say_plain(&self, f: Finding, p: Spot) {
        self.say(self.file);
        let _ = print!(self.to; ":{}:{}: {}: ", p.line, p.column, f.matter.severity());
        self.say_message(f);
        if let Some(number) = f.matter.number() {
            let _ = print!(self.to; " [{number}]");
        }
        self.say(b"\n");
        if f.matter.has_line() {
            self.say_line(p.line, f);
        }
    }

    fn say_json(&self, f: Finding, p: Spot) {
        self.say(b"{\"file\":\"");
        self.say_text(self.file);
        let _ = print!(self.to; "\",\"line\":{},\"column\":{}", p.line, p.column);
        let _ = print!(self.to; ",\"from\":{},\"to\":{}", f.from, f.to);
        let number = f.matter.number().unwrap_or(0);
        let severity = f.matter.severity();
        let _ = print!(self.to; ",\"number\":{number},\"severity\":\"{severity}\",\"message\":\"");
        self.say_message(f);
        self.say(b"\",\"name\":\"");
        self.say_text(names::part(self.src, f.from as usize, f.to as usize));
        self.say(b"\"}\n");
    }

    // Counts what is found, and says it.
    fn find(&mut self, matter: Matter, from: u32, to: u32) {
        match matter {
            Matter::Error(_) => self.errors = self.errors.saturating_add(1),
            Matter::UnusedRule | Matter::UnusedToken => {
                self.warnings = self.warnings.saturating_add(1);
            }
            Matter::FirstGiven => {}
        }
        let f = Finding { matter, from, to };
        match self.form {
            Form::Plain => self.say_plain(f, quiltrudder::locate(self.src, from)),
            Form::Json => self.say_json(f, quiltrudder::locate(self.src, from)),
            Form::Quiet => {}
        }
    }

    // Each of the first `n` repeats, and where what is repeated was given first.
    fn find_repeats(&mut self, t10: &[u32], n: u32) {
        let (rows, _) = t10.as_chunks::<5>();
        for &[number, first_from, first_to, from, to] in rows.iter().take(n as usize) {
            self.find(Matter::Error(number), from, to);
            self.find(Matter::FirstGiven, first_from, first_to);
        }
    }

    fn find_faults(&mut self, t14: &[u32], n: usize) {
        let (rows, _) = t14.as_chunks::<3>();
        for &[number, from, to] in rows.iter().take(n) {
            self.find(Matter::Error(number), from, to);
        }
    }

    // By the kind and the row that each row of the report has.
    fn find_unused(&mut self, rooms: &Rooms, out: &[u32], n: usize) {
        let (rows, _) = out.as_chunks::<2>();
        for &[kind, row] in rows.iter().take(n) {
            let (matter, t, w) = match kind {
                1 => (Matter::UnusedRule, &*rooms.t7, tables::RULE_WIDTH),
                _ => (Matter::UnusedToken, &*rooms.t1, tables::TOKEN_WIDTH),
            };
            self.find(
                matter,
                tables::cell(t, w, row, 0),
                tables::cell(t, w, row, 1),
            );
        }
    }

    // Finds what is wrong in the text and, where nothing is, what nothing uses. A refusal is an error more: with these rooms no source should come to one behind its reading, but it is not passed over.
    fn check(
        &mut self,
        asked: Asked,
        rooms: &mut Rooms,
        work: &mut [u32],
        t14: &mut [u32],
    ) -> Result<(), Told> {
        let loaded = rooms.load(self.src, asked.kind, t14);
        let repeats = sound::rows_of(loaded.counts, tables::REPEATS);
        self.find_repeats(rooms.t10, repeats);
        match loaded.answer {
            // what is read in full has faults and repeats
            Ok(_) | Err(LoadError::NotValid(_) | LoadError::NotRead(Refusal::Repeated(..))) => {}
            Err(LoadError::NotRead(refusal)) => return Err(grammar::tell(refusal)),
        }
        let faults = rooms.faults(self.src, loaded, t14)?;
        self.find_faults(t14, faults);
        if faults == 0 && asked.warns {
            let unused = rooms.unused(self.src, loaded, work, t14)?;
            self.find_unused(rooms, t14, unused);
        }
        Ok(())
    }

    fn say_summary(&self) {
        let errors = self.errors;
        let warnings = self.warnings;
        self.say(self.file);
        let _ = println!(self.to;
            ": {errors} error{}, {warnings} warning{}",
            plural(errors),
            plural(warnings)
        );
    }
}

// Says what there is to say of a file, and returns how many errors it has.
fn check_text(
    to: &impl Print,
    asked: Asked,
    file: &[u8],
    src: &[u8],
    rooms: &mut Rooms,
    work: &mut [u32],
    t14: &mut [u32],
) -> u64 {
    let mut report = Report {
        to,
        form: asked.form,
        file,
        src,
        errors: 0,
        warnings: 0,
    };
    if let Err(told) = report.check(asked, rooms, work, t14) {
        report.find(Matter::Error(told.number), told.from, told.to);
    }
    if !matches!(asked.form, Form::Json) {
        report.say_summary();
    }
    report.errors
}

fn plural(n: u64) -> &'static str {
    if n == 1 { "" } else { "s" }
}

// ---- The arguments. ----

// The worst of what came of the files up to now.
#[derive(Clone, Copy, PartialEq, Eq, PartialOrd, Ord)]
enum Status {
    Clean,
    Errors,
    Trouble,
}

// What the arguments have asked for so far, what has come of it, and what is lent for the next file.
#[derive(Drop)]
struct Checker<'a> {
    asked: Asked,
    tells_status: bool,
    // No option may follow.
    is_past_options: bool,
    wants_kind: bool,
    // A file stands behind the last option.
    has_file: bool,
    status: Status,
    text: &'a mut [u8],
    rooms: Rooms<'a>,
    work: &'a mut [u32],
    t14: &'a mut [u32],
}

impl<'a> Checker<'a> {
    fn new(text: &'a mut [u8], rooms: Rooms<'a>, work: &'a mut [u32], t14: &'a mut [u32]) -> Self {
        Checker {
            asked: Asked {
                kind: 1,
                form: Form::Plain,
                warns: true,
            },
            tells_status: false,
            is_past_options: false,
            wants_kind: false,
            has_file: false,
            status: Status::Clean,
            text,
            rooms,
            work,
            t14,
        }
    }
}

impl Checker<'_> {
    fn check_file(&mut self, rt: &HostRuntime, file: &[u8]) {
        let asked = self.asked;
        match arguments::read(rt, file, self.text) {
            Ok(src) => {
                let n = check_text(rt, asked, file, src, &mut self.rooms, self.work, self.t14);
                if n != 0 {
                    self.status = self.status.max(Status::Errors);
                }
            }
            Err(error) => {
                streams::fail(rt, file, error);
                self.status = Status::Trouble;
            }
        }
    }

    // Arguments that can't be meant, and why: nothing more is read.
    fn refuse(&mut self, rt: &HostRuntime, word: &[u8], why: &str) -> ControlFlow<()> {
        let _ = eprint!(rt; "speccheck: ");
        let _ = rt.stderr().write_all(word);
        let _ = eprintln!(rt; "{why}\n{USAGE}");
        self.status = Status::Trouble;
        ControlFlow::Break(())
    }

    fn take_kind(&mut self, rt: &HostRuntime, word: &[u8]) -> ControlFlow<()> {
        let Some(kind) = arguments::kind_of(word) else {
            return self.refuse(rt, word, " is no kind of grammar");
        };
        self.asked.kind = kind;
        self.wants_kind = false;
        ControlFlow::Continue(())
    }

    // Of `--quiet` and `--json` the later one holds: JSON has no summary.
    fn take_option(&mut self, rt: &HostRuntime, word: &[u8]) -> ControlFlow<()> {
        self.has_file = false;
        match word {
            b"--kind" => self.wants_kind = true,
            b"--quiet" => self.asked.form = Form::Quiet,
            b"--no-warnings" => self.asked.warns = false,
            b"--json" => self.asked.form = Form::Json,
            b"--status" => self.tells_status = true,
            b"--" => self.is_past_options = true,
            b"--help" => {
                let _ = println!(rt; "{USAGE}\n{HELP}");
                return ControlFlow::Break(());
            }
            _ => return self.refuse(rt, word, " is no option"),
        }
        ControlFlow::Continue(())
    }

    // An option begins with a hyphen and goes on.
    fn take_word(&mut self, rt: &HostRuntime, word: &[u8]) -> ControlFlow<()> {
        if self.wants_kind {
            return self.take_kind(rt, word);
        }
        if !self.is_past_options && matches!(word, [b'-', _, ..]) {
            return self.take_option(rt, word);
        }
        self.has_file = true;
        self.check_file(rt, word);
        ControlFlow::Continue(())
    }

    // An argument that does not fit is longer than a path may be. Behind the last one no option lacks its word or its files.
    fn take_arguments(&mut self, rt: &HostRuntime, word: &mut [u8]) -> ControlFlow<()> {
        for i in 1..arguments::count(rt) {
            match arguments::take(rt, i, word) {
                Ok(n) => self.take_word(rt, &word[..n])?,
                Err(error) => {
                    streams::fail(rt, b"speccheck", error);
                    self.status = Status::Trouble;
                    self.has_file = true;
                }
            }
        }
        if self.wants_kind || !self.has_file {
            return self.refuse(rt, b"", "a file is wanted behind the options");
        }
        ControlFlow::Continue(())
    }
}

// The status, for the script that ends with it: descriptor 3 is the script's file, by the name that the system has for it. Where there is none, nothing is told.
fn tell_status(rt: &HostRuntime, status: Status) {
    let Ok(mut told) = OpenOptions::new().append(true).open(rt, "/dev/fd/3") else {
        return;
    };
    let _ = match status {
        Status::Clean => told.write_all(b"0\n"),
        Status::Errors => told.write_all(b"1\n"),
        Status::Trouble => told.write_all(b"2\n"),
    };
}

// The rooms come one by one and as arrays: the check of a function that both makes them and lends them as slices runs out of stack.
fn check_arguments<'a>(
    rt: &HostRuntime,
    word: &mut [u8; 4096],
    text: &'a mut [u8; 65537],
    t1: &'a mut [u32; 61440],
    t2: &'a mut [u32; 81920],
    t3: &'a mut [u32; 40960],
    t4: &'a mut [u32; 40960],
    t5: &'a mut [u32; 46080],
    t6: &'a mut [u32; 98304],
    t7: &'a mut [u32; 69760],
    t8: &'a mut [u32; 851968],
    t9: &'a mut [u32; 131072],
    t10: &'a mut [u32; 163840],
    i1: &'a mut [u32; 65536],
    i7: &'a mut [u32; 32768],
    work: &'a mut [u32; 1088],
    t14: &'a mut [u32; 131072],
    t16: &'a mut [u32; 65535],
    t17: &'a mut [u32; 49152],
) {
    let rooms = Rooms {
        t1,
        t2,
        t3,
        t4,
        t5,
        t6,
        t7,
        t8,
        t9,
        t10,
        i1,
        i7,
        t16,
        t17,
    };
    let mut checker = Checker::new(text, rooms, work, t14);
    let _ = checker.take_arguments(rt, word);
    if checker.tells_status {
        tell_status(rt, checker.status);
    }
}

// Rooms for any source of up to 65,536 bytes, in less than 8 MB together: 20,480 rows of tables 1 to 4, 7,680 of table 5, 32,768 of tables 6, 9 and 10, 13,952 of table 7, 65,536 of table 8
// and 32,770 of table 14. Names in each of tables 1 to 4, in table 5 and in table 7 are pairwise different, so a source has fewer than 19,740, 7,670 and 13,830 of them (the densest tokens
// are bare and quoted in turn, with nothing between). In kind 4, 32,768 rows of table 15 and 21,845 and 16,384 of tables 16 and 17: a row takes two, three and four bytes at least.
// An argument is as long as a path may be, and the text has a byte more than a source may have.
pub fn check_files(rt: &HostRuntime) {
    let mut word = [0; 4096];
    let mut text = [0; 65537];
    let mut t1 = [0; 61440];
    let mut t2 = [0; 81920];
    let mut t3 = [0; 40960];
    let mut t4 = [0; 40960];
    let mut t5 = [0; 46080];
    let mut t6 = [0; 98304];
    let mut t7 = [0; 69760];
    let mut t8 = [0; 851968];
    let mut t9 = [0; 131072];
    let mut t10 = [0; 163840];
    let mut i1 = [0; 65536];
    let mut i7 = [0; 32768];
    let mut work = [0; 1088];
    let mut t14 = [0; 131072];
    let mut t16 = [0; 65535];
    let mut t17 = [0; 49152];
    check_arguments(
        rt, &mut word, &mut text, &mut t1, &mut t2, &mut t3, &mut t4, &mut t5, &mut t6, &mut t7,
        &mut t8, &mut t9, &mut t10, &mut i1, &mut i7, &mut work, &mut t14, &mut t16, &mut t17,
    );
}
