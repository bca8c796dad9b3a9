// What every reading step shares: counts, singles, the state that goes through all steps, refusals by their cause, and the steps that add a row.
#![tactic(auto)]

ghost use Rattle.std.specs.Prelude.{◌≡◌, List, [], ◌∷◌, ◌+◌, length, get_or};
ghost use Rattle.tables.specs.Table.{find_name};
ghost use Rattle.grammar.specs.Refusals.{number_of_cause, number_of_repeat, repeat_of, told};
ghost use Rattle.grammar.specs.Numbers.{part_numbers};
ghost use Rattle.grammar.specs.State.{count, with_count, no_room, Out1, Here, gap_at, Gapped, push_row, list_repeat, enter_step, next_level, Out0, Out2, Onward, past_gap, pass_on, once_step, Tokens, Tracked, Follows, Enters};

use spacing::SpacingError;

// The rows of tables 1 to 10.
#[derive(Clone, Copy)]
pub struct Counts {
    pub n: [u32; 10],
}

// The rows of tables 15 to 17, which kind 4 fills.
#[derive(Clone, Copy)]
pub struct PosixCounts {
    pub n: [u32; 3],
}

// What is given once, by its place: the start, the generics, the programs.
#[derive(Clone, Copy)]
pub struct Singles {
    pub start: Option<(u32, u32)>,
    // `%expect` and `%expect-rr`: the value, and its place.
    pub expect: Option<(u64, u32, u32)>,
    pub expect_rr: Option<(u64, u32, u32)>,
    // `%parse-param`: the name's place and the type's.
    pub param: Option<(u32, u32, u32, u32)>,
    pub generics: Option<(u32, u32)>,
    pub programs: Option<(u32, u32)>,
}

// A reading under way: its kind, where it stands, the next precedence level, what was read so far, and kind 1's action type.
#[derive(Clone, Copy)]
pub struct State {
    pub kind: u32,
    pub at: usize,
    pub level: u32,
    pub counts: Counts,
    pub posix: PosixCounts,
    pub singles: Singles,
    pub actiontype: Option<(u32, u32)>,
}

// Why a read is refused at an offset.
#[derive(Clone, Copy)]
pub enum Cause {
    IntegerEmpty,
    IntegerTooLarge,
    IllegalName,
    IllegalString,
    IncompleteRule,
    IncompleteComment,
    IncompleteAction,
    MissingColon,
    MissingRightArrow,
    NonEmptyProduction,
    PrematureEnd,
    NotTerminated,
    UnknownDeclaration,
    // A line end where none may stand.
    ReachedEol,
    // No single colon follows.
    ReachedEnd,
    StringNotOpened,
    StringLineEnd,
    StringEscape,
    StringNotClosed,
    UnknownSymbol,
    // Kind 4: a `<tag>` that its line does not close, and none behind `%type`.
    TagNotClosed,
    TagMissing,
    PrologueNotClosed,
    UnionNotOpened,
    UnionNotClosed,
    NotUtf8,
}

#[derive(Clone, Copy)]
pub enum Refusal {
    Fault(Cause, u32),
    // The first repeat, and its first place.
    Repeated(Repeat, u32, u32),
    // The table without room, and the row's place.
    NoRoom(u32, u32, u32),
    TooLong,
    BadKind,
    // An index that is no power of two of slots, or too small for its table.
    BadIndex,
}

// A refusal in document 01's numbers.
#[derive(Clone, Copy)]
pub struct Told {
    pub number: u32,
    pub from: u32,
    pub to: u32,
    pub table: u32,
}

// What a step came to.
#[derive(Clone, Copy)]
pub enum Answer {
    Going,
    Done,
    Refused(Refusal),
}

#[derive(Clone, Copy)]
pub struct Step {
    pub answer: Answer,
    pub state: State,
}

// What may be repeated only under a refusal.
#[derive(Clone, Copy)]
pub enum Repeat {
    RepeatedPrecedence,
    RepeatedAvoidInsert,
    RepeatedImplicitTokens,
    RepeatedExpect,
    RepeatedExpectRr,
    RepeatedStart,
    RepeatedActiontype,
    RepeatedEpp,
}

pub fn cause_number(c: Cause) -> u32
    ensures { result ≡ number_of_cause c }
{
    match c {
        Cause::IntegerEmpty => 1,
        Cause::IntegerTooLarge => 1,
        Cause::IllegalName => 2,
        Cause::IllegalString => 3,
        Cause::IncompleteRule => 4,
        Cause::IncompleteComment => 5,
        Cause::IncompleteAction => 6,
        Cause::MissingColon => 7,
        Cause::MissingRightArrow => 8,
        Cause::NonEmptyProduction => 9,
        Cause::PrematureEnd => 10,
        Cause::NotTerminated => 11,
        Cause::UnknownDeclaration => 12,
        Cause::ReachedEol => 13,
        Cause::ReachedEnd => 16,
        Cause::StringNotOpened => 14,
        Cause::StringLineEnd => 17,
        Cause::StringEscape => 18,
        Cause::StringNotClosed => 19,
        Cause::UnknownSymbol => 15,
        Cause::TagNotClosed => 50,
        Cause::TagMissing => 50,
        Cause::PrologueNotClosed => 51,
        Cause::UnionNotOpened => 52,
        Cause::UnionNotClosed => 52,
        Cause::NotUtf8 => 40,
    }
}

pub fn tell(f: Refusal) -> Told
    ensures { result ≡ told f }
{
    match f {
        Refusal::Fault(c, i) => Told {
            number: cause_number(c),
            from: i,
            to: i,
            table: 0,
        },
        Refusal::Repeated(what, from, to) => Told {
            number: repeat_number(what),
            from,
            to,
            table: 0,
        },
        Refusal::NoRoom(table, from, to) => Told {
            number: 42,
            from,
            to,
            table,
        },
        Refusal::TooLong => Told {
            number: 41,
            from: 0,
            to: 0,
            table: 0,
        },
        Refusal::BadKind => Told {
            number: 43,
            from: 0,
            to: 0,
            table: 0,
        },
        Refusal::BadIndex => Told {
            number: 45,
            from: 0,
            to: 0,
            table: 0,
        },
    }
}

pub fn repeat_number(what: Repeat) -> u32
    ensures { result ≡ number_of_repeat what }
{
    match what {
        Repeat::RepeatedPrecedence => 20,
        Repeat::RepeatedAvoidInsert => 21,
        Repeat::RepeatedImplicitTokens => 22,
        Repeat::RepeatedExpect => 23,
        Repeat::RepeatedExpectRr => 24,
        Repeat::RepeatedStart => 25,
        Repeat::RepeatedActiontype => 26,
        Repeat::RepeatedEpp => 27,
    }
}

// The repeat that has this number, which a row of table 10 holds.
pub fn repeat_of(number: u32) -> Repeat
    ensures { result ≡ repeat_of number }
{
    match number {
        20 => Repeat::RepeatedPrecedence,
        21 => Repeat::RepeatedAvoidInsert,
        22 => Repeat::RepeatedImplicitTokens,
        23 => Repeat::RepeatedExpect,
        24 => Repeat::RepeatedExpectRr,
        25 => Repeat::RepeatedStart,
        26 => Repeat::RepeatedActiontype,
        _ => Repeat::RepeatedEpp,
    }
}

// A flag and a place, as document 01 numbers them.
pub fn part_cells(p: Option<(u32, u32)>) -> [u32; 3]
    ensures { result ≡ part_numbers p }
{
    match p {
        None => [0, 0, 0],
        Some((a, b)) => [1, a, b],
    }
}

// Spacing of a kind from `at` on: its end and its line ends, or why there is none.
pub fn pass_gap(
    src: &[u8],
    kind: u32,
    at: usize,
    ends_allowed: bool,
) -> Result<(usize, usize), Refusal>
    requires { Here src.now at }
    ensures is { result ≡ gap_at kind ends_allowed src.now at }
    ensures moved { Gapped src.now at result }
{
    match spacing::parse_ws(src, kind, at, ends_allowed) {
        Ok((i, n)) => Ok((i, n)),
        Err(SpacingError::LineEnd(i)) => Err(Refusal::Fault(Cause::ReachedEol, i as u32)),
        Err(SpacingError::OpenComment(i)) => Err(Refusal::Fault(
            Cause::IncompleteComment,
            i as u32,
        )),
    }
}

// The count of the table of index `k`.
pub fn count_of(s: State, k: u8) -> u32
    ensures { result ≡ count s k }
{
    let c = s.counts;
    let p = s.posix;
    let i = k as usize;
    if i < 10 {
        return c.n[i];
    }
    let j = i - 10;
    if j < 3 { p.n[j] } else { 0 }
}

pub fn with_count(s: State, k: u8, n: u32) -> State
    ensures { result ≡ with_count s k n }
{
    let i = k as usize;
    if i < 10 {
        let mut c = s.counts;
        c.n[i] = n;
        let mut next = s;
        next.counts = c;
        return next;
    }
    let j = i - 10;
    if j < 3 {
        let mut p = s.posix;
        p.n[j] = n;
        let mut next = s;
        next.posix = p;
        return next;
    }
    s
}

// No room for this row of the table of index `k`.
pub fn no_room(k: u8, row: &[u32]) -> Refusal
    ensures { result ≡ no_room k row.now }
{
    let p = tables::row_place(k);
    Refusal::NoRoom(
        tables::table_number(k),
        tables::cell_in_row(row, p),
        tables::cell_in_row(row, p + 1),
    )
}

// A row is added to the table of index `k`, or there is no room for it.
pub fn push(s: State, k: u8, row: &[u32], t: &mut [u32]) -> Step
    ensures is { ◌≡◌ {A = Out1} (record { answer = result.answer; state = result.state; a = t.new }) (push_row s k row.now t.old) }
    ensures kept { result.state.at ≡ s.at }
{
    let n = count_of(s, k);
    if tables::add_row(t, n, row) {
        Step {
            answer: Answer::Going,
            state: with_count(s, k, n + 1),
        }
    } else {
        Step {
            answer: Answer::Refused(no_room(k, row)),
            state: s,
        }
    }
}

// The same of a name that is new in the table, and the new row is entered into the table's finder.
pub fn push_entered(
    src: &[u8],
    s: State,
    k: u8,
    w: u32,
    name: u8,
    row: &[u32],
    t: &mut [u32],
    ix: &mut [u16],
) -> Step
    requires { Enters k w name row.now × Tracked src.now k w name s.counts t.old ix.old × (find_name src.now w name (count s k) t.old (get_or row.now name 0) (get_or row.now (name + 1) 0) ≡ None) }
    ensures is { ◌≡◌ {A = Out1} (record { answer = result.answer; state = result.state; a = t.new }) (push_row s k row.now t.old) }
    ensures kept { result.state.at ≡ s.at }
    ensures indexed { Follows src.now k w name result.state.counts t.new ix.old ix.new }
{
    let n = count_of(s, k);
    if tables::add_row(t, n, row) {
        finder::enter(src, t, w, name, n, ix);
        Step {
            answer: Answer::Going,
            state: with_count(s, k, n + 1),
        }
    } else {
        Step {
            answer: Answer::Refused(no_room(k, row)),
            state: s,
        }
    }
}

// A repeat of what was first at `a` to `b`, at `c` to `d`: a row of table 10.
pub fn list_repeat(s: State, what: Repeat, a: u32, b: u32, c: u32, d: u32, t: &mut [u32]) -> Step
    ensures is { ◌≡◌ {A = Out1} (record { answer = result.answer; state = result.state; a = t.new }) (list_repeat s what a b c d t.old) }
    ensures kept { result.state.at ≡ s.at }
{
    let row = [repeat_number(what), a, b, c, d];
    push(s, tables::REPEATS, &row, t)
}

// A token is entered into table 1.
pub fn enter(
    src: &[u8],
    s: State,
    from: u32,
    to: u32,
    declared: bool,
    t: &mut [u32],
    ix: &mut [u16],
) -> Step
    requires { Tokens src.now s.counts t.old ix.old }
    ensures is { ◌≡◌ {A = Out1} (record { answer = result.answer; state = result.state; a = t.new }) (enter_step src.now s from to declared t.old) }
    ensures kept { result.state.at ≡ s.at }
    ensures indexed { Tokens src.now result.state.counts t.new ix.new }
{
    let n = count_of(s, tables::TOKENS);
    match finder::enter_token(src, t, n, ix, from, to, declared) {
        Some(m) => Step {
            answer: Answer::Going,
            state: with_count(s, tables::TOKENS, m),
        },
        None => {
            let row = [from, to, 0];
            Step {
                answer: Answer::Refused(no_room(tables::TOKENS, &row)),
                state: s,
            }
        }
    }
}

// The next precedence level.
pub fn next_level(n: u32) -> u32
    ensures { result ≡ next_level n }
{
    if n < 4294967295 { n + 1 } else { n }
}

// Spacing from `j` on, where line ends are allowed; in a list that ends with its line, done where a line end was counted.
pub fn past_gap(src: &[u8], s: State, j: usize, line: bool) -> Step
    requires { Here src.now j }
    ensures is { ◌≡◌ {A = Out0} (record { answer = result.answer; state = result.state }) (past_gap src.now line j s) }
    ensures moved { Onward src.now j s.at result.answer result.state.at }
{
    match pass_gap(src, s.kind, j, true) {
        Ok((i, n)) => {
            let mut next = s;
            next.at = i;
            if line & (n != 0) {
                return Step {
                    answer: Answer::Done,
                    state: next,
                };
            }
            Step {
                answer: Answer::Going,
                state: next,
            }
        }
        Err(f) => Step {
            answer: Answer::Refused(f),
            state: s,
        },
    }
}

// The same behind a step, if it goes on.
pub fn pass_on(src: &[u8], r: Step, j: usize, line: bool) -> Step
    requires { Here src.now j }
    ensures is { ◌≡◌ {A = Out0} (record { answer = result.answer; state = result.state }) (pass_on src.now line j r.answer r.state) }
    ensures moved { Onward src.now j r.state.at result.answer result.state.at }
{
    let a = r.answer;
    let s = r.state;
    match a {
        Answer::Going => past_gap(src, s, j, line),
        Answer::Done => Step {
            answer: Answer::Done,
            state: s,
        },
        Answer::Refused(f) => Step {
            answer: Answer::Refused(f),
            state: s,
        },
    }
}

// What may be given once to a name: a row of table `k + 1`, `w` wide, whose name is at `name`; or a repeat of the row that has this row's name.
pub fn once(
    src: &[u8],
    s: State,
    k: u8,
    w: u32,
    name: u8,
    what: Repeat,
    row: &[u32],
    t: &mut [u32],
    t10: &mut [u32],
    ix: &mut [u16],
) -> Step
    requires { Enters k w name row.now × Tracked src.now k w name s.counts t.old ix.old }
    ensures is { ◌≡◌ {A = Out2} (record { answer = result.answer; state = result.state; a = t.new; b = t10.new }) (once_step src.now s k w name what row.now t.old t10.old) }
    ensures kept { result.state.at ≡ s.at }
    ensures indexed { Follows src.now k w name result.state.counts t.new ix.old ix.new }
{
    let n = count_of(s, k);
    let first = name as u32;
    let from = tables::cell_in_row(row, first);
    let to = tables::cell_in_row(row, first + 1);
    match finder::find(src, t, w, name, n, ix, from, to) {
        Some(r) => {
            let p = tables::row_place(k);
            let a = tables::cell(t, w, r, p);
            let b = tables::cell(t, w, r, p + 1);
            let c = tables::cell_in_row(row, p);
            let d = tables::cell_in_row(row, p + 1);
            list_repeat(s, what, a, b, c, d, t10)
        }
        None => push_entered(src, s, k, w, name, row, t, ix),
    }
}
