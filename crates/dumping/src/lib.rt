// What the program `specdump` does: it reads a box of specifications from standard input and prints, for each, every cell that a reading has, as text that can be
// compared line by line. A text is `x` and the hexadecimal of its bytes; `-` is absent.
#![tactic(auto)]

ghost use Rattle.std.specs.Prelude.{◌≡◌, length, take};
ghost use Rattle.dumping.specs.Counts.{Leading};

use grammar::{Cause, Counts, PosixCounts, Refusal, Singles, Told};
use loading::LoadError;
use places::Spot;
use quiltrudder::{FaultListingAt, ListingAt, ValidityAt, ValuationAt};
use std::fmt;
use std::fmt::Write;
use std::io::Read;

// The kind that fills tables 15 to 17.
const POSIX: u32 = 4;

// ---- Output: what is printed waits in a lent buffer until that is full. ----

const DIGITS: &[u8; 16] = b"0123456789abcdef";

fn hex(c: u8) -> [u8; 2] {
    [DIGITS[(c / 16) as usize], DIGITS[(c % 16) as usize]]
}

// std's writer with a buffer would take it from the heap.
#[derive(Drop)]
struct Output<'a, 'b, R: Print> {
    rt: &'a R,
    waiting: &'b mut [u8],
    at: usize,
}

impl<R: Print> Output<'_, '_, R> {
    // A full buffer is written out only for the next byte.
    fn put(&mut self, c: u8) {
        if self.waiting.len() <= self.at {
            self.flush();
        }
        if let Some(place) = self.waiting.get_mut(self.at) {
            *place = c;
            self.at += 1;
        }
    }

    fn put_all(&mut self, bytes: &[u8]) {
        if let Some(room) = self.waiting.get_mut(self.at..) {
            if bytes.len() <= room.len() {
                room[..bytes.len()].copy_from_slice(bytes);
                self.at += bytes.len();
                return;
            }
        }
        for c in bytes {
            self.put(*c);
        }
    }

    // Two digits a byte, of so many bytes at a time as most often fit.
    fn put_hex(&mut self, text: &[u8]) {
        for part in text.chunks(256) {
            self.put_digits(part);
        }
    }

    fn put_digits(&mut self, text: &[u8]) {
        if let Some(room) = self.waiting.get_mut(self.at..) {
            if text.len() <= room.len() / 2 {
                let (pairs, _) = room.as_chunks_mut::<2>();
                for (pair, c) in pairs.iter_mut().zip(text) {
                    *pair = hex(*c);
                }
                self.at += 2 * text.len();
                return;
            }
        }
        for c in text {
            let [high, low] = hex(*c);
            self.put(high);
            self.put(low);
        }
    }

    // Most cells have one digit.
    fn put_decimal(&mut self, n: u32) {
        if n < 10 {
            return self.put(b'0' + n as u8);
        }
        let mut digits = itoa::Buffer::new();
        self.put_all(digits.format(n).as_bytes());
    }

    // What cannot be written is passed over: the inputs that follow are still read.
    fn flush(&mut self) {
        let rt = self.rt;
        let at = self.at;
        let _ = rt.write_all(names::part(self.waiting, 0, at));
        self.at = 0;
    }
}

impl<R: Print> fmt::Write for Output<'_, '_, R> {
    fn write_str(&mut self, text: &str) -> fmt::Result {
        self.put_all(text.as_bytes());
        Ok(())
    }
}

// What most of the text consists of: numbers and texts with a space in front, and what a row begins with. `write!` would take two to ten times as long for them.
trait Lines: fmt::Write {
    fn put_number(&mut self, n: u32) -> fmt::Result;

    fn put_label(&mut self, table: u8, row: u32) -> fmt::Result;

    fn put_part(&mut self, part: Part<'_>) -> fmt::Result;
}

impl<R: Print> Lines for Output<'_, '_, R> {
    fn put_number(&mut self, n: u32) -> fmt::Result {
        self.put(b' ');
        self.put_decimal(n);
        Ok(())
    }

    fn put_label(&mut self, table: u8, row: u32) -> fmt::Result {
        self.put(b't');
        self.put_decimal(u32::from(table));
        self.put_number(row)
    }

    fn put_part(&mut self, part: Part<'_>) -> fmt::Result {
        match part {
            Part::Absent => self.put_all(b" -"),
            Part::NoPlace => self.put_all(b" no-place"),
            Part::Text(text) => {
                self.put_all(b" x");
                self.put_hex(text);
            }
        }
        Ok(())
    }
}

// ---- Input: a lent buffer, and where it stands. An end need not last, as at a terminal: what is missing is 0, and is asked for again. ----

// The next byte of the buffer, and how many it holds.
#[derive(Clone, Copy)]
pub struct Feed {
    pub at: usize,
    pub have: usize,
}

#[derive(Drop)]
struct Supply<'a, R: Read + Drop> {
    from: R,
    buffer: &'a mut [u8],
    feed: Feed,
}

// An input, but for its bytes. Its kind may be any byte: reading refuses those that it does not know.
#[derive(Clone, Copy)]
pub struct Head {
    pub kind: u32,
    pub size: u32,
}

impl<R: Read + Drop> Supply<'_, R> {
    fn byte(&mut self) -> Option<u8> {
        if self.feed.at == self.feed.have {
            self.feed.have = streams::read_full(&mut self.from, self.buffer);
            self.feed.at = 0;
        }
        if self.feed.at < self.feed.have && self.feed.at < self.buffer.len() {
            let c = self.buffer[self.feed.at];
            self.feed.at += 1;
            return Some(c);
        }
        None
    }

    // Four bytes, low first; an error is what there is of them where the last one is missing.
    fn number(&mut self) -> Result<u32, u32> {
        let mut bytes = [0; 4];
        for byte in &mut bytes[..3] {
            *byte = self.byte().unwrap_or(0);
        }
        let last = self.byte();
        bytes[3] = last.unwrap_or(0);
        let n = u32::from_le_bytes(bytes);
        match last {
            Some(_) => Ok(n),
            None => Err(n),
        }
    }

    // The rows lent for tables 1 to 10, with which the input begins; 0 for all there are.
    fn rooms(&mut self) -> [u32; 10] {
        let mut rooms = [0; 10];
        for room in &mut rooms {
            *room = match self.number() {
                Ok(n) | Err(n) => n,
            };
        }
        rooms
    }

    // An input's bytes, as far as they fit; the others are passed over.
    fn text(&mut self, text: &mut [u8], size: u32) -> Option<()> {
        for i in 0..size {
            let c = self.byte()?;
            values::set_byte(text, i as usize, c);
        }
        Some(())
    }

    // The next input, its bytes in `text`.
    fn input(&mut self, text: &mut [u8]) -> Option<Head> {
        let kind = u32::from(self.byte().unwrap_or(0));
        let Ok(size) = self.number() else {
            return None;
        };
        self.text(text, size)?;
        Some(Head { kind, size })
    }
}

// ---- What is printed in a line. ----

// A part of the source. A reading has no places but those of parts.
#[derive(Clone, Copy)]
enum Part<'a> {
    Absent,
    NoPlace,
    Text(&'a [u8]),
}

impl<'a> Part<'a> {
    fn at(src: &'a [u8], from: u32, to: u32) -> Self {
        match src.get(from as usize..to as usize) {
            Some(text) => Part::Text(text),
            None => Part::NoPlace,
        }
    }

    fn of(src: &'a [u8], place: Option<(u32, u32)>) -> Self {
        match place {
            Some((from, to)) => Part::at(src, from, to),
            None => Part::Absent,
        }
    }
}

// An answer's number and place; 42 has the table too.
#[derive(Clone, Copy)]
struct Answer(Told);

impl fmt::Display for Answer {
    fn fmt<W: Write>(&self, f: &mut fmt::Formatter<W>) -> fmt::Result {
        let t = self.0;
        write!(f, "{} {} {}", t.number, t.from, t.to)?;
        if t.table != 0 {
            write!(f, " {}", t.table)?;
        }
        Ok(())
    }
}

// ---- Rows: `t`, the table's number, the row's number, then what it holds. ----

// The tables that are printed, by number.
#[derive(Clone, Copy)]
enum Table {
    Tokens = 1,
    Precedences = 2,
    Avoided = 3,
    Implicit = 4,
    Epps = 5,
    Unused = 6,
    Rules = 7,
    Productions = 8,
    Symbols = 9,
    Repeats = 10,
    Report = 12,
    Faults = 14,
    Tags = 15,
    TokenNumbers = 16,
    Bodies = 17,
}

impl Table {
    fn width(self) -> u32 {
        match self {
            Table::Tokens => tables::TOKEN_WIDTH,
            Table::Precedences => tables::PRECEDENCE_WIDTH,
            Table::Avoided | Table::Implicit => tables::NAME_WIDTH,
            Table::Epps => tables::EPP_WIDTH,
            Table::Unused => tables::UNUSED_WIDTH,
            Table::Rules => tables::RULE_WIDTH,
            Table::Productions => tables::PRODUCTION_WIDTH,
            Table::Symbols => tables::SYMBOL_WIDTH,
            Table::Repeats => tables::REPEAT_WIDTH,
            Table::Report => 2,
            Table::Faults => tables::FAULT_WIDTH,
            Table::Tags => tables::TAG_WIDTH,
            Table::TokenNumbers => tables::TOKEN_NUMBER_WIDTH,
            Table::Bodies => tables::BODY_WIDTH,
        }
    }
}

// A row of a table, and the source in which its places lie.
#[derive(Clone, Copy)]
struct Row<'a> {
    src: &'a [u8],
    table: Table,
    cells: &'a [u32],
    wide: u32,
    number: u32,
}

impl<'a> Row<'a> {
    fn of(src: &'a [u8], table: Table, cells: &'a [u32], number: u32) -> Self {
        let wide = table.width();
        Row {
            src,
            table,
            cells,
            wide,
            number,
        }
    }

    fn cell(self, k: u32) -> u32 {
        tables::cell(self.cells, self.wide, self.number, k)
    }

    fn part(self, from: u32, to: u32) -> Part<'a> {
        Part::at(self.src, self.cell(from), self.cell(to))
    }

    // A text where a flag says that there is one.
    fn flagged(self, flag: u32, from: u32, to: u32) -> Part<'a> {
        if self.cell(flag) == 0 {
            Part::Absent
        } else {
            self.part(from, to)
        }
    }
}

// The first `n` cells of a row.
fn put_cells(out: &mut impl Lines, row: Row<'_>, n: u32) -> fmt::Result {
    for k in 0..n {
        out.put_number(row.cell(k))?;
    }
    Ok(())
}

// The place that two cells hold.
fn put_place(out: &mut impl Lines, row: Row<'_>, from: u32, to: u32) -> fmt::Result {
    out.put_number(row.cell(from))?;
    out.put_number(row.cell(to))
}

// All cells of a row, and the name that stands in two of them.
fn put_named(out: &mut impl Lines, row: Row<'_>, from: u32, to: u32) -> fmt::Result {
    put_cells(out, row, row.wide)?;
    out.put_part(row.part(from, to))
}

// Kind, place and name of a symbol, and the row of its rule or token.
fn put_symbol(out: &mut impl Lines, row: Row<'_>) -> fmt::Result {
    put_cells(out, row, tables::KNOWN_ROW)?;
    out.put_part(row.part(1, 2))?;
    match row.cell(tables::KNOWN_ROW) {
        tables::NO_ROW => out.put_part(Part::Absent),
        known => out.put_number(known),
    }
}

fn put_rule(out: &mut impl Lines, row: Row<'_>) -> fmt::Result {
    put_place(out, row, 0, 1)?;
    out.put_part(row.part(0, 1))?;
    out.put_part(row.flagged(2, 3, 4))
}

// The action's own span, and its trimmed text.
fn put_action(out: &mut impl Lines, row: Row<'_>) -> fmt::Result {
    if row.cell(tables::ACTION) == 0 {
        return out.write_str(" - - -");
    }
    put_place(out, row, tables::SPAN_FROM, tables::SPAN_TO)?;
    out.put_part(row.part(tables::TEXT_FROM, tables::TEXT_TO))
}

fn put_production(out: &mut impl Lines, row: Row<'_>) -> fmt::Result {
    put_cells(out, row, tables::PREC)?;
    let prec = row.flagged(tables::PREC, tables::PREC_FROM, tables::PREC_TO);
    out.put_part(prec)?;
    put_action(out, row)
}

// What a row holds. Those of tables 10, 12 and 14 have no names; table 5 has a value besides, which a reading gives.
fn put_held(out: &mut impl Lines, row: Row<'_>) -> fmt::Result {
    match row.table {
        Table::Tokens
        | Table::Precedences
        | Table::Avoided
        | Table::Implicit
        | Table::TokenNumbers => put_named(out, row, 0, 1),
        Table::Unused | Table::Bodies => put_named(out, row, 1, 2),
        Table::Rules => put_rule(out, row),
        Table::Productions => put_production(out, row),
        Table::Symbols => put_symbol(out, row),
        Table::Tags => {
            put_named(out, row, 0, 1)?;
            out.put_part(row.part(2, 3))
        }
        Table::Epps => {
            put_cells(out, row, 2)?;
            out.put_part(row.part(2, 3))?;
            put_place(out, row, 4, 5)
        }
        Table::Repeats | Table::Report | Table::Faults => put_cells(out, row, row.wide),
    }
}

fn put_row(out: &mut impl Lines, row: Row<'_>) -> fmt::Result {
    out.put_label(row.table as u8, row.number)?;
    put_held(out, row)
}

fn put_rows(out: &mut impl Lines, src: &[u8], table: Table, cells: &[u32], n: u32) -> fmt::Result {
    for number in 0..n {
        put_row(out, Row::of(src, table, cells, number))?;
        out.write_str("\n")?;
    }
    Ok(())
}

// ---- Errors: repeats by number and first place, in the order in which those come first. ----

// The cells of a row of table 10: number; first from, to; repeated from, to.
const REPEAT_CELLS: usize = 5;

fn is_same_group(a: &[u32; REPEAT_CELLS], b: &[u32; REPEAT_CELLS]) -> bool {
    a[1] == b[1] && a[0] == b[0] && a[2] == b[2]
}

// A group by the first of its rows and those from it on: its number and place, and each repeated place.
fn put_group(
    out: &mut impl Lines,
    first: &[u32; REPEAT_CELLS],
    rows: &[[u32; REPEAT_CELLS]],
) -> fmt::Result {
    out.write_str("error")?;
    for cell in &first[..3] {
        out.put_number(*cell)?;
    }
    for row in rows {
        if is_same_group(first, row) {
            out.put_number(row[3])?;
            out.put_number(row[4])?;
        }
    }
    out.write_str("\n")
}

// A row begins a group where no row before belongs to the same.
fn put_groups(out: &mut impl Lines, t10: &[u32], n: u32) -> fmt::Result {
    let (all, _) = t10.as_chunks::<REPEAT_CELLS>();
    let rows = &all[..all.len().min(n as usize)];
    for (i, first) in rows.iter().enumerate() {
        if rows[..i].iter().all(|row| !is_same_group(first, row)) {
            put_group(out, first, &rows[i..])?;
        }
    }
    Ok(())
}

// ---- A reading: the source, its counts and singles, tables 1 to 10, and the indexes of tables 1 and 7. ----

#[derive(Drop)]
struct Reading<'a> {
    src: &'a [u8],
    counts: Counts,
    singles: Singles,
    t1: &'a [u32],
    t2: &'a [u32],
    t3: &'a [u32],
    t4: &'a [u32],
    t5: &'a [u32],
    t6: &'a [u32],
    t7: &'a [u32],
    t8: &'a [u32],
    t9: &'a [u32],
    t10: &'a [u32],
    i1: &'a [u32],
    i7: &'a [u32],
}

impl Reading<'_> {
    // The rows of the table with index `k`.
    fn rows(&self, k: u8) -> u32 {
        sound::rows_of(self.counts, k)
    }

    fn validate(&self) -> ValidityAt {
        quiltrudder::validate(
            self.src,
            self.counts,
            self.singles,
            self.t1,
            self.t2,
            self.t3,
            self.t4,
            self.t5,
            self.t6,
            self.t7,
            self.t8,
            self.t9,
            self.t10,
            self.i1,
            self.i7,
        )
    }

    fn faults(&self, t14: &mut [u32]) -> FaultListingAt {
        quiltrudder::faults(
            self.src,
            self.counts,
            self.singles,
            self.t1,
            self.t2,
            self.t3,
            self.t4,
            self.t5,
            self.t6,
            self.t7,
            self.t8,
            self.t9,
            self.t10,
            self.i1,
            self.i7,
            t14,
        )
    }

    fn report(&self, work: &mut [u32], report: &mut [u32]) -> ListingAt {
        quiltrudder::report(
            self.src,
            self.counts,
            self.singles,
            self.t1,
            self.t2,
            self.t3,
            self.t4,
            self.t5,
            self.t6,
            self.t7,
            self.t8,
            self.t9,
            self.t10,
            self.i1,
            self.i7,
            work,
            report,
        )
    }

    fn epp_value(&self, row: u32, value: &mut [u8]) -> ValuationAt {
        quiltrudder::epp_value(
            self.src,
            self.counts,
            self.singles,
            self.t1,
            self.t2,
            self.t3,
            self.t4,
            self.t5,
            self.t6,
            self.t7,
            self.t8,
            self.t9,
            self.t10,
            self.i1,
            self.i7,
            row,
            value,
        )
    }

    // Row `row` of table 5.
    fn epp(&self, row: u32) -> Row<'_> {
        Row::of(self.src, Table::Epps, self.t5, row)
    }
}

// ---- The answer of a load. ----

// A refusal of reading at an offset.
fn is_at_offset(answer: Result<u32, LoadError>) -> bool {
    match answer {
        Err(LoadError::NotRead(Refusal::Fault(Cause::NotUtf8, _))) => false,
        Err(LoadError::NotRead(Refusal::Fault(..))) => true,
        _ => false,
    }
}

// A refusal after which tables 1 to 9 are empty: any of reading but a repeat's.
fn is_fatal(answer: Result<u32, LoadError>) -> bool {
    match answer {
        Err(LoadError::NotRead(Refusal::Repeated(..))) => false,
        Err(LoadError::NotRead(_)) => true,
        Ok(_) | Err(LoadError::NotValid(_)) => false,
    }
}

// A line of an operation's answer, with line and column of its place.
fn put_located(out: &mut impl Lines, word: &str, told: Told, spot: Spot) -> fmt::Result {
    let answer = Answer(told);
    writeln!(out, "{word} {answer} {} {}", spot.line, spot.column)
}

fn put_loading(
    out: &mut impl Lines,
    r: &Reading<'_>,
    answer: Result<u32, LoadError>,
    spot: Spot,
) -> fmt::Result {
    let told = numbers::of_judgement(answer);
    put_located(out, "load", told, spot)?;
    put_groups(out, r.t10, r.rows(tables::REPEATS))?;
    if is_at_offset(answer) {
        writeln!(out, "error {} {} {}", told.number, told.from, told.to)?;
    }
    out.write_str("counts")?;
    for n in r.counts.n {
        write!(out, " {n}")?;
    }
    out.write_str("\n")
}

// ---- Singles. ----

fn put_start(out: &mut impl Lines, src: &[u8], start: Option<(u32, u32)>) -> fmt::Result {
    match start {
        None => writeln!(out, "start - - -"),
        Some((from, to)) => {
            write!(out, "start {from} {to}")?;
            out.put_part(Part::at(src, from, to))?;
            out.write_str("\n")
        }
    }
}

fn put_expect(out: &mut impl Lines, word: &str, expect: Option<(u64, u32, u32)>) -> fmt::Result {
    match expect {
        None => writeln!(out, "{word} - - -"),
        Some((n, from, to)) => writeln!(out, "{word} {n} {from} {to}"),
    }
}

fn put_param(out: &mut impl Lines, src: &[u8], param: Option<(u32, u32, u32, u32)>) -> fmt::Result {
    match param {
        None => writeln!(out, "param - -"),
        Some((a, b, c, d)) => {
            out.write_str("param")?;
            out.put_part(Part::at(src, a, b))?;
            out.put_part(Part::at(src, c, d))?;
            out.write_str("\n")
        }
    }
}

fn put_singles(out: &mut impl Lines, src: &[u8], g: &Singles) -> fmt::Result {
    put_start(out, src, g.start)?;
    put_expect(out, "expect", g.expect)?;
    put_expect(out, "expect-rr", g.expect_rr)?;
    put_param(out, src, g.param)?;
    out.write_str("generics")?;
    out.put_part(Part::of(src, g.generics))?;
    out.write_str("\nprograms")?;
    out.put_part(Part::of(src, g.programs))?;
    out.write_str("\n")
}

// ---- Lent memory. ----

// At most `n` cells from the first on.
fn up_to(n: usize, t: &[u32]) -> usize
    ensures { Leading result t.now }
{
    n.min(t.len())
}

// At most `n` bytes from the first on.
fn bytes_up_to(n: usize, text: &[u8]) -> usize
    ensures { Leading result text.now }
{
    n.min(text.len())
}

// ---- `%epp` rows: the key as spelled, its name, the value with its quotes, and without its escapes. ----

// As many bytes as the value has with its quotes.
fn value_room(row: Row<'_>) -> usize {
    row.cell(5).saturating_sub(row.cell(4)) as usize
}

fn put_epp(out: &mut impl Lines, r: &Reading<'_>, row: Row<'_>, value: &mut [u8]) -> fmt::Result {
    put_row(out, row)?;
    match r.epp_value(row.number, value).answer {
        Ok(n) => {
            out.put_part(Part::Text(names::part(value, 0, n)))?;
            out.write_str("\n")
        }
        refused => writeln!(out, " refused {}", Answer(numbers::of_valuation(refused))),
    }
}

fn put_epps(out: &mut impl Lines, r: &Reading<'_>, value: &mut [u8]) -> fmt::Result {
    for number in 0..r.rows(tables::EPPS) {
        let row = r.epp(number);
        let n = bytes_up_to(value_room(row), value);
        put_epp(out, r, row, &mut value[..n])?;
    }
    Ok(())
}

// ---- All tables, then the singles. ----

// Tables 1 to 4.
fn put_first(out: &mut impl Lines, r: &Reading<'_>) -> fmt::Result {
    put_rows(out, r.src, Table::Tokens, r.t1, r.rows(tables::TOKENS))?;
    put_rows(
        out,
        r.src,
        Table::Precedences,
        r.t2,
        r.rows(tables::PRECEDENCES),
    )?;
    put_rows(out, r.src, Table::Avoided, r.t3, r.rows(tables::AVOIDED))?;
    put_rows(out, r.src, Table::Implicit, r.t4, r.rows(tables::IMPLICIT))
}

// Tables 6 to 9.
fn put_last(out: &mut impl Lines, r: &Reading<'_>) -> fmt::Result {
    put_rows(out, r.src, Table::Unused, r.t6, r.rows(tables::UNUSED))?;
    put_rows(out, r.src, Table::Rules, r.t7, r.rows(tables::RULES))?;
    put_rows(
        out,
        r.src,
        Table::Productions,
        r.t8,
        r.rows(tables::PRODUCTIONS),
    )?;
    put_rows(out, r.src, Table::Symbols, r.t9, r.rows(tables::SYMBOLS))
}

fn put_repeats(out: &mut impl Lines, r: &Reading<'_>) -> fmt::Result {
    put_rows(out, r.src, Table::Repeats, r.t10, r.rows(tables::REPEATS))
}

fn put_tables(out: &mut impl Lines, r: &Reading<'_>, value: &mut [u8]) -> fmt::Result {
    put_first(out, r)?;
    put_epps(out, r, value)?;
    put_last(out, r)?;
    put_repeats(out, r)
}

// ---- The faults. ----

// Each row of table 14, with line and column of its place. No listing has as many rows as there are numbers.
fn put_all_faults(out: &mut impl Lines, src: &[u8], t14: &[u32], n: usize) -> fmt::Result {
    for number in (0..u32::MAX).take(n) {
        let row = Row::of(src, Table::Faults, t14, number);
        out.write_str("fault")?;
        put_cells(out, row, tables::FAULT_WIDTH)?;
        let spot = quiltrudder::locate(src, row.cell(1));
        out.put_number(spot.line)?;
        out.put_number(spot.column)?;
        out.write_str("\n")?;
    }
    Ok(())
}

fn put_faults(out: &mut impl Lines, r: &Reading<'_>, t14: &mut [u32]) -> fmt::Result {
    match r.faults(t14).answer {
        Ok(n) => put_all_faults(out, r.src, t14, n),
        refused => writeln!(out, "faults {}", Answer(numbers::of_fault_listing(refused))),
    }
}

// ---- The report. ----

// A row of the report, with the place of the rule's or token's name.
fn put_unused(out: &mut impl Lines, r: &Reading<'_>, row: Row<'_>) -> fmt::Result {
    let kind = row.cell(0);
    let number = row.cell(1);
    out.write_str("unused")?;
    out.put_number(kind)?;
    out.put_number(number)?;
    let (table, cells) = if kind == 1 {
        (Table::Rules, r.t7)
    } else {
        (Table::Tokens, r.t1)
    };
    let named = Row::of(r.src, table, cells, number);
    put_place(out, named, 0, 1)?;
    out.write_str("\n")
}

fn put_all_unused(out: &mut impl Lines, r: &Reading<'_>, report: &[u32], n: usize) -> fmt::Result {
    for number in (0..u32::MAX).take(n) {
        let row = Row::of(r.src, Table::Report, report, number);
        put_unused(out, r, row)?;
    }
    Ok(())
}

fn put_work(out: &mut impl Lines, work: &[u32]) -> fmt::Result {
    out.write_str("work")?;
    for word in work {
        write!(out, " {word:08x}")?;
    }
    out.write_str("\n")
}

// The report in just as many words and rows as it can need.
fn put_report(
    out: &mut impl Lines,
    r: &Reading<'_>,
    work: &mut [u32],
    report: &mut [u32],
) -> fmt::Result {
    match r.report(work, report).answer {
        Ok(n) => {
            put_all_unused(out, r, report, n)?;
            put_work(out, work)
        }
        refused => writeln!(out, "report {}", Answer(numbers::of_listing(refused))),
    }
}

// Words for a bit for each rule, then for each token.
fn work_room(r: &Reading<'_>) -> usize {
    reach::words_for(r.rows(tables::RULES)) + reach::words_for(r.rows(tables::TOKENS))
}

// Cells for a report of every rule and every token.
fn report_room(r: &Reading<'_>) -> usize {
    2 * (r.rows(tables::RULES) as usize + r.rows(tables::TOKENS) as usize)
}

// What the operations on a reading write besides: the report's work bits and rows, and a value's text. The rows serve as table 14 before the report is made.
#[derive(Drop)]
struct Scratch<'a> {
    work: &'a mut [u32],
    report: &'a mut [u32],
    value: &'a mut [u8],
}

fn put_validity(out: &mut impl Lines, r: &Reading<'_>, scratch: &mut Scratch<'_>) -> fmt::Result {
    let v = r.validate();
    put_located(out, "validate", numbers::of_validity(v.answer), v.spot)?;
    put_faults(out, r, scratch.report)?;
    if v.answer.is_err() {
        return Ok(());
    }
    let n = up_to(work_room(r), scratch.work);
    let m = up_to(report_room(r), scratch.report);
    put_report(out, r, &mut scratch.work[..n], &mut scratch.report[..m])
}

// ---- An input. ----

fn put_outcome(
    out: &mut impl Lines,
    r: &Reading<'_>,
    answer: Result<u32, LoadError>,
    spot: Spot,
    scratch: &mut Scratch<'_>,
) -> fmt::Result {
    put_loading(out, r, answer, spot)?;
    if is_fatal(answer) {
        return put_repeats(out, r);
    }
    put_tables(out, r, scratch.value)?;
    put_singles(out, r.src, &r.singles)?;
    put_validity(out, r, scratch)
}

// What kind 4 has besides: three counts, and the rows of tables 15 to 17.
fn put_posix(
    out: &mut impl Lines,
    src: &[u8],
    c: PosixCounts,
    t15: &[u32],
    t16: &[u32],
    t17: &[u32],
) -> fmt::Result {
    let [tags, numbers, bodies] = c.n;
    writeln!(out, "posix {tags} {numbers} {bodies}")?;
    put_rows(out, src, Table::Tags, t15, tags)?;
    put_rows(out, src, Table::TokenNumbers, t16, numbers)?;
    put_rows(out, src, Table::Bodies, t17, bodies)
}

// The memory lent for a reading: tables 1 to 10 and 15 to 17, and the indexes of tables 1 and 7.
#[derive(Drop)]
struct Lent<'a> {
    t1: &'a mut [u32],
    t2: &'a mut [u32],
    t3: &'a mut [u32],
    t4: &'a mut [u32],
    t5: &'a mut [u32],
    t6: &'a mut [u32],
    t7: &'a mut [u32],
    t8: &'a mut [u32],
    t9: &'a mut [u32],
    t10: &'a mut [u32],
    t15: &'a mut [u32],
    t16: &'a mut [u32],
    t17: &'a mut [u32],
    i1: &'a mut [u32],
    i7: &'a mut [u32],
}

fn dump(
    out: &mut impl Lines,
    src: &[u8],
    kind: u32,
    lent: Lent<'_>,
    scratch: &mut Scratch<'_>,
) -> fmt::Result {
    let Lent {
        t1,
        t2,
        t3,
        t4,
        t5,
        t6,
        t7,
        t8,
        t9,
        t10,
        t15,
        t16,
        t17,
        i1,
        i7,
    } = lent;
    let l = quiltrudder::load(
        src, kind, t1, t2, t3, t4, t5, t6, t7, t8, t9, t10, i1, i7, t15, t16, t17,
    );
    let r = Reading {
        src,
        counts: l.counts,
        singles: l.singles,
        t1,
        t2,
        t3,
        t4,
        t5,
        t6,
        t7,
        t8,
        t9,
        t10,
        i1,
        i7,
    };
    put_outcome(out, &r, l.answer, l.spot, scratch)?;
    if kind == POSIX {
        put_posix(out, src, l.posix, t15, t16, t17)?;
    }
    Ok(())
}

// The rows to lend: those asked for, but never more than one for each byte and two more, which no reading fills.
fn rows_lent(asked: u32, size: u32) -> u32 {
    let most = size.min(65536) + 2;
    if asked == 0 { most } else { asked.min(most) }
}

// As many cells of a table as are to be lent.
fn cells(t: &mut [u32], wide: u32, asked: u32, size: u32) -> &mut [u32]
    ensures { result.now ≡ take (length result.now) t.old }
{
    let n = up_to(rows_lent(asked, size) as usize * wide as usize, t);
    &mut t[..n]
}

// As many slots of an index as are to be lent with `rows` rows of its table: the first power of two that is twice the rows or more, as far as the index goes.
fn slots(ix: &mut [u32], rows: usize) -> &mut [u32]
    ensures { result.now ≡ take (length result.now) ix.old }
{
    let n = up_to((2 * rows.min(32768)).next_power_of_two(), ix);
    &mut ix[..n]
}

// The text of an input of `size` bytes, as many of which stand in `src` as fit there.
fn dump_lent(
    out: &mut impl Lines,
    src: &[u8],
    head: Head,
    rooms: &[u32; 10],
    all: &mut Lent<'_>,
    scratch: &mut Scratch<'_>,
) -> fmt::Result {
    let size = head.size;
    let t1 = cells(all.t1, tables::TOKEN_WIDTH, rooms[0], size);
    let t7 = cells(all.t7, tables::RULE_WIDTH, rooms[6], size);
    let i1 = slots(all.i1, t1.len() / tables::TOKEN_WIDTH as usize);
    let i7 = slots(all.i7, t7.len() / tables::RULE_WIDTH as usize);
    let lent = Lent {
        t1,
        t2: cells(all.t2, tables::PRECEDENCE_WIDTH, rooms[1], size),
        t3: cells(all.t3, tables::NAME_WIDTH, rooms[2], size),
        t4: cells(all.t4, tables::NAME_WIDTH, rooms[3], size),
        t5: cells(all.t5, tables::EPP_WIDTH, rooms[4], size),
        t6: cells(all.t6, tables::UNUSED_WIDTH, rooms[5], size),
        t7,
        t8: cells(all.t8, tables::PRODUCTION_WIDTH, rooms[7], size),
        t9: cells(all.t9, tables::SYMBOL_WIDTH, rooms[8], size),
        t10: cells(all.t10, tables::REPEAT_WIDTH, rooms[9], size),
        // Nothing is asked for these three.
        t15: cells(all.t15, tables::TAG_WIDTH, 0, size),
        t16: cells(all.t16, tables::TOKEN_NUMBER_WIDTH, 0, size),
        t17: cells(all.t17, tables::BODY_WIDTH, 0, size),
        i1,
        i7,
    };
    dump(out, src, head.kind, lent, scratch)
}

// One input after the other. Nothing says that there is a last one, so the loop ends with the numbers too.
fn dump_all<R: Read + Drop>(
    out: &mut impl Lines,
    supply: &mut Supply<'_, R>,
    text: &mut [u8],
    all: &mut Lent<'_>,
    scratch: &mut Scratch<'_>,
) -> fmt::Result {
    let rooms = supply.rooms();
    for index in 0..u64::MAX {
        let Some(head) = supply.input(text) else {
            break;
        };
        writeln!(out, "input {index} {} {}", head.kind, head.size)?;
        let n = bytes_up_to(head.size as usize, text);
        dump_lent(out, &text[..n], head, &rooms, all, scratch)?;
    }
    Ok(())
}

// The rooms of this program: 21,900 rows of tables 1, 2, 3, 4 and 7, 8,192 of table 5, 32,768 of tables 6, 8, 9, 10, 14 and 15, 22,000 of table 16, 16,400 of table 17; work bits and a report for the rules and
// tokens; a byte more than a source may have. No source of up to 65,536 bytes fills tables 1 to 7, 9, 10 and 14 to 17. One of little else than `|` has more productions than table 8 has room
// for, and is refused with 42.
pub fn dump_input(rt: &(impl Input + Print)) {
    let mut out = Output {
        rt,
        waiting: &mut [0; 65536],
        at: 0,
    };
    let mut supply = Supply {
        from: rt.reader(),
        buffer: &mut [0; 65536],
        feed: Feed { at: 0, have: 0 },
    };
    let mut all = Lent {
        t1: &mut [0; 65700],
        t2: &mut [0; 87600],
        t3: &mut [0; 43800],
        t4: &mut [0; 43800],
        t5: &mut [0; 49152],
        t6: &mut [0; 98304],
        t7: &mut [0; 109500],
        t8: &mut [0; 425984],
        t9: &mut [0; 131072],
        t10: &mut [0; 163840],
        t15: &mut [0; 131072],
        t16: &mut [0; 66000],
        t17: &mut [0; 49200],
        i1: &mut [0; 65536],
        i7: &mut [0; 65536],
    };
    let mut scratch = Scratch {
        work: &mut [0; 1370],
        report: &mut [0; 98304],
        value: &mut [0; 65536],
    };
    let mut text = [0; 65537];
    let _ = dump_all(&mut out, &mut supply, &mut text, &mut all, &mut scratch);
    out.flush();
}
