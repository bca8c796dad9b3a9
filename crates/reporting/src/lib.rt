// What the program `specreport` does: it loads a specification of kind 1 from standard input and prints what load answers, and behind an accepted one the rules and tokens that nothing uses.
#![tactic(auto)]

ghost use Rattle.std.specs.Prelude.{◌≡◌, []};
ghost use Rattle.loading.specs.Load.{judgement_numbers, LoadResult, load_all};
ghost use Rattle.numbers.specs.Numbers.{answer_spot};

use grammar::Told;
use quiltrudder::{ListingAt, LoadingAt};

// The tables and indexes that are lent for a source of kind 1.
#[derive(Drop)]
pub struct Rooms<'a> {
    pub t1: &'a mut [u32],
    pub t2: &'a mut [u32],
    pub t3: &'a mut [u32],
    pub t4: &'a mut [u32],
    pub t5: &'a mut [u32],
    pub t6: &'a mut [u32],
    pub t7: &'a mut [u32],
    pub t8: &'a mut [u32],
    pub t9: &'a mut [u32],
    pub t10: &'a mut [u32],
    pub i1: &'a mut [u32],
    pub i7: &'a mut [u32],
}

// Which of the tables with names a row is of.
#[derive(Clone, Copy)]
pub enum Named {
    Rule,
    Token,
}

// By the kind that a row of the report has.
impl From<u32> for Named {
    ghost use Rattle.std.specs.Prelude.{eqb, if◌then◌else◌};
    ghost use Rattle.reporting.specs.declared.Named.TheVariants.{Rule, Token};

    ghost from_gives = { λ kind named. named ≡ if eqb kind 1 then Rule else Token };

    fn from(kind: u32) -> Self {
        match kind {
            1 => Named::Rule,
            _ => Named::Token,
        }
    }
}

impl Rooms<'_> {
    pub fn load(&mut self, src: &[u8]) -> LoadingAt
        ensures fact { ◌≡◌ {A = LoadResult} (record { answer = result.answer; counts = result.counts; posix = result.posix; singles = result.singles; tables = record { t1 = self.new.t1.now; t2 = self.new.t2.now; t3 = self.new.t3.now; t4 = self.new.t4.now; t5 = self.new.t5.now; t6 = self.new.t6.now; t7 = self.new.t7.now; t8 = self.new.t8.now; t9 = self.new.t9.now; t10 = self.new.t10.now; t15 = []; t16 = []; t17 = [] }; indexes = record { tokens = self.new.i1.now; rules = self.new.i7.now } }) (load_all src.now 1 (record { t1 = self.old.t1.now; t2 = self.old.t2.now; t3 = self.old.t3.now; t4 = self.old.t4.now; t5 = self.old.t5.now; t6 = self.old.t6.now; t7 = self.old.t7.now; t8 = self.old.t8.now; t9 = self.old.t9.now; t10 = self.old.t10.now; t15 = []; t16 = []; t17 = [] }) (record { tokens = self.old.i1.now; rules = self.old.i7.now })) }
        ensures spot_value { result.spot ≡ answer_spot src.now (judgement_numbers result.answer) }
    {
        // No kind but 4 fills tables 15 to 17.
        let (t15, t16, t17) = (&mut [], &mut [], &mut []);
        quiltrudder::load(
            src, 1, self.t1, self.t2, self.t3, self.t4, self.t5, self.t6, self.t7, self.t8,
            self.t9, self.t10, self.i1, self.i7, t15, t16, t17,
        )
    }

    fn report(
        &self,
        src: &[u8],
        loaded: LoadingAt,
        work: &mut [u32],
        out: &mut [u32],
    ) -> ListingAt {
        quiltrudder::report(
            src,
            loaded.counts,
            loaded.singles,
            self.t1,
            self.t2,
            self.t3,
            self.t4,
            self.t5,
            self.t6,
            self.t7,
            self.t8,
            self.t9,
            self.t10,
            self.i1,
            self.i7,
            work,
            out,
        )
    }
}

pub fn print_answer(rt: &impl Print, t: Told) {
    let _ = println!(rt; "answer {} {} {}", t.number, t.from, t.to);
}

// A rule or a token, with the place of its name.
pub fn print_named(rt: &impl Print, t1: &[u32], t7: &[u32], named: impl Into<Named>, row: u32) {
    let (word, t, w) = match named.into() {
        Named::Rule => ("rule", t7, tables::RULE_WIDTH),
        Named::Token => ("token", t1, tables::TOKEN_WIDTH),
    };
    let from = tables::cell(t, w, row, 0);
    let to = tables::cell(t, w, row, 1);
    let _ = println!(rt; "{word} {from} {to}");
}

// The first `n` rows of the report.
fn print_rows(rt: &impl Print, rooms: &Rooms, out: &[u32], n: usize) {
    let (rows, _) = out.as_chunks::<2>();
    for &[kind, row] in rows.iter().take(n) {
        print_named(rt, rooms.t1, rooms.t7, kind, row);
    }
}

// Load's answer if it is a refusal, else the report's, or load's and the rows.
fn print_report(rt: &impl Print, src: &[u8], rooms: &mut Rooms, work: &mut [u32], out: &mut [u32]) {
    let loaded = rooms.load(src);
    let judged = numbers::of_judgement(loaded.answer);
    if loaded.answer.is_err() {
        return print_answer(rt, judged);
    }
    let listed = rooms.report(src, loaded, work, out).answer;
    match listed {
        Ok(n) => {
            print_answer(rt, judged);
            print_rows(rt, rooms, out, n);
        }
        Err(_) => print_answer(rt, numbers::of_listing(listed)),
    }
}

// 1,024 rows a table, 2,048 slots an index, 2,048 rows for the report, and a byte more than a source may have.
pub fn report_input(rt: &(impl Input + Print)) {
    let mut text = [0; 65537];
    let n = streams::read_full(&mut rt.reader(), &mut text);
    let mut t1 = [0; 3072];
    let mut t2 = [0; 4096];
    let mut t3 = [0; 2048];
    let mut t4 = [0; 2048];
    let mut t5 = [0; 6144];
    let mut t6 = [0; 3072];
    let mut t7 = [0; 5120];
    let mut t8 = [0; 13312];
    let mut t9 = [0; 4096];
    let mut t10 = [0; 5120];
    let mut i1 = [0; 2048];
    let mut i7 = [0; 2048];
    let mut work = [0; 64];
    let mut out = [0; 4096];
    let mut rooms = Rooms {
        t1: &mut t1,
        t2: &mut t2,
        t3: &mut t3,
        t4: &mut t4,
        t5: &mut t5,
        t6: &mut t6,
        t7: &mut t7,
        t8: &mut t8,
        t9: &mut t9,
        t10: &mut t10,
        i1: &mut i1,
        i7: &mut i7,
    };
    print_report(rt, &text[..n], &mut rooms, &mut work, &mut out);
}
