// What the program `specwalk` does: it prints what `specreport` prints, but goes from one unused row to the next instead of listing them.
#![tactic(auto)]

ghost use Rattle.std.specs.Prelude.{◌≡◌};
ghost use Rattle.grammar.specs.Sound.{Tables, Indexes};
ghost use Rattle.walks.specs.Walk.{next_spot, Advanced};

use quiltrudder::{LoadingAt, MarkingAt};
use reporting::Rooms;
use walks::{NextAt, Standing};

fn mark(src: &[u8], loaded: LoadingAt, rooms: &Rooms, work: &mut [u32]) -> MarkingAt {
    quiltrudder::mark(
        src,
        loaded.counts,
        loaded.singles,
        rooms.t1,
        rooms.t2,
        rooms.t3,
        rooms.t4,
        rooms.t5,
        rooms.t6,
        rooms.t7,
        rooms.t8,
        rooms.t9,
        rooms.t10,
        rooms.i1,
        rooms.i7,
        work,
    )
}

fn next_unused(
    src: &[u8],
    loaded: LoadingAt,
    rooms: &Rooms,
    work: &[u32],
    at: &mut Standing,
) -> NextAt
    ensures advanced { Advanced src.now loaded.counts loaded.singles (record { t1 = rooms.now.t1.now; t2 = rooms.now.t2.now; t3 = rooms.now.t3.now; t4 = rooms.now.t4.now; t5 = rooms.now.t5.now; t6 = rooms.now.t6.now; t7 = rooms.now.t7.now; t8 = rooms.now.t8.now; t9 = rooms.now.t9.now; t10 = rooms.now.t10.now }) (record { tokens = rooms.now.i1.now; rules = rooms.now.i7.now }) work.now at.old result.answer at.new }
    ensures spot_value { result.spot ≡ next_spot src.now result.answer }
{
    let (c, g) = (loaded.counts, loaded.singles);
    quiltrudder::next_unused(
        src, c, g, rooms.t1, rooms.t2, rooms.t3, rooms.t4, rooms.t5, rooms.t6, rooms.t7, rooms.t8,
        rooms.t9, rooms.t10, rooms.i1, rooms.i7, work, at,
    )
}

// The unused rows up to the end; there are no more than rows in both tables.
fn print_walk(rt: &impl Print, src: &[u8], loaded: LoadingAt, rooms: &Rooms, work: &[u32]) {
    let rules = sound::rows_of(loaded.counts, tables::RULES);
    let tokens = sound::rows_of(loaded.counts, tables::TOKENS);
    let mut at = Standing {
        rules: 0,
        tokens: 0,
    };
    for _ in 0..=u64::from(rules) + u64::from(tokens) {
        let Ok(Some((kind, row))) = next_unused(src, loaded, rooms, work, &mut at).answer else {
            return;
        };
        reporting::print_named(rt, rooms.t1, rooms.t7, kind, row);
    }
}

// Load's answer if it is a refusal, else the marking's, or load's and the rows.
fn print_unused(rt: &impl Print, src: &[u8], rooms: &mut Rooms, work: &mut [u32]) {
    let loaded = rooms.load(src);
    let judged = numbers::of_judgement(loaded.answer);
    if loaded.answer.is_err() {
        return reporting::print_answer(rt, judged);
    }
    let marked = mark(src, loaded, rooms, work).answer;
    match marked {
        Ok(()) => {
            reporting::print_answer(rt, judged);
            print_walk(rt, src, loaded, rooms, work);
        }
        Err(_) => reporting::print_answer(rt, numbers::of_marking(marked)),
    }
}

// 1,024 rows a table and 2,048 slots an index, as for `specreport`.
pub fn walk_input(rt: &(impl Input + Print)) {
    let mut text = [0; 65537];
    let n = streams::read_full(&mut rt.reader(), &mut text);
    let mut t1 = [0; 3072];
    let mut t2 = [0; 4096];
    let mut t3 = [0; 2048];
    let mut t4 = [0; 2048];
    let mut t5 = [0; 6144];
    let mut t6 = [0; 3072];
    let mut t7 = [0; 5120];
    let mut t8 = [0; 13312];
    let mut t9 = [0; 4096];
    let mut t10 = [0; 5120];
    let mut i1 = [0; 2048];
    let mut i7 = [0; 2048];
    let mut work = [0; 64];
    let mut rooms = Rooms {
        t1: &mut t1,
        t2: &mut t2,
        t3: &mut t3,
        t4: &mut t4,
        t5: &mut t5,
        t6: &mut t6,
        t7: &mut t7,
        t8: &mut t8,
        t9: &mut t9,
        t10: &mut t10,
        i1: &mut i1,
        i7: &mut i7,
    };
    print_unused(rt, &text[..n], &mut rooms, &mut work);
}
