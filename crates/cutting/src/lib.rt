// What the program `specprune` does: it loads a specification of kind 1 from standard input, prunes it, and prints both answers, and the rules and tokens that are left.
#![tactic(auto)]

use reporting::Named;

// Each of the `n` rules or tokens, with the place of its name.
fn print_left(rt: &impl Print, t1: &[u32], t7: &[u32], named: Named, n: u32) {
    for row in 0..n {
        reporting::print_named(rt, t1, t7, named, row);
    }
}

// 1,024 rows a table and 2,048 slots an index, as for `specreport`. The tables are no `Rooms`: the borrow check does not cover a struct of which some are lent to be changed and some to be read.
pub fn prune_input(rt: &(impl Input + Print)) {
    let mut text = [0; 65537];
    let n = streams::read_full(&mut rt.reader(), &mut text);
    let mut t1 = [0; 3072];
    let mut t2 = [0; 4096];
    let mut t3 = [0; 2048];
    let mut t4 = [0; 2048];
    let mut t5 = [0; 6144];
    let mut t6 = [0; 3072];
    let mut t7 = [0; 5120];
    let mut t8 = [0; 13312];
    let mut t9 = [0; 4096];
    let mut t10 = [0; 5120];
    let mut i1 = [0; 2048];
    let mut i7 = [0; 2048];
    let mut work = [0; 64];
    let src = &text[..n];
    // No kind but 4 fills tables 15 to 17.
    let loaded = quiltrudder::load(
        src,
        1,
        &mut t1,
        &mut t2,
        &mut t3,
        &mut t4,
        &mut t5,
        &mut t6,
        &mut t7,
        &mut t8,
        &mut t9,
        &mut t10,
        &mut i1,
        &mut i7,
        &mut [],
        &mut [],
        &mut [],
    );
    reporting::print_answer(rt, numbers::of_judgement(loaded.answer));
    let (c, g) = (loaded.counts, loaded.singles);
    let pruned = quiltrudder::prune(
        src, c, g, &mut t1, &t2, &mut t3, &t4, &mut t5, &t6, &mut t7, &mut t8, &mut t9, &t10,
        &mut i1, &mut i7, &mut work,
    );
    reporting::print_answer(rt, numbers::of_pruning(pruned.answer));
    let rules = sound::rows_of(pruned.counts, tables::RULES);
    let tokens = sound::rows_of(pruned.counts, tables::TOKENS);
    print_left(rt, &t1, &t7, Named::Rule, rules);
    print_left(rt, &t1, &t7, Named::Token, tokens);
}
