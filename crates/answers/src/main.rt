// Some 500 of the crate's answers, replayed: `specdump` on a stored box, whose expected text is the crate's.
#![tactic(auto)]

fn main(rt: HostRuntime) {
    dumping::dump_input(&rt);
}
