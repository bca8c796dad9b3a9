// Small inputs of kind 4 in a box, against the text of the model of `compare/posix`.
#![tactic(auto)]

fn main(rt: HostRuntime) {
    dumping::dump_input(&rt);
}
