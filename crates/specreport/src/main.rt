// Prints the rules and tokens of a specification that nothing uses, or why it is refused.
#![tactic(auto)]

fn main(rt: HostRuntime) {
    reporting::report_input(&rt);
}
