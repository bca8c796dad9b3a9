// Prints the rules and tokens of a specification that nothing uses, one call for each, or why it is refused.
#![tactic(auto)]

fn main(rt: HostRuntime) {
    walking::walk_input(&rt);
}
