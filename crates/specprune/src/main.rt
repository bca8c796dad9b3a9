// Prints what is left of a specification when the rows that nothing keeps are dropped, or why it is refused.
#![tactic(auto)]

fn main(rt: HostRuntime) {
    cutting::prune_input(&rt);
}
