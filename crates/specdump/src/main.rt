// Prints what load, validate, faults, report and epp_value make of each specification of a box, for comparison.
#![tactic(auto)]

fn main(rt: HostRuntime) {
    dumping::dump_input(&rt);
}
