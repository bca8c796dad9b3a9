// `specreport` on a source that is too long by one byte.
#![tactic(auto)]

fn main(rt: HostRuntime) {
    reporting::report_input(&rt);
}
