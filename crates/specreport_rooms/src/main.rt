// `specreport` on a source with more tokens than its tables have rows.
#![tactic(auto)]

fn main(rt: HostRuntime) {
    reporting::report_input(&rt);
}
