// `specreport` on a source that read refuses.
#![tactic(auto)]

fn main(rt: HostRuntime) {
    reporting::report_input(&rt);
}
