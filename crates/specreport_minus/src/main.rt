// `specreport` on a calculator whose unary minus has a precedence of its own.
#![tactic(auto)]

fn main(rt: HostRuntime) {
    reporting::report_input(&rt);
}
