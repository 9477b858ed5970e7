// The process engineer's second program, on two sheets that differ in every kind of record.
#![tactic(auto)]

fn main(rt: HostRuntime) {
    engineer::compare::run(&rt);
}
