// The process engineer's program, on a sheet that has every kind of record.
#![tactic(auto)]

fn main(rt: HostRuntime) {
    engineer::dump::run(&rt);
}
