// The bench program of document 01, on sheet P and its two commands.
#![tactic(auto)]

fn main(rt: HostRuntime) {
    station::run(&rt, &mut rt.stdin());
}
