// The fitter's program on sheet P and a trace in which every reply agrees.
#![tactic(auto)]

fn main(rt: HostRuntime) {
    fitter::run(&rt);
}
