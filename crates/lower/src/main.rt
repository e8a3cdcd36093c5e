// Lowers the sheet on standard input; the gate runs it on samples/port.sheet, a switch.
// Kept: this crate, `lower_unit` and `lower_refused` have one line each, the same: the gate runs a program on one input.
#![tactic(auto)]

fn main(rt: HostRuntime) -> std::io::Result<()> {
    lower_io::run(&rt)
}
