// The program `lower` on the sheet of one Unit node, for which 01 writes out the line.
#![tactic(auto)]

fn main(rt: HostRuntime) -> std::io::Result<()> {
    lower_io::run(&rt)
}
