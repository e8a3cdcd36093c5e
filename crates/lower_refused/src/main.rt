// The program `lower` on a sheet that is refused: two equal cases, so 7.
#![tactic(auto)]

fn main(rt: HostRuntime) -> std::io::Result<()> {
    lower_io::run(&rt)
}
