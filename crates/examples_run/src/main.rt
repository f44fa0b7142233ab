// Runs the worked examples and prints what is found; the stored output holds what is right.
#![tactic(auto)]

mod cuts;
mod drawings;
mod listed;
mod loose;
mod shows;

fn run(rt: &HostRuntime) -> anyhow::Result<()> {
    listed::show_all(rt)?;
    loose::show_all(rt)?;
    cuts::show_all(rt)
}

fn main(rt: HostRuntime) -> anyhow::Result<()> {
    run(&rt)
}
