// Writes the graph of the sheet file that stands on its standard input, or what is refused.
#![tactic(auto)]

use sheet_graph::draw_file;
use std::io::Read;

fn run(rt: &HostRuntime) -> anyhow::Result<()> {
    let mut file = Vec::new(rt.alloc());
    rt.stdin().read_to_end(&mut file)?;
    let graph = draw_file(rt.alloc(), &file)?;
    print!(rt; "{graph}")?;
    Ok(())
}

fn main(rt: HostRuntime) -> anyhow::Result<()> {
    run(&rt)
}
