// Writes the text of the sheet file that stands on its standard input, or what is refused.
#![tactic(auto)]

use std::io::Read;
use text_files::describe_file;

fn run(rt: &HostRuntime) -> anyhow::Result<()> {
    let mut file = Vec::new(rt.alloc());
    rt.stdin().read_to_end(&mut file)?;
    let text = describe_file(rt.alloc(), &file)?;
    print!(rt; "{text}")?;
    Ok(())
}

fn main(rt: HostRuntime) -> anyhow::Result<()> {
    run(&rt)
}
