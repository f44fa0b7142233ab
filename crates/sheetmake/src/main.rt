// Writes the sheet file of the text that stands on its standard input. Where a line is bad, nothing is written, and the error tells which and why.
#![tactic(auto)]

use std::io::{Read, Write};
use text_files::{MOST_FILE, make_file};

fn run(rt: &HostRuntime) -> anyhow::Result<()> {
    let mut text = Vec::new(rt.alloc());
    rt.stdin().read_to_end(&mut text)?;
    let mut buffer = [0; MOST_FILE];
    let length = make_file(&text, &mut buffer)?;
    rt.stdout().write_all(&buffer[..length])?;
    Ok(())
}

fn main(rt: HostRuntime) -> anyhow::Result<()> {
    run(&rt)
}
