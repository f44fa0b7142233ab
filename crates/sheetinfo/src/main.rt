// Writes a report on the sheet file that stands on its standard input. An argument is the accelerator's limit.
#![tactic(auto)]

use sheet_report::report;
use std::env;
use std::io::Read;

const USUAL_LIMIT: u32 = 1_000_000;

// The limit that the first argument says, or the usual one.
fn asked_limit(rt: &HostRuntime) -> anyhow::Result<u32> {
    let asked = env::args(rt)?.nth(1).map(|text| text.parse()).transpose()?;
    Ok(asked.unwrap_or(USUAL_LIMIT))
}

fn run(rt: &HostRuntime) -> anyhow::Result<()> {
    let limit = asked_limit(rt)?;
    let mut file = Vec::new(rt.alloc());
    rt.stdin().read_to_end(&mut file)?;
    let text = report(rt.alloc(), &file, limit)?;
    print!(rt; "{text}")?;
    Ok(())
}

fn main(rt: HostRuntime) -> anyhow::Result<()> {
    run(&rt)
}
