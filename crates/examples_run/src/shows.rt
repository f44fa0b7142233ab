// Planning an example and printing what the planner then answers.
use super::drawings::Drawing;
use cells::Choice;
use device::{Accelerator, Processor};
use planner::Planner;
use refusals::Refusal;
use scale::Scale;
use std::fmt::Display;

// An example: a network, an accelerator's limit, counts of devices, and how long the tables are that are lent.
#[derive(Clone, Copy)]
pub(crate) struct Example<'a> {
    pub(crate) name: &'a str,
    pub(crate) drawing: Drawing<'a>,
    pub(crate) limit: u32,
    pub(crate) k: u8,
    pub(crate) l: u8,
    pub(crate) ideals: usize,
    pub(crate) ratings: usize,
    pub(crate) choices: usize,
    pub(crate) picks: &'a [u32],
}

// What stands in the table of ideals before.
const OLD: u64 = 99;

type Devices<S> = Planner<Accelerator, Processor, S>;

// The stages that stand, first to last.
fn show_stages<S: Scale>(
    rt: &HostRuntime,
    planner: &Devices<S>,
    stages: usize,
) -> anyhow::Result<()> {
    for i in 0..stages {
        if let Ok((kind, mask, operators)) = planner.stage(i) {
            println!(rt; "  stage {i}: kind {kind}, mask {mask}, operators {operators}")?;
        }
    }
    Ok(())
}

// The margins of pick times.
fn show_margins<S: Scale>(
    rt: &HostRuntime,
    planner: &Devices<S>,
    picks: &[u32],
) -> anyhow::Result<()> {
    for pick in picks.iter() {
        if let Ok(margin) = planner.margin(*pick) {
            println!(rt; "  margin of {pick}: {margin}")?;
        }
    }
    Ok(())
}

fn show_table(rt: &HostRuntime, table: &[u64]) -> anyhow::Result<()> {
    print!(rt; "  table")?;
    for mask in table.iter() {
        print!(rt; " {mask}")?;
    }
    println!(rt; "")?;
    Ok(())
}

fn show_refusal(rt: &HostRuntime, name: &str, refusal: Refusal) -> anyhow::Result<()> {
    println!(rt; "{name}: refused {refusal}")?;
    Ok(())
}

// Plans the example on a scale, and prints what comes of it.
pub(crate) fn show<R: Copy + Display, S: Scale<Rating = R> + Drop>(
    rt: &HostRuntime,
    example: &Example<'_>,
    scale: S,
) -> anyhow::Result<()> {
    let heap = rt.alloc();
    let name = example.name;
    let mut table = vec![in heap; OLD; example.ideals]?;
    let mut ratings = vec![in heap; scale.start(); example.ratings]?;
    let mut choices = vec![in heap; Choice::NONE; example.choices]?;
    let first = match Accelerator::new(example.limit) {
        Ok(first) => first,
        Err(refusal) => return show_refusal(rt, name, refusal),
    };
    let mut planner = Planner::new(first, Processor, scale);
    if let Err(refusal) = example.drawing.plan_on(&mut planner, example.k, example.l) {
        return show_refusal(rt, name, refusal);
    }
    match planner.plan(&mut table, &mut ratings, &mut choices) {
        Ok(plan) => {
            let rating = plan.rating;
            let ideals = plan.ideals;
            println!(rt; "{name}: rating {rating}, ideals {ideals}")?;
            show_stages(rt, &planner, plan.stages)?;
        }
        Err(refusal) => show_refusal(rt, name, refusal)?,
    }
    show_margins(rt, &planner, example.picks)?;
    show_table(rt, &table)
}
