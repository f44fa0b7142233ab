// The examples that are also proved by computation, made by calls of a planner.
use super::drawings::{DIAMOND, Drawing};
use super::shows::{Example, show};
use scale::{Line, Peak};

fn show_small(rt: &HostRuntime) -> anyhow::Result<()> {
    let nothing = Example {
        name: "no operator",
        drawing: Drawing {
            operators: &[],
            edges: &[],
        },
        limit: 4,
        k: 0,
        l: 0,
        ideals: 2,
        ratings: 1,
        choices: 1,
        picks: &[5],
    };
    show(rt, &nothing, Peak)?;
    let single = Example {
        name: "one operator, no device",
        drawing: Drawing {
            operators: &[(3, 9, 4, 2)],
            edges: &[],
        },
        ratings: 4,
        choices: 4,
        picks: &[3],
        ..nothing
    };
    show(rt, &single, Peak)?;
    show(
        rt,
        &Example {
            name: "one operator, an accelerator that takes 4",
            k: 1,
            ..single
        },
        Peak,
    )?;
    show(
        rt,
        &Example {
            name: "one operator, an accelerator that takes 3",
            limit: 3,
            k: 1,
            ..single
        },
        Peak,
    )
}

fn show_diamond(rt: &HostRuntime) -> anyhow::Result<()> {
    let two = Example {
        name: "diamond, two accelerators that take 4",
        drawing: DIAMOND,
        limit: 4,
        k: 2,
        l: 0,
        ideals: 8,
        ratings: 18,
        choices: 18,
        picks: &[10, 0],
    };
    show(rt, &two, Peak)?;
    show(
        rt,
        &Example {
            name: "diamond, an accelerator that takes 3 and a processor",
            limit: 3,
            k: 1,
            l: 1,
            ratings: 24,
            choices: 24,
            picks: &[13],
            ..two
        },
        Peak,
    )?;
    show(
        rt,
        &Example {
            name: "diamond, two accelerators that take 6, by the sum",
            limit: 6,
            picks: &[10],
            ..two
        },
        Line,
    )?;
    show(
        rt,
        &Example {
            name: "diamond, one accelerator that takes 3",
            limit: 3,
            k: 1,
            ..two
        },
        Peak,
    )?;
    show(
        rt,
        &Example {
            name: "diamond, a table of five ideals",
            ideals: 5,
            ..two
        },
        Peak,
    )?;
    show(
        rt,
        &Example {
            name: "diamond, 17 ratings",
            ratings: 17,
            ..two
        },
        Peak,
    )?;
    show(
        rt,
        &Example {
            name: "diamond, 17 choices",
            choices: 17,
            ..two
        },
        Peak,
    )
}

pub(crate) fn show_all(rt: &HostRuntime) -> anyhow::Result<()> {
    show_small(rt)?;
    show_diamond(rt)
}
