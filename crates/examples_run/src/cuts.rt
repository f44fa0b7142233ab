// Three ways to cut or to charge that suggest themselves and are wrong, each beside what is right.
use super::drawings::{DIAMOND, Drawing};
use device::WhichKind::First;
use device::{Accelerator, Processor};
use refusals::Refusal;
use scale::Peak;
use sheet::Sheet;
use split::{Problem, Stage};

type Task<'a> = Problem<'a, Accelerator, Processor>;

// The lesser of the ratings that there are.
fn lesser(x: Option<u32>, y: Option<u32>) -> Option<u32> {
    match (x, y) {
        (Some(x), Some(y)) => Some(x.min(y)),
        (x, None) => x,
        (None, y) => y,
    }
}

// The least rating of the splits into one stage, and into two of which the first has the lowest operators.
fn least_by_numbering(task: &Task<'_>) -> Option<u32> {
    let all = task.sheet.all();
    let mut least = None;
    for (first, second) in [(1, 2), (2, 1)] {
        let whole = [Stage {
            mask: all,
            kind: first,
        }];
        least = lesser(least, task.judge(&Peak, &whole).ok());
        for mask in [1, 3, 7] {
            let rest = sets::difference(all, mask);
            let halves = [
                Stage { mask, kind: first },
                Stage {
                    mask: rest,
                    kind: second,
                },
            ];
            least = lesser(least, task.judge(&Peak, &halves).ok());
        }
    }
    least
}

// What the operator 0 of the diamond costs as a stage, and what it would cost if its link counted for each edge.
fn show_link(rt: &HostRuntime, task: &Task<'_>) -> anyhow::Result<()> {
    if let (Some(load), Some(row)) = (task.ask(First, 1), task.sheet.row(0)) {
        let edges = sets::size(task.sheet.successors(0));
        let ticks = load.ticks;
        let each = u64::from(row.acc) + u64::from(row.link) * u64::from(edges);
        println!(rt;
            "operator 0 alone: {ticks} ticks; with link for each edge it would be {each}"
        )?;
    }
    Ok(())
}

fn show_fronts(rt: &HostRuntime, task: &Task<'_>) -> anyhow::Result<()> {
    let right = [Stage { mask: 5, kind: 1 }, Stage { mask: 10, kind: 2 }];
    if let (Some(fronts), Ok(least)) = (least_by_numbering(task), task.judge(&Peak, &right)) {
        println!(rt; "fronts of the numbering: {fronts}; operators 0 and 2 first: {least}")?;
    }
    Ok(())
}

// Both orders of two stages that have an edge into each other.
fn show_orders(rt: &HostRuntime, task: &Task<'_>) -> anyhow::Result<()> {
    for (mask, then) in [(5, 10), (10, 5)] {
        let stages = [
            Stage { mask, kind: 1 },
            Stage {
                mask: then,
                kind: 1,
            },
        ];
        match task.judge(&Peak, &stages) {
            Ok(rating) => println!(rt; "edges 0 to 3 and 1 to 2, {mask} before {then}: {rating}")?,
            Err(breach) => println!(rt;
                "edges 0 to 3 and 1 to 2, {mask} before {then}: {breach:?}"
            )?,
        }
    }
    Ok(())
}

fn show_refusal(rt: &HostRuntime, refusal: Refusal) -> anyhow::Result<()> {
    println!(rt; "refused {refusal}")?;
    Ok(())
}

// The sheets and the accelerator of the three.
fn parts() -> Result<(Sheet, Sheet, Accelerator), Refusal> {
    let crossed = Drawing {
        operators: &[(1, 1, 1, 1); 4],
        edges: &[(0, 3), (1, 2)],
    };
    Ok((
        DIAMOND.sheet(1, 1)?,
        crossed.sheet(2, 0)?,
        Accelerator::new(3)?,
    ))
}

pub(crate) fn show_all(rt: &HostRuntime) -> anyhow::Result<()> {
    let (square, crossed, first) = match parts() {
        Ok(parts) => parts,
        Err(refusal) => return show_refusal(rt, refusal),
    };
    let task = Problem {
        sheet: &square,
        first: &first,
        second: &Processor,
    };
    show_link(rt, &task)?;
    show_fronts(rt, &task)?;
    let task = Problem {
        sheet: &crossed,
        first: &first,
        second: &Processor,
    };
    show_orders(rt, &task)
}
