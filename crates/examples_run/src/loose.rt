// Operators without edges: twelve have as many ideals as any table takes, and thirteen have more.
use super::drawings::Drawing;
use ideals::MOST_IDEALS;
use refusals::Refusal;

// How many ideals the first so many of these operators have.
fn count(table: &mut [u64], operators: usize) -> Result<usize, Refusal> {
    let all = [(1, 1, 1, 1); 13];
    let drawing = Drawing {
        operators: all.get(..operators).ok_or(Refusal::NoOperator)?,
        edges: &[],
    };
    let sheet = drawing.sheet(1, 0)?;
    ideals::list(&sheet, table).ok_or(Refusal::TooManyIdeals)
}

pub(crate) fn show_all(rt: &HostRuntime) -> anyhow::Result<()> {
    let mut table = vec![in rt.alloc(); 0; MOST_IDEALS + 1]?;
    for (name, operators) in [("twelve", 12), ("thirteen", 13)] {
        match count(&mut table, operators) {
            Ok(ideals) => println!(rt; "{name} loose operators: {ideals} ideals")?,
            Err(refusal) => println!(rt; "{name} loose operators: refused {refusal}")?,
        }
    }
    Ok(())
}
