// What a line says.
ghost use Rattle.std.specs.Prelude.{◌≡◌};
ghost use Rattle.sheet_text.specs.Fields.{said, fields};
ghost use Rattle.sheet_text.specs.Items.{operator_of, edge_of, counts_of, item_of};

use crate::Slip;
use crate::fields::{said, split_field};
use crate::numbers::{next_number, no_more};
use sheet::Operator;

// An item of a text. Its numbers are those of the line, within limits or not.
#[derive(Drop, PartialEq, Eq, Debug)]
pub enum Item {
    Operator(Operator),
    Edge { from: u32, to: u32 },
    Counts { k: u32, l: u32 },
}

// What follows the word of an operator.
#[tactic(auto, unfolding(crate::specs::Items::operator_of))]
fn operator(rest: &[u8]) -> Result<Item, Slip>
    ensures { result ≡ operator_of (fields rest.now) }
{
    let (acc, rest) = next_number(rest)?;
    let (cpu, rest) = next_number(rest)?;
    let (size, rest) = next_number(rest)?;
    let (link, rest) = next_number(rest)?;
    no_more(rest)?;
    Ok(Item::Operator(Operator {
        acc,
        cpu,
        size,
        link,
    }))
}

// What follows the word of an edge.
#[tactic(auto, unfolding(crate::specs::Items::edge_of))]
fn edge(rest: &[u8]) -> Result<Item, Slip>
    ensures { result ≡ edge_of (fields rest.now) }
{
    let (from, rest) = next_number(rest)?;
    let (to, rest) = next_number(rest)?;
    no_more(rest)?;
    Ok(Item::Edge { from, to })
}

// What follows the word of the counts.
#[tactic(auto, unfolding(crate::specs::Items::counts_of))]
fn counts(rest: &[u8]) -> Result<Item, Slip>
    ensures { result ≡ counts_of (fields rest.now) }
{
    let (k, rest) = next_number(rest)?;
    let (l, rest) = next_number(rest)?;
    no_more(rest)?;
    Ok(Item::Counts { k, l })
}

impl Item {
    // The item that a line says; `None` where it says nothing.
    pub fn of(line: &[u8]) -> Result<Option<Item>, Slip>
        ensures { result ≡ item_of (fields (said line.now)) }
    {
        let Some((word, rest)) = split_field(said(line)) else {
            return Ok(None);
        };
        let item = match word {
            b"op" => operator(rest)?,
            b"edge" => edge(rest)?,
            b"count" => counts(rest)?,
            _ => return Err(Slip::UnknownItem),
        };
        Ok(Some(item))
    }
}
