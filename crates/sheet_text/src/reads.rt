// The sheet that a text says.
ghost use Rattle.std.specs.Prelude.{◌≡◌, min, MatchResult, Ok, Err};
ghost use Rattle.refusals.specs.Told.{outcome};
ghost use Rattle.sheet.specs.Changes.{changed};
ghost use Rattle.sheet.specs.Views.{net};
ghost use Rattle.sheet_text.specs.Reading.{item_refusal, with_item, told_cause, after_line, told_reading, sheet_of};

use crate::{BadLine, Cause, Item};
use refusals::Refusal;
use sheet::Sheet;

const FEED: u8 = b'\n';

// A count of devices. The largest byte stands for every larger number: the sheet refuses them all alike.
fn count_of(number: u32) -> u8
    ensures { result ≡ min number 255 }
{
    u8::try_from(number).unwrap_or(u8::MAX)
}

impl Item {
    // Makes the call of a sheet that the item stands for.
    pub fn add_to(self, sheet: &mut Sheet) -> Result<(), Refusal>
        ensures refuses { outcome result ≡ item_refusal (net sheet.old) self }
        ensures changes { net sheet.new ≡ changed (outcome result) (net sheet.old) (with_item (net sheet.old) self) }
    {
        match self {
            Item::Operator(operator) => {
                sheet.add(operator)?;
                Ok(())
            }
            Item::Edge { from, to } => sheet.join(from as usize, to as usize),
            Item::Counts { k, l } => sheet.count(count_of(k), count_of(l)),
        }
    }
}

// Adds what a line says to a sheet.
#[tactic(auto, unfolding(crate::specs::Reading::after_line))]
fn add_line(sheet: &mut Sheet, line: &[u8]) -> Result<(), Cause>
    ensures { MatchResult result (λ _. after_line (net sheet.old) line.now ≡ Ok (net sheet.new)) (λ c. after_line (net sheet.old) line.now ≡ Err (told_cause c)) }
{
    let Some(item) = Item::of(line).map_err(Cause::Slip)? else {
        return Ok(());
    };
    item.add_to(sheet).map_err(Cause::Refused)
}

// The sheet that a text says, or its first bad line.
pub fn read(text: &[u8]) -> Result<Sheet, BadLine>
    ensures { told_reading result ≡ sheet_of text.now }
{
    let mut sheet = Sheet::new();
    for (index, line) in text.split(|byte| *byte == FEED).enumerate() {
        if let Err(cause) = add_line(&mut sheet, line) {
            let line = index + 1;
            return Err(BadLine { line, cause });
        }
    }
    Ok(sheet)
}
