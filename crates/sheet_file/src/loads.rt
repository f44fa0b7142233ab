// The sheet of a file.
ghost use Rattle.sheet_file.specs.Reads.{Reads};

use super::Reader;
use super::bodies::build;
use refusals::Refusal;
use sheet::Sheet;

// Reads a file: the sheet that it stands for, or the first thing that is wrong with it.
pub fn load(file: &[u8]) -> Result<Sheet, Refusal>
    ensures { Reads file.now result }
{
    let reader = Reader::open(file)?;
    let operators = reader.operators();
    let edges = reader.edges();
    let counts = reader.counts();
    build(operators.bytes, edges.bytes, counts.bytes)
}
