// Judging the bodies of a file, and making the sheet that they stand for.
ghost use Rattle.std.specs.Prelude.{◌≡◌, ℕ, ◌<◌, ◌≤◌, false, length, IfOk, OnOk, slice_index};
ghost use Rattle.byte_fields.specs.Little.{field};
ghost use Rattle.refusals.specs.Told.{told, outcome};
ghost use Rattle.sheet.specs.Nets.{size, empty, Edge};
ghost use Rattle.sheet.specs.Changes.{changed, added, joined, counted};
ghost use Rattle.sheet.specs.Views.{net};
ghost use Rattle.sheet_layout.specs.Bodies.{row_at, first_wrong, row_refusal, edge_refusal, counts_refusal, rows_in, edges_in, with_rows, with_edges, bodies_refusal, net_of_bodies};
ghost use Rattle.sheet_file.specs.Loading.{row_told, edge_reason};
ghost use Rattle.sheet_file.specs.Pairs.{comes_after, pair_outcome};

use byte_fields::read;
use refusals::{Reason, Refusal};
use sheet::{Operator, Sheet};
use sheet_layout::{OPERATOR_SIZE, Section};

// An edge as it stands in a file. Its order, by `from` and then by `to`, is the order of the edges in a file.
#[derive(Clone, Copy, PartialEq, Eq, PartialOrd, Ord)]
struct Pair {
    from: u8,
    to: u8,
}

// The figure of four bytes from a place.
fn figure(bytes: &[u8; OPERATOR_SIZE], at: usize) -> u32
    requires { at ≤ 12 }
    ensures { result ≡ field bytes.now at 4 }
{
    read::<u32>(bytes, at).unwrap()
}

// The row of the sixteen bytes of an operator.
fn row(bytes: &[u8; OPERATOR_SIZE]) -> Operator
    ensures { result ≡ row_at bytes.now 0 }
{
    Operator {
        acc: figure(bytes, 0),
        cpu: figure(bytes, 4),
        size: figure(bytes, 8),
        link: figure(bytes, 12),
    }
}

// Adds the row with index `v`.
fn add_row(sheet: &mut Sheet, v: usize, row: Operator) -> Result<(), Refusal>
    requires { size (net sheet.old) < 64 }
    ensures refuses { outcome result ≡ row_told v row }
    ensures reads { net sheet.new ≡ changed (outcome result) (net sheet.old) (added (net sheet.old) row) }
{
    sheet.add(row).map_err(|_| Refusal::BodyEntry {
        section: Section::Operators.number(),
        entry: v,
        reason: Reason::AboveLimit,
    })?;
    Ok(())
}

// Adds the rows of a body to a sheet that has none.
fn add_rows(sheet: &mut Sheet, body: &[u8]) -> Result<(), Refusal>
    requires empty { net sheet.old ≡ empty }
    requires within { length body.now ≤ 1024 }
    ensures refuses { outcome result ≡ first_wrong (row_refusal body.now) (rows_in body.now) }
    ensures reads { OnOk result (net sheet.new ≡ with_rows body.now (rows_in body.now) empty) }
{
    let (rows, _) = body.as_chunks::<OPERATOR_SIZE>();
    for (v, bytes) in rows.iter().enumerate() {
        add_row(sheet, v, row(bytes))?;
    }
    Ok(())
}

// Whether an edge comes after the one before it, if there is one.
fn is_ascending(last: Option<Pair>, pair: Pair) -> bool
    ensures { result ≡ comes_after last pair }
{
    last.is_none_or(|last| last < pair)
}

// Why an edge cannot stand in a file, if it cannot be joined for this. Both types are of another crate, so that this is no `From`.
fn reason(refusal: Refusal) -> Reason
    ensures { result ≡ edge_reason (told refusal) }
{
    match refusal {
        Refusal::NotUpward => Reason::NotUpward,
        Refusal::EdgeExists => Reason::NotAscending,
        _ => Reason::NoOperator,
    }
}

// Joins an edge that comes after the last one; the edges that are there are not after it.
fn join_edge(sheet: &mut Sheet, last: Option<Pair>, pair: Pair) -> Result<(), Reason>
    requires rising { Edge (net sheet.old) pair.from pair.to → comes_after last pair ≡ false }
    ensures refuses { result ≡ pair_outcome (size (net sheet.old)) last pair }
    ensures joins { OnOk result (net sheet.new ≡ joined (net sheet.old) pair.from pair.to) }
{
    sheet
        .join(usize::from(pair.from), usize::from(pair.to))
        .map_err(reason)?;
    if is_ascending(last, pair) {
        Ok(())
    } else {
        Err(Reason::NotAscending)
    }
}

// Joins the edges of a body to a sheet that has none.
fn join_edges(sheet: &mut Sheet, body: &[u8]) -> Result<(), Refusal>
    requires bare { (u v : ℕ) → Edge (net sheet.old) u v → ⊥ }
    ensures refuses { outcome result ≡ first_wrong (edge_refusal (size (net sheet.old)) body.now) (edges_in body.now) }
    ensures reads { OnOk result (net sheet.new ≡ with_edges body.now (edges_in body.now) (net sheet.old)) }
{
    // by this pattern, a rule of the project for edge bodies; `i` counts the edges that it has taken, for a refusal to name
    let mut i: usize = 0;
    let mut last = None;
    let mut left = body;
    while let [from, to, rest @ ..] = left {
        let pair = Pair {
            from: *from,
            to: *to,
        };
        join_edge(sheet, last, pair).map_err(|reason| Refusal::BodyEntry {
            section: Section::Edges.number(),
            entry: i,
            reason,
        })?;
        i += 1;
        last = Some(pair);
        left = rest;
    }
    Ok(())
}

// Sets the counts that a body of two bytes gives.
fn set_counts(sheet: &mut Sheet, body: &[u8]) -> Result<(), Refusal>
    requires { length body.now ≡ 2 }
    ensures refuses { outcome result ≡ counts_refusal body.now }
    ensures reads { OnOk result (net sheet.new ≡ counted (net sheet.old) (slice_index body.now 0) (slice_index body.now 1)) }
{
    sheet
        .count(body[0], body[1])
        .map_err(|_| Refusal::BodyEntry {
            section: Section::Counts.number(),
            entry: 0,
            reason: Reason::CountAboveLimit,
        })
}

// The sheet of three bodies, or the first wrong entry of them.
pub(crate) fn build(operators: &[u8], edges: &[u8], counts: &[u8]) -> Result<Sheet, Refusal>
    requires within { (length operators.now ≤ 1024) × (length counts.now ≡ 2) }
    ensures refuses { outcome result ≡ bodies_refusal operators.now edges.now counts.now }
    ensures reads { IfOk result (λ s. net s ≡ net_of_bodies operators.now edges.now counts.now) }
{
    let mut sheet = Sheet::new();
    add_rows(&mut sheet, operators)?;
    join_edges(&mut sheet, edges)?;
    set_counts(&mut sheet, counts)?;
    Ok(sheet)
}
