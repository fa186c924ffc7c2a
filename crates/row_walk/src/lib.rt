// A row's form: its fields held to their widths part by part, fields of one width at once, with refusals 1 to 4. `forms` walks files. It
// leans on scope's `Row`.

#![tactic(auto)]

ghost use Rattle.std.specs.Prelude.{◌≡◌, ◌≤◌, length, drop};
ghost use Rattle.scope.specs.Outcome.{outcome_of};
ghost use Rattle.scope.specs.Row.{walk_row};
ghost use Rattle.scope.specs.Plan.{at};
ghost use Rattle.scope.specs.Fields.{next_place, next_message};
ghost use Rattle.scope.specs.declared.Field.TheVariants.{Vertices, Length, Link, SecondLength};
ghost use Rattle.row_walk.specs.Walk.{fields_from, rest_of, Stops, Passes};

use scope::{Refusal, refuse};

// Where n numbers from an index of a row on end: after them, or at the end of the row.
fn stop(row: &[u16], i: usize, n: usize) -> usize
    requires { i ≤ length row.now }
    ensures { Stops (length row.now) i n result }
{
    i + n.min(row.len() - i)
}

// So many fields of w bits from an index of a row on: refusal 2 or 3, or the index after them.
fn walk_fields(row: &[u16], i: usize, n: usize, w: usize) -> Result<usize, Refusal>
    requires { (i ≤ length row.now) × (w ≤ 16) }
    ensures { outcome_of result ≡ fields_from w n i (drop i row.now) }
{
    let most = bits::power(w);
    let end = stop(row, i, n);
    for k in i..end {
        if most <= row[k] as usize {
            return refuse(3, k);
        }
    }
    if end - i < n { refuse(2, end) } else { Ok(end) }
}

// The numbers V, E, M, t and the ends of the links, which come before the messages.
fn walk_head(row: &[u16]) -> Result<usize, Refusal>
    requires { 1 ≤ length row.now }
    ensures { Passes row.now (λ p m. Vertices) (λ p m. Length (at row.now 3)) 1 (outcome_of result) }
{
    let i = walk_fields(row, 1, 2, 6)?;
    let j = walk_fields(row, i, 1, 5)?;
    walk_fields(row, j, rows::links(row) * 2 + 1, 6)
}

// A second path, from its number of links on.
fn walk_second(row: &[u16], i: usize) -> Result<usize, Refusal>
    requires { i ≤ length row.now }
    ensures { Passes row.now SecondLength next_place i (outcome_of result) }
{
    let j = walk_fields(row, i, 1, 4)?;
    walk_fields(row, j, rows::number(row, i) + 1, 6)
}

// A place: its link, slot and flag, and the second path from there.
fn walk_place(row: &[u16], i: usize) -> Result<usize, Refusal>
    requires { i ≤ length row.now }
    ensures { Passes row.now Link next_place i (outcome_of result) }
{
    let at = walk_fields(row, i, 2, 6)?;
    let j = walk_fields(row, at, 1, 1)?;
    if rows::number(row, at) == 1 {
        walk_second(row, j)
    } else {
        Ok(j)
    }
}

// So many places, one after another.
fn walk_places(row: &[u16], i: usize, n: usize) -> Result<usize, Refusal>
    requires { i ≤ length row.now }
    ensures { Passes row.now (λ p m. next_place n m) (λ p m. next_message m) i (outcome_of result) }
{
    let mut at = i;
    for _p in 0..n {
        at = walk_place(row, at)?;
    }
    Ok(at)
}

// A message: its number of places, and these.
fn walk_message(row: &[u16], i: usize) -> Result<usize, Refusal>
    requires { i ≤ length row.now }
    ensures { Passes row.now (λ p m. Length m) (λ p m. next_message m) i (outcome_of result) }
{
    let j = walk_fields(row, i, 1, 4)?;
    walk_places(row, j, rows::place_count(row, i))
}

// So many messages, and refusal 4 where more follows.
fn walk_messages(row: &[u16], i: usize, n: usize) -> Result<usize, Refusal>
    requires { i ≤ length row.now }
    ensures { outcome_of result ≡ rest_of row.now (next_message n) i }
{
    let mut at = i;
    for _m in 0..n {
        at = walk_message(row, at)?;
    }
    if at < row.len() {
        refuse(4, at)
    } else {
        Ok(at)
    }
}

// Refusals 1 to 4 of a row, or how many numbers it has.
pub fn walk_row(row: &[u16]) -> Result<usize, Refusal>
    ensures { outcome_of result ≡ walk_row row.now }
{
    if row.is_empty() {
        return refuse(2, 0);
    }
    if rows::number(row, 0) != 1 {
        return refuse(1, 0);
    }
    let i = walk_head(row)?;
    walk_messages(row, i, rows::messages(row))
}
