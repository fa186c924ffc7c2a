// The table of a plan, a byte for each slot and link: which message holds a link in a slot. `fill_table` makes the whole of it, as `table_of` of
// document 01 says; `enter` puts one message. It leans on `rows` and on specs/ of `scope` (Plan, Good, Cycle).

#![tactic(auto)]

ghost use Rattle.std.specs.Prelude.{◌≡◌, ◌<◌, ◌≤◌, ◌^◌, length};
ghost use Rattle.scope.specs.Limits.{most_slots, most_links, most_messages, table_size};
ghost use Rattle.scope.specs.Plan.{plan_of, message_count};
ghost use Rattle.scope.specs.Cycle.{table_of};
ghost use Rattle.table.specs.Table.{Table, Entered, index_of, entry_at, at_index, marked};

use scope::limits::{LINKS, SLOTS, TABLE};

// Where the table has a slot and a link, and a plane the row of links behind its last slot.
pub fn index(slot: usize, link: usize) -> usize
    requires { (slot ≤ most_slots) × (link < most_links) }
    ensures { result ≡ index_of slot link }
{
    slot * LINKS + link
}

// Who has a link in a slot: the message that holds them plus one, or 0 where nobody does or the table has no such slot or link.
pub fn entry(table: &[u8], slot: usize, link: usize) -> u8
    ensures { result ≡ entry_at table.now slot link }
{
    if SLOTS <= slot || LINKS <= link {
        return 0;
    }
    let k = index(slot, link);
    // in a loop over a whole table this test is made once, and none of k
    if TABLE <= table.len() {
        return table[k];
    }
    if k < table.len() { table[k] } else { 0 }
}

// Who has the slot and the link of an index.
pub fn entry_at(table: &[u8], k: usize) -> u8
    requires { (length table.now ≡ table_size) × (k < table_size) }
    ensures { result ≡ at_index table.now k }
{
    table[k]
}

// Puts w at a slot and a link, unless they are held already or the table has no such slot or link.
pub fn mark(table: &mut [u8], link: usize, slot: usize, w: u8)
    requires { length table.old ≡ table_size }
    ensures { Table (λ i e. marked w link slot i e (entry_at table.old i e)) table.new }
{
    if LINKS <= link || SLOTS <= slot || entry(table, slot, link) != 0 {
        return;
    }
    table[index(slot, link)] = w;
}

// Puts the message at an index as w, and gives the index after it.
pub fn enter(row: &[u16], i: usize, w: u8, table: &mut [u8]) -> usize
    requires { (i < 2 ^ 60) × (length table.old ≡ table_size) × (0 < w) }
    ensures { Entered row.now i w table.old table.new result }
{
    let n = rows::place_count(row, i);
    let mut at = i + 1;
    for _k in 0..n {
        let here = rows::place_at(row, at);
        mark(table, here.link, here.slot, w);
        at = here.next;
    }
    at
}

// The table of no message.
pub fn clear(table: &mut [u8])
    requires { length table.old ≡ table_size }
    ensures { Table (λ i e. 0) table.new }
{
    table.fill(0);
}

// The whole table of a row.
pub fn fill_table(row: &[u16], table: &mut [u8])
    requires { (length table.old ≡ table_size) × (message_count row.now ≤ most_messages) }
    ensures { Table (table_of (plan_of row.now)) table.new }
{
    clear(table);
    let n = rows::messages(row);
    let mut at = rows::message_index(row, 0);
    for m in 0..n {
        let w = (m + 1) as u8;
        at = enter(row, at, w, table);
    }
}
