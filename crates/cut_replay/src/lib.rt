// The replay of one cycle under a cut list: document 01's refusals 1 to 10, 14 to 19, 12 and 13, or the number of arrivals with the row of
// events. It takes anything and asks nothing. It leans on `plan` for the refusals of a row, on `cables` for the other way of each link, on
// `cuts` for 12, on `table` for who holds a link, and on `cycle`, which plays.

#![tactic(auto)]

ghost use Rattle.std.specs.Prelude.{◌*◌, ◌≡◌};
ghost use Rattle.scope.specs.Plan.{message_count, timeout_of, plan_of};
ghost use Rattle.cables.specs.Others.{OtherWays};
ghost use Rattle.cut_replay.specs.Replay.{Checked, Replays};

use plan::Good;
use scope::limits::TABLE;
use scope::{Refusal, refuse};

// How many numbers the row of events takes.
pub fn event_numbers(row: &[u16]) -> usize
    ensures { result ≡ timeout_of row.now * (2 * message_count row.now) }
{
    rows::timeout(row) * (2 * rows::messages(row))
}

// The replay of a good row under a good cut list: refusal 13, or the arrivals.
fn replay_cut(
    row: &[u16],
    others: &[u8],
    cuts: &[u16],
    events: &mut [u16],
) -> Result<usize, Refusal>
    requires { Checked row.now cuts.now × OtherWays (plan_of row.now) others.now }
    ensures { Replays row.now cuts.now events.old events.new result }
{
    let needed = event_numbers(row);
    if events.len() < needed {
        return refuse(13, needed);
    }
    let mut table = [0u8; TABLE];
    table::fill_table(row, &mut table);
    let count = cycle::play(row, &table, others, cuts, events);
    Ok(count)
}

// The replay of a row that is known to be good: refusal 12, or what `replay_cut` gives.
pub fn replay_good(good: Good<'_>, cuts: &[u16], events: &mut [u16]) -> Result<usize, Refusal>
    ensures { Replays good.entry.row.now cuts.now events.old events.new result }
{
    let others = cables::other_ways(good.row);
    cuts::check(good.row, &others, cuts)?;
    replay_cut(good.row, &others, cuts, events)
}

// The replay of a row under a cut list: a refusal, or the number of messages at their targets at time t, with the row of events at
// the front of `events`: "slot by slot, message by message, kind then number".
pub fn replay(row: &[u16], cuts: &[u16], events: &mut [u16]) -> Result<usize, Refusal>
    ensures { Replays row.now cuts.now events.old events.new result }
{
    let good = plan::judged(row)?;
    replay_good(good, cuts, events)
}
