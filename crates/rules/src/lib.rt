// Refusals 5 to 10 and 14 to 19 of a row that has the form of a plan: `check` gives 0, or the first refusal that applies with its place, as
// `rules` of specs/ of `scope` (Rules) says. They are asked one after another: of 5, 6, 8 and 9 the lowest link or message that breaks the rule
// is refused; then of all first paths, and at last of all second paths, the earliest rule that is broken, with its lowest message, place and
// step. It leans on `faults` for one link or message, and on `rows`, `paths` and `table`.

#![tactic(auto)]

ghost use Rattle.std.specs.Prelude.{◌≡◌, ℕ, Bool, ◌<◌, ◌≤◌, ◌^◌, length};
ghost use Rattle.scope.specs.Limits.{most_messages};
ghost use Rattle.scope.specs.Outcome.{gives, outcome_of, unless_some};
ghost use Rattle.scope.specs.Row.{walk_row};
ghost use Rattle.scope.specs.Plan.{plan_of, message_count, message_at};
ghost use Rattle.scope.specs.Rules.{rules};
ghost use Rattle.rows.specs.Lies.{MessageLies, PlanLies};
ghost use Rattle.paths.specs.Path.{order_of};
ghost use Rattle.rules.specs.Rules.{Starts, number_of, MessageFault, PlanFault, Says, path_rules, early_rules, late_rules};

use paths::{Fault, Rule, earlier};
use scope::limits::{MESSAGES, TABLE};
use scope::{Refusal, refusal_at, refusal_on};

// Where each message stands, 0 for those that the row does not have.
fn message_starts(row: &[u16]) -> [usize; MESSAGES]
    requires { message_count row.now ≤ most_messages }
    ensures { Starts row.now (message_count row.now) result }
{
    let mut starts = [0usize; MESSAGES];
    let mut at = rows::message_index(row, 0);
    for m in 0..rows::messages(row) {
        starts[m] = at;
        at = rows::after_message(row, at);
    }
    starts
}

// Refuses the lowest of so many links or messages that breaks a rule, if one does.
fn refuse_lowest<F: Fn(usize) -> bool>(no: usize, count: usize, breaks: F) -> Result<(), Refusal>
    requires { (m : ℕ) → m < count → F.pre breaks m }
    ensures { (test : ℕ → Bool) → ((m : ℕ) (b : Bool) → m < count → F.post breaks m b → b ≡ test m) → Says (unless_some no test count) result }
{
    for m in 0..count {
        if breaks(m) {
            return Err(refusal_at(no, m));
        }
    }
    Ok(())
}

// The paths that a round is about: first paths, or second paths.
#[derive(Clone, Copy)]
enum Paths {
    First,
    Second,
}

// The refusal of a rule of these paths. Of first paths three rules are asked.
fn number_of(paths: Paths, rule: Rule) -> usize
    ensures { result ≡ number_of paths (order_of rule) }
{
    match (paths, rule) {
        (Paths::First, Rule::NoLink) => 7,
        (Paths::First, Rule::Apart) => 14,
        (Paths::First, _) => 15,
        (Paths::Second, Rule::NoLink) => 10,
        (Paths::Second, Rule::Apart) => 16,
        (Paths::Second, Rule::Astray) => 17,
        (Paths::Second, Rule::Again) => 18,
        (Paths::Second, Rule::Replaced) => 19,
    }
}

// The fault of these paths of the message at an index.
fn message_fault(row: &[u16], i: usize, paths: Paths) -> Option<Fault<Rule>>
    requires { PlanLies row.now × (i < 2 ^ 60) × MessageLies row.now i }
    ensures { MessageFault (plan_of row.now) paths (message_at row.now i) result }
{
    match paths {
        Paths::First => faults::first_fault(row, i),
        Paths::Second => faults::second_fault(row, i),
    }
}

// The fault of these paths of all messages.
fn messages_fault(row: &[u16], starts: &[usize; MESSAGES], paths: Paths) -> Option<Fault<Rule>>
    requires { PlanLies row.now × Starts row.now (message_count row.now) starts.now }
    ensures { PlanFault (plan_of row.now) paths (message_count row.now) result }
{
    let mut found = None;
    for m in 0..rows::messages(row) {
        let fault = message_fault(row, starts[m], paths);
        let told = fault.map(move |fault| Fault {
            message: m,
            ..fault
        });
        found = earlier(found, told);
    }
    found
}

// Refuses the earliest rule that these paths break, if they break one.
fn refuse_paths(row: &[u16], starts: &[usize; MESSAGES], paths: Paths) -> Result<(), Refusal>
    requires { PlanLies row.now × Starts row.now (message_count row.now) starts.now }
    ensures { Says (path_rules (plan_of row.now) paths) result }
{
    let found = messages_fault(row, starts, paths);
    match found {
        Some(fault) => {
            let no = number_of(paths, fault.rule);
            Err(refusal_on(no, fault.message, fault.at, fault.step))
        }
        None => Ok(()),
    }
}

// Refusals 5 to 8, 14 and 15.
fn early_refusals(row: &[u16], starts: &[usize; MESSAGES]) -> Result<(), Refusal>
    requires { PlanLies row.now × Starts row.now (message_count row.now) starts.now }
    ensures { Says (early_rules (plan_of row.now)) result }
{
    refuse_lowest(5, rows::links(row), |e| faults::bad_ends(row, e))?;
    if let Some(e) = faults::lowest_repeat(row) {
        return Err(refusal_at(6, e));
    }
    refuse_paths(row, starts, Paths::First)?;
    let messages = rows::messages(row);
    refuse_lowest(8, messages, |m| faults::bad_slots(row, starts[m]))
}

// Refusals 9, 10 and 16 to 19, once the others refuse nothing: they alone take a table.
fn late_refusals(row: &[u16], starts: &[usize; MESSAGES]) -> Result<(), Refusal>
    requires { PlanLies row.now × Starts row.now (message_count row.now) starts.now }
    ensures { Says (late_rules (plan_of row.now)) result }
{
    let mut table = [0u8; TABLE];
    table::fill_table(row, &mut table);
    let messages = rows::messages(row);
    refuse_lowest(
        9,
        messages,
        |m| faults::held_below(row, starts[m], m, &table),
    )?;
    refuse_paths(row, starts, Paths::Second)
}

// Refusals 5 to 10 and 14 to 19.
fn refusals(row: &[u16]) -> Result<(), Refusal>
    requires { walk_row row.now ≡ gives (length row.now) }
    ensures { Says (λ after. early_rules (plan_of row.now) (late_rules (plan_of row.now) after)) result }
{
    let starts = message_starts(row);
    early_refusals(row, &starts)?;
    late_refusals(row, &starts)
}

// The same of a row without refusals 1 to 4, as an answer.
pub fn check(row: &[u16]) -> Result<usize, Refusal>
    requires { walk_row row.now ≡ gives (length row.now) }
    ensures { outcome_of result ≡ rules (plan_of row.now) }
{
    match refusals(row) {
        Ok(()) => Ok(0),
        Err(refusal) => Err(refusal),
    }
}
