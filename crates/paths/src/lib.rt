// Paths as lists of links: the earliest rule that a path breaks, at its first step, and where the path ends, as specs/ of `scope`
// (PathRules, Good) says of the plan of a row; it leans on `rows` and `sets`. A path is a slice of links, so that the second paths, which
// are parts of the row, and the first paths, which are copied out of it, go by the same rule.

#![tactic(auto)]

ghost use Rattle.std.specs.Prelude.{◌≡◌, cond, not, ◌<◌, ◌≤◌, ◌^◌, length};
ghost use Rattle.scope.specs.Limits.{most_vertices};
ghost use Rattle.scope.specs.Plan.{plan_of, link_count, place_count};
ghost use Rattle.scope.specs.Good.{end_of};
ghost use Rattle.rows.specs.Lies.{PlanLies};
ghost use Rattle.paths.specs.Path.{EndsAt, EndsOf, FirstLinks, Earliest, goes_first, order, step_of, path_rule, link_rule};

// Both ends of a link.
#[derive(Clone, Copy)]
pub struct Ends {
    pub from: usize,
    pub to: usize,
}

// The vertices where a link begins and ends, 0 where there is no such link.
pub fn ends_at(row: &[u16], e: usize) -> Ends
    requires { e < 65536 }
    ensures { EndsAt (plan_of row.now) e result }
{
    if e < rows::links(row) {
        let from = rows::number(row, e * 2 + 5);
        let to = rows::number(row, e * 2 + 6);
        return Ends { from, to };
    }
    Ends { from: 0, to: 0 }
}

// The same of a link that is there.
pub fn ends_of(row: &[u16], e: usize) -> Ends
    requires { PlanLies row.now × (e < link_count row.now) }
    ensures { EndsOf (plan_of row.now) e result }
{
    let i = e * 2 + 5;
    let from = row[i] as usize;
    let to = row[i + 1] as usize;
    Ends { from, to }
}

// The rules of paths in the order in which they are asked: a link that is not below E, one that does not join, a wrong end, a link that
// leads to a vertex met already, a start with the link that is replaced. The end and the start are asked of second paths alone.
#[derive(Clone, Copy, PartialEq, Eq, PartialOrd, Ord)]
pub enum Rule {
    NoLink,
    Apart,
    Astray,
    Again,
    Replaced,
}

// A fault of a path: the rule that is broken, by its name or by a number, and where: message, place and step.
#[derive(Clone, Copy)]
pub struct Fault<R> {
    pub rule: R,
    pub message: usize,
    pub at: usize,
    pub step: usize,
}

// The fault of a path in a step; who knows its message and place says them.
pub fn fault_in<R>(rule: R, step: usize) -> Fault<R>
    ensures { result ≡ record { rule = rule; message = 0; at = 0; step = step } }
{
    Fault {
        rule,
        message: 0,
        at: 0,
        step,
    }
}

// Of two faults that of the earlier rule; of one rule the one that was found first.
pub fn earlier<R: Ord + Copy>(found: Option<Fault<R>>, here: Option<Fault<R>>) -> Option<Fault<R>>
    ensures { result ≡ cond (goes_first R.cmp found here) here found }
{
    match (&found, &here) {
        (Some(first), Some(other)) if first.rule <= other.rule => found,
        (_, Some(_)) => here,
        (_, None) => found,
    }
}

// The fault of a link below E in a step, where it joins or not and leads to a vertex that is met already or not.
fn link_fault(joins: bool, met: bool, step: usize) -> Option<Fault<Rule>>
    ensures { (order result ≡ link_rule (not joins) met) × (order result < 5 → step_of result ≡ step) }
{
    if !joins {
        return Some(fault_in(Rule::Apart, step));
    }
    if met {
        return Some(fault_in(Rule::Again, step));
    }
    None
}

// The fault of links that begin at vertex v: of the earliest rule that one of them breaks, the first step. The path is walked once, with
// a mark for each vertex that is met, all in one set.
pub fn path_fault(row: &[u16], v: usize, path: &[u16]) -> Option<Fault<Rule>>
    requires { PlanLies row.now × (v < most_vertices) }
    ensures { Earliest (path_rule (plan_of row.now) v path.now) 5 (length path.now) (order result) (step_of result) }
{
    let links = rows::links(row);
    let mut met = sets::with(0, v);
    let mut at = v;
    let mut found = None;
    for (k, &number) in path.iter().enumerate() {
        let e = usize::from(number);
        if links <= e {
            return Some(fault_in(Rule::NoLink, k));
        }
        let ends = ends_of(row, e);
        let here = link_fault(ends.from == at, sets::holds(met, ends.to), k);
        // Of most links there is none, and a path that breaks no rule is walked three times as fast where no fault is copied.
        if here.is_some() {
            found = earlier(found, here);
        }
        met = sets::with(met, ends.to);
        at = ends.to;
    }
    found
}

// The vertex where a path ends.
pub fn path_end(row: &[u16], path: &[u16]) -> usize
    ensures { result ≡ end_of (plan_of row.now) path.now }
{
    let last = path.len().saturating_sub(1);
    let ends = ends_at(row, rows::number(path, last));
    ends.to
}

// Copies the links of the message at an index into the front of a list, and counts them.
pub fn first_links(row: &[u16], i: usize, path: &mut [u16]) -> usize
    requires { (i < 2 ^ 60) × (place_count row.now i ≤ length path.old) }
    ensures { FirstLinks row.now i path.old path.new result }
{
    let n = rows::place_count(row, i);
    let mut at = i + 1;
    for k in 0..n {
        let here = rows::place_at(row, at);
        path[k] = here.link as u16;
        at = here.next;
    }
    n
}
