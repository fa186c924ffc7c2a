// Sets of messages, and of vertices (specs/Sets), each held in one number, and how many messages are in one: a sum (specs/Sums). Whoever
// uses them knows only who is in a set.

#![tactic(auto)]

ghost use Rattle.std.specs.Prelude.{◌≤◌, ◌<◌, ◌≡◌};
ghost use Rattle.scope.specs.Limits.{most_messages, most_vertices};
ghost use Rattle.sets.specs.Sets.{has, size, IsOneIf, IsNamed, IsEither, IsBoth, IsWith};

// The set of one message, or of nobody.
pub fn one_if(there: bool, m: usize) -> u32
    requires { m < most_messages }
    ensures { IsOneIf there m result }
{
    u32::from(there) << m
}

// The set of the message that an entry of a table names: its number plus one.
#[tactic(auto, using(crate::proofs::Sets::none_named))]
pub fn named(w: u8) -> u32
    ensures { IsNamed w result }
{
    match w {
        1..=32 => one_if(true, usize::from(w) - 1),
        _ => 0,
    }
}

// Those in either of two sets.
pub fn either(a: u32, b: u32) -> u32
    ensures { IsEither a b result }
{
    a | b
}

// Those in both.
pub fn both(a: u32, b: u32) -> u32
    ensures { IsBoth a b result }
{
    a & b
}

// A set of vertices: whether one is in it.
pub fn holds(set: u64, v: usize) -> bool
    requires { v < most_vertices }
    ensures { result ≡ has set v }
{
    (set >> v) % 2 == 1
}

// And with one more.
pub fn with(set: u64, v: usize) -> u64
    requires { v < most_vertices }
    ensures { IsWith set v result }
{
    set | (1u64 << v)
}

// How many there are.
pub fn count(a: u32) -> usize
    ensures { (result ≡ size a) × (result ≤ most_messages) }
{
    a.count_ones() as usize
}
