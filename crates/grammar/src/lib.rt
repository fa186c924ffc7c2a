// The fields of a plan in their order: how wide the next one is, and what comes after it. A reader or writer that asks only this
// knows nothing else of the order. proofs/Most.antt has the most that can follow a field. It leans on scope's `Fields`.

#![tactic(auto)]

ghost use Rattle.std.specs.Prelude.{◌≡◌};
ghost use Rattle.scope.specs.Fields as fields;

use scope::{Field, Fields};

// Where the fields after the edition begin.
pub fn opening() -> Fields
    ensures { result ≡ fields.opening }
{
    Fields {
        slot: 6,
        next: Field::Vertices,
    }
}

// The width of the next field, in bits; 0 where no field is left.
pub fn width(s: Fields) -> usize
    ensures { result ≡ fields.width s }
{
    match s.next {
        Field::End => 0,
        Field::Flag { .. } => 1,
        Field::Length { .. } | Field::SecondLength { .. } => 4,
        Field::Messages { .. } => 5,
        Field::Timeout { .. } | Field::Slot { .. } => s.slot,
        _ => 6,
    }
}

// What comes after a message, a place, a link and a link of a second path, if so many more follow.
fn next_message(messages: usize) -> Field
    ensures { result ≡ fields.next_message messages }
{
    if messages == 0 {
        Field::End
    } else {
        Field::Length {
            messages: messages - 1,
        }
    }
}

fn next_place(places: usize, messages: usize) -> Field
    ensures { result ≡ fields.next_place places messages }
{
    if places == 0 {
        next_message(messages)
    } else {
        Field::Link {
            places: places - 1,
            messages,
        }
    }
}

fn next_link(links: usize, messages: usize) -> Field
    ensures { result ≡ fields.next_link links messages }
{
    if links == 0 {
        Field::Length { messages }
    } else {
        Field::From {
            links: links - 1,
            messages,
        }
    }
}

fn next_second(links: usize, places: usize, messages: usize) -> Field
    ensures { result ≡ fields.next_second links places messages }
{
    if links == 0 {
        next_place(places, messages)
    } else {
        Field::SecondLink {
            links: links - 1,
            places,
            messages,
        }
    }
}

fn after_flag(v: usize, places: usize, messages: usize) -> Field
    ensures { result ≡ fields.after_flag v places messages }
{
    if v == 1 {
        Field::SecondLength { places, messages }
    } else {
        next_place(places, messages)
    }
}

// The field that comes after this one, if this one holds v.
fn following(next: Field, v: usize) -> Field
    ensures { result ≡ fields.following next v }
{
    match next {
        Field::Vertices => Field::Links,
        Field::Links => Field::Messages { links: v },
        Field::Messages { links } => Field::Timeout { links, messages: v },
        Field::Timeout { links, messages } => Field::From { links, messages },
        Field::From { links, messages } => Field::To { links, messages },
        Field::To { links, messages } => next_link(links, messages),
        Field::Length { messages } => Field::Link {
            places: v,
            messages,
        },
        Field::Link { places, messages } => Field::Slot { places, messages },
        Field::Slot { places, messages } => Field::Flag { places, messages },
        Field::Flag { places, messages } => after_flag(v, places, messages),
        Field::SecondLength { places, messages } => Field::SecondLink {
            links: v,
            places,
            messages,
        },
        Field::SecondLink {
            links,
            places,
            messages,
        } => next_second(links, places, messages),
        Field::End => Field::End,
    }
}

// Where the fields go on after this one, if it holds v.
pub fn step(s: Fields, v: usize) -> Fields
    ensures { result ≡ fields.step s v }
{
    Fields {
        next: following(s.next, v),
        ..s
    }
}
