// One slot: what each message does in it, and how it leads from a time to the next. Each promise is an equation with `act` of `turn` and
// with `slot` of document 01's section "One slot" (specs/Slot and specs/Cycle of `scope`), for any row of numbers, anything that is down in
// the slot and any table. All that is asked is that a position ends below index 65536, which no function here undoes.
//
// A slot is one pass over the messages, in their order: `after` moves them, in records that are lent; `told` moves them and tells what
// they do; `watched` is that pass too, held against what was seen, and ends at the first message that does something else. `move_all` and
// `lend` alone hold a slice of records.

#![tactic(auto)]

ghost use Rattle.std.specs.Prelude.{◌+◌, ◌<◌, ◌≡◌, true, false, not, length, set, eqb};
ghost use Rattle.scope.specs.Limits.{most_messages};
ghost use Rattle.scope.specs.Plan.{at};
ghost use Rattle.scope.specs.Slot.{on_first};
ghost use Rattle.cuts.specs.Down.{is_down};
ghost use Rattle.table.specs.Table.{entry_at};
ghost use Rattle.step.specs.Events.{event_of, crossing_of};
ghost use Rattle.step.specs.Where.{end_of, places_after, does_first, does_second, waits_in, Leads, Acts, Faces, Meets, MetActs};
ghost use Rattle.step.specs.Stand.{Stand, Moves, MayTellAll};
ghost use Rattle.step.specs.Seen.{as_seen, GoesAsSeen, Watches};
ghost use Rattle.step.specs.Slot.{down_now, all_in, MayGo, GoesOn, MayTell, GoesAndTells};
ghost use Rattle.step.specs.Pass.{first_trier, noted, Noting, MayAct, ActsIn, MovesIn, MayMoveAll, MovesAll};

use cuts::is_down;
use rows::{number, place_at, place_slot};
use scope::limits::{MESSAGES, SLOT_EVENTS};

// "Slot numbers run from 0 to t − 1; times run from 0 to t. What happens in slot i leads from time i to time i + 1." A time is made
// as the first one and by the slot step (`Standing::after` and `told`) alone, and a slot is made from a time before the timeout alone.
#[derive(Clone, Copy)]
pub struct Slot(usize);

#[derive(Clone, Copy)]
pub struct Time(usize);

impl Time {
    pub fn first() -> Self
        ensures { result.0 ≡ 0 }
    {
        Time(0)
    }

    // The number, to write it or to compare it.
    pub fn number(self) -> usize
        ensures { result ≡ self.0 }
    {
        self.0
    }

    // The slot that begins at this time, which is not yet the timeout.
    pub fn begins(self, timeout: usize) -> Slot
        requires { self.0 < timeout }
        ensures { result.0 ≡ self.0 }
    {
        Slot(self.0)
    }
}

impl Slot {
    // The number, to write it or to compare it.
    pub fn number(self) -> usize
        ensures { result ≡ self.0 }
    {
        self.0
    }

    // The time that it leads to.
    fn leads_to(self) -> Time
        requires { self.0 < 65536 }
        ensures { result.0 ≡ self.0 + 1 }
    {
        Time(self.0 + 1)
    }
}

// What a message does in a slot, one case for each kind, with the link or message that it names.
#[derive(Clone, Copy)]
pub enum Event {
    Arrived,
    Waits(u16),
    Crosses(u16),
    CrossesSecond(u16),
    HeldByTable(u16),
    HeldByLower(u16),
    Stays(u16),
    StaysSecond(u16),
}

impl Event {
    pub fn kind(self) -> u16
        ensures { result ≡ (event_of self).kind }
    {
        match self {
            Event::Arrived => 0,
            Event::Waits(_) => 1,
            Event::Crosses(_) => 2,
            Event::CrossesSecond(_) => 3,
            Event::HeldByTable(_) => 4,
            Event::HeldByLower(_) => 5,
            Event::Stays(_) => 6,
            Event::StaysSecond(_) => 7,
        }
    }

    pub fn number(self) -> u16
        ensures { result ≡ (event_of self).number }
    {
        match self {
            Event::Arrived => 0,
            Event::Waits(number)
            | Event::Crosses(number)
            | Event::CrossesSecond(number)
            | Event::HeldByTable(number)
            | Event::HeldByLower(number)
            | Event::Stays(number)
            | Event::StaysSecond(number) => number,
        }
    }
}

// Where a message stands: the index in the row of the next place of its first path, or of the next link of the second path that it
// has turned to, and how many of them are left. Small, since it is copied often.
#[derive(Clone, Copy)]
pub struct Position {
    pub at: u16,
    pub left: u16,
    pub turned: bool,
}

// A position with the link before it, and whether that link is down.
#[derive(Clone, Copy)]
pub struct Met {
    pub position: Position,
    pub link: u16,
    pub down: bool,
}

#[derive(Clone, Copy)]
pub struct Moved {
    pub next: Position,
    pub event: Event,
}

impl Position {
    // At its target: nothing is left.
    pub fn is_home(self) -> bool
        ensures { result ≡ eqb self.left 0 }
    {
        self.left == 0
    }

    // The link before it, and whether that link is down.
    fn faces(self, row: &[u16], down: &[u8]) -> Met
        requires { 0 < self.left }
        ensures { Faces row.now (is_down down.now) self result }
    {
        let link = number(row, self.at as usize);
        let cut = is_down(down, link);
        Met {
            position: self,
            link: link as u16,
            down: cut,
        }
    }

    // It waits: it is on its first path, another slot than its own there, and its next link is whole. Most messages do in most slots.
    fn waits(self, row: &[u16], down: &[u8], slot: Slot) -> bool
        ensures { result ≡ waits_in row.now (is_down down.now) slot.0 self }
    {
        place_slot(row, self.at as usize) != slot.0
            && !self.turned
            && !is_down(down, number(row, self.at as usize))
    }

    // The position after its turn, if the next link of its first path is cut and it has a second path there, with the link before it.
    pub fn meets(self, row: &[u16], down: &[u8]) -> Met
        requires { (0 < self.left) × (end_of row.now self < 65536) }
        ensures { Meets row.now (is_down down.now) self result }
    {
        let here = self.faces(row, down);
        if self.turned {
            return here;
        }
        if here.down {
            let place = place_at(row, self.at as usize);
            if place.count != 0 {
                let turned = Position {
                    at: place.second as u16,
                    left: place.count as u16,
                    turned: true,
                };
                turned.faces(row, down)
            } else {
                here
            }
        } else {
            here
        }
    }

    // On its first path, past the next place.
    fn past_place(self, row: &[u16]) -> Position
        requires { (self.turned ≡ false) × (0 < self.left) × (end_of row.now self < 65536) }
        ensures { Leads row.now self (on_first (places_after row.now self)) result }
    {
        let here = place_at(row, self.at as usize);
        Position {
            at: here.next as u16,
            left: self.left - 1,
            turned: false,
        }
    }

    // What it does on its first path, with its next link cut or whole: kinds 6, 2 and 1.
    fn act_first(self, row: &[u16], slot: Slot, link: u16, down: bool) -> Moved
        requires { (self.turned ≡ false) × (0 < self.left) × (end_of row.now self < 65536) × (link ≡ at row.now self.at) }
        ensures { Acts row.now self (does_first row.now self down slot.0) result }
    {
        if down {
            let event = Event::Stays(link);
            Moved { next: self, event }
        } else if place_slot(row, self.at as usize) == slot.0 {
            let next = self.past_place(row);
            let event = Event::Crosses(link);
            Moved { next, event }
        } else {
            let event = Event::Waits(link);
            Moved { next: self, event }
        }
    }

    // What it does on its second path, with its next link cut or whole: the tests "go in the order 7, 4, 5, 3". `entry` is what the
    // table has for that link and slot, `first` who goes first of those that try the link, and `m` this message.
    fn act_second(self, row: &[u16], link: u16, down: bool, entry: u8, first: u16, m: u16) -> Moved
        requires { (self.turned ≡ true) × (0 < self.left) × (end_of row.now self < 65536) × (link ≡ at row.now self.at) }
        ensures { Acts row.now self (does_second row.now self down entry (not (eqb first m)) first) result }
    {
        if down {
            let event = Event::StaysSecond(link);
            Moved { next: self, event }
        } else if 0 < entry {
            let event = Event::HeldByTable((entry - 1) as u16);
            Moved { next: self, event }
        } else if first != m {
            let event = Event::HeldByLower(first);
            Moved { next: self, event }
        } else {
            let next = Position {
                at: self.at + 1,
                left: self.left - 1,
                turned: true,
            };
            let event = Event::CrossesSecond(link);
            Moved { next, event }
        }
    }
}

impl Met {
    // What message m does in a slot once it has turned, if it must: self is what it meets. `entry` is what the table has for the link before
    // it, and `first` who goes first of those that try that link, m itself where nobody is before it.
    pub fn acts(self, row: &[u16], slot: Slot, entry: u8, first: u16, m: u16) -> Moved
        requires { (0 < self.position.left) × (end_of row.now self.position < 65536) ×
            (self.link ≡ at row.now self.position.at) }
        ensures { MetActs row.now slot.0 entry (not (eqb first m)) first self result }
    {
        let p = self.position;
        if p.turned {
            p.act_second(row, self.link, self.down, entry, first, m)
        } else {
            p.act_first(row, slot, self.link, self.down)
        }
    }
}

// A message that tries a link.
#[derive(Clone, Copy)]
struct Try {
    link: u16,
    message: u16,
}

// Who has tried which link in a slot: the first `count` of these, in their order.
#[derive(Clone, Copy)]
struct Tries {
    count: usize,
    list: [Try; MESSAGES],
}

impl Tries {
    // Nobody has tried anything.
    fn none() -> Self
        ensures { (result.count ≡ 0) × (length result.list ≡ most_messages) }
    {
        Tries {
            count: 0,
            list: [Try {
                link: 0,
                message: 0,
            }; MESSAGES],
        }
    }

    // The first of those who have tried a link, or m where nobody has.
    fn first(&self, link: u16, m: u16) -> u16
        requires { Noting self.now m }
        ensures { result ≡ first_trier self.now link m }
    {
        for t in &self.list[..self.count] {
            if t.link == link {
                return t.message;
            }
        }
        m
    }

    // Message m tries a link too.
    fn note(&mut self, link: u16, m: u16)
        requires { Noting self.old m }
        ensures { self.new ≡ noted self.old link m }
    {
        self.list[self.count] = Try { link, message: m };
        self.count += 1;
    }
}

// What message m does in a slot, in a pass over the messages: `tried` has what those before it try. It tries the link before it if it has
// turned and that link is whole; only then does it matter who holds the link, and who tries it first. One that waits is asked no more.
fn act_one(
    p: Position,
    m: u16,
    row: &[u16],
    table: &[u8],
    down: &[u8],
    slot: Slot,
    tried: &mut Tries,
) -> Moved
    requires { MayAct row.now p m slot.0 tried.old }
    ensures { ActsIn row.now (is_down down.now) (entry_at table.now slot.0) slot.0 p m
        tried.old tried.new result }
{
    if p.is_home() {
        return Moved {
            next: p,
            event: Event::Arrived,
        };
    }
    if p.waits(row, down, slot) {
        return Moved {
            next: p,
            event: Event::Waits(number(row, p.at as usize) as u16),
        };
    }
    let met = p.meets(row, down);
    let q = met.position;
    if q.turned && !met.down {
        let entry = table::entry(table, slot.0, met.link as usize);
        let first = tried.first(met.link, m);
        tried.note(met.link, m);
        return met.acts(row, slot, entry, first, m);
    }
    met.acts(row, slot, 0, m, m)
}

// The next position of message m. It asks what `act_one` asks, and not `act_one` itself: each is called in one place, and inlined there.
fn move_one(
    p: Position,
    m: u16,
    row: &[u16],
    table: &[u8],
    down: &[u8],
    slot: Slot,
    tried: &mut Tries,
) -> Position
    requires { MayAct row.now p m slot.0 tried.old }
    ensures { MovesIn row.now (is_down down.now) (entry_at table.now slot.0) slot.0 p m
        tried.old tried.new result }
{
    if p.is_home() {
        return p;
    }
    if p.waits(row, down, slot) {
        return p;
    }
    let met = p.meets(row, down);
    let here = met.position;
    if here.turned && !met.down {
        let entry = table::entry(table, slot.0, met.link as usize);
        let first = tried.first(met.link, m);
        tried.note(met.link, m);
        let moved = met.acts(row, slot, entry, first, m);
        return moved.next;
    }
    let moved = met.acts(row, slot, 0, m, m);
    moved.next
}

// One slot of all messages, in the records that are lent: each moves, in their order. One at its target stays as it is.
fn move_all(
    ps: &mut [Position],
    n: usize,
    row: &[u16],
    table: &[u8],
    down: &[u8],
    i: Slot,
    tried: &mut Tries,
)
    requires { MayMoveAll row.now ps.old n i.0 tried.old }
    ensures { MovesAll row.now n (down_now down.now) (entry_at table.now) i.0
        ps.old ps.new tried.old tried.new }
{
    for m in 0..n {
        let p = ps[m];
        if !p.is_home() {
            ps[m] = move_one(p, m as u16, row, table, down, i, tried);
        }
    }
}

// The same slot for positions of one's own, which are lent to it.
fn lend(
    ps: [Position; MESSAGES],
    n: usize,
    row: &[u16],
    table: &[u8],
    down: &[u8],
    i: Slot,
    tried: &mut Tries,
) -> [Position; MESSAGES]
    requires { MayMoveAll row.now ps n i.0 tried.old }
    ensures { MovesAll row.now n (down_now down.now) (entry_at table.now) i.0
        ps result tried.old tried.new }
{
    let mut qs = ps;
    move_all(&mut qs, n, row, table, down, i, tried);
    qs
}

// The same, from the beginning of the slot on: nobody has tried anything.
fn after_slot(
    ps: [Position; MESSAGES],
    n: usize,
    row: &[u16],
    table: &[u8],
    down: &[u8],
    i: Slot,
) -> [Position; MESSAGES]
    requires { Stand row.now n ps × (i.0 < 65536) }
    ensures { Moves row.now n (all_in row.now table.now down.now i.0 n ps) ps result }
{
    let mut tried = Tries::none();
    lend(ps, n, row, table, down, i, &mut tried)
}

// The link that an event crosses, plus one, or 0.
fn crossing(event: Event) -> usize
    ensures { result ≡ crossing_of (event_of event) }
{
    match event {
        Event::Crosses(link) | Event::CrossesSecond(link) => link as usize + 1,
        _ => 0,
    }
}

// Message m, with this event, crosses what was seen of it.
fn as_seen(event: Event, seen: &[u8], m: usize) -> bool
    ensures { result ≡ as_seen seen.now m (event_of event) }
{
    seen.len() <= m || crossing(event) == seen[m] as usize
}

// An event in the row of events: "kind then number".
fn put_event(out: &mut [u16], k: usize, event: Event)
    requires { k + 1 < length out.old }
    ensures { out.new ≡ set (set out.old k (event_of event).kind) (k + 1) (event_of event).number }
{
    out[k] = event.kind();
    out[k + 1] = event.number();
}

// The foremost message that does something else than was seen of it, and what that is.
#[derive(Clone, Copy)]
pub struct Differing {
    pub message: usize,
    pub event: Event,
}

// One slot of all messages that is told, in records of one's own: each moves, in their order, and its event is put at the front of `out`. It
// ends at the first message that does something else than was seen of it, with the event of that one.
fn go_all(
    ps: [Position; MESSAGES],
    n: usize,
    row: &[u16],
    table: &[u8],
    down: &[u8],
    i: Slot,
    seen: &[u8],
    out: &mut [u16],
) -> Result<[Position; MESSAGES], Differing>
    requires { MayTellAll row.now ps n i.0 (length out.old) }
    ensures { GoesAsSeen row.now n (all_in row.now table.now down.now i.0 n ps)
        seen.now ps out.old out.new result }
{
    let mut tried = Tries::none();
    let mut qs = ps;
    for k in 0..n {
        let p = qs[k];
        let moved = act_one(p, k as u16, row, table, down, i, &mut tried);
        if !as_seen(moved.event, seen, k) {
            return Err(Differing {
                message: k,
                event: moved.event,
            });
        }
        put_event(out, 2 * k, moved.event);
        qs[k] = moved.next;
    }
    Ok(qs)
}

// Where all messages stand at a time, one record a message.
#[derive(Clone, Copy)]
pub struct Standing {
    time: Time,
    positions: [Position; MESSAGES],
}

impl Standing {
    // At the first time, in records of one's own.
    pub fn first(positions: [Position; MESSAGES]) -> Self
        ensures { (result.time.0 ≡ 0) × (result.positions ≡ positions) }
    {
        Standing {
            time: Time(0),
            positions,
        }
    }

    pub fn time(self) -> Time
        ensures { result ≡ self.time }
    {
        self.time
    }

    pub fn positions(self) -> [Position; MESSAGES]
        ensures { result ≡ self.positions }
    {
        self.positions
    }

    // The slot step: n messages go through the slot that begins at this time, which leads to the next.
    pub fn after(self, i: Slot, n: usize, row: &[u16], table: &[u8], down: &[u8]) -> Standing
        requires { MayGo row.now n self i.0 }
        ensures { GoesOn row.now table.now down.now n i.0 self result }
    {
        let ps = self.positions;
        let qs = after_slot(ps, n, row, table, down, i);
        Standing {
            time: i.leads_to(),
            positions: qs,
        }
    }

    // The slot step that is told: the events of the slot stand at the front of `out`.
    pub fn told(
        self,
        i: Slot,
        n: usize,
        row: &[u16],
        table: &[u8],
        down: &[u8],
        out: &mut [u16],
    ) -> Standing
        requires { MayTell row.now n self i.0 (length out.old) }
        ensures { GoesAndTells row.now table.now down.now n i.0 self result
            out.old out.new }
    {
        let Ok(positions) = go_all(self.positions, n, row, table, down, i, &[], out) else {
            unreachable!()
        };
        Standing {
            time: i.leads_to(),
            positions,
        }
    }

    // The slot step held against what was seen of the messages, a number each: the link that it crosses, plus one, or 0. Where all do what was
    // seen of them, they stand one time on; else this is the foremost one that does something else, and what that is.
    pub fn watched(
        self,
        i: Slot,
        n: usize,
        row: &[u16],
        table: &[u8],
        down: &[u8],
        seen: &[u8],
    ) -> Result<Standing, Differing>
        requires { MayGo row.now n self i.0 }
        ensures { Watches row.now table.now down.now seen.now n i.0 self result }
    {
        let mut out = [0u16; SLOT_EVENTS];
        let positions = go_all(self.positions, n, row, table, down, i, seen, &mut out)?;
        Ok(Standing {
            time: i.leads_to(),
            positions,
        })
    }
}
