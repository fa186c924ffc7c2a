// The sizes of document 01 and what follows from them, for code. specs/Limits has the same names for definitions and theorems: where
// one of the two is changed alone, no proof that leans on it goes through.

// "vertices", "directed links", "messages", "a timeout"; and how many links a first or second path may have.
pub const VERTICES: usize = 64;

pub const LINKS: usize = 64;

pub const MESSAGES: usize = 32;

pub const SLOTS: usize = 64;

pub const PLACES: usize = 16;

// A number for each slot and link, slot by slot.
pub const TABLE: usize = SLOTS * LINKS;

// A byte for each two ends of a link.
pub const ENDS: usize = VERTICES * VERTICES;

// A byte for each link and message, link by link.
pub const SECONDS: usize = LINKS * MESSAGES;

// A byte for each slot and message, slot by slot.
pub const CROSSED: usize = SLOTS * MESSAGES;

// A number for each slot and link, slot by slot, and a row of links behind the last slot; three weights for each.
pub const PLANE: usize = TABLE + LINKS;

pub const WEIGHTS: usize = 3 * PLANE;

// A number for each count of messages, from 0 on; and that for each slot.
pub const FRONT: usize = MESSAGES + 1;

pub const FRONTS: usize = SLOTS * FRONT;

// The three numbers for each slot that no weight from there on exceeds, and those after them.
pub const TOPS: usize = 3 * SLOTS + FRONTS;

// The longest file in bytes, the longest row and the longest row of events in numbers.
pub const FILE: usize = 7348;

pub const ROW: usize = 10405;

pub const EVENTS: usize = 2 * SLOTS * MESSAGES;

// Those of one slot.
pub const SLOT_EVENTS: usize = 2 * MESSAGES;

// The most cuts that a verdict tries, and the numbers of their pairs.
pub const CUTS: usize = 3;

pub const CUT_NUMBERS: usize = 2 * CUTS;

// What the programs read at most: a byte more than the longest file, and a byte more than 65 cut lines can have.
pub const PLAN_ROOM: usize = FILE + 1;

pub const CUTS_ROOM: usize = 651;

// The names of plan files on a shelf: how many, and how long; and a byte more than these lines can have.
pub const NAMES: usize = 250;

pub const NAME: usize = 255;

pub const NAMES_ROOM: usize = NAMES * (NAME + 1) + 1;
