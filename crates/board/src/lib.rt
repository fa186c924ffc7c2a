// The board that a search or a game goes over: what is worked out once of a good row, and only read from then on. It leans on `plan` for
// good rows, and on `table`, `strips`, `bound` and `cables` for the tables.

#![tactic(auto)]

ghost use Rattle.std.specs.Prelude.{◌≡◌};
ghost use Rattle.plan.specs.Answers.{GoodRow};
ghost use Rattle.picks.specs.Picks.{no_pair};
ghost use Rattle.board.specs.Lent.{Laid, Lent};
ghost use Rattle.board.specs.Walks.{Walks};

use picks::{Picked, Sizes};
use risks::Hits;
use scope::limits::{LINKS, PLANE, SECONDS, TABLE, TOPS, WEIGHTS};
use step::Standing;

// The sizes of a plan and its table; whom each pair touches and strips; the weights of the pairs, and the most from a slot on. It is large, and
// is filled where it stands and lent from there.
#[derive(Drop)]
pub struct Board {
    pub sizes: Sizes,
    pub table: [u8; TABLE],
    pub touches: [u32; PLANE],
    pub strips: [u32; PLANE],
    pub weights: [u16; WEIGHTS],
    pub most: [u16; TOPS],
}

impl Board {
    pub const EMPTY: Board = Board {
        sizes: Sizes {
            timeout: 0,
            links: 0,
            messages: 0,
            others: [0; LINKS],
        },
        table: [0; TABLE],
        touches: [0; PLANE],
        strips: [0; PLANE],
        weights: [0; WEIGHTS],
        most: [0; TOPS],
    };

    // Makes it the board of a good row.
    pub fn fill(&mut self, row: &[u16])
        requires { GoodRow row.now }
        ensures { Lent row.now self.new }
    {
        let slots = rows::timeout(row);
        let others = cables::other_ways(row);
        let mut fragile = [0u8; TABLE];
        let mut seconds = [0u8; SECONDS];
        strips::fill(row, &mut fragile, &mut seconds);
        table::fill_table(row, &mut self.table);
        bound::touch_sets(&self.table, slots, &mut self.touches);
        bound::strip_sets(&fragile, &seconds, slots, &mut self.strips);
        bound::weigh_all(
            &self.table,
            &fragile,
            &seconds,
            &others,
            slots,
            &mut self.weights,
        );
        bound::tops_all(&self.weights, slots, &mut self.most);
        self.sizes = Sizes {
            timeout: slots,
            links: rows::links(row),
            messages: rows::messages(row),
            others,
        };
    }
}

// Where a walk over lists stands on a board: the pairs picked, and whom they hit; where the messages stand at the beginning of a slot under these
// pairs, and which of them are away.
#[derive(Clone, Copy)]
pub struct Walk {
    pub picked: Picked,
    pub hits: Hits,
    pub standing: Standing,
    pub left: u32,
}

impl Walk {
    // No pair is picked, and the messages stand at their sources.
    pub fn start(row: &[u16], board: &Board) -> Self
        requires { Laid row.now board.now }
        ensures { Walks row.now board.now 0 result × (result.picked ≡ no_pair board.now.sizes) }
    {
        let picked = picks::no_pair(board.sizes);
        let hits = risks::no_hits();
        let standing = cycle::start_all(row, board.sizes.messages);
        let left = risks::away(standing, board.sizes.messages);
        Walk {
            picked,
            hits,
            standing,
            left,
        }
    }
}
