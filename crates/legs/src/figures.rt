// The legs of the waiting trades, and the figures of what each debits, an account or a member's cash: what is there with what the marked trades bring,
// and what these take.
ghost use Rattle.std.specs.Prelude.{◌≤◌};
ghost use Rattle.legs.specs.Slots.{Slots};

use crate::{NUMBER, OWES, TO};
use marks::Marks;

// The slot of what no leg debits.
pub const NOWHERE: usize = 64;

// The legs of the waiting trades, all of shares or all of cash, in columns of 64 words: `legs` as they are filled, `slots` where the figures of what
// each debits and credits stand, and the figures there.
#[derive(Drop)]
pub struct Legs {
    pub trades: usize,
    pub legs: [u64; 192],
    pub slots: [u64; 128],
    pub figures: [u64; 128],
    pub ghost few: { trades ≤ 64 },
    pub ghost slotted: { Slots trades legs slots },
}

impl Legs {
    ghost use Rattle.std.specs.Prelude.{false, not, ◌≡◌, ◌<◌, replicate};
    ghost use Rattle.marks.specs.Marks.{is_on};
    ghost use Rattle.legs.specs.Figures.{Room, Cover, RoomAll, short_at, short_with};
    ghost use Rattle.legs.specs.Slots.{WithLeg, WithoutLeg, WithMarked, FineFrom};
    ghost use Rattle.legs.specs.Legs.{figures_in, SameLegs};

    // No trade's legs: columns of zeros, to be filled where they lie.
    pub fn none() -> Legs
        ensures trades { result.trades ≡ 0 }
        ensures columns { (result.legs ≡ replicate 192 0) × (result.slots ≡ replicate 128 0) × (result.figures ≡ replicate 128 0) }
    {
        Legs {
            trades: 0,
            legs: [0; 192],
            slots: [0; 128],
            figures: [0; 128],
        }
    }

    // The figures with the leg of the trade at `j`.
    #[tactic(auto, using(crate::proofs::Placed::from_below, crate::proofs::Placed::to_below))]
    pub fn add_trade(&mut self, j: usize)
        requires { (j < self.old.trades) × Room self.old.trades self.old.legs j (figures_in self.old) }
        ensures same { SameLegs self.old self.new }
        ensures with_leg { WithLeg self.old.trades self.old.legs self.old.slots j self.old.figures self.new.figures }
    {
        let number = self.legs[j + NUMBER];
        let from = self.slots[j] as usize;
        let to = self.slots[j + OWES] as usize;
        let owes = self.figures[from + OWES] + number;
        self.figures[from + OWES] = owes;
        if to == NOWHERE {
            return;
        }
        let has = self.figures[to] + number;
        self.figures[to] = has;
    }

    // What the leg at `j` debits is not short with it, where it is not short without it.
    #[tactic(auto, using(crate::proofs::Placed::from_below, crate::proofs::Placed::to_below))]
    pub fn fits(&self, j: usize) -> bool
        requires { (j < self.now.trades) × Room self.now.trades self.now.legs j (figures_in self.now) × (short_at (figures_in self.now) j ≡ false) }
        ensures { result ≡ not (short_with self.now.legs (figures_in self.now) j) }
    {
        let from = self.slots[j] as usize;
        let owes = self.figures[from + OWES] + self.legs[j + NUMBER];
        if owes <= self.figures[from] {
            return true;
        }
        // it brings back what it takes where it credits what it debits
        self.legs[j + TO] == self.legs[j]
    }

    // The figures without the leg of the trade at `j`. From the place that is answered on, no leg debits what is short by this.
    #[tactic(auto, using(crate::proofs::Placed::from_below, crate::proofs::Placed::to_below))]
    pub fn drop_trade(&mut self, j: usize) -> usize
        requires { (j < self.old.trades) × Cover self.old.trades self.old.legs j (figures_in self.old) }
        ensures same { SameLegs self.old self.new }
        ensures without_leg { WithoutLeg self.old.trades self.old.legs self.old.slots j self.old.figures self.new.figures }
        ensures fine_from { FineFrom self.old.trades self.old.legs self.old.slots j self.new.figures result }
    {
        let number = self.legs[j + NUMBER];
        let from = self.slots[j] as usize;
        let to = self.slots[j + OWES] as usize;
        let owes = self.figures[from + OWES] - number;
        self.figures[from + OWES] = owes;
        if to == NOWHERE {
            return 0;
        }
        let has = self.figures[to] - number;
        self.figures[to] = has;
        if has < self.figures[to + OWES] {
            return to + 1;
        }
        0
    }

    // The figures with the legs of all marked trades.
    pub fn add_marked(&mut self, marks: Marks)
        requires { RoomAll self.old.trades (is_on marks) self.old.legs (figures_in self.old) }
        ensures same { SameLegs self.old self.new }
        ensures with_marked { WithMarked self.old.trades (is_on marks) self.old.legs self.old.slots self.old.figures self.new.figures }
    {
        for j in 0..self.trades {
            if marks::is_on(marks, j) {
                self.add_trade(j);
            }
        }
    }

    // What the leg at `i` debits is short.
    #[tactic(auto, using(crate::proofs::Placed::from_below))]
    pub fn is_short(&self, i: usize) -> bool
        requires { i < self.now.trades }
        ensures { result ≡ short_at (figures_in self.now) i }
    {
        let at = self.slots[i] as usize;
        self.figures[at] < self.figures[at + OWES]
    }
}
