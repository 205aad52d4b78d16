// The rounds of a cycle: while any is short, the last marked trade that debits a short one loses its mark.
ghost use Rattle.std.specs.Prelude.{◌≡◌, length};
ghost use Rattle.rulebook.specs.Ledger.{Ledger};
ghost use Rattle.legs.specs.Ready.{Ready};
ghost use Rattle.netting.specs.Figured.{Figured};
ghost use Rattle.netting.specs.Selected.{Netted};

use legs::Legs;
use marks::Marks;

// What the rounds leave of the marks, and the figures with those.
pub fn drop_short(due: Marks, shares: &mut Legs, cash: &mut Legs) -> Marks
    ghost b: { Ledger }
    requires ready { Ready b }
    requires figured { Figured b due shares.old cash.old }
    ensures netted { Netted b due result }
    ensures figured_2 { Figured b result shares.new cash.new }
{
    let mut marks = due;
    // below it the next short one is looked for: the one that was dropped stands there, or what it credited is debited last
    let mut top = shares.trades;
    while let Some(j) = legs::last_short(shares, cash, marks, top) {
        let less = shares.drop_trade(j);
        let poorer = cash.drop_trade(j);
        marks = marks::flip(marks, j);
        top = less.max(poorer).max(j);
    }
    marks
}
