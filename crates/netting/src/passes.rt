// The passes of a cycle: each that was dropped, in list order, gets its mark back if it fits beside those that are in by then.
ghost use Rattle.rulebook.specs.Ledger.{Ledger};
ghost use Rattle.legs.specs.Ready.{Ready};
ghost use Rattle.netting.specs.Figured.{Figured};
ghost use Rattle.netting.specs.Selected.{Started, Passed, AllPassed};

use legs::Legs;
use marks::Marks;

// The marks after one pass, and the figures with those.
fn one_pass(due: Marks, before: Marks, shares: &mut Legs, cash: &mut Legs) -> Marks
    ghost b: { Ledger }
    requires started { Ready b × Started b due before }
    requires figured { Figured b before shares.old cash.old }
    ensures passed { Passed b due before result }
    ensures figured_2 { Figured b result shares.new cash.new }
{
    let mut marks = before;
    let mut out = marks::differing(due, before);
    while out != 0 {
        let j = marks::first(out);
        out = marks::flip(out, j);
        if shares.fits(j) && cash.fits(j) {
            shares.add_trade(j);
            cash.add_trade(j);
            marks = marks::flip(marks, j);
        }
    }
    marks
}

// The marks after all passes: the last one gave none back.
pub fn put_back(due: Marks, kept: Marks, shares: &mut Legs, cash: &mut Legs) -> Marks
    ghost b: { Ledger }
    requires started { Ready b × Started b due kept }
    requires figured { Figured b kept shares.old cash.old }
    ensures { AllPassed b due kept result }
{
    let mut marks = kept;
    loop {
        let more = one_pass(due, marks, shares, cash);
        if more == marks {
            return marks;
        }
        marks = more;
    }
}
