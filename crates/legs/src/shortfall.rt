// What the marked trades lack, of shares or of cash.
ghost use Rattle.std.specs.Prelude.{◌≤◌};
ghost use Rattle.marks.specs.Marks.{is_on};
ghost use Rattle.legs.specs.Slots.{LastShort};

use crate::Legs;
use marks::Marks;

// The last marked trade of the first `n` that debits a short account or short cash.
pub fn last_short(shares: &Legs, cash: &Legs, marks: Marks, n: usize) -> Option<usize>
    requires { (n ≤ shares.now.trades) × (n ≤ cash.now.trades) }
    ensures { LastShort (is_on marks) shares.now.slots shares.now.figures cash.now.slots cash.now.figures n result }
{
    for i in (0..n).rev() {
        if marks::is_on(marks, i) && (shares.is_short(i) || cash.is_short(i)) {
            return Some(i);
        }
    }
    None
}
