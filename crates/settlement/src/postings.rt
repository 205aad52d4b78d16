// The settled trades' posting rows.
ghost use Rattle.std.specs.Prelude.{◌≡◌, ◌≤◌, length};
ghost use Rattle.book.specs.Meaning.{ledger_of, waiting_of};
ghost use Rattle.book.specs.Stored.{Stored};
ghost use Rattle.marks.specs.Marks.{marked_of, with_rows};
ghost use Rattle.legs.specs.Ready.{Ready};

use marks::Marks;

// The rows of each marked trade, one trade's four behind another's.
pub fn write_marked(area: &mut [u8], book: &[u64], marks: Marks)
    requires { (4096 ≤ length area.old) × Stored book.now × Ready (ledger_of book.now) }
    ensures { area.new ≡ with_rows (marked_of marks (waiting_of book.now)) area.old }
{
    let n = book_items::items(book);
    let mut at: usize = 0;
    for i in 0..n {
        if marks::is_on(marks, i) {
            let trade = book_items::item_at(book, i);
            rows::write_trade(&mut area[at..], trade);
            at += 64;
        }
    }
}
