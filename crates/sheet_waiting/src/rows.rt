// The rows of the waiting items.
ghost use Rattle.std.specs.Prelude.{◌++◌, ◌≡◌, ◌+◌, ◌≤◌, ◌<◌, length, get_or};
ghost use Rattle.rulebook.specs.declared.Item.{Item};
ghost use Rattle.book.specs.Meaning.{ledger_of};
ghost use Rattle.book.specs.Stored.{Kept};
ghost use Rattle.sheet_item.specs.ItemLine.{item_line};
ghost use Rattle.sheet_waiting.specs.Rows.{waiting_rows};

use text::Buffer;

// The row of the item at `i`.
fn put_row<const N: usize>(out: &mut Buffer<N>, page: bool, book: &[u64], i: usize)
    requires { Kept book.now × (i < length (ledger_of book.now).waiting) × (length out.old + 1700 ≤ N) }
    ensures put { (d : Item) → out.new ≡ out.old ++ item_line page (get_or (ledger_of book.now).waiting i d) }
    ensures upper_bound { length out.new ≤ length out.old + 1700 }
{
    let item = reading::item_at(book, i);
    sheet_item::put_item(out, page, item);
}

// In order of arrival: at most 64.
#[tactic(auto, unfolding(crate::specs::Rows::waiting_rows))]
pub fn put_rows<const N: usize>(out: &mut Buffer<N>, page: bool, book: &[u64])
    requires { Kept book.now × (length out.old + 108800 ≤ N) }
    ensures put { out.new ≡ out.old ++ waiting_rows page (ledger_of book.now).waiting }
    ensures upper_bound { length out.new ≤ length out.old + 108800 }
{
    let n = reading::items(book);
    for i in 0..n {
        put_row(out, page, book, i);
    }
}
