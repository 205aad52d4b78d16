// A waiting item's line.
#![tactic(auto)]

ghost use Rattle.std.specs.Prelude.{◌++◌, ◌≡◌, [], ◌+◌, ◌≤◌, length};
ghost use Rattle.text_or_page.specs.Written.{written};
ghost use Rattle.sheet_item.specs.ItemLine.{terms_of, item_line};

use rulebook::Item;
use text::Buffer;

// The debited and the credited party, security, quantity, amount, currency and days.
#[tactic(auto, unfolding(crate::specs::ItemLine::terms_of))]
fn put_terms<const N: usize>(out: &mut Buffer<N>, page: bool, item: Item)
    requires { length out.old + 1350 ≤ N }
    ensures put { out.new ≡ out.old ++ terms_of page item }
    ensures upper_bound { length out.new ≤ length out.old + 1350 }
{
    let from = item.debited;
    let to = item.credited;
    let amount = item.amount.0;
    text_or_page::put_written(
        out,
        page,
        b" FROM #/#/# TO #/#/# SECURITY # QUANTITY # AMOUNT #.## $ TRADED # SETTLES #",
        b"<td>#/#/#</td><td>#/#/#</td><td class=n>#</td><td class=n>#</td>\
        <td class=n>#.##</td><td>$</td><td class=n>#</td><td class=n>#</td><td>",
        &[
            from.member,
            from.typ,
            from.shareholder,
            to.member,
            to.typ,
            to.shareholder,
            item.security,
            item.quantity.0,
            amount / 100,
            amount % 100 / 10,
            amount % 10,
            item.currency,
            item.trade_day,
            item.settlement_day,
        ],
    );
}

// The end of the line.
fn put_end<const N: usize>(out: &mut Buffer<N>, page: bool)
    requires { length out.old + 20 ≤ N }
    ensures put { out.new ≡ out.old ++ written page "\n" "</td></tr>\n" [] }
    ensures upper_bound { length out.new ≤ length out.old + 20 }
{
    text_or_page::put_words(out, page, b"\n", b"</td></tr>\n");
}

#[tactic(auto, unfolding(crate::specs::ItemLine::item_line))]
pub fn put_item<const N: usize>(out: &mut Buffer<N>, page: bool, item: Item)
    requires { length out.old + 1700 ≤ N }
    ensures put { out.new ≡ out.old ++ item_line page item }
    ensures upper_bound { length out.new ≤ length out.old + 1700 }
{
    let state = item.state;
    sheet_state::put_state(out, page, state);
    put_terms(out, page, item);
    sheet_state::put_sent(out, page, item.sent);
    sheet_state::put_marks(out, page, state);
    put_end(out, page);
}
