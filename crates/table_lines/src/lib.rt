// The lines of the table that records say.
#![tactic(auto)]

ghost use Rattle.std.specs.Prelude.{◌++◌, ◌≡◌, ◌+◌, ◌*◌, ◌≤◌, length};
ghost use Rattle.rulebook.specs.Record.{read_of};
ghost use Rattle.file.specs.Records.{records_of};
ghost use Rattle.table_lines.specs.Exported.{name_line, order_line, read_line, record_lines};

use rulebook::Order;
use text::Buffer;

// The first line.
#[tactic(auto, unfolding(crate::specs::Exported::name_line))]
pub fn put_names<const N: usize>(out: &mut Buffer<N>)
    requires { length out.old + 300 ≤ N }
    ensures { out.new ≡ out.old ++ name_line }
{
    out.put(
        b"form,minute,security,currency,debited member,debited type,credited member,credited type,debited shareholder,\
        credited shareholder,quantity,amount,trade day,settlement day,reference,operation,original,edition\n",
    );
}

// An order's line. A name or a number takes at most 80 bytes.
#[tactic(auto, unfolding(crate::specs::Exported::order_line))]
fn put_order<const N: usize>(out: &mut Buffer<N>, order: Order)
    requires { length out.old + 1556 ≤ N }
    ensures put { out.new ≡ out.old ++ order_line order }
    ensures upper_bound { length out.new ≤ length out.old + 1556 }
{
    let fields = layout::fields_of(order);
    wording::put_filled(out, b"^,#,#,#,#,#,#,#,#,#,#,#,#,#,#,#,#,#\n", &fields);
}

// A record's line.
#[tactic(auto, unfolding(crate::specs::Exported::read_line))]
fn put_record<const N: usize>(out: &mut Buffer<N>, octets: &[u8])
    requires { length out.old + 1556 ≤ N }
    ensures put { out.new ≡ out.old ++ read_line (read_of octets.now) }
    ensures upper_bound { length out.new ≤ length out.old + 1556 }
{
    match record::read(octets) {
        Ok(order) => put_order(out, order),
        Err(refusal) => {
            let number = refusal.into();
            wording::put_filled(out, b"unreadable: refused by # (!)\n", &[number, number]);
        }
    }
}

// The lines of the records of a file.
#[tactic(auto, unfolding(crate::specs::Exported::record_lines))]
pub fn put_records<const N: usize>(out: &mut Buffer<N>, file: &[u8])
    requires { length out.old + 1556 * length (records_of file.now) ≤ N }
    ensures { out.new ≡ out.old ++ record_lines (records_of file.now) }
{
    for octets in file::records(file) {
        put_record(out, octets);
    }
}
