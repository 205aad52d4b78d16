// A sheet is lines of text, or a page of tables. Each function puts bytes into a buffer, behind those that were put.
#![tactic(auto)]

ghost use Rattle.std.specs.Prelude.{◌++◌, ◌≡◌, if◌then◌else◌, [], ◌∷◌, ◌+◌, ◌*◌, ◌≤◌, length};
ghost use Rattle.wording.specs.Fill.{fill};
ghost use Rattle.text_or_page.specs.Table.{table_foot};
ghost use Rattle.text_or_page.specs.Written.{in_page};

use text::Buffer;

// The numbers in the signs of the line, or of the row.
pub fn put_written<const N: usize>(
    out: &mut Buffer<N>,
    page: bool,
    line: &[u8],
    row: &[u8],
    numbers: &[u64],
)
    requires { length out.old + length line.now + length row.now + 80 * length numbers.now ≤ N }
    ensures put { out.new ≡ out.old ++ fill (if page then row.now else line.now) numbers.now }
    ensures upper_bound { length out.new ≤ length out.old + length line.now + length row.now + 80 * length numbers.now }
{
    wording::put_filled(out, if page { row } else { line }, numbers);
}

// Words alone.
pub fn put_words<const N: usize>(out: &mut Buffer<N>, page: bool, line: &[u8], row: &[u8])
    requires { length out.old + length line.now + length row.now ≤ N }
    ensures put { out.new ≡ out.old ++ fill (if page then row.now else line.now) [] }
    ensures upper_bound { length out.new ≤ length out.old + length line.now + length row.now }
{
    put_written(out, page, line, row, &[]);
}

// Words where something is so, and nothing where it is not.
pub fn put_where<const N: usize>(
    out: &mut Buffer<N>,
    page: bool,
    holds: bool,
    line: &[u8],
    row: &[u8],
)
    requires { length out.old + length line.now + length row.now ≤ N }
    ensures put { out.new ≡ out.old ++ (if holds then fill (if page then row.now else line.now) [] else []) }
    ensures upper_bound { length out.new ≤ length out.old + length line.now + length row.now }
{
    if holds {
        put_words(out, page, line, row);
    }
}

// Words with one number.
pub fn put_one<const N: usize>(
    out: &mut Buffer<N>,
    page: bool,
    line: &[u8],
    row: &[u8],
    number: u64,
)
    requires { length out.old + length line.now + length row.now + 80 ≤ N }
    ensures put { out.new ≡ out.old ++ fill (if page then row.now else line.now) (number ∷ []) }
    ensures upper_bound { length out.new ≤ length out.old + length line.now + length row.now + 80 }
{
    put_written(out, page, line, row, &[number]);
}

// What stands only in a page.
pub fn put_in_page<const N: usize>(out: &mut Buffer<N>, page: bool, bytes: &[u8])
    requires { length out.old + length bytes.now ≤ N }
    ensures put { out.new ≡ out.old ++ in_page page bytes.now }
    ensures upper_bound { length out.new ≤ length out.old + length bytes.now }
{
    if page {
        out.put(bytes);
    }
}

// The end of a table.
pub fn put_foot<const N: usize>(out: &mut Buffer<N>, page: bool)
    requires { length out.old + 20 ≤ N }
    ensures put { out.new ≡ out.old ++ in_page page table_foot }
    ensures upper_bound { length out.new ≤ length out.old + 20 }
{
    put_in_page(out, page, b"</tbody>\n</table>\n");
}
