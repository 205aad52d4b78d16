// What the regions of a book of words need: a table's rows, a search by key, keys in ascending order, copies of words.
#![tactic(auto)]

mod order;

ghost use Rattle.std.specs.Prelude.{◌≡◌, ◌+◌, ◌-◌, ◌≤◌, ◌<◌, length, take, drop, IfSome};
ghost use borrow.Rule.Slice.PartMut.{put_mid};
ghost use Rattle.words.specs.Places.{bit, first_from};
ghost use Rattle.words.specs.Tables as Tables;
ghost use Rattle.words.specs.Tables.{rows, is_key, place_of, value_of, KeysOnce};

pub use order::next_key;

// A flag as a word.
pub fn bit_of(b: bool) -> u64
    ensures value { result ≡ bit b }
    ensures upper_bound { result ≤ 1 }
{
    if b {
        return 1;
    }
    0
}

// How many rows a table has: its first word.
pub fn rows(table: &[u64]) -> u64
    requires { 0 < length table.now }
    ensures { result ≡ Tables.rows table.now }
{
    table[0]
}

// How many of the first `n` rows may be passed over, none of which has `key`.
// Four at a time, for a table is read from its start at each search: `position` over the keys took 1.57 times as many instructions.
fn passed(table: &[u64], key: u64, n: usize) -> usize
    requires { n < length table.now }
    ensures { (result ≤ n) × (first_from (is_key table.now key) 0 n ≡ first_from (is_key table.now key) result (n - result)) }
{
    for four in 0..n / 4 {
        let i = 4 * four;
        if table[i + 1] == key
            || table[i + 2] == key
            || table[i + 3] == key
            || table[i + 4] == key
        {
            return i;
        }
    }
    n / 4 * 4
}

// Where the row of `key` stands in a table, whose keys are the words behind its first.
pub fn find(table: &[u64], key: u64) -> Option<usize>
    requires { rows table.now < length table.now }
    ensures place { result ≡ place_of key table.now }
    ensures inside { IfSome result (λ i. i < rows table.now) }
{
    let n = table[0] as usize;
    let from = passed(table, key, n);
    (from..n).find(|&i| table[i + 1] == key)
}

// What the row of `key` has in the column that starts at `column`: 0 where there is none.
pub fn value(table: &[u64], key: u64, column: usize) -> u64
    requires { KeysOnce table.now × (1 ≤ column) × (rows table.now + column ≤ length table.now) }
    ensures { result ≡ value_of column table.now key }
{
    match find(table, key) {
        Some(i) => table[i + column],
        None => 0,
    }
}

// The words of `s` go over those from `at` on.
pub fn write(w: &mut [u64], at: usize, s: &[u64])
    requires { at + length s.now ≤ length w.old }
    ensures { w.new ≡ put_mid at (length s.now) w.old s.now }
{
    w[at..at + s.len()].copy_from_slice(s);
}

// `n` words come down by `gap`, to those from `at` on.
pub fn shift_down(w: &mut [u64], at: usize, gap: usize, n: usize)
    requires { at + gap + n ≤ length w.old }
    ensures { w.new ≡ put_mid at n w.old (take n (drop (at + gap) w.old)) }
{
    let from = at + gap;
    w.copy_within(from..from + n, at);
}
