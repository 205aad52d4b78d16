// The keys of a table in ascending order, whatever the order of its rows.
ghost use Rattle.std.specs.Prelude.{◌≡◌, ◌≤◌, ◌<◌, length};
ghost use Rattle.words.specs.Order.{lesser_of, NextKey};
ghost use Rattle.words.specs.Tables.{rows};

// The lesser of the least key so far and another one, which does not count below `from`.
fn lesser(from: u64, least: u64, key: u64) -> u64
    ensures { result ≡ lesser_of from least key }
{
    if key < from {
        return least;
    }
    if least < key {
        return least;
    }
    key
}

// The least key of a table from a number on, or the limit where it has none below that.
pub fn next_key(table: &[u64], from: u64, limit: u64) -> u64
    requires { (rows table.now < length table.now) × (from ≤ limit) }
    ensures { NextKey table.now from limit result }
{
    let n = table[0] as usize;
    let mut least = limit;
    for &key in &table[1..n + 1] {
        least = lesser(from, least, key);
    }
    least
}
