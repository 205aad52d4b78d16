// Lines: a pattern, and the numbers that its signs stand for.
#![tactic(auto)]

ghost use Rattle.std.specs.Prelude.{true, false, ℕ, ◌++◌, ◌≡◌, ◌+◌, ◌*◌, ◌≤◌, length, MatchOption};
ghost use Rattle.wording.specs.Fill.{is_sign, said, fill};
ghost use Rattle.wording.specs.Meant.{meant};

use names::Table;
use text::Buffer;

// What a sign makes of a number.
#[derive(Clone, Copy)]
enum Sign {
    Digits,
    Name(Table),
}

// The sign that a byte is.
fn sign_of(b: u8) -> Option<Sign>
    ensures { MatchOption result (is_sign b ≡ false) (λ sign. (is_sign b ≡ true) × ((n : ℕ) → meant sign n ≡ said b n)) }
{
    match b {
        b'#' => Some(Sign::Digits),
        b'$' => Some(Sign::Name(Table::Currencies)),
        b'%' => Some(Sign::Name(Table::Types)),
        b'*' => Some(Sign::Name(Table::Notices)),
        b'!' => Some(Sign::Name(Table::Refusals)),
        b'^' => Some(Sign::Name(Table::Forms)),
        _ => None,
    }
}

// What a sign says of a number. Names have at most 80 bytes.
fn put_said<const N: usize>(out: &mut Buffer<N>, sign: Sign, n: u64)
    requires { length out.old + 80 ≤ N }
    ensures put { out.new ≡ out.old ++ meant sign n }
    ensures upper_bound { length out.new ≤ length out.old + 80 }
{
    match sign {
        Sign::Digits => out.put_number(n),
        Sign::Name(table) => out.put(table.name(n).as_bytes()),
    }
}

// A pattern with its numbers in the places of its signs; a sign for which no number is left says nothing.
pub fn put_filled<const N: usize>(out: &mut Buffer<N>, pattern: &[u8], numbers: &[u64])
    requires { length out.old + length pattern.now + 80 * length numbers.now ≤ N }
    ensures put { out.new ≡ out.old ++ fill pattern.now numbers.now }
    ensures upper_bound { length out.new ≤ length out.old + length pattern.now + 80 * length numbers.now }
{
    let mut rest = numbers.iter();
    for b in pattern {
        match sign_of(*b) {
            Some(sign) => {
                if let Some(n) = rest.next() {
                    put_said(out, sign, *n);
                }
            }
            None => out.put(&[*b]),
        }
    }
}
