// The securities of a book, as 129 words: how many there are, 32 codes, 32 issued counts, 32 outside counts, 32 held counts, in order of admission.
#![tactic(auto)]

ghost use Rattle.std.specs.Prelude.{◌≡◌, false, ◌++◌, ◌∷◌, [], ◌+◌, ◌^◌, ◌≤◌, ◌<◌, get_or};
ghost use Rattle.rulebook.specs.Ledger.{Holdings, admitted, outside_of, held_of, new_security, with_outside};
ghost use Rattle.words.specs.Tables.{rows};
ghost use Rattle.securities.specs.Admitted.{securities_of, with_securities, entered, left, Kept};

use rulebook::{Security, Shares};

// Codes and counts are columns of words, for the book is words that a C program lends.
const ISSUED: usize = 33;

const OUTSIDE: usize = 65;

const HELD: usize = 97;

// Whether the security is admitted.
pub fn admitted(securities: &[u64], code: u64) -> bool
    requires { Kept securities.now }
    ensures { (h : Holdings) → result ≡ admitted code (with_securities securities.now h) }
{
    words::find(securities, code).is_some()
}

// The security at `i`.
pub fn security_at(securities: &[u64], i: usize) -> Security
    requires { Kept securities.now × (i < rows securities.now) }
    ensures { (d : Security) → result ≡ get_or (securities_of securities.now) i d }
{
    Security {
        code: securities[i + 1],
        issued: Shares(securities[i + ISSUED]),
        outside: Shares(securities[i + OUTSIDE]),
        held: Shares(securities[i + HELD]),
    }
}

// The security's outside count.
pub fn outside(securities: &[u64], code: u64) -> Shares
    requires { Kept securities.now }
    ensures { (h : Holdings) → result.0 ≡ outside_of code (with_securities securities.now h) }
{
    Shares(words::value(securities, code, OUTSIDE))
}

// The security's held count.
pub fn held(securities: &[u64], code: u64) -> Shares
    requires { Kept securities.now }
    ensures { (h : Holdings) → result.0 ≡ held_of code (with_securities securities.now h) }
{
    Shares(words::value(securities, code, HELD))
}

// The security goes last, all of it outside.
pub fn admit(securities: &mut [u64], code: u64, quantity: Shares)
    requires { Kept securities.old × (rows securities.old < 32) × ((h : Holdings) → admitted code (with_securities securities.old h) ≡ false) }
    ensures { Kept securities.new
        × (securities_of securities.new ≡ securities_of securities.old ++ (with_outside quantity.0 (new_security code quantity) ∷ [])) }
{
    let n = securities[0];
    let at = n as usize;
    securities[at + 1] = code;
    securities[at + ISSUED] = quantity.0;
    securities[at + OUTSIDE] = quantity.0;
    securities[at + HELD] = 0;
    securities[0] = n + 1;
}

// Shares of the security come into custody: less of it outside, more of it held.
pub fn enter_custody(securities: &mut [u64], code: u64, quantity: Shares)
    requires { Kept securities.old × ((h : Holdings) → quantity.0 ≤ outside_of code (with_securities securities.old h))
        × ((h : Holdings) → held_of code (with_securities securities.old h) + quantity.0 < 2 ^ 64) }
    ensures { Kept securities.new
        × ((h : Holdings) → with_securities securities.new h ≡ entered code quantity.0 (with_securities securities.old h)) }
{
    if let Some(i) = words::find(securities, code) {
        securities[i + OUTSIDE] -= quantity.0;
        securities[i + HELD] += quantity.0;
    }
}

// Shares of the security leave custody: more of it outside, less of it held.
pub fn leave_custody(securities: &mut [u64], code: u64, quantity: Shares)
    requires { Kept securities.old × ((h : Holdings) → outside_of code (with_securities securities.old h) + quantity.0 < 2 ^ 64)
        × ((h : Holdings) → quantity.0 ≤ held_of code (with_securities securities.old h)) }
    ensures { Kept securities.new
        × ((h : Holdings) → with_securities securities.new h ≡ left code quantity.0 (with_securities securities.old h)) }
{
    if let Some(i) = words::find(securities, code) {
        securities[i + OUTSIDE] += quantity.0;
        securities[i + HELD] -= quantity.0;
    }
}
