// What the stages of the checking order share.
#![tactic(auto)]

ghost use Rattle.std.specs.Prelude.{◌≡◌, true, false, MatchResult};
ghost use Rattle.plain.specs.Lists.{within};

use rulebook::Refusal;

// Refuses where the refusal's test applies.
pub fn refuse(refusal: Refusal, applies: bool) -> Result<(), Refusal>
    ensures { MatchResult result (λ _. applies ≡ false) (λ given. (applies ≡ true) × (given ≡ refusal)) }
{
    if applies {
        return Err(refusal);
    }
    Ok(())
}

// From `low` to `high`, both ends inside.
pub fn is_within(low: u64, high: u64, n: u64) -> bool
    ensures { result ≡ within low high n }
{
    (low <= n) & (n <= high)
}
