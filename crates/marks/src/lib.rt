// Marks on the items of a waiting list: a mask of 64 bits, the first item's the most significant.
#![tactic(auto)]

ghost use Rattle.std.specs.Prelude.{if◌then◌else◌, ◌≡◌, false, not, ℕ, ◌<◌, ◌≤◌};
ghost use Rattle.plain.specs.Lists.{◌is◌};
ghost use Rattle.marks.specs.Marks.{is_on, First, count_on};

// One word.
pub type Marks = u64;

// The item at `i` has a mark.
pub fn is_on(marks: Marks, i: usize) -> bool
    requires { i < 64 }
    ensures { result ≡ is_on marks i }
{
    (marks >> (63 - i)) % 2 == 1
}

// The marks with that of the item at `i` set, or taken away where it was set.
pub fn flip(marks: Marks, i: usize) -> Marks
    requires { i < 64 }
    ensures { (k : ℕ) → k < 64 → is_on result k ≡ (if k is i then not (is_on marks i) else is_on marks k) }
{
    marks ^ 1 << (63 - i)
}

// Marks on the items that have one in just one of the two.
pub fn differing(one: Marks, other: Marks) -> Marks
    ensures { (k : ℕ) → k < 64 → is_on result k ≡ (if is_on other k then not (is_on one k) else is_on one k) }
{
    one ^ other
}

// The first item that has a mark.
pub fn first(marks: Marks) -> usize
    requires { 0 < marks }
    ensures { First marks result }
{
    u64::leading_zeros(marks) as usize
}

// How many of the first `n` have a mark.
pub fn count(marks: Marks, n: usize) -> u64
    requires { n ≤ 64 }
    ensures { result ≡ count_on (is_on marks) n }
{
    let mut marked: u64 = 0;
    for i in 0..n {
        marked += (marks >> (63 - i)) % 2;
    }
    marked
}

// Marks on those of the first `n` items that pass a test.
pub fn on_each<F: Fn(usize) -> bool>(n: usize, test: F) -> Marks
    requires size { n ≤ 64 }
    requires asked { (i : ℕ) → i < n → F.pre test i }
    ensures tested { (k : ℕ) → k < n → F.post test k (is_on result k) }
    ensures behind { (k : ℕ) → n ≤ k → k < 64 → is_on result k ≡ false }
{
    let mut marks: Marks = 0;
    for i in 0..n {
        if test(i) {
            marks = flip(marks, i);
        }
    }
    marks
}
