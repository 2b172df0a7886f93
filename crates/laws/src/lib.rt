// What the other crates' definitions and proofs share. The definitions are in specs/, their laws in
// proofs/.

#![tactic(auto)]

ghost use Rattle.std.specs.Prelude.{◌≡◌};
ghost use Rattle.laws.specs.Choice.{every, within, larger};
ghost use Rattle.laws.specs.Search.{first_failed};

// The place, from 0, of the first test of a list that fails, or none.
pub fn first_failed(b: &[bool]) -> Option<usize>
    ensures { result ≡ first_failed b.now }
{
    for (i, holds) in b.iter().enumerate() {
        if !holds {
            return Some(i);
        }
    }
    None
}

// Whether every test of a list holds: a rule that is a list of tests is code that lends that list.
pub fn all_of(b: &[bool]) -> bool
    ensures { result ≡ every b.now }
{
    first_failed(b).is_none()
}

// Whether a number lies from low to high, both included.
pub fn is_within(low: u64, high: u64, x: u64) -> bool
    ensures { result ≡ within low high x }
{
    (low..=high).contains(&x)
}

// The larger of two numbers.
pub fn larger_of(a: u32, b: u32) -> u32
    ensures { result ≡ larger a b }
{
    a.max(b)
}
