//! Pairs in order, each once.

ghost use Rattle.std.specs.Prelude.{ℕ, ◌↔◌, Contains};
ghost use Rattle.lpis_pairs.specs.private.Sweeping.{IsRising};

/// The same pairs, ascending by the first number and then by the second, each once.
pub fn in_order(pairs: Vec<(u32, u32)>) -> Vec<(u32, u32)>
    ensures rising { IsRising result.items }
    ensures same { (pair : ℕ × ℕ) → Contains result.items pair ↔ Contains pairs.items pair }
{
    let mut pairs = pairs;
    pairs.sort_unstable();
    pairs.dedup();
    pairs
}
