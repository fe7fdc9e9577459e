//! What takes the pairs that a sweep finds: a list of them, or their number alone.

ghost use Rattle.std.specs.Prelude.{◌≡◌, IfSome, length};

use std::alloc::{AllocError, Global};

/// What takes pairs one by one. Contracts see of which lists of pairs it may be.
pub trait Taker {
    ghost use Rattle.std.specs.Prelude.{List, ◌++◌, ◌∷◌, [], ℕ, OnOk};

    ghost is_of: { Self → List (ℕ × ℕ) → Type 0 };

    /// Takes one more pair.
    fn take(&mut self, i: u32, j: u32) -> Result<(), AllocError>
        ensures { OnOk result ((ps : List (ℕ × ℕ)) → is_of self.old ps
            → is_of self.new (ps ++ (i, j) ∷ [])) };

    /// How many pairs were taken.
    fn taken(&self) -> usize;

    /// Takes all anew.
    fn clear(&mut self)
        ensures { is_of self.new [] };
}

/// The pairs that were taken.
#[derive(Drop)]
pub struct PairList {
    pub pairs: Vec<(u32, u32)>,
}

impl Taker for PairList {
    ghost is_of = { λ s ps. s.pairs.items ≡ ps };

    fn take(&mut self, i: u32, j: u32) -> Result<(), AllocError> {
        self.pairs.push((i, j))?;
        Ok(())
    }

    fn taken(&self) -> usize {
        self.pairs.len()
    }

    fn clear(&mut self) {
        self.pairs.clear();
    }
}

/// How many pairs were taken, while they are no more than wanted. One more ends the sweep.
#[derive(Clone, Copy, Debug)]
pub struct PairCount {
    pub count: Option<usize>,
    pub most: usize,
}

impl Taker for PairCount {
    ghost is_of = { λ s ps. IfSome s.count (λ n. length ps ≡ n) };

    fn take(&mut self, _i: u32, _j: u32) -> Result<(), AllocError> {
        match self.count {
            Some(count) if count < self.most => {
                self.count = Some(count + 1);
                Ok(())
            }
            _ => {
                self.count = None;
                Err(AllocError)
            }
        }
    }

    fn taken(&self) -> usize {
        self.count.unwrap_or(0)
    }

    fn clear(&mut self) {
        self.count = Some(0);
    }
}
