//! A list in a field, which contracts see as a list.

ghost use Rattle.std.specs.Prelude.{◌≡◌, IfOk};

use std::alloc::AllocError;
use std::marker::Model;

/// A list that a field of a public type holds. It is made from a `Vec` without taking memory, and
/// contracts see it as the list of its items.
#[derive(Debug, Drop)]
pub struct Sequence<T> {
    items: Vec<T>,
}

impl<T> Model for Sequence<T> {
    ghost use Rattle.std.specs.Prelude.{List};

    ghost Value = { List T };

    ghost view = { λ s. s.items.items };
}

impl<T> Sequence<T> {
    /// The list of a `Vec`'s items.
    pub fn new(items: Vec<T>) -> Sequence<T>
        ensures { result ≡ items.items }
    {
        Sequence { items }
    }

    /// Its items.
    pub fn as_slice(&self) -> &[T]
        ensures { result.now ≡ self.now }
    {
        self.items.as_slice()
    }
}

/// The same list without room to spare, for a reader that is done with it: lists grow by doubling.
/// It is refused where the allocator refuses the smaller block.
pub fn without_spare<T: Drop>(mut items: Vec<T>) -> Result<Vec<T>, AllocError>
    ensures { IfOk result (λ v. v.items ≡ items.items) }
{
    items.shrink_to_fit();
    if items.capacity() > items.len() {
        Err(AllocError)
    } else {
        Ok(items)
    }
}
