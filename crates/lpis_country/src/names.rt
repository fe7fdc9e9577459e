//! Names in the order of the text, none twice.

ghost use Rattle.std.specs.Prelude.{◌≡◌, ◌++◌, [], ◌∷◌, IfOk, length, map};
ghost use Rattle.std.specs.List.{list_any};
ghost use Rattle.std.specs.Str.{bytes_eq};
ghost use Rattle.std.specs.String.{string_bytes};

use std::alloc::{AllocError, Global};
use std::collections::BTreeSet;
use std::marker::Model;

/// Names in their order. Beside the list is a set, which finds a name that stands twice.
#[derive(Drop)]
pub(crate) struct Names {
    list: Vec<String>,
    set: BTreeSet<String>,
}

impl Model for Names {
    ghost use Rattle.std.specs.Prelude.{◌≡◌, ℕ, List, map};
    ghost use Rattle.std.specs.BTreeSet.{contains_text};
    ghost use Rattle.std.specs.List.{list_any};
    ghost use Rattle.std.specs.Str.{bytes_eq};
    ghost use Rattle.std.specs.String.{string_bytes};

    ghost Value = { List (List ℕ) };

    ghost view = { λ n. map string_bytes n.list.items };

    ghost invariant = { λ n. (q : List ℕ)
        → contains_text n.set q ≡ list_any (bytes_eq q) (map string_bytes n.list.items) };
}

impl Names {
    /// No names.
    pub(crate) fn new(alloc: Global) -> Names
        ensures { result ≡ [] }
    {
        Names {
            list: Vec::new(alloc),
            set: BTreeSet::new(alloc),
        }
    }

    /// How many names there are.
    pub(crate) fn len(&self) -> usize
        ensures { result ≡ length self.now }
    {
        self.list.len()
    }

    /// Whether a name is among them.
    pub(crate) fn has(&self, name: &str) -> bool
        ensures { result ≡ list_any (bytes_eq name.now) self.now }
    {
        self.set.contains(name)
    }

    /// The names with one more.
    pub(crate) fn with(mut self, alloc: Global, name: &str) -> Result<Names, AllocError>
        ensures { IfOk result (λ n. n ≡ self ++ name.now ∷ []) }
    {
        self.list.push(String::from_str(alloc, name)?)?;
        self.set.insert(String::from_str(alloc, name)?)?;
        Ok(self)
    }

    /// The list.
    pub(crate) fn into_list(self) -> Vec<String>
        ensures { map string_bytes result.items ≡ self }
    {
        self.list
    }
}
