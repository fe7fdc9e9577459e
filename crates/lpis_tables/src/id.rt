//! Identifiers.

ghost use Rattle.std.specs.Prelude.{◌≡◌, ◌≤◌, ◌∷◌, [], ℕ, List, true, false, nat_eq, IfOk, IfSome};
ghost use Rattle.std.specs.Prelude.{IfNone, Some};
ghost use Rattle.std.specs.Cmp;
ghost use Rattle.std.specs.Cmp.Lexicographic.{pointwise, slice_cmp, nat_list_eq_equiv};
ghost use Rattle.std.specs.Cmp.Lexicographic.{nat_list_cmp_total, texts_po, texts_ties};
ghost use Rattle.std.specs.Ordering.{nat_cmp};
ghost use Rattle.std.specs.Cmp.Rules.{hashing};
ghost use Rattle.std.proofs.Common.{rules, refl};
ghost use Rattle.std.specs.List.{list_all};
ghost use Rattle.lpis_tables.specs.Ids.{is_id, is_id_byte as id_byte};
ghost use Rattle.lpis_tables.specs.private.Characters.{characters_in, count_in};

use std::alloc::{AllocError, Global};
use std::cmp::Ordering;
use std::hash::{Hash, Hasher};
use std::marker::Model;

/// The most characters of an identifier.
const LONGEST_ID: usize = 40;

/// An identifier: 1 to 40 characters of `A-Z a-z 0-9 . _ : / -`, compared by its bytes. They lie in
/// the value itself, since a release has many identifiers and most are short, with zeros behind them
/// and their count as the last byte. Where there are 40 the last byte is a character, and each
/// character is above 40. Contracts see them.
#[derive(Debug, Drop)]
pub struct Id {
    characters: [u8; LONGEST_ID],
}

impl Model for Id {
    ghost Value = { List ℕ };

    ghost view = { λ a. characters_in a.characters };

    ghost invariant = { λ a. is_id (characters_in a.characters) ≡ true };
}

impl PartialEq for Id {
    ghost eq = { pointwise nat_eq };

    ghost laws = { Cmp.partial_equiv_from_equiv nat_list_eq_equiv };

    fn eq(&self, other: &Id) -> bool {
        self.as_bytes() == other.as_bytes()
    }
}

impl Eq for Id {
    ghost laws = { nat_list_eq_equiv };
}

impl Hash for Id {
    ghost hash_input = { λ x. x ∷ [] };

    ghost respects_eq = { Prim.search (hashing, rules) };

    fn hash<H: Hasher>(&self, state: &mut H) {
        state.write(self.as_bytes());
    }
}

impl PartialOrd for Id {
    ghost partial_cmp = { λ x y. Some (slice_cmp nat_cmp x y) };

    ghost laws = { texts_po };

    fn partial_cmp(&self, other: &Id) -> Option<Ordering> {
        Some(self.cmp(other))
    }
}

impl Ord for Id {
    ghost cmp = { slice_cmp nat_cmp };

    ghost total = { nat_list_cmp_total };

    ghost matches_partial_cmp = { λ x y. refl };

    ghost matches_eq = { texts_ties };

    fn cmp(&self, other: &Id) -> Ordering {
        self.as_bytes().cmp(other.as_bytes())
    }
}

impl Id {
    /// The identifier of these bytes, or `None` where they are none.
    pub fn read(_alloc: Global, bytes: &[u8]) -> Result<Option<Id>, AllocError>
        ensures some { IfOk result
            (λ o. IfSome o (λ id. (id ≡ bytes.now) × (is_id bytes.now ≡ true))) }
        ensures none { IfOk result (λ o. IfNone o (is_id bytes.now ≡ false)) }
    {
        if !is_id_text(bytes) {
            return Ok(None);
        }
        Ok(Some(Id {
            characters: padded(bytes),
        }))
    }

    /// Its bytes.
    pub fn as_bytes(&self) -> &[u8]
        ensures bytes { result.now ≡ self.now }
        ensures id { is_id self.now ≡ true }
    {
        &self.characters[..count_in(&self.characters)]
    }

    /// Its text.
    pub fn as_str(&self) -> &str
        ensures text { result.now ≡ self.now }
        ensures id { is_id self.now ≡ true }
    {
        match str::from_utf8(self.as_bytes()) {
            Ok(text) => text,
            // Its characters are ASCII.
            Err(_) => unreachable!(),
        }
    }

    /// An equal one.
    pub fn copy(&self) -> Result<Id, AllocError>
        ensures { IfOk result (λ id. id ≡ self.now) }
    {
        Ok(Id {
            characters: self.characters,
        })
    }
}

/// How many characters there are.
fn count_in(characters: &[u8; LONGEST_ID]) -> usize
    ensures count { result ≡ count_in characters.now }
    ensures within { result ≤ LONGEST_ID }
{
    usize::from(characters[LONGEST_ID - 1]).min(LONGEST_ID)
}

/// The bytes of an identifier, and behind them zeros and their count, as far as there is room.
fn padded(bytes: &[u8]) -> [u8; LONGEST_ID]
    requires { is_id bytes.now ≡ true }
    ensures { characters_in result ≡ bytes.now }
{
    let mut characters = [0; LONGEST_ID];
    characters[LONGEST_ID - 1] = bytes.len() as u8;
    characters[..bytes.len()].copy_from_slice(bytes);
    characters
}

/// Whether bytes are an identifier. It takes no memory.
pub fn is_id_text(bytes: &[u8]) -> bool
    ensures { result ≡ is_id bytes.now }
{
    1 <= bytes.len() && bytes.len() <= LONGEST_ID && all_id_bytes(bytes)
}

/// Whether each byte is a character of an identifier.
fn all_id_bytes(bytes: &[u8]) -> bool
    ensures { result ≡ list_all id_byte bytes.now }
{
    bytes.iter().all(|b| is_id_byte(*b))
}

/// Whether a byte is a character of an identifier.
fn is_id_byte(b: u8) -> bool
    ensures { result ≡ id_byte b }
{
    matches!(b, b'A'..=b'Z' | b'a'..=b'z' | b'0'..=b'9' | b'.' | b'_' | b':' | b'/' | b'-')
}
