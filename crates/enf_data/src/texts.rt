//! Texts: UTF-8 of at most 1,024 bytes.
ghost use Rattle.std.specs.Prelude.{◌≡◌, ◌↔◌, ◌<◌, ◌≤◌, ◌==◌, IfOk, IsErrOf, IsTrue, length};
ghost use Rattle.std.specs.Str.{IsUtf8};
ghost use Rattle.std.proofs.Common.{rules};
ghost use Rattle.std.specs.Cmp.{partial_order_from_own_ties};
ghost use Rattle.std.specs.Cmp.Lexicographic.{pointwise, slice_cmp};
ghost use Rattle.std.specs.Cmp.Rules.{comparing, hashing};
ghost use Rattle.std.specs.Ordering.{nat_cmp, as_partial_cmp};
ghost use Rattle.enf_data.specs.meaning.Texts.{IsTextValue};
ghost use Rattle.enf_data.specs.declared.texts.TextRefusal.TheVariants.{NoMemory as OutOfMemory};
ghost use Rattle.std.specs.Hash as fed;

use crate::items::Duplicate;
use crate::limits::MOST_TEXT_BYTES;
use crate::memory::NoMemory;
use smallvec::SmallVec;
use std::alloc::{AllocError, Global};
use std::cmp::Ordering;
use std::hash::{Hash, Hasher};
use std::marker::Model;

/// Why bytes are no text of the program.
#[derive(Clone, Copy, Debug, PartialEq, Eq)]
pub enum TextRefusal {
    TooLong,
    NotUtf8,
    NoMemory,
}

impl From<AllocError> for TextRefusal {
    ghost from_gives = { λ _ refusal. refusal ≡ OutOfMemory };

    fn from(_error: AllocError) -> TextRefusal {
        TextRefusal::NoMemory
    }
}

// Texts of so many bytes take no memory of their own.
const SHORT: usize = 16;

/// A text, seen as its bytes.
#[derive(Debug, Drop)]
pub struct TextValue {
    text: SmallVec<u8, SHORT>,
}

impl Model for TextValue {
    ghost use Rattle.std.specs.Prelude.{List, ℕ};
    ghost use Rattle.enf_data.specs.meaning.Texts.{IsTextValue};

    ghost Value = { List ℕ };

    ghost view = { λ t. t.text.items };

    ghost invariant = { λ t. IsTextValue t.text.items };
}

// Whether the bytes are UTF-8, which needs no look at characters where all are ASCII.
#[inline(always)]
fn is_utf8(bytes: &[u8]) -> bool
    ensures { IsTrue result ↔ IsUtf8 bytes.now }
{
    bytes.is_ascii() || str::from_utf8(bytes).is_ok()
}

impl TextValue {
    /// The text of these bytes. It is refused where they are over 1,024, and else where they are not UTF-8.
    #[inline(always)]
    pub fn from_bytes(alloc: Global, bytes: &[u8]) -> Result<TextValue, TextRefusal>
        ensures value { IfOk result (λ text. text ≡ bytes.now) }
        ensures text { IfOk result (λ text. IsTextValue bytes.now) }
        ensures too_long { IsErrOf result TextRefusal.TooLong ↔ (MOST_TEXT_BYTES < length bytes.now) }
        ensures not_utf8 { IsErrOf result TextRefusal.NotUtf8
            ↔ ((length bytes.now ≤ MOST_TEXT_BYTES) × (IsUtf8 bytes.now → ⊥)) }
    {
        if bytes.len() > MOST_TEXT_BYTES {
            return Err(TextRefusal::TooLong);
        }
        if !is_utf8(bytes) {
            return Err(TextRefusal::NotUtf8);
        }
        Ok(TextValue::copied(alloc, bytes)?)
    }

    // The text of bytes that are one.
    #[inline(always)]
    pub fn copied(alloc: Global, bytes: &[u8]) -> Result<TextValue, AllocError>
        requires { IsTextValue bytes.now }
        ensures { IfOk result (λ text. text ≡ bytes.now) }
    {
        Ok(TextValue {
            text: SmallVec::from_slice(alloc, bytes)?,
        })
    }

    /// The bytes of the text.
    pub fn bytes(&self) -> &[u8]
        ensures value { result.now ≡ self.now }
        ensures text { IsTextValue self.now }
    {
        self.text.as_slice()
    }
}

impl Duplicate for TextValue {
    fn duplicate(&self, alloc: Global) -> Result<TextValue, NoMemory> {
        Ok(TextValue::copied(alloc, self.bytes())?)
    }
}

impl PartialEq for TextValue {
    ghost eq = { pointwise ◌==◌ };

    ghost laws = { Prim.search (comparing, rules) };

    fn eq(&self, other: &TextValue) -> bool {
        self.text.as_slice() == other.text.as_slice()
    }
}

impl Eq for TextValue {
    ghost laws = { Prim.search (comparing, rules) };
}

impl PartialOrd for TextValue {
    ghost partial_cmp = { as_partial_cmp (slice_cmp nat_cmp) };

    ghost laws = { partial_order_from_own_ties (Prim.search (comparing, rules)) (Prim.search (comparing, rules)) };

    fn partial_cmp(&self, other: &TextValue) -> Option<Ordering> {
        Some(self.cmp(other))
    }
}

impl Ord for TextValue {
    ghost cmp = { slice_cmp nat_cmp };

    ghost total = { Prim.search (comparing, rules) };

    ghost matches_partial_cmp = { Prim.search (comparing, rules) };

    ghost matches_eq = { Prim.search (comparing, rules) };

    fn cmp(&self, other: &TextValue) -> Ordering {
        self.text.as_slice().cmp(other.text.as_slice())
    }
}

impl Hash for TextValue {
    ghost hash_input = { fed.str };

    ghost respects_eq = { Prim.search (hashing, rules) };

    fn hash<H: Hasher>(&self, state: &mut H) {
        state.write(self.text.as_slice());
        state.write_u8(0xff);
    }
}
