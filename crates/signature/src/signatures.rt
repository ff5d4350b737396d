//! The names of a log: a few are searched, more of them are found without a look at the others.
ghost use Rattle.std.specs.Prelude.{◌≡◌, ◌≤◌, ◌++◌, ◌∷◌, [], Contains, IfNone, IfOk, IfSome};
ghost use Rattle.std.specs.Prelude.{List, OnErr, OnOk, Result, Some, Vec as AnyVec, length, position, slice_get, ℕ};
ghost use Rattle.std.specs.Map.{keys_of};
ghost use Rattle.std.specs.Str.{bytes_eq};
ghost use Rattle.std.specs.declared.alloc.Global.{Global as AnyGlobal};
ghost use Rattle.std.specs.Option.{option_copied, option_map};
ghost use Rattle.enf_data.specs.declared.events.NameId.{NameId as NameNumber};
ghost use Rattle.signature.specs.machine.Entries.{IsNewEntry};
ghost use Rattle.signature.specs.meaning.Grammar.{IsSignature, entry_names, name_number};
ghost use Rattle.signature.specs.machine.Reader.{GivesEntries, GivesSignatureAnswer};
ghost use Rattle.signature.specs.meaning.Refusals.{AnswersSignature};
ghost use Rattle.signature.specs.declared.entries.NameEntry.{NameEntry};
ghost use Rattle.signature.specs.declared.refusals.SignatureRefusal.{SignatureRefusal};

use crate::entries::NameEntry;
use crate::reading;
use crate::refusals::SignatureRefusal;
use enf_data::{Duplicate, MOST_FILE_BYTES, NameId, NoMemory};
use indexmap::IndexMap;
use std::alloc::Global;
use std::marker::Model;

// How many names are searched one after another at most. Above that they are found by their hash.
const MOST_SEARCHED: usize = 16;

/// A list of names with their columns and marks, by the order of declaration.
#[derive(Drop)]
pub struct Signature {
    entries: IndexMap<Vec<u8>, NameEntry>,
}

impl Model for Signature {
    ghost use Rattle.std.specs.Prelude.{List, map};
    ghost use Rattle.signature.specs.declared.entries.NameEntry.{NameEntry};
    ghost use Rattle.signature.specs.meaning.Grammar.{IsSignature};
    ghost use Rattle.signature.specs.machine.Entries.{AreKeyedByName};

    ghost Value = { List NameEntry };

    ghost view = { λ s. map (λ pair. pair.1) s.entries.entries };

    ghost invariant = { λ s. AreKeyedByName s.entries.entries
        × IsSignature (map (λ pair. pair.1) s.entries.entries) };
}

// The number of the entry with a name.
fn index_of(entries: &IndexMap<Vec<u8>, NameEntry>, text: &[u8]) -> Option<usize>
    ensures { result ≡ position (λ (name : AnyVec ℕ AnyGlobal). bytes_eq text.now name.items)
        (keys_of entries.now.entries) }
{
    if entries.len() > MOST_SEARCHED {
        return hashed(entries, text);
    }
    searched(entries, text)
}

// The number of the entry with a name, by its hash.
#[inline(never)]
fn hashed(entries: &IndexMap<Vec<u8>, NameEntry>, text: &[u8]) -> Option<usize>
    ensures { result ≡ position (λ (name : AnyVec ℕ AnyGlobal). bytes_eq text.now name.items)
        (keys_of entries.now.entries) }
{
    entries.get_index_of(text)
}

// The number of the entry with a name, by a search, which takes no hash.
fn searched(entries: &IndexMap<Vec<u8>, NameEntry>, text: &[u8]) -> Option<usize>
    ensures { result ≡ position (λ (name : AnyVec ℕ AnyGlobal). bytes_eq text.now name.items)
        (keys_of entries.now.entries) }
{
    // most names are of other lengths, which takes no call
    entries.keys().position(
        |name: &Vec<u8>| -> bool
            ensures { result ≡ bytes_eq text.entry.now name.now.items }
        {
            if name.len() != text.len() {
                return false;
            }
            text == name.as_slice()
        },
    )
}

impl Signature {
    /// The signature with no name.
    pub(crate) fn new(alloc: Global) -> Signature
        ensures { result ≡ [] }
    {
        Signature {
            entries: IndexMap::new(alloc),
        }
    }

    /// The signature that a text spells, or the first refusal by place.
    pub fn read(alloc: Global, bytes: &[u8]) -> Result<Signature, SignatureRefusal>
        requires { length bytes.now ≤ MOST_FILE_BYTES }
        // The text's answer, unless there is no memory.
        ensures answer { GivesSignatureAnswer bytes.now result }
        // No other answer than the text's.
        ensures only { (answer : Result (List NameEntry) SignatureRefusal) → AnswersSignature bytes.now answer
            → GivesEntries result answer }
    {
        reading::read(alloc, bytes)
    }

    /// Puts an entry last.
    pub(crate) fn push(&mut self, alloc: Global, entry: NameEntry) -> Result<(), NoMemory>
        requires { IsNewEntry self.old entry }
        ensures ok { OnOk result (self.new ≡ self.old ++ entry ∷ []) }
        ensures err { OnErr result (self.new ≡ self.old) }
    {
        let name = Vec::from_slice(alloc, entry.text.bytes())?;
        self.entries.insert(name, entry)?;
        Ok(())
    }

    /// How many names there are.
    pub fn len(&self) -> u32
        ensures length { result ≡ length self.now }
        ensures signature { IsSignature self.now }
    {
        self.entries.len() as u32
    }

    /// The entry of a name.
    pub fn entry(&self, name: NameId) -> Option<&NameEntry>
        ensures { option_copied result ≡ slice_get self.now name.0 }
    {
        let (_, entry) = self.entries.get_index(name.0 as usize)?;
        Some(entry)
    }

    /// The name with a text.
    pub fn find(&self, text: &[u8]) -> Option<NameId>
        ensures number { option_map (λ name. name.0) result ≡ name_number self.now text.now }
        ensures found { IfSome result
            (λ name. option_map (λ entry. entry.text) (slice_get self.now name.0) ≡ Some text.now) }
        ensures only { (name : NameNumber)
            → option_map (λ entry. entry.text) (slice_get self.now name.0) ≡ Some text.now
            → result ≡ Some name }
        ensures none { IfNone result (Contains (entry_names self.now) text.now → ⊥) }
    {
        let number = index_of(&self.entries, text)?;
        Some(NameId(number as u32))
    }
}

impl Duplicate for Signature {
    fn duplicate(&self, alloc: Global) -> Result<Signature, NoMemory> {
        let mut copy = Signature::new(alloc);
        for entry in self.entries.values() {
            copy.push(alloc, entry.duplicate(alloc)?)?;
        }
        Ok(copy)
    }
}
