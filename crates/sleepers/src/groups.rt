//! Entries in groups, each a list with a cursor.
ghost use Rattle.std.specs.Prelude.{◌≡◌, ◌↔◌, ◌++◌, ◌∷◌, ℕ, [], length, IfErr, IfNone, IfOk};
ghost use Rattle.std.specs.Prelude.{IfSome, IsNone, OnErr, OnOk, drop};
ghost use Rattle.std.specs.Option.{option_to_list};
ghost use Rattle.cursor_list.specs.machine.Split.{items};
ghost use Rattle.sleepers.specs.machine.Entries.{shown};
ghost use Rattle.sleepers.specs.machine.Groups.{HasIn, OthersStay, StayGroups, entries_at, entries_of, group_at, held};

use crate::entries::Entry;
use cursor_list::CursorList;
use enf_data::NoMemory;
use std::alloc::Global;
use std::marker::Model;

/// Entries in groups by numbers, seen as the list of all groups, those without entries too.
#[derive(Drop)]
pub struct Groups<T> {
    lists: Vec<CursorList<Entry<T>>>,
    // Groups that lost their last entry.
    free: Vec<usize>,
    alloc: Global,
}

impl<T> Model for Groups<T> {
    ghost use Rattle.std.specs.Prelude.{List};
    ghost use Rattle.cursor_list.specs.machine.Split.{Split};
    ghost use Rattle.sleepers.specs.declared.entries.Entry.{Entry};

    ghost Value = { List (Split (Entry T)) };

    ghost view = { λ g. g.lists.items };
}

impl<T: Drop> Groups<T> {
    // No group. It takes no memory.
    pub(crate) fn new(alloc: Global) -> Groups<T>
        ensures { result ≡ [] }
    {
        Groups {
            lists: Vec::new(alloc),
            free: Vec::new(alloc),
            alloc,
        }
    }

    // How many groups there are, those without entries too.
    pub(crate) fn len(&self) -> usize
        ensures { result ≡ length self.now }
    {
        self.lists.len()
    }

    // The first entry of a group.
    pub(crate) fn first(&self, number: usize) -> Option<&Entry<T>>
        ensures none { IsNone result ↔ (entries_at self.now number ≡ []) }
        ensures some { IfSome result (λ entry. entries_at self.now number
            ≡ entry.now ∷ drop 1 (entries_at self.now number)) }
    {
        self.lists.get(number)?.walk().next()
    }

    // The entry after the cursor of a group.
    pub(crate) fn peek(&self, number: usize) -> Option<&Entry<T>>
        ensures none { IsNone result ↔ ((group_at self.now number).after ≡ []) }
        ensures some { IfSome result (λ entry. (group_at self.now number).after
            ≡ entry.now ∷ drop 1 (group_at self.now number).after) }
    {
        self.lists.get(number)?.peek()
    }

    // A group without entries.
    pub(crate) fn fresh(&mut self) -> Result<usize, NoMemory>
        ensures empty { IfOk result (λ number. entries_at self.new number ≡ []) }
        ensures stay { StayGroups self.old self.new }
    {
        if let Some(number) = self.free.pop() {
            if number < self.lists.len() && self.first(number).is_none() {
                return Ok(number);
            }
        }
        let number = self.lists.len();
        self.lists.push(CursorList::new(self.alloc))?;
        Ok(number)
    }

    // Notes that a group may have no entry, but of the last, which is trimmed. Without memory it is not used again.
    pub(crate) fn release(&mut self, number: usize)
        ensures { self.new ≡ self.old }
    {
        if number < self.lists.len().saturating_sub(1) {
            let _noted = self.free.push(number);
        }
    }

    // Lets go of the last group, if it has no entry.
    pub(crate) fn trim(&mut self)
        ensures { StayGroups self.old self.new }
    {
        let Some(number) = self.lists.len().checked_sub(1) else {
            return;
        };
        if self.first(number).is_none() {
            self.lists.pop();
        }
    }

    // Puts an entry into a group, or hands it back where memory runs out.
    pub(crate) fn put(&mut self, number: usize, entry: Entry<T>) -> Result<(), Entry<T>>
        ensures ok { OnOk result (HasIn entry (held self.old) (held self.new)) }
        ensures group { OnOk result (HasIn entry (entries_at self.old number) (entries_at self.new number)) }
        ensures others { OthersStay number self.old self.new }
        ensures err { OnErr result (self.new ≡ self.old) }
        ensures returned { IfErr result (λ back. back ≡ entry) }
    {
        match self.lists.get_mut(number) {
            Some(list) => list.push_back(entry),
            None => Err(entry),
        }
    }

    // Puts the cursor of a group in front of all its entries.
    pub(crate) fn rewind(&mut self, number: usize)
        ensures after { (group_at self.new number).after ≡ entries_at self.old number }
        ensures entries { (other : ℕ) → entries_at self.new other ≡ entries_at self.old other }
        ensures others { OthersStay number self.old self.new }
        ensures held { held self.new ≡ held self.old }
    {
        if let Some(list) = self.lists.get_mut(number) {
            list.rewind();
        }
    }

    // Passes the entry after the cursor of a group.
    pub(crate) fn pass(&mut self, number: usize)
        ensures after { (group_at self.new number).after ≡ drop 1 (group_at self.old number).after }
        ensures entries { (other : ℕ) → entries_at self.new other ≡ entries_at self.old other }
        ensures others { OthersStay number self.old self.new }
        ensures held { held self.new ≡ held self.old }
    {
        if let Some(list) = self.lists.get_mut(number) {
            list.move_next();
        }
    }

    // Takes the entry after the cursor out of a group.
    pub(crate) fn take(&mut self, number: usize) -> Option<Entry<T>>
        ensures after { (group_at self.old number).after ≡ option_to_list result ++ (group_at self.new number).after }
        ensures some { IfSome result (λ entry. HasIn entry (held self.new) (held self.old)) }
        ensures group { IfSome result (λ entry.
            HasIn entry (entries_at self.new number) (entries_at self.old number)) }
        ensures others { OthersStay number self.old self.new }
        ensures none { IfNone result (((group_at self.old number).after ≡ []) × (self.new ≡ self.old)) }
    {
        self.lists.get_mut(number)?.remove()
    }

    // All entries, group by group.
    pub(crate) fn all(&self, alloc: Global) -> Result<Vec<&Entry<T>>, NoMemory>
        ensures { IfOk result (λ all. shown all.items ≡ held self.now) }
    {
        let mut all = Vec::new(alloc);
        for list in &self.lists {
            push_all(list, &mut all)?;
        }
        Ok(all)
    }

    // Puts the entries of a group after others.
    pub(crate) fn push_entries<'a>(
        &'a self,
        number: usize,
        into: &mut Vec<&'a Entry<T>>,
    ) -> Result<(), NoMemory>
        ensures { OnOk result (shown into.new.items ≡ shown into.old.items ++ entries_at self.now number) }
    {
        match self.lists.get(number) {
            Some(list) => push_all(list, into),
            None => Ok(()),
        }
    }

    // The entries of some groups.
    pub(crate) fn entries_of(
        &self,
        alloc: Global,
        numbers: &[usize],
    ) -> Result<Vec<&Entry<T>>, NoMemory>
        ensures { IfOk result (λ entries. shown entries.items ≡ entries_of self.now numbers.now) }
    {
        let mut entries = Vec::new(alloc);
        for number in numbers {
            if let Some(list) = self.lists.get(*number) {
                push_all(list, &mut entries)?;
            }
        }
        Ok(entries)
    }
}

// Puts the entries of a list after others.
fn push_all<'a, T>(
    list: &'a CursorList<Entry<T>>,
    all: &mut Vec<&'a Entry<T>>,
) -> Result<(), NoMemory>
    ensures { OnOk result (shown all.new.items ≡ shown all.old.items ++ items list.now) }
{
    for entry in list.walk() {
        all.push(entry)?;
    }
    Ok(())
}
