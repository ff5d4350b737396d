//! The places of rows, by the values that the rows have of some columns: those of a part are found without a look at
//! the others.
ghost use Rattle.std.specs.Prelude.{◌≡◌, ℕ, [], ◌∷◌, ◌++◌, List, None, Some, All, Contains, IfOk, IfSome, IsTrue};
ghost use Rattle.std.specs.Prelude.{OnErr, OnOk, length, map};
ghost use Rattle.enf_data.specs.declared.values.Value.{Value as AnyValue};
ghost use Rattle.enf_data.specs.declared.terms.VarId.{VarId as AnyVariable};
ghost use Rattle.enf_data.specs.meaning.Valuations.{BindsColumns};
ghost use Rattle.std.specs.Map.{lookup};
ghost use Rattle.windows.specs.machine.RowQueries.{cells, cells_eq};
ghost use Rattle.windows.specs.machine.WindowEntries.{rows_of};
ghost use Rattle.windows.specs.machine.RowIndexes.{IsIndexOf, IsNotedAt, KeepBuckets, bucket_at, part_cells};

use crate::entries::Entries;
use crate::row_query::{RowQuery, row_of};
use enf_data::items::Duplicate;
use enf_data::memory::NoMemory;
use enf_data::rows::Row;
use enf_data::seeds::Seed;
use enf_data::terms::{VarId, Vars};
use indexmap::IndexMap;
use std::alloc::Global;
use std::marker::Model;
use valuations::{Frame, Lookup, Valuation};

type Buckets = IndexMap<Row, Bucket, Seed>;

/// By their values of some columns, the places of rows.
#[derive(Debug, Drop)]
pub struct RowIndex {
    columns: Vars,
    buckets: Buckets,
}

impl Model for RowIndex {
    ghost use Rattle.windows.specs.machine.RowIndexes.{PartIndex};

    ghost Value = { PartIndex };

    ghost view = { λ i. record { columns = i.columns; buckets = i.buckets.entries } };
}

// Places, seen as the list of them.
#[derive(Debug, Drop)]
pub(crate) struct Bucket {
    places: Vec<usize>,
}

impl Model for Bucket {
    ghost use Rattle.std.specs.Prelude.{List, ℕ};

    ghost Value = { List ℕ };

    ghost view = { λ b. b.places.items };
}

impl RowIndex {
    // No place is noted.
    pub fn new(alloc: Global, seed: Seed, columns: Vars) -> RowIndex
        ensures { result ≡ record { columns = columns; buckets = [] } }
    {
        RowIndex {
            columns,
            buckets: IndexMap::with_hasher(alloc, seed),
        }
    }

    // The columns by whose values it has the places.
    pub fn columns(&self) -> &Vars
        ensures { result.now ≡ self.now.columns }
    {
        &self.columns
    }

    // Whether the valuation has a value for each of the columns.
    pub fn is_bound_by<V: Lookup>(&self, v: &V) -> bool
        ensures { IsTrue result → BindsColumns (V.valuation v.now) self.now.columns }
    {
        self.columns
            .as_slice()
            .iter()
            .all(|column| v.value(*column).is_some())
    }

    // The places of the valuation's values of the columns.
    pub fn places<V: Lookup>(&self, v: &V) -> &[usize]
        ensures { result.now ≡ bucket_at self.now.buckets (cells self.now.columns (V.valuation v.now)) }
    {
        let query = RowQuery {
            columns: self.columns.as_slice(),
            values: v,
        };
        match self.buckets.get(query) {
            Some(bucket) => bucket.as_slice(),
            None => &[],
        }
    }

    // Notes the place of a row of these columns.
    pub fn note(
        &mut self,
        alloc: Global,
        among: &[VarId],
        row: &Row,
        place: usize,
    ) -> Result<(), NoMemory>
        requires within { (x : AnyVariable) → Contains self.old.columns x → Contains among.now x }
        requires fits { length row.now ≡ length among.now }
        ensures columns { self.new.columns ≡ self.old.columns }
        ensures kept { KeepBuckets self.old.buckets self.new.buckets }
        ensures noted { OnOk result (Contains
            (bucket_at self.new.buckets (part_cells self.new.columns among.now row.now)) place) }
    {
        let nothing = Valuation::empty(alloc);
        let below = Frame::Whole(&nothing);
        let values = Frame::Row(&below, among, row.as_slice());
        let query = RowQuery {
            columns: self.columns.as_slice(),
            values: &values,
        };
        note_in(alloc, &mut self.buckets, query, place)
    }

    // The index of the rows of the entries, which have the columns `among`.
    pub fn of(
        alloc: Global,
        columns: Vars,
        among: &[VarId],
        entries: &Entries,
    ) -> Result<RowIndex, NoMemory>
        requires within { (x : AnyVariable) → Contains columns x → Contains among.now x }
        requires fit { All (λ e. length e.0 ≡ length among.now) entries.now.entries }
        ensures { IfOk result (λ index. IsIndexOf among.now (rows_of entries.now.entries) index) }
    {
        let mut index = RowIndex::new(alloc, *entries.hasher(), columns);
        let mut place = 0;
        for row in entries.keys() {
            index.note(alloc, among, row, place)?;
            place += 1;
        }
        Ok(index)
    }
}

// Whether the columns are some of these, and not all.
pub fn are_some_of(columns: &[VarId], among: &[VarId]) -> bool
    ensures { IsTrue result → (x : AnyVariable) → Contains columns.now x → Contains among.now x }
{
    if columns.is_empty() || columns.len() >= among.len() {
        return false;
    }
    columns.iter().all(|column| among.contains(column))
}

// Notes the place of a row, where there is an index.
pub fn note_place(
    alloc: Global,
    index: &mut Option<RowIndex>,
    among: &[VarId],
    row: &Row,
    place: usize,
) -> Result<(), NoMemory>
    requires indexed { (rows : List (List AnyValue)) × IfSome index.old (IsIndexOf among.now rows) }
    requires fits { length row.now ≡ length among.now }
    ensures kept { (rows : List (List AnyValue)) → IfSome index.old (IsIndexOf among.now rows)
        → IfSome index.new (IsIndexOf among.now rows) }
    ensures noted { OnOk result ((rows : List (List AnyValue)) → place ≡ length rows
        → IfSome index.old (IsIndexOf among.now rows)
        → IfSome index.new (IsIndexOf among.now (rows ++ row.now ∷ []))) }
{
    match index {
        Some(index) => index.note(alloc, among, row, place),
        None => Ok(()),
    }
}

// The same index, made anew of the rows of these entries.
pub fn made_anew(
    alloc: Global,
    index: &Option<RowIndex>,
    among: &[VarId],
    entries: &Entries,
) -> Result<Option<RowIndex>, NoMemory>
    requires indexed { (rows : List (List AnyValue)) × IfSome index.now (IsIndexOf among.now rows) }
    requires fit { All (λ e. length e.0 ≡ length among.now) entries.now.entries }
    ensures { IfOk result (λ made. IfSome made (IsIndexOf among.now (rows_of entries.now.entries))) }
{
    let Some(index) = index else {
        return Ok(None);
    };
    let columns = index.columns().duplicate(alloc)?;
    Ok(Some(RowIndex::of(alloc, columns, among, entries)?))
}

impl Bucket {
    // The place alone.
    fn of(alloc: Global, place: usize) -> Result<Bucket, NoMemory>
        ensures { IfOk result (λ bucket. bucket ≡ place ∷ []) }
    {
        let mut places = Vec::with_capacity(alloc, 1)?;
        places.push(place)?;
        Ok(Bucket { places })
    }

    fn as_slice(&self) -> &[usize]
        ensures { result.now ≡ self.now }
    {
        self.places.as_slice()
    }

    fn put(&mut self, place: usize) -> Result<(), NoMemory>
        ensures ok { OnOk result (self.new ≡ self.old ++ place ∷ []) }
        ensures err { OnErr result (self.new ≡ self.old) }
    {
        self.places.push(place)?;
        Ok(())
    }
}

// Puts the place into the bucket of these values, where they are all there.
fn note_in<V: Lookup>(
    alloc: Global,
    buckets: &mut Buckets,
    query: RowQuery<'_, V>,
    place: usize,
) -> Result<(), NoMemory>
    ensures kept { KeepBuckets buckets.old.entries buckets.new.entries }
    ensures noted { OnOk result (IsNotedAt buckets.new.entries
        (cells query.entry.columns.now (V.valuation query.entry.values.now)) place) }
{
    if let Some(at) = buckets.get_index_of(query) {
        return buckets[at].put(place);
    }
    note_first(alloc, buckets, query, place)
}

// So too, where these values have no bucket yet.
fn note_first<V: Lookup>(
    alloc: Global,
    buckets: &mut Buckets,
    query: RowQuery<'_, V>,
    place: usize,
) -> Result<(), NoMemory>
    requires { lookup (λ key. cells_eq (cells query.columns.now (V.valuation query.values.now)) (map Some key))
        buckets.old.entries ≡ None }
    ensures kept { KeepBuckets buckets.old.entries buckets.new.entries }
    ensures noted { OnOk result (IsNotedAt buckets.new.entries
        (cells query.entry.columns.now (V.valuation query.entry.values.now)) place) }
{
    let Some(part) = row_of(alloc, query.columns, query.values)? else {
        return Ok(());
    };
    let bucket = Bucket::of(alloc, place)?;
    buckets.insert(part, bucket)?;
    Ok(())
}
