//! Tables: what their operations give.
ghost use Rattle.std.specs.Prelude.{◌≡◌, IfOk, OnOk, IsTrue, All, Contains, length};
ghost use Rattle.enf_data.specs.meaning.Membership.{HasNoRepeats};
ghost use Rattle.enf_data.specs.declared.terms.VarId.{VarId as Variable};
ghost use Rattle.valuations.specs.machine.Comparisons.{IsColumnOf};

use crate::case::CaseError;
use crate::output::Output;
use crate::parts::{cut, cut_at, find, read_variable, read_variables, word};
use crate::values::read_at;
use enf_data::{Row, Term, Value, VarId, Vars};
use std::alloc::Global;
use valuations::{Compare, Table, Valuation};

/// What an operation gives: the input is its name and two operands, with `&` between them. A table is the numbers of
/// its columns, one digit each, a `|`, and its rows, each with `;` after it and `,` after each value.
pub fn answer(alloc: Global, input: &[u8], out: &mut Output) -> Result<(), CaseError> {
    let (name, operands) = cut_at(input, b'&')?;
    let operation = find(&OPERATIONS, name).ok_or(CaseError::Malformed)?;
    let (first, second) = cut_at(operands, b'&')?;
    answer_operands(alloc, operation, first, second, out)
}

fn answer_operands(
    alloc: Global,
    operation: Operation,
    first: &[u8],
    second: &[u8],
    out: &mut Output,
) -> Result<(), CaseError> {
    let left = read_table(alloc, first)?;
    answer_operation(alloc, operation, &left, second, out)
}

#[derive(Clone, Copy)]
enum Operation {
    Rows,
    Has,
    HasValuation,
    Project,
    Under,
    Select,
    Join,
    Antijoin,
    Union,
}

static OPERATIONS: [(&[u8], Operation); 9] = [
    (b"rows", Operation::Rows),
    (b"has", Operation::Has),
    (b"valuation", Operation::HasValuation),
    (b"project", Operation::Project),
    (b"under", Operation::Under),
    (b"select", Operation::Select),
    (b"join", Operation::Join),
    (b"antijoin", Operation::Antijoin),
    (b"union", Operation::Union),
];

fn answer_operation(
    alloc: Global,
    operation: Operation,
    left: &Table,
    second: &[u8],
    out: &mut Output,
) -> Result<(), CaseError> {
    match operation {
        Operation::Rows => print_table(left, out),
        Operation::Has => print_answer(left.has(&read_row(alloc, second)?), out),
        Operation::HasValuation => {
            print_answer(left.has_valuation(&read_valuation(alloc, second)?), out)
        }
        _ => print_table(&operated(alloc, operation, left, second)?, out),
    }
    Ok(())
}

fn operated(
    alloc: Global,
    operation: Operation,
    left: &Table,
    second: &[u8],
) -> Result<Table, CaseError> {
    match operation {
        Operation::Project => project(alloc, left, second),
        Operation::Under => Ok(left.rows_under(alloc, &read_valuation(alloc, second)?)?),
        Operation::Select => selected(alloc, left, second),
        _ => combined(alloc, operation, left, &read_table(alloc, second)?),
    }
}

fn combined(
    alloc: Global,
    operation: Operation,
    left: &Table,
    right: &Table,
) -> Result<Table, CaseError> {
    match operation {
        Operation::Antijoin => antijoin(alloc, left, right),
        Operation::Union => union(alloc, left, right),
        _ => Ok(left.join(alloc, right)?),
    }
}

// The rows for which a comparison holds: `=`, `<` or `<=`, and two terms, with blanks between them.
fn selected(alloc: Global, table: &Table, comparison: &[u8]) -> Result<Table, CaseError> {
    let (kind, terms) = word(comparison)?;
    let kind = find(&COMPARISONS, kind).ok_or(CaseError::Malformed)?;
    let (left, right) = word(terms)?;
    let left = read_term(alloc, left)?;
    select(alloc, table, kind, &left, right)
}

static COMPARISONS: [(&[u8], Compare); 3] = [
    (b"=", Compare::Equal),
    (b"<", Compare::Less),
    (b"<=", Compare::AtMost),
];

fn select(
    alloc: Global,
    table: &Table,
    kind: Compare,
    left: &Term,
    right: &[u8],
) -> Result<Table, CaseError> {
    let right = read_term(alloc, right)?;
    if is_column_of(table, left) && is_column_of(table, &right) {
        Ok(table.select(alloc, left, &right, kind)?)
    } else {
        Err(CaseError::Malformed)
    }
}

/// A variable, as `?` and a digit, or a value.
pub fn read_term(alloc: Global, bytes: &[u8]) -> Result<Term, CaseError> {
    match bytes {
        [b'?', digit] => Ok(Term::Var(read_variable(*digit)?)),
        value => Ok(Term::Const(read_whole(alloc, value)?)),
    }
}

// Whether the term is a value or a column.
fn is_column_of(table: &Table, term: &Term) -> bool
    ensures { IsTrue result → IsColumnOf table.now.columns term.now }
{
    match term {
        Term::Var(x) => table.columns().as_slice().contains(x),
        Term::Const(_) => true,
    }
}

/// The table that the bytes spell.
pub fn read_table(alloc: Global, bytes: &[u8]) -> Result<Table, CaseError> {
    let (columns, rows) = cut_at(bytes, b'|')?;
    table_of(alloc, read_variables(alloc, columns)?, rows)
}

/// The table of the rows that the bytes spell, where the columns are distinct and each row is as long as they.
pub fn table_of(alloc: Global, columns: Vars, rows: &[u8]) -> Result<Table, CaseError>
    ensures columns { IfOk result (λ t. t.columns ≡ columns) }
    ensures distinct { OnOk result (HasNoRepeats columns) }
{
    table_with(columns, read_rows(alloc, rows)?)
}

fn table_with(columns: Vars, rows: Vec<Row>) -> Result<Table, CaseError>
    ensures columns { IfOk result (λ t. t.columns ≡ columns) }
    ensures distinct { OnOk result (HasNoRepeats columns) }
{
    if are_distinct(columns.as_slice()) && are_as_long(rows.as_slice(), columns.len()) {
        Ok(Table::from_rows(columns, rows)?)
    } else {
        Err(CaseError::Malformed)
    }
}

// Rows, each with `;` after it.
fn read_rows(alloc: Global, bytes: &[u8]) -> Result<Vec<Row>, CaseError> {
    let mut rows = Vec::new(alloc);
    push_rows(alloc, bytes, &mut rows)?;
    Ok(rows)
}

fn push_rows(alloc: Global, bytes: &[u8], rows: &mut Vec<Row>) -> Result<(), CaseError> {
    let mut rest = bytes;
    while let Some((piece, behind)) = cut(rest, b';') {
        rows.push(read_row(alloc, piece)?)?;
        rest = behind;
    }
    Ok(())
}

// A row, with `,` after each value.
fn read_row(alloc: Global, bytes: &[u8]) -> Result<Row, CaseError> {
    let mut values = Vec::new(alloc);
    push_values(alloc, bytes, &mut values)?;
    Ok(Row::from_vec(values))
}

fn push_values(alloc: Global, bytes: &[u8], values: &mut Vec<Value>) -> Result<(), CaseError> {
    let mut rest = bytes;
    while let Some((piece, behind)) = cut(rest, b',') {
        values.push(read_whole(alloc, piece)?)?;
        rest = behind;
    }
    Ok(())
}

fn read_whole(alloc: Global, bytes: &[u8]) -> Result<Value, CaseError> {
    Ok(read_at(alloc, bytes, 0)?.0)
}

/// A digit and a value for each variable that is bound, with `,` after it.
pub fn read_valuation(alloc: Global, bytes: &[u8]) -> Result<Valuation, CaseError> {
    let mut v = Valuation::empty(alloc);
    bind_all(alloc, bytes, &mut v)?;
    Ok(v)
}

fn bind_all(alloc: Global, bytes: &[u8], v: &mut Valuation) -> Result<(), CaseError> {
    let mut rest = bytes;
    while let Some((piece, behind)) = cut(rest, b',') {
        bind(alloc, piece, v)?;
        rest = behind;
    }
    Ok(())
}

fn bind(alloc: Global, binding: &[u8], v: &mut Valuation) -> Result<(), CaseError> {
    let Some((digit, value)) = binding.split_first() else {
        return Err(CaseError::Malformed);
    };
    let variable = read_variable(*digit)?;
    if v.get(variable).is_some() {
        return Err(CaseError::Malformed);
    }
    Ok(v.bind(variable, read_whole(alloc, value)?)?)
}

/// The rows of the left table without those of the right one, whose columns are among them.
pub fn antijoin(alloc: Global, left: &Table, right: &Table) -> Result<Table, CaseError>
    ensures { IfOk result (λ t. t.columns ≡ left.now.columns) }
{
    if are_within(right.columns().as_slice(), left.columns().as_slice()) {
        Ok(left.antijoin(alloc, right)?)
    } else {
        Err(CaseError::Malformed)
    }
}

fn union(alloc: Global, left: &Table, right: &Table) -> Result<Table, CaseError> {
    if are_within(right.columns().as_slice(), left.columns().as_slice())
        && are_within(left.columns().as_slice(), right.columns().as_slice())
    {
        Ok(left.union(alloc, right)?)
    } else {
        Err(CaseError::Malformed)
    }
}

fn project(alloc: Global, table: &Table, columns: &[u8]) -> Result<Table, CaseError> {
    let columns = read_variables(alloc, columns)?;
    if are_distinct(columns.as_slice())
        && are_within(columns.as_slice(), table.columns().as_slice())
    {
        Ok(table.project(alloc, &columns)?)
    } else {
        Err(CaseError::Malformed)
    }
}

pub fn are_distinct(columns: &[VarId]) -> bool
    ensures { IsTrue result → HasNoRepeats columns.now }
{
    match columns.split_first() {
        Some((first, rest)) => !rest.contains(first) && are_distinct(rest),
        None => true,
    }
}

fn are_as_long(rows: &[Row], count: usize) -> bool
    ensures { IsTrue result → All (λ row. length row ≡ count) rows.now }
{
    match rows.split_first() {
        Some((first, rest)) => first.len() == count && are_as_long(rest, count),
        None => true,
    }
}

fn are_within(columns: &[VarId], others: &[VarId]) -> bool
    ensures { IsTrue result → (x : Variable) → Contains columns.now x → Contains others.now x }
{
    match columns.split_first() {
        Some((first, rest)) => others.contains(first) && are_within(rest, others),
        None => true,
    }
}

/// A table in the same form.
pub fn print_table(table: &Table, out: &mut Output) {
    for column in table.columns().as_slice() {
        out.number(column.0.into());
    }
    out.bytes(b"|");
    print_rows(table.rows(), out);
}

/// Rows in the form of a table.
pub fn print_rows(rows: &[Row], out: &mut Output) {
    for row in rows {
        print_row(row, out);
        out.bytes(b";");
    }
}

/// The values of a row, with `,` after each.
pub fn print_row(row: &Row, out: &mut Output) {
    for value in row.as_slice() {
        out.value(value);
        out.bytes(b",");
    }
}

/// The values of a row, and its time with `@` before and `;` after it.
pub fn print_row_at(row: &Row, time: u64, out: &mut Output) {
    print_row(row, out);
    out.bytes(b"@");
    out.number(time);
    out.bytes(b";");
}

/// `true` or `false`.
pub fn print_answer(answer: bool, out: &mut Output) {
    if answer {
        out.bytes(b"true");
    } else {
        out.bytes(b"false");
    }
}

/// How many rows a join and an antijoin of tables of 10,000 rows have: that of each number beside what it is modulo
/// 5,000 with the same the other way round, and that of each number beside itself with the even ones.
pub fn answer_counts(alloc: Global, out: &mut Output) -> Result<(), CaseError> {
    out.number(count_joined(alloc)? as u64);
    out.bytes(b" ");
    out.number(count_unmatched(alloc)? as u64);
    Ok(())
}

fn count_joined(alloc: Global) -> Result<usize, CaseError> {
    let left = table_of_pairs(alloc, b"01", Pair::Rest)?;
    joined_with(alloc, &left)
}

fn joined_with(alloc: Global, left: &Table) -> Result<usize, CaseError> {
    let right = table_of_pairs(alloc, b"12", Pair::OfRest)?;
    let joined = left.join(alloc, &right);
    Ok(joined?.len())
}

fn count_unmatched(alloc: Global) -> Result<usize, CaseError> {
    let same = table_of_pairs(alloc, b"01", Pair::Same)?;
    unmatched_with(alloc, &same)
}

fn unmatched_with(alloc: Global, same: &Table) -> Result<usize, CaseError> {
    let even = even_numbers(alloc)?;
    let unmatched = antijoin(alloc, same, &even);
    Ok(unmatched?.len())
}

fn even_numbers(alloc: Global) -> Result<Table, CaseError> {
    let even = table_of_pairs(alloc, b"12", Pair::Even)?;
    project(alloc, &even, b"1")
}

// What stands in a row of a number.
#[derive(Clone, Copy)]
enum Pair {
    Rest,
    OfRest,
    Same,
    Even,
}

fn pair_of(kind: Pair, number: u32) -> (u32, u32) {
    let rest = number % 5_000;
    match kind {
        Pair::Rest => (number, rest),
        Pair::OfRest => (rest, number),
        Pair::Same => (number, number),
        Pair::Even => (2 * rest, number),
    }
}

fn table_of_pairs(alloc: Global, columns: &[u8], kind: Pair) -> Result<Table, CaseError> {
    let columns = read_variables(alloc, columns)?;
    table_with(columns, pairs(alloc, kind)?)
}

fn pairs(alloc: Global, kind: Pair) -> Result<Vec<Row>, CaseError> {
    let mut rows = Vec::new(alloc);
    for number in 0..10_000u32 {
        rows.push(row_of(alloc, pair_of(kind, number))?)?;
    }
    Ok(rows)
}

fn row_of(alloc: Global, pair: (u32, u32)) -> Result<Row, CaseError> {
    let values = vec![in alloc; Value::Num(pair.0.into()), Value::Num(pair.1.into())]?;
    Ok(Row::from_vec(values))
}
