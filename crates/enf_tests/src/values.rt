//! Values, lists and signatures with ample memory.
use crate::found::Found;
use cursor_list::CursorList;
use enf_data::{Duplicate, Event, EventSet, NameId, Row, Term, TextValue, Value, VarId};
use enf_value::{Terms, print_value, put_value, read_value};
use signature::Signature;
use std::alloc::Global;
use std::test::Fail;

fn event(alloc: Global, name: u32) -> Result<Event, Fail> {
    let text = TextValue::from_bytes(alloc, b"a \"quoted\" text")?;
    let args = Row::from_vec(vec![in alloc; Value::Num(-7), Value::Text(text)]?);
    Ok(Event {
        name: NameId(name),
        args,
    })
}

#[test]
fn values_and_lists(rt: HostRuntime) -> Result<(), Fail> {
    let mut found = Found::new(rt.alloc());
    find_event(rt.alloc(), &mut found)?;
    find_set(rt.alloc(), &mut found)?;
    find_terms(rt.alloc(), &mut found)?;
    assert_eq!(rt; found.text(), b"yes|no|100|yes|yes|".as_slice());
    Ok(())
}

fn find_event(alloc: Global, found: &mut Found) -> Result<(), Fail> {
    let event = event(alloc, 1)?;
    let copy = event.duplicate(alloc)?;
    found.holds(copy == event);
    Ok(())
}

fn find_set(alloc: Global, found: &mut Found) -> Result<(), Fail> {
    let mut set = EventSet::new(alloc);
    fill(alloc, &mut set)?;
    find_filled(alloc, &mut set, found)
}

fn fill(alloc: Global, set: &mut EventSet) -> Result<(), Fail> {
    for name in 0..100 {
        set.insert(event(alloc, name)?)?;
    }
    Ok(())
}

fn find_filled(alloc: Global, set: &mut EventSet, found: &mut Found) -> Result<(), Fail> {
    found.holds(set.insert(event(alloc, 99)?)?);
    found.number(set.len() as u64);
    let copy = set.duplicate(alloc)?;
    found.holds(copy.as_slice() == set.as_slice());
    Ok(())
}

fn find_terms(alloc: Global, found: &mut Found) -> Result<(), Fail> {
    let mut terms = Terms::new(alloc);
    terms.push(Term::Var(VarId(3)))?;
    terms.push(Term::Const(Value::Num(4)))?;
    let copy = terms.duplicate(alloc)?;
    found.holds(copy == terms);
    Ok(())
}

#[test]
fn a_list_with_a_cursor(rt: HostRuntime) -> Result<(), Fail> {
    let mut found = Found::new(rt.alloc());
    find_items(rt.alloc(), &mut found)?;
    assert_eq!(rt; found.text(), b"2|1|2|".as_slice());
    Ok(())
}

fn find_items(alloc: Global, found: &mut Found) -> Result<(), Fail> {
    let mut list = CursorList::new(alloc);
    list.push_back(2_u64)?;
    list.insert_before(1)?;
    found.number(list.len() as u64);
    for item in list.walk() {
        found.number(*item);
    }
    Ok(())
}

#[test]
fn what_is_printed_is_read(rt: HostRuntime) -> Result<(), Fail> {
    let mut found = Found::new(rt.alloc());
    find_read(rt.alloc(), &Value::Num(-7), &mut found)?;
    let text = TextValue::from_bytes(rt.alloc(), b"a \"quoted\" text")?;
    find_read(rt.alloc(), &Value::Text(text), &mut found)?;
    assert_eq!(rt; found.text(), b"yes|yes|yes|yes|".as_slice());
    Ok(())
}

fn find_read(alloc: Global, value: &Value, found: &mut Found) -> Result<(), Fail> {
    let mut text = Vec::new(alloc);
    print_value(value, &mut text)?;
    match read_value(alloc, &text, 0)? {
        Some((read, end)) => found.holds(read == *value && end == text.len()),
        None => found.holds(false),
    }
    let mut row = Row::new(alloc);
    let end = put_value(alloc, &text, 0, &mut row)?;
    found.holds(end == Some(text.len()) && row.as_slice().first() == Some(value));
    Ok(())
}

#[test]
fn signatures(rt: HostRuntime) -> Result<(), Fail> {
    let mut found = Found::new(rt.alloc());
    find_signature(rt.alloc(), &mut found)?;
    assert_eq!(rt; found.text(), b"2|yes|".as_slice());
    Ok(())
}

fn find_signature(alloc: Global, found: &mut Found) -> Result<(), Fail> {
    let Ok(read) = Signature::read(alloc, b"request(text, int) +-; alarm() +;") else {
        return Err("a signature".into());
    };
    let copy = read.duplicate(alloc)?;
    found.number(copy.len().into());
    found.holds(copy.find(b"alarm") == Some(NameId(1)));
    Ok(())
}
