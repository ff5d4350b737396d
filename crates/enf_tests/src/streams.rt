//! Several streams in one order of time: the worked logs with ample memory, and many records.
use enf_data::EventSet;
use log_stream::LogItem;
use std::alloc::Global;
use std::test::Fail;
use stream_mux::{Mux, MuxRefusal, Offer};
use trace_meaning::kinds::StepKind;

fn step(alloc: Global, time: u64) -> Offer {
    Offer::Item(LogItem::Step {
        kind: StepKind::System,
        time,
        events: EventSet::new(alloc),
    })
}

fn tick(time: u64) -> Offer {
    Offer::Item(LogItem::Tick { time })
}

// The times of items, of a tick with 1000 more.
fn note(found: &mut Vec<u64>, items: Vec<LogItem>) -> Result<(), Fail> {
    for item in &items {
        match item {
            LogItem::Step { time, .. } => found.push(*time)?,
            LogItem::Tick { time } => found.push(time.saturating_add(1000))?,
        }
    }
    Ok(())
}

#[test]
fn two_streams(rt: HostRuntime) -> Result<(), Fail> {
    let alloc = rt.alloc();
    let mut mux = Mux::new(alloc, 2)?;
    let mut found = Vec::new(alloc);
    note(&mut found, mux.offer(alloc, 0, step(alloc, 5))?)?;
    note(&mut found, mux.offer(alloc, 1, step(alloc, 3))?)?;
    note(&mut found, mux.offer(alloc, 0, step(alloc, 40))?)?;
    note(&mut found, mux.offer(alloc, 1, tick(50))?)?;
    note(&mut found, mux.offer(alloc, 0, Offer::End)?)?;
    note(&mut found, mux.offer(alloc, 1, step(alloc, 60))?)?;
    note(&mut found, mux.finish(alloc)?)?;
    assert_eq!(rt; found.as_slice(), [3, 5, 40, 1050, 60].as_slice());
    Ok(())
}

#[test]
fn refused(rt: HostRuntime) -> Result<(), Fail> {
    let alloc = rt.alloc();
    let mut mux = Mux::new(alloc, 2)?;
    let mut found = Vec::new(alloc);
    note(&mut found, mux.offer(alloc, 0, step(alloc, 5))?)?;
    let falling = MuxRefusal::FallingStream {
        stream: 0,
        mark: 5,
        given: 4,
    };
    assert_eq!(rt; mux.offer(alloc, 0, step(alloc, 4)).err(), Some(falling));
    note(&mut found, mux.finish(alloc)?)?;
    assert_eq!(rt; found.as_slice(), [5].as_slice());
    Ok(())
}

// How many items come at once, where each of 64 streams but the last gave so many steps, and then the last one ends.
#[test]
fn many(rt: HostRuntime) -> Result<(), Fail> {
    let alloc = rt.alloc();
    let mut mux = Mux::new(alloc, 64)?;
    let mut early = 0u64;
    for time in 1..201u64 {
        for stream in 0..63u32 {
            let given = mux.offer(alloc, stream, step(alloc, time))?;
            early = early.saturating_add(given.len() as u64);
        }
    }
    let given = mux.offer(alloc, 63, Offer::End)?;
    assert_eq!(rt; early, 0);
    assert_eq!(rt; given.len(), 12538);
    Ok(())
}
