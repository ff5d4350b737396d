//! Streams of records that are put in one order of time.
ghost use Rattle.std.specs.Prelude.{◌≡◌, ◌<◌, ◌∷◌, [], List, IfOk, IsSome, OnOk, OnErr, length, slice_set};
ghost use Rattle.stream_mux.specs.declared.records.Tagged.{Tagged};
ghost use Rattle.stream_mux.specs.meaning.MergedStreams.{StreamStep};
ghost use Rattle.stream_mux.specs.machine.MuxQueues.{AreLinedUp, queued};
ghost use Rattle.stream_mux.specs.machine.MuxStates.{AnswersOffer, GivesWaiting, SendsMore, StandsFor, fresh_mux};
ghost use Rattle.stream_mux.specs.machine.MuxStates.{mark_left};
ghost use Rattle.stream_mux.specs.machine.MuxStates.{SendsSteps, mux_refusal, tagged};

use crate::laws::muxes;
use crate::records::{MuxRefusal, Offer};
use crate::releasing::{greatest_of, release, tick};
use crate::tree::TurnTree;
use crate::waiting::{Waiting, is_step, time_of};
use enf_data::NoMemory;
use log_stream::LogItem;
use std::alloc::Global;
use std::marker::Model;

/// What some streams gave so far: what of it waits, and when nothing can come before that any more.
#[derive(Drop)]
pub struct Mux {
    marks: TurnTree,
    waiting: Waiting,
    greatest: u64,
}

impl Model for Mux {
    ghost use Rattle.std.specs.Prelude.{◌≡◌, length};
    ghost use Rattle.stream_mux.specs.machine.MuxStates.{MuxState};

    ghost Value = { MuxState };

    ghost view = { λ m. record { marks = m.marks; queues = m.waiting; greatest = m.greatest } };

    ghost invariant = { λ m. length m.waiting ≡ length m.marks };
}

impl Mux {
    /// So many open streams that gave nothing yet. The `Mux` stands for no record.
    pub fn new(alloc: Global, streams: u32) -> Result<Mux, NoMemory>
        ensures fresh { IfOk result (λ mux. mux ≡ fresh_mux streams) }
        ensures stands { IfOk result (λ mux. StandsFor mux []) }
    {
        muxes();
        let mut marks = TurnTree::new(alloc, streams)?;
        for stream in 0..streams {
            marks.set_time(stream, Some(0));
        }
        Ok(Mux {
            marks,
            waiting: Waiting::new(alloc, streams)?,
            greatest: 0,
        })
    }

    // Why it refuses an offer.
    fn refusal(&self, stream: u32, offer: &Offer) -> Option<MuxRefusal>
        ensures refusal { result ≡ mux_refusal self.now stream offer.now }
        ensures streams { length self.now.queues ≡ length self.now.marks }
    {
        let Some(known) = self.marks.time_of(stream) else {
            return Some(MuxRefusal::NoStream { stream });
        };
        let Some(mark) = known else {
            return Some(MuxRefusal::Closed { stream });
        };
        let Offer::Item(item) = offer else {
            return None;
        };
        let given = time_of(item);
        if given < mark {
            return Some(MuxRefusal::FallingStream {
                stream,
                mark,
                given,
            });
        }
        None
    }

    // Takes what an open stream offers.
    fn admit(&mut self, stream: u32, offer: Offer) -> Result<(), NoMemory>
        requires { stream < length self.old.marks }
        ensures marks { OnOk result (self.new.marks ≡ slice_set self.old.marks stream (mark_left offer)) }
        ensures queues { OnOk result (self.new.queues ≡ queued stream offer self.old.queues) }
        ensures greatest { self.new.greatest ≡ self.old.greatest }
    {
        let Offer::Item(item) = offer else {
            self.marks.set_time(stream, None);
            return Ok(());
        };
        self.marks.set_time(stream, Some(time_of(&item)));
        if is_step(&item) {
            self.waiting.put(stream, item)?;
        }
        Ok(())
    }

    // Gives what goes out by the marks that it has.
    fn send(&mut self, alloc: Global) -> Result<Vec<LogItem>, NoMemory>
        ensures marks { self.new.marks ≡ self.old.marks }
        ensures sends { (steps : List StreamStep) → AreLinedUp self.old.queues steps
            → IfOk result (λ given. SendsSteps self.old steps given.items self.new) }
    {
        let bound = self.marks.first();
        let mut given = Vec::new(alloc);
        release(&mut self.waiting, bound, &mut given)?;
        let greatest = greatest_of(self.greatest, &given);
        self.greatest = tick(greatest, bound, &mut given)?;
        Ok(given)
    }

    /// Takes what a stream gives next, and gives what goes out now: the steps of all streams that nothing can come
    /// before any more, and a tick where the time moved on. After `NoMemory` it is of no use any more.
    pub fn offer(
        &mut self,
        alloc: Global,
        stream: u32,
        offer: Offer,
    ) -> Result<Vec<LogItem>, MuxRefusal>
        ensures answer { AnswersOffer (mux_refusal self.old stream offer) result }
        ensures refused { IsSome (mux_refusal self.old stream offer) → self.new ≡ self.old }
        ensures streams { OnOk result (length self.new.marks ≡ length self.old.marks) }
        ensures sent { (history : List Tagged) → StandsFor self.old history
            → IfOk result (λ given. SendsMore (length self.old.marks) history (tagged stream offer) given.items) }
        ensures stands { (history : List Tagged) → StandsFor self.old history
            → OnOk result (StandsFor self.new (tagged stream offer ∷ history)) }
    {
        if let Some(refusal) = self.refusal(stream, &offer) {
            return Err(refusal);
        }
        self.admit(stream, offer)?;
        Ok(self.send(alloc)?)
    }

    /// Gives the steps that wait, in their order.
    pub fn finish(self, alloc: Global) -> Result<Vec<LogItem>, NoMemory>
        ensures rest { (history : List Tagged) → StandsFor self history
            → IfOk result (λ given. GivesWaiting (length self.marks) history given.items) }
    {
        let mut waiting = self.waiting;
        let mut given = Vec::new(alloc);
        release(&mut waiting, None, &mut given)?;
        Ok(given)
    }
}
