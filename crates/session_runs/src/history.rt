// What was done in a session: room for one more event is taken before a call, and the event is put there once the call is accepted.
ghost use Rattle.std.specs.Prelude.{◌≡◌, ◌<◌, ◌++◌, ◌∷◌, [], false, Ok, Err, IfOk, IfErr, OnOk, OnErr, length, vec_len, vec_capacity};

use crate::event::{Event, Receipt};
use parts_errors::CodecError;
use std::alloc::{AllocError, Global};

/// What was done in a session, in order, and for each event a mark whether its receipt was seen.
#[derive(Drop)]
pub struct History {
    pub events: Vec<Event>,
    // for the end of the session, which takes no memory
    pub seen: Vec<bool>,
}

impl History {
    /// Nothing was done yet. Takes no memory.
    pub fn new(alloc: Global) -> Self
        ensures events { result.events.items ≡ [] }
        ensures seen { result.seen.items ≡ [] }
    {
        History {
            events: Vec::new(alloc),
            seen: Vec::new(alloc),
        }
    }

    /// Takes room for one more event, and for its receipt.
    pub fn take_room(&mut self, receipts: &mut Vec<Receipt>) -> Result<(), AllocError>
        ensures events { self.new.events.items ≡ self.old.events.items }
        ensures seen { self.new.seen.items ≡ self.old.seen.items }
        ensures receipts { receipts.new.items ≡ receipts.old.items }
        ensures room { OnOk result ((vec_len self.new.events < vec_capacity self.new.events) × (vec_len self.new.seen < vec_capacity self.new.seen)
            × (vec_len receipts.new < vec_capacity receipts.new)) }
    {
        receipts.reserve(1)?;
        self.events.reserve(1)?;
        self.seen.reserve(1)
    }

    /// Puts an event at the end, and what is told of it into a caller's receipts. The number is its place.
    pub fn put(&mut self, receipts: &mut Vec<Receipt>, event: Event, told: Event) -> u64
        requires events { vec_len self.old.events < vec_capacity self.old.events }
        requires seen { vec_len self.old.seen < vec_capacity self.old.seen }
        requires receipts { vec_len receipts.old < vec_capacity receipts.old }
        ensures place { result ≡ length self.old.events.items }
        ensures events { self.new.events.items ≡ self.old.events.items ++ event ∷ [] }
        ensures seen { self.new.seen.items ≡ self.old.seen.items ++ false ∷ [] }
        ensures receipts { receipts.new.items ≡ receipts.old.items ++ record { place = result; event = told } ∷ [] }
    {
        let place = self.events.len() as u64;
        self.events.push_reserved(event);
        self.seen.push_reserved(false);
        receipts.push_reserved(Receipt { place, event: told });
        place
    }

    /// Puts the event of an accepted call, as `put`. A refused call is no event, and its refusal is handed on.
    pub fn put_accepted(
        &mut self,
        receipts: &mut Vec<Receipt>,
        call: Result<(), CodecError>,
        event: Event,
        told: Event,
    ) -> Result<u64, CodecError>
        requires events { vec_len self.old.events < vec_capacity self.old.events }
        requires seen { vec_len self.old.seen < vec_capacity self.old.seen }
        requires receipts { vec_len receipts.old < vec_capacity receipts.old }
        ensures accepted { OnOk result (call ≡ Ok tt) }
        ensures refused { IfErr result (λ e. call ≡ Err e) }
        ensures place { IfOk result (λ place. place ≡ length self.old.events.items) }
        ensures events { OnOk result (self.new.events.items ≡ self.old.events.items ++ event ∷ []) }
        ensures seen { OnOk result (self.new.seen.items ≡ self.old.seen.items ++ false ∷ []) }
        ensures receipts { IfOk result (λ place. receipts.new.items ≡ receipts.old.items ++ record { place = place; event = told } ∷ []) }
        ensures no_event { OnErr result ((self.new.events.items ≡ self.old.events.items) × (receipts.new.items ≡ receipts.old.items)) }
        ensures no_mark { OnErr result (self.new.seen.items ≡ self.old.seen.items) }
    {
        match call {
            Ok(()) => Ok(self.put(receipts, event, told)),
            Err(error) => Err(error),
        }
    }
}
