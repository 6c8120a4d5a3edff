// What a recorded session leaves, and how its end is tested.
ghost use Rattle.std.specs.Prelude.{◌≡◌, ◌≤◌, false, length, replicate, IfOk, IfErr};
ghost use Rattle.shard_sessions.specs.Receipts.{Agree, receipts_of};
ghost use Rattle.shard_sessions.specs.Closing.{IsRefusedClose, Carries};

use crate::receipts::{first_mismatch, have_as_many};
use crate::seat::Seat;
use parts_arrays::ArrayBytes;
use parts_errors::CodecError;
use session_runs::{Event, same_elements};

/// What a recorded session leaves: the handle, the cells that it opened with, and what was done since, in order.
#[derive(Debug, Drop)]
pub struct Closed<H> {
    pub handle: H,
    pub opening: ArrayBytes<'static>,
    pub history: Vec<Event>,
}

/// Why the end of a recorded session is refused. Each hands the handle back.
#[derive(Debug, Drop)]
pub enum CloseError<H> {
    /// There are fewer receipts than events.
    SeatsMissing(Closed<H>),
    /// The receipt with this place, in the seat with this number, does not agree with the history and the receipts before it;
    /// or the opening cells are not those that were read when the session was opened, and both numbers are 0.
    ReceiptMismatch {
        closed: Closed<H>,
        seat: u64,
        place: u64,
    },
    /// The session failed.
    Session(H, CodecError),
}

impl<H> Closed<H> {
    // Tests the opening cells, and the receipts of seats against the history, in which none was seen yet.
    pub(crate) fn checked(
        self,
        opening: &ArrayBytes,
        mut seen: Vec<bool>,
        seats: &[Seat],
    ) -> Result<Closed<H>, CloseError<H>>
        requires seen { seen.items ≡ replicate (length self.history.items) false }
        ensures same { IfOk result (λ closed. closed ≡ self) }
        ensures opening { IfOk result (λ closed. closed.opening ≡ opening.now) }
        ensures agree { IfOk result (λ closed. Agree closed.history.items seats.now) }
        ensures as_many { IfOk result (λ closed. length (receipts_of seats.now) ≡ length closed.history.items) }
        ensures refused { IfErr result (IsRefusedClose opening.now seats.now) }
        ensures carried { IfErr result (Carries self) }
    {
        if !have_as_many(seats, self.history.len()) {
            return Err(CloseError::SeatsMissing(self));
        }
        if !same_elements(opening, &self.opening) {
            return Err(CloseError::ReceiptMismatch {
                closed: self,
                seat: 0,
                place: 0,
            });
        }
        match first_mismatch(&self.history, &mut seen, seats) {
            None => Ok(self),
            Some((seat, place)) => Err(CloseError::ReceiptMismatch {
                closed: self,
                seat,
                place,
            }),
        }
    }
}
