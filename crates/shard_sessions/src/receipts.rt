// Receipts against a history.
ghost use Rattle.std.specs.Prelude.{◌≡◌, ◌≤◌, ◌<◌, ◌+◌, ◌↔◌, ℕ, Some, true, false, IfNone, IfSome, IsTrue, length, replicate, slice_index_or, slice_set, MatchBool};
ghost use Rattle.std.specs.List.{All};
ghost use Rattle.shard_sessions.specs.Receipts.{Stands, RiseFrom, times, receipts_of, Agree, IsMismatch};
ghost use Rattle.shard_sessions.specs.steps.Marks.{mark_at, marks, IsSeatMismatch};

use crate::seat::Seat;
use session_runs::{Event, Receipt, same_event};

// Whether a receipt's event stands at its place.
fn stands(events: &[Event], receipt: &Receipt) -> bool
    ensures stands { IsTrue result ↔ Stands events.now receipt.now }
    ensures inside { IsTrue result → receipt.now.place < length events.now }
{
    if receipt.place >= events.len() as u64 {
        return false;
    }
    same_event(&events[receipt.place as usize], &receipt.event)
}

// Sets a mark, and says whether it was not set before.
fn mark(seen: &mut [bool], at: usize) -> bool
    requires { at < length seen.old }
    ensures set { MatchBool result ((slice_index_or seen.old at false ≡ false) × (seen.new ≡ slice_set seen.old at true))
        (slice_index_or seen.old at false ≡ true) }
    ensures as_long { length seen.new ≡ length seen.old }
{
    if seen[at] {
        return false;
    }
    seen[at] = true;
    true
}

// The place of the first receipt of a seat that does not agree with a history, with the receipts that were seen before, and with
// those of the seat before it. Those that agree are marked.
fn seat_mismatch(events: &[Event], seen: &mut [bool], receipts: &[Receipt]) -> Option<u64>
    requires { length seen.old ≡ length events.now }
    ensures as_long { length seen.new ≡ length seen.old }
    ensures stand { IfNone result (All (Stands events.now) receipts.now) }
    ensures rise { IfNone result (RiseFrom 0 receipts.now) }
    ensures once { IfNone result ((place : ℕ) → mark_at seen.new place ≡ mark_at seen.old place + times place receipts.now) }
    ensures count { IfNone result (marks seen.new ≡ marks seen.old + length receipts.now) }
    ensures mismatch { IfSome result (IsSeatMismatch events.now seen.old receipts.now) }
{
    let mut next = 0;
    for receipt in receipts {
        let place = receipt.place;
        if place < next || !stands(events, receipt) || !mark(seen, place as usize) {
            return Some(place);
        }
        next = place + 1;
    }
    None
}

// The number of a seat, and the place in it of the first receipt up to which the seats do not agree with a history.
pub(crate) fn first_mismatch(
    events: &[Event],
    seen: &mut [bool],
    seats: &[Seat],
) -> Option<(u64, u64)>
    requires { seen.old ≡ replicate (length events.now) false }
    ensures agree { IfNone result (Agree events.now seats.now) }
    ensures not_more { IfNone result (length (receipts_of seats.now) ≤ length events.now) }
    ensures mismatch { IfSome result (λ at. IsMismatch events.now seats.now at.0 at.1) }
{
    for i in 0..seats.len() {
        if let Some(place) = seat_mismatch(events, seen, seats[i].receipts()) {
            return Some((i as u64, place));
        }
    }
    None
}

// Whether there are as many receipts as that, or more.
pub(crate) fn have_as_many(seats: &[Seat], count: usize) -> bool
    ensures { IsTrue result ↔ (count ≤ length (receipts_of seats.now)) }
{
    let mut left = count;
    for seat in seats {
        let here = seat.receipts().len();
        if left <= here {
            return true;
        }
        left -= here;
    }
    left == 0
}
