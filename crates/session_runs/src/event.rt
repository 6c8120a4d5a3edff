// What was done, and what is told of it.
ghost use Rattle.std.specs.Prelude.{◌≡◌, ◌↔◌, IfOk, IsTrue};
ghost use Rattle.session_runs.specs.declared.event.Event.TheVariants.{Write, Read};

use parts_arrays::ArrayBytes;
use parts_subsets::ArraySubset;
use std::alloc::{AllocError, Global};

/// What one accepted call did.
#[derive(Debug, Drop)]
pub enum Event {
    /// Elements were written over the cells of a subset, in row-major order of this.
    Write {
        subset: ArraySubset,
        bytes: ArrayBytes<'static>,
    },
    /// The cells of a subset were read, in row-major order of this.
    Read {
        subset: ArraySubset,
        cells: ArrayBytes<'static>,
    },
    /// The object was let go: each cell is the fill value then.
    Erase,
}

impl Event {
    /// A write of elements over the cells of a subset, which are copied. Refused for memory alone.
    pub fn of_write(
        alloc: Global,
        subset: &ArraySubset,
        bytes: &ArrayBytes,
    ) -> Result<Self, AllocError>
        ensures { IfOk result (λ event. event ≡ Write subset.now bytes.now) }
    {
        Ok(Event::Write {
            subset: subset.try_clone(alloc)?,
            bytes: bytes.try_clone(alloc)?,
        })
    }

    /// A read of the cells of a subset, which are copied. Refused for memory alone.
    pub fn of_read(
        alloc: Global,
        subset: &ArraySubset,
        cells: &ArrayBytes,
    ) -> Result<Self, AllocError>
        ensures { IfOk result (λ event. event ≡ Read subset.now cells.now) }
    {
        Ok(Event::Read {
            subset: subset.try_clone(alloc)?,
            cells: cells.try_clone(alloc)?,
        })
    }
}

/// Whether both did the same.
pub fn same_event(event: &Event, other: &Event) -> bool
    ensures { IsTrue result ↔ (event.now ≡ other.now) }
{
    match (event, other) {
        (
            Event::Write { subset, bytes },
            Event::Write {
                subset: there,
                bytes: others,
            },
        ) => same_subset(subset, there) && same_elements(bytes, others),
        (
            Event::Read { subset, cells },
            Event::Read {
                subset: there,
                cells: others,
            },
        ) => same_subset(subset, there) && same_elements(cells, others),
        (Event::Erase, Event::Erase) => true,
        _ => false,
    }
}

// Whether two subsets are one.
fn same_subset(a: &ArraySubset, b: &ArraySubset) -> bool
    ensures { IsTrue result ↔ (a.now ≡ b.now) }
{
    a == b
}

/// Whether two arrays have one kind and the same elements.
pub fn same_elements(a: &ArrayBytes, b: &ArrayBytes) -> bool
    ensures { IsTrue result ↔ (a.now ≡ b.now) }
{
    a == b
}

/// The place in the history that an accepted call answered, and what it did.
#[derive(Debug, Drop)]
pub struct Receipt {
    pub place: u64,
    pub event: Event,
}
