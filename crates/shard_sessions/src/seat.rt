// A caller's place in a recorded session.
ghost use Rattle.std.specs.Prelude.{◌≡◌, []};

use session_runs::Receipt;
use std::alloc::Global;
use std::marker::Model;

/// A caller's place in a recorded session. It keeps the caller's receipts, in the order of its calls, and contracts see it as
/// their list.
#[derive(Debug, Drop)]
pub struct Seat {
    pub(crate) receipts: Vec<Receipt>,
}

impl Model for Seat {
    ghost use Rattle.std.specs.Prelude.{List};
    ghost use Rattle.session_runs.specs.declared.event.Receipt.{Receipt};

    // its receipts
    ghost Value = { List Receipt };

    ghost view = { λ seat. seat.receipts.items };
}

impl Seat {
    // A seat with no receipt yet.
    pub(crate) fn new(alloc: Global) -> Self
        ensures { result ≡ [] }
    {
        Seat {
            receipts: Vec::new(alloc),
        }
    }

    /// The receipts, in the order of the calls.
    pub fn receipts(&self) -> &[Receipt]
        ensures { result.now ≡ self.now }
    {
        &self.receipts
    }
}
