// The fill value of an array.
ghost use Rattle.std.specs.Prelude.{◌≡◌, IfOk};

use std::alloc::{AllocError, Global};
use std::marker::Model;

/// The bytes of the element that stands wherever nothing was written (Zarr V3 core, "Fill value").
#[derive(Debug)]
pub struct FillValue {
    bytes: Vec<u8>,
}

impl Drop for FillValue {
    fn drop(self) {
        let FillValue { bytes: _ } = self;
    }
}

impl Model for FillValue {
    ghost use Rattle.std.specs.Prelude.{List, ℕ};

    ghost Value = { List ℕ };

    ghost view = { λ fill. fill.bytes.items };
}

impl FillValue {
    /// The fill value of these bytes, least significant first.
    pub fn new(bytes: Vec<u8>) -> Self
        ensures { result ≡ bytes.items }
    {
        FillValue { bytes }
    }

    /// The bytes of the element, as they stand in memory.
    pub fn as_ne_bytes(&self) -> &[u8]
        ensures { result.now ≡ self.now }
    {
        &self.bytes
    }

    /// An equal value. Refused only as out of memory.
    pub fn try_clone(&self, alloc: Global) -> Result<Self, AllocError>
        ensures { IfOk result (λ copy. copy ≡ self.now) }
    {
        Ok(FillValue {
            bytes: self.bytes.as_slice().to_vec(alloc)?,
        })
    }
}

impl PartialEq for FillValue {
    ghost use Rattle.std.proofs.Common.{rules};
    ghost use Rattle.std.specs.Cmp.Rules.{comparing};
    ghost use Rattle.std.specs.Str.{bytes_eq};

    ghost eq = { bytes_eq };

    ghost laws = { Prim.search (comparing, rules) };

    fn eq(&self, other: &Self) -> bool {
        self.bytes == other.bytes
    }
}

impl Eq for FillValue {
    ghost use Rattle.std.proofs.Common.{rules};
    ghost use Rattle.std.specs.Cmp.Rules.{comparing};

    ghost laws = { Prim.search (comparing, rules) };
}
