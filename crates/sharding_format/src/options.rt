// The sharding codec's own options.
ghost use Rattle.std.specs.Prelude.{◌≡◌};

use crate::order::SubchunkWriteOrder;
use std::marker::Model;

/// What a caller asks of the sharding codec alone.
#[derive(Debug, Clone, Copy)]
pub struct ShardingCodecOptions {
    subchunk_write_order: SubchunkWriteOrder,
}

impl Model for ShardingCodecOptions {
    ghost use Rattle.sharding_format.specs.declared.order.SubchunkWriteOrder.{SubchunkWriteOrder};

    // the order in which subchunks are written
    ghost Value = { SubchunkWriteOrder };

    ghost view = { λ options. options.subchunk_write_order };

    ghost inverse = { λ order. record { subchunk_write_order = order } };
}

impl Default for ShardingCodecOptions {
    ghost use Rattle.std.specs.Prelude.{◌≡◌};
    ghost use Rattle.sharding_format.specs.declared.order.SubchunkWriteOrder.TheVariants.{Unordered};

    ghost is_default = { λ options. options ≡ Unordered };

    /// Subchunks in the order `Unordered`.
    fn default() -> Self {
        ShardingCodecOptions {
            subchunk_write_order: SubchunkWriteOrder::Unordered,
        }
    }
}

impl ShardingCodecOptions {
    /// The same options with another order in which subchunks are written.
    pub fn with_subchunk_write_order(self, subchunk_write_order: SubchunkWriteOrder) -> Self
        ensures { result ≡ subchunk_write_order }
    {
        ShardingCodecOptions {
            subchunk_write_order,
        }
    }

    /// Sets the order in which subchunks are written, and lends the options on.
    pub fn set_subchunk_write_order(
        &mut self,
        subchunk_write_order: SubchunkWriteOrder,
    ) -> &mut Self
        ensures same { result.ghost_name ≡ self.entry.ghost_name }
        ensures order { result.now ≡ subchunk_write_order }
    {
        *self = self.with_subchunk_write_order(subchunk_write_order);
        self
    }

    /// The order in which subchunks are written.
    pub fn subchunk_write_order(&self) -> SubchunkWriteOrder
        ensures { result ≡ self.now }
    {
        self.subchunk_write_order
    }
}
