// The name of a recorded session: its codec and its arrays, which all its types agree on.
use std::marker::Brand;

/// Names the codec of a recorded session, a sharding codec with the inner codec `I` and the index codec `X`, and what it is asked to
/// serve. A caller picks the name at `Brand`.
pub trait Naming<I, X> {
    ghost use Rattle.std.specs.Prelude.{Option};
    ghost use Rattle.parts_arrays.specs.ArraySpec.{ArraySpec};
    ghost use Rattle.sharding_codec.specs.declared.codec.ShardingCodec.{ShardingCodec};

    // the codec
    ghost codec: { Option (ShardingCodec I X) };

    // the shape, the data type and the fill value of the arrays
    ghost array_spec: { ArraySpec };
}

impl<I, X> Naming<I, X> for Brand {
    ghost use Rattle.std.specs.Prelude.{None, []};
    ghost use Rattle.parts_arrays.specs.ArraySpec.{array_spec};
    ghost use Rattle.parts_arrays.specs.declared.data_type.DataType.TheVariants.{UInt8};

    ghost codec = { None };

    ghost array_spec = { array_spec [] UInt8 [] };
}
