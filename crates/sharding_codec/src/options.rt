// The sharding codec with its own options.
ghost use Rattle.std.specs.Prelude.{◌≡◌, MatchOption};

use crate::codec::ShardingCodec;
use parts_errors::CodecSpecificOptions;
use sharding_format::ShardingCodecOptions;

impl<I, X> ShardingCodec<I, X> {
    /// The same codec with these options.
    pub fn with_options(self, options: ShardingCodecOptions) -> Self
        ensures { result ≡ record self { order = options } }
    {
        self.with_subchunk_write_order(options.subchunk_write_order())
    }

    /// The same codec with the options that are set, which replace the codec's; none leaves them. The inner codec and the
    /// index codec keep theirs.
    pub fn with_codec_specific_options(
        self,
        options: &CodecSpecificOptions<ShardingCodecOptions>,
    ) -> Self
        ensures { MatchOption options.now (result ≡ self) (λ order. result ≡ record self { order = order }) }
    {
        match options.get_option() {
            Some(options) => self.with_options(*options),
            None => self,
        }
    }
}
