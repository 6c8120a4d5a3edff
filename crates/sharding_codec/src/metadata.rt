// The sharding codec as the metadata of an array names it.
ghost use Rattle.std.specs.Prelude.{◌≡◌, Bool, Option, Ok, IfOk, IfErr, OnOk, codes};
ghost use Rattle.parts_row_major.specs.Numbering.{AllPositive};
ghost use Rattle.serde_json.specs.Data.{object};
ghost use Rattle.serde_json.specs.View.{view, members_view};
ghost use Rattle.codec_metadata.specs.CreateErrors.{RefusedAs};
ghost use Rattle.codec_metadata.specs.Metadata.{metadata_of};
ghost use Rattle.codec_metadata.specs.declared.error.PluginCreateError.TheVariants.{OutOfMemory};
ghost use Rattle.sharding_configuration.specs.CodecLists.{codec_in_list};
ghost use Rattle.sharding_configuration.specs.Configurations.{configuration_of};
ghost use Rattle.sharding_codec.specs.ShardMetadata.{shard_of, shard_configured, shard_written, shard_told};

use crate::codec::ShardingCodec;
use codec_metadata::{CodecTraitsV3, PluginCreateError};
use serde_json::{Map, Value};
use sharding_configuration::{
    ShardingCodecConfiguration, codec_list_of, sole_codec, written_members,
};
use std::alloc::{AllocError, Global};

impl<I: CodecTraitsV3 + Drop, X: CodecTraitsV3 + Drop> ShardingCodec<I, X> {
    /// The codec of a configuration, which writes subchunks in the order `Unordered`. First "codecs" is looked at, and after it
    /// "index_codecs". Refused, in this order, for the first member of a list that is neither a string nor an object with a
    /// string under "name", as `BadField` with the list's key, or that has another name than the wanted codec's, as
    /// `UnsupportedCodec` with that name; as `UnsupportedChain` where the list has other than one member; and as `create` of the
    /// wanted codec refuses the member; or as `OutOfMemory`.
    pub fn new_with_configuration(
        alloc: Global,
        configuration: &ShardingCodecConfiguration,
    ) -> Result<Self, PluginCreateError>
        ensures made { IfOk result (λ codec. shard_of (codec_in_list (codes "codecs") I.named I.configured)
            (codec_in_list (codes "index_codecs") X.named X.configured) (configuration_of configuration.now) ≡ Ok codec) }
        ensures refused { IfErr result (RefusedAs (shard_of (codec_in_list (codes "codecs") I.named I.configured)
            (codec_in_list (codes "index_codecs") X.named X.configured) (configuration_of configuration.now))) }
    {
        let ShardingCodecConfiguration::V1(configuration) = configuration;
        let inner: I = sole_codec(alloc, &configuration.codecs, "codecs")?;
        let index_codec: X = sole_codec(alloc, &configuration.index_codecs, "index_codecs")?;
        let shape = configuration.chunk_shape.try_clone(alloc)?;
        Ok(ShardingCodec::new(shape, inner, index_codec, configuration.index_location))
    }
}

impl<I: CodecTraitsV3, X: CodecTraitsV3> ShardingCodec<I, X> {
    /// The codec's configuration: "chunk_shape", "codecs", "index_codecs" and "index_location". The order in which subchunks
    /// are written is no part of it. Refused only as out of memory.
    pub fn configuration(&self, alloc: Global) -> Result<Value, AllocError>
        ensures written { IfOk result (λ value. view value ≡ object (shard_written (metadata_of (I.own_name self.now.inner) (I.written self.now.inner))
            (metadata_of (X.own_name self.now.index_codec) (X.written self.now.index_codec)) self.now)) }
        ensures valid { OnOk result (AllPositive self.now.subchunk_shape × I.valid self.now.inner × X.valid self.now.index_codec) }
    {
        Ok(Value::Object(self.configuration_members(alloc)?))
    }

    // The members of the codec's configuration.
    fn configuration_members(&self, alloc: Global) -> Result<Map<String, Value>, AllocError>
        ensures written { IfOk result (λ members. members_view members.entries ≡ shard_written (metadata_of (I.own_name self.now.inner) (I.written self.now.inner))
            (metadata_of (X.own_name self.now.index_codec) (X.written self.now.index_codec)) self.now) }
        ensures valid { OnOk result (AllPositive self.now.subchunk_shape × I.valid self.now.inner × X.valid self.now.index_codec) }
    {
        let _positive = self.subchunk_shape.as_slice();
        let codecs = codec_list_of(alloc, self.inner.metadata(alloc)?)?;
        let index_codecs = codec_list_of(alloc, self.index_codec.metadata(alloc)?)?;
        written_members(
            alloc,
            &self.subchunk_shape,
            codecs,
            index_codecs,
            self.location,
        )
    }
}

impl<I: CodecTraitsV3 + Drop, X: CodecTraitsV3 + Drop> CodecTraitsV3 for ShardingCodec<I, X> {
    ghost use Rattle.std.specs.Prelude.{Some, bytes_eq, refl};
    ghost use Rattle.sharding_codec.specs.ShardMetadataLaws.{shard_remembers, shard_told_again};

    ghost named = { λ name. bytes_eq name (codes "sharding_indexed") };

    ghost own_name = { λ s. codes "sharding_indexed" };

    ghost configured = { λ name. shard_configured (codec_in_list (codes "codecs") I.named I.configured)
        (codec_in_list (codes "index_codecs") X.named X.configured) };

    ghost written = { λ s. Some (shard_written (metadata_of (I.own_name s.inner) (I.written s.inner)) (metadata_of (X.own_name s.index_codec) (X.written s.index_codec)) s) };

    ghost valid = { λ s. AllPositive s.subchunk_shape × I.valid s.inner × X.valid s.index_codec };

    ghost told = { λ s. shard_told (I.told s.inner) (X.told s.index_codec) s };

    /// `sharding_indexed`.
    fn has_name(name: &str) -> bool {
        name == "sharding_indexed"
    }

    /// `sharding_indexed`.
    fn written_name(&self) -> &'static str {
        "sharding_indexed"
    }

    /// Refused as `MissingField("configuration")` where there is none, and then as `ShardingCodecConfiguration::from_value` and
    /// `new_with_configuration` refuse; or as `OutOfMemory`.
    fn from_configuration(
        alloc: Global,
        _name: &str,
        configuration: Option<&Value>,
    ) -> Result<Self, PluginCreateError> {
        let Some(value) = configuration else {
            return Err(PluginCreateError::missing_field(alloc, "configuration"));
        };
        let configuration = ShardingCodecConfiguration::from_value(alloc, value)?;
        ShardingCodec::new_with_configuration(alloc, &configuration)
    }

    /// All four members.
    fn to_configuration(&self, alloc: Global) -> Result<Option<Map<String, Value>>, AllocError> {
        Ok(Some(self.configuration_members(alloc)?))
    }

    ghost remembers = { λ s valid. shard_remembers I.named X.named I.configured X.configured (I.own_name s.inner) (X.own_name s.index_codec) (I.written s.inner) (X.written s.index_codec)
        s (I.told s.inner) (X.told s.index_codec) valid.0 (I.names_itself s.inner) (I.remembers s.inner valid.1) (X.names_itself s.index_codec) (X.remembers s.index_codec valid.2) };

    ghost names_itself = { λ s. refl };

    ghost told_again = { λ s. (
      refl,
      shard_told_again I.own_name X.own_name I.written X.written s (I.told s.inner) (X.told s.index_codec)
          (I.told_again s.inner) (X.told_again s.index_codec),
    ) };
}
