// What an entry of the index says of its subchunk.
ghost use Rattle.std.specs.Prelude.{◌≡◌};
ghost use Rattle.sharding_format.specs.Index.{slot_of_entry};
ghost use Rattle.sharding_format.specs.steps.Decoding.{FitsSlot};

/// What an entry of the index says of its subchunk: it is not stored, it is a slice of the shard, or the entry is bad.
#[derive(Debug, Clone, Copy, PartialEq, Eq)]
pub enum Slot {
    Absent,
    InRange { offset: u64, size: u64 },
    Bad,
}

/// What an entry says of a shard of so many bytes.
pub fn slot_of(len: u64, offset: u64, size: u64) -> Slot
    ensures entry { result ≡ slot_of_entry len offset size }
    ensures fits { FitsSlot len result }
{
    if offset == u64::MAX && size == u64::MAX {
        return Slot::Absent;
    }
    if offset == u64::MAX || size == u64::MAX {
        return Slot::Bad;
    }
    if offset <= len && size <= len - offset {
        Slot::InRange { offset, size }
    } else {
        Slot::Bad
    }
}
