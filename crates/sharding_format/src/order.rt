/// In which order the encoded subchunks of a shard are written. The format leaves it free.
#[derive(Debug, Clone, Copy)]
pub enum SubchunkWriteOrder {
    /// In ascending row-major (C) order of the subchunks, without gaps.
    C,
    /// In any order, without gaps.
    Unordered,
    /// Along the Z-curve (Morton order) of the grid of subchunks, without gaps: neighbours in space lie near one another.
    Morton,
}
