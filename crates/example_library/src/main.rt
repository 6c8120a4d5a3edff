// The library in use. Elements are read from a shard in memory; from a shard in a shard, through a handle of your own; and from a shard that
// is a file. Subsets of arrays in folders are read and written.
#![tactic(auto)]

mod arrays;
mod counted;
mod own_handle;
mod read_elements;
mod shard_file;
mod shards;

use crate::arrays::print_copy;
use crate::own_handle::print_three;
use crate::read_elements::print_elements;
use crate::shard_file::print_steps;

fn main(rt: HostRuntime) -> anyhow::Result<()> {
    print_elements(&rt)?;
    print_three(&rt)?;
    print_steps(&rt)?;
    print_copy(&rt)
}
