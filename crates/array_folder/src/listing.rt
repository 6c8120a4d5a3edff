// What a command that goes over an array's chunks is asked for.
use array_grid::ListPart;

/// Which shards of an array a command goes over, and whether it tells of them in lines of JSON.
#[derive(Drop)]
pub struct Listing {
    pub part: ListPart,
    pub is_json: bool,
}
