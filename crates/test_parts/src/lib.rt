// Tests of shapes, subsets, arrays and targets, over the public calls of zarr_parts alone.
#![tactic(auto)]

#[cfg(test)]
mod arrays;
#[cfg(test)]
mod compared;
#[cfg(test)]
mod examples;
#[cfg(test)]
mod grid;
#[cfg(test)]
mod indexers;
#[cfg(test)]
mod numbering;
#[cfg(test)]
mod numbers;
#[cfg(test)]
mod overlaps;
#[cfg(test)]
mod runs;
#[cfg(test)]
mod selections;
#[cfg(test)]
mod shapes;
#[cfg(test)]
mod subsets;
#[cfg(test)]
mod targets;
#[cfg(test)]
mod types;
#[cfg(test)]
mod words;
