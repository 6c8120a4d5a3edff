// The sharding codec for C and every language that calls C: numbers and slices in, numbers and slices out. Nothing is opened, started or
// kept between calls. `zarr_sharding.h` says each call in C's words.
#![tactic(auto)]

mod change;
mod check;
mod decode;
mod encode;
mod exports;
mod fetch;
mod index;
mod layout;
mod meet;
mod plain;
mod plan;
mod points;
mod put;
mod rows;
mod status;
