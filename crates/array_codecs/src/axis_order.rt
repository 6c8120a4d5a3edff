// Orders of the axes of an array.
ghost use Rattle.std.specs.Prelude.{◌≡◌, ℕ, ◌^◌, ◌<◌, IfOk, IsTrue, ◌↔◌, SomeIff, true, length};
ghost use Rattle.parts_row_major.specs.Numbering.{count_of, AllPositive};
ghost use Rattle.array_codecs.specs.AxisOrders.{place_of, inverse_of, is_undone, are_undone, is_order, permuted};

use parts_subsets::{Axes, ChunkShape};
use std::alloc::{AllocError, Global};
use std::marker::Model;

/// A permutation of the axes of an array (Zarr V3, codec `transpose`): axis i of the transposed array is axis `order[i]` of this.
#[derive(Debug)]
pub struct AxisOrder {
    order: Vec<u64>,
    // where each axis stands in the order
    inverse: Vec<u64>,
}

impl Drop for AxisOrder {
    fn drop(self) {
        let AxisOrder {
            order: _,
            inverse: _,
        } = self;
    }
}

impl Model for AxisOrder {
    ghost use Rattle.std.specs.Prelude.{◌≡◌, ℕ, List, true};
    ghost use Rattle.array_codecs.specs.AxisOrders.{inverse_of, is_order};

    ghost Value = { List ℕ };

    ghost view = { λ axes. axes.order.items };

    ghost invariant = { λ axes. (is_order axes.order.items ≡ true) × (axes.inverse.items ≡ inverse_of axes.order.items) };
}

// Where an axis stands in an order, or how long the order is.
fn place_of(order: &[u64], axis: u64) -> u64
    ensures { result ≡ place_of order.now axis }
{
    for place in 0..order.len() {
        if order[place] == axis {
            return place as u64;
        }
    }
    order.len() as u64
}

// Where each axis stands in an order.
fn inverse_of(alloc: Global, order: &[u64]) -> Result<Vec<u64>, AllocError>
    ensures { IfOk result (λ inverse. inverse.items ≡ inverse_of order.now) }
{
    let mut inverse = Vec::new(alloc);
    for axis in 0..order.len() {
        inverse.push(place_of(order, axis as u64))?;
    }
    Ok(inverse)
}

// Whether the number at a place of an order is an axis, and the inverse has the place there.
fn is_undone(order: &[u64], inverse: &[u64], place: usize) -> bool
    requires alike { length inverse.now ≡ length order.now }
    requires place { place < length order.now }
    ensures { result ≡ is_undone order.now inverse.now place }
{
    let axis = order[place];
    axis < order.len() as u64 && inverse[axis as usize] == place as u64
}

// Whether two orders undo one another at a place.
fn are_undone(order: &[u64], inverse: &[u64], place: usize) -> bool
    requires alike { length inverse.now ≡ length order.now }
    requires place { place < length order.now }
    ensures { result ≡ are_undone order.now inverse.now place }
{
    is_undone(order, inverse, place) && is_undone(inverse, order, place)
}

// Whether an order, which has this inverse, is a permutation of the axes.
fn is_order(order: &[u64], inverse: &[u64]) -> bool
    requires { inverse.now ≡ inverse_of order.now }
    ensures { result ≡ is_order order.now }
{
    for place in 0..order.len() {
        if !are_undone(order, inverse, place) {
            return false;
        }
    }
    true
}

impl AxisOrder {
    /// The order of these axes. `None` where they are no permutation; refused only as out of memory.
    pub fn new(alloc: Global, order: Vec<u64>) -> Result<Option<Self>, AllocError>
        ensures { IfOk result (λ made. SomeIff made (is_order order.items ≡ true) order.items) }
    {
        let inverse = inverse_of(alloc, &order)?;
        if is_order(&order, &inverse) {
            Ok(Some(AxisOrder { order, inverse }))
        } else {
            Ok(None)
        }
    }

    /// The axes in their order.
    pub fn as_slice(&self) -> &[u64]
        ensures value { result.now ≡ self.now }
        ensures permutation { is_order self.now ≡ true }
    {
        &self.order
    }

    /// Where each axis stands in the order.
    pub fn inverse(&self) -> &[u64]
        ensures value { result.now ≡ inverse_of self.now }
        ensures permutation { is_order self.now ≡ true }
    {
        &self.inverse
    }

    /// The shape of the transposed array. Refused only as out of memory.
    pub fn transposed_shape(
        &self,
        alloc: Global,
        shape: &ChunkShape,
    ) -> Result<ChunkShape, AllocError>
        requires { length shape.now ≡ length self.now }
        ensures shape { IfOk result (λ inner. inner ≡ permuted self.now shape.now) }
    {
        let order = self.as_slice();
        let numbers = shape.as_slice();
        let axes = permuted_axes(alloc, order, numbers)?;
        Ok(ChunkShape::from_positive(axes))
    }
}

// The numbers of a shape in an order of its axes.
fn permuted_axes(alloc: Global, order: &[u64], numbers: &[u64]) -> Result<Axes, AllocError>
    requires axes { length numbers.now ≡ length order.now }
    requires permutation { is_order order.now ≡ true }
    ensures { IfOk result (λ axes. axes.items ≡ permuted order.now numbers.now) }
{
    let mut axes = Axes::new(alloc);
    for place in 0..order.len() {
        let axis = order[place];
        axes.push(numbers[axis as usize])?;
    }
    Ok(axes)
}
