// Numbers by chance, from a fixed seed.
use std::alloc::Global;
use std::process::Abort;

// A linear congruential generator, whose high bits are taken.
#[derive(Drop)]
pub(crate) struct Chance {
    pub(crate) state: u64,
}

impl Chance {
    // A number below another one, or 0.
    pub(crate) fn below(&mut self, end: u64) -> u64 {
        self.state = self
            .state
            .wrapping_mul(6364136223846793005)
            .wrapping_add(1442695040888963407);
        (self.state >> 33).checked_rem(end).unwrap_or(0)
    }

    // The numbers below a count, in an order.
    pub(crate) fn order<R: Abort>(&mut self, rt: &R, alloc: Global, count: usize) -> Vec<usize> {
        let mut order = Vec::new(alloc);
        for j in 0..count {
            let place = self.below(j as u64 + 1) as usize;
            order
                .insert(place.min(order.len()), j)
                .expect(rt, "refused");
        }
        order
    }
}
