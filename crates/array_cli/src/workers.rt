// Threads by which a command works.
use std::thread::Threads;

/// Threads that work side by side on an array: what starts them, and how many they are at most.
#[derive(Drop)]
pub struct Workers<'t, T> {
    pub threads: &'t T,
    pub jobs: usize,
}
