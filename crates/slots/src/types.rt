// What a walk hands on. The type stands apart from the walk, so that the definition by which it promises
// can name it.

// Those that wait, those of them that are hard, and those in flight.
#[derive(Clone, Copy, Debug, PartialEq, Eq)]
pub struct Patches {
    pub waiting: u64,
    pub hard: u64,
    pub in_flight: u64,
}
