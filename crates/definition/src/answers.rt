// What a look at a definition tells.

// The number of kept rules, and the first one's place.
#[derive(Clone, Copy)]
pub struct Look {
    pub kept: usize,
    pub start: usize,
}
