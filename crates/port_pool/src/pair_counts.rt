//! How many pairs serve, rest, and may serve.

/// How many pairs of a pool calls hold, how many rest since a call had them, and how many may be given to one: each
/// pair counts once.
#[derive(Clone, Copy, Debug)]
pub struct PairCounts {
    pub used: usize,
    pub resting: usize,
    pub free: usize,
}
