//! How much media a call carried.

/// How many datagrams of media were passed on from each end, not counting reports.
#[derive(Clone, Copy)]
pub struct MediaCounts {
    pub from_caller: u64,
    pub from_callee: u64,
}
