//! The counts of the last ten looks.

ghost use Rattle.std.specs.Prelude.{◌≡◌, [], ◌∷◌, ◌++◌, drop, replicate, slice_index};

/// How many looks are remembered, one a second.
const LOOKS: usize = 10;

/// How many datagrams had come at each of the last looks, the earliest first; 0 for looks before the first.
#[derive(Clone, Copy)]
pub(crate) struct RecentCounts {
    pub(crate) counts: [u64; LOOKS],
}

impl RecentCounts {
    pub(crate) fn new() -> RecentCounts
        ensures { result.counts ≡ replicate 10 0 }
    {
        RecentCounts { counts: [0; LOOKS] }
    }

    /// A further look, replacing the earliest.
    pub(crate) fn look(&mut self, count: u64)
        ensures { self.new.counts ≡ drop 1 self.old.counts ++ count ∷ [] }
    {
        let [_, a, b, c, d, e, f, g, h, i] = self.counts;
        self.counts = [a, b, c, d, e, f, g, h, i, count];
    }

    pub(crate) fn earliest(&self) -> u64
        ensures { result ≡ slice_index self.now.counts 0 }
    {
        self.counts[0]
    }
}
