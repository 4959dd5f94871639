//! How long a flow of datagrams has been still.

ghost use Rattle.std.specs.Prelude.{List, [], ◌≤◌, ◌-◌, ◌↔◌, IsTrue};
ghost use Rattle.call_traffic.specs.Looks.{Look, after_look, MomentsRise};
ghost use Rattle.call_traffic.specs.Stillness.{IsStill, IsStillnessOf};

/// What is remembered of the looks at a flow: a look finds at a moment how many datagrams have come so far. That
/// number may wrap. Anything else that happens to the flow restarts it with a first look.
#[derive(Clone, Copy)]
pub struct Stillness {
    /// How many datagrams had come by the last look.
    count: u64,
    /// The moment of the look since which the count has been the same, in milliseconds.
    since: u64,
}

impl Stillness {
    /// A first look: `count` datagrams have come by `now`, in milliseconds. Takes no memory.
    pub fn new(now: u64, count: u64) -> Stillness
        ensures { IsStillnessOf (after_look [] now count) result }
    {
        Stillness { count, since: now }
    }

    /// Starts again, with a first look at `now` that found what the last look found. Takes no memory.
    pub(crate) fn anew(self, now: u64) -> Stillness
        ensures { IsStillnessOf (after_look [] now self.count) result }
    {
        Stillness::new(now, self.count)
    }

    /// A further look: `count` datagrams have come by `now`, in milliseconds. A number different from the last
    /// look's, even a smaller one, means that the flow moved. Takes no memory.
    pub fn look(&mut self, now: u64, count: u64)
        ensures { (looks : List Look) → IsStillnessOf looks self.old →
            IsStillnessOf (after_look looks now count) self.new }
    {
        if count != self.count {
            self.count = count;
            self.since = now;
        }
    }

    /// Whether the flow has been still for `limit` milliseconds or longer at `now`. If moments go backwards, it may
    /// be reported later. Takes no memory.
    pub fn lasts(&self, now: u64, limit: u64) -> bool
        ensures since { IsTrue result ↔ limit ≤ now - self.now.since }
        ensures still { (looks : List Look) → IsStillnessOf looks self.now →
            IsTrue result → IsStill looks now limit }
        ensures told { (looks : List Look) → IsStillnessOf looks self.now → MomentsRise looks →
            IsStill looks now limit → IsTrue result }
    {
        now.saturating_sub(self.since) >= limit
    }
}
