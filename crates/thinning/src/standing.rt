//! A sailing at its place with what it takes to beat it, found once for all comparisons.
ghost use Rattle.std.specs.Prelude.{◌≡◌};
ghost use Rattle.thinning.specs.Weights.{in_time, beats_by, outranks_by};

use timetable::sailing::Sailing;

// How long a sailing takes, and the margins by which another must be earlier to beat it.
#[derive(Clone, Copy)]
pub(crate) struct Weight {
    pub(crate) length: u32,
    pub(crate) before: u16,
    pub(crate) after: u16,
}

#[derive(Clone, Copy)]
pub(crate) struct Standing {
    pub(crate) place: u16,
    pub(crate) sailing: Sailing,
    pub(crate) weight: Weight,
}

impl Standing {
    // Whether it leaves and arrives in time to beat q. Its departure is asked for only where its length alone allows it.
    fn in_time(self, q: Standing) -> bool
        ensures { result ≡ in_time self q }
    {
        let by = u64::from(q.sailing.dep) + u64::from(q.weight.length);
        let takes = u64::from(self.weight.length) + u64::from(q.weight.after);
        let from = u32::from(q.sailing.dep) + u32::from(q.weight.before);
        takes <= by && self.sailing.next_departure(from) <= by - takes
    }

    fn beats(self, q: Standing) -> bool
        ensures { result ≡ beats_by self q }
    {
        self.place != q.place
            && self.sailing.from == q.sailing.from
            && self.sailing.to == q.sailing.to
            && self.in_time(q)
    }

    pub(crate) fn outranks(self, q: Standing) -> bool
        ensures { result ≡ outranks_by self q }
    {
        self.beats(q) && !(q.place < self.place && q.beats(self))
    }
}
