//! A range that holds all offsets that are unsynced, so that a sync looks at this range alone.
ghost use Rattle.std.specs.Prelude.{◌≡◌, ◌⊎◌, ◌≤◌, ◌==◌, if◌then◌else◌, max, min};

#[derive(Clone, Copy, Debug)]
pub(crate) struct Span {
    pub(crate) start: usize,
    pub(crate) end: usize,
    ghost ordered: { start ≤ end },
}

impl Span {
    pub(crate) fn none() -> Span
        ensures start { result.start ≡ 0 }
        ensures end { result.end ≡ 0 }
    {
        Span { start: 0, end: 0 }
    }

    /// The least span that holds this one and the offsets from `start` to `end`. Where this one is empty, it is those
    /// alone.
    pub(crate) fn with(self, start: usize, end: usize) -> Span
        requires { start ≤ end }
        ensures holds_new { (result.start ≤ start) × (end ≤ result.end) }
        ensures holds_old { (self.start ≡ self.end) ⊎ ((result.start ≤ self.start) × (self.end ≤ result.end)) }
        ensures within { result.end ≤ max self.end end }
        ensures from { result.start ≡ (if self.start == self.end then start else min self.start start) }
        ensures to { result.end ≡ (if self.start == self.end then end else max self.end end) }
    {
        if self.start == self.end {
            return Span { start, end };
        }
        Span {
            start: self.start.min(start),
            end: self.end.max(end),
        }
    }
}
