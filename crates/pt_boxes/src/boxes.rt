//! Boxes of one Since: a ring of spans.

ghost use Rattle.std.specs.Prelude.{◌≡◌, ◌+◌, ◌≤◌, ◌<◌, [], ◌∷◌, ◌++◌, length, slice_get};

use scq_ring::ring_index;

/// A stretch of times, both ends included.
#[derive(Clone, Copy)]
pub struct Span {
    pub first: u64,
    pub last: u64,
}

/// The boxes of one Since, oldest first: a ring over spans that the caller lends to each call.
#[derive(Drop)]
pub struct Boxes {
    oldest: usize,
    used: usize,
}

impl Boxes {
    ghost use Rattle.std.specs.Prelude.{List};
    ghost use Rattle.pt_boxes.specs.declared.boxes.Span.{Span};
    ghost use Rattle.pt_boxes.specs.Boxes.{SpansOf, kept, no_boxes};
    ghost use Rattle.pt_boxes.specs.Spans.{meets, prolonged, with_stretch, without_ended};

    /// Returns an empty ring.
    pub fn none() -> Boxes
        ensures { result ≡ no_boxes }
    {
        Boxes { oldest: 0, used: 0 }
    }

    /// Returns the oldest box.
    pub fn oldest(&self, spans: &[Span]) -> Option<Span>
        requires belongs { SpansOf self.now spans.now }
        ensures oldest { result ≡ slice_get (kept self.now spans.now) 0 }
    {
        if self.used == 0 {
            None
        } else {
            Some(spans[self.oldest])
        }
    }

    /// Drops all boxes.
    pub fn clear(&mut self)
        ensures belongs { (spans : List Span) → SpansOf self.old spans → SpansOf self.new spans }
        ensures none { (spans : List Span) → kept self.new spans ≡ [] }
    {
        self.used = 0;
    }

    /// Drops the oldest box if it ended before this time.
    pub fn let_ended_go(&mut self, spans: &[Span], now: u64)
        requires belongs { SpansOf self.old spans.now }
        ensures belongs { SpansOf self.new spans.now }
        ensures rest { kept self.new spans.now ≡ without_ended now (kept self.old spans.now) }
    {
        if self.used > 0 && spans[self.oldest].last < now {
            self.oldest = ring_index(self.oldest, 1, spans.len());
            self.used -= 1;
        }
    }

    /// Adds a stretch, joined with the newest box if it meets or touches it.
    pub fn add(&mut self, spans: &mut [Span], stretch: Span)
        requires belongs { SpansOf self.old spans.old }
        requires room { length (with_stretch stretch (kept self.old spans.old)) ≤ length spans.old }
        ensures belongs { SpansOf self.new spans.new }
        ensures added { kept self.new spans.new ≡ with_stretch stretch (kept self.old spans.old) }
    {
        if self.meets(spans, stretch.first) {
            self.prolong(spans, stretch.last);
        } else {
            self.push(spans, stretch);
        }
    }

    /// Returns true if a stretch that starts at this time meets or touches the newest box.
    fn meets(&self, spans: &[Span], first: u64) -> bool
        requires belongs { SpansOf self.now spans.now }
        ensures meets { result ≡ meets first (kept self.now spans.now) }
    {
        self.used > 0
            && first.saturating_sub(1)
                <= spans[ring_index(self.oldest, self.used - 1, spans.len())].last
    }

    /// Moves the end of the newest box.
    fn prolong(&mut self, spans: &mut [Span], last: u64)
        requires belongs { SpansOf self.old spans.old }
        requires some_box { 0 < self.old.used }
        ensures belongs { SpansOf self.new spans.new }
        ensures prolonged { kept self.new spans.new ≡ prolonged last (kept self.old spans.old) }
    {
        let newest = ring_index(self.oldest, self.used - 1, spans.len());
        spans[newest].last = last;
    }

    /// Adds a box after the newest one, in a free span.
    fn push(&mut self, spans: &mut [Span], stretch: Span)
        requires belongs { SpansOf self.old spans.old }
        requires room { self.old.used < length spans.old }
        ensures belongs { SpansOf self.new spans.new }
        ensures pushed { kept self.new spans.new ≡ kept self.old spans.old ++ stretch ∷ [] }
    {
        spans[ring_index(self.oldest, self.used, spans.len())] = stretch;
        self.used += 1;
    }
}
