// A segment of an index that is known to keep the counts rule, and the tables' entries in use.
#![tactic(auto)]

ghost use Rattle.std.specs.Prelude.{◌≡◌, ◌<◌, take};
ghost use Rattle.rules.specs.Record.{start, base, offset};
ghost use Rattle.rules.specs.Refusals.{index_of, width_at};

use crate::counts::Counted;
use rules::Width;

// A segment that an index has.
#[derive(Clone, Copy)]
pub struct Segment<'a> {
    pub counted: Counted<'a>,
    pub k: u64,
    pub ghost there: { k < counted.index.now.state.segments },
}

impl<'a> Counted<'a> {
    // Segment k.
    pub fn segment(self, k: u64) -> Segment<'a>
        requires { k < self.index.now.state.segments }
        ensures of { result.counted ≡ self.entry }
        ensures number { result.k ≡ k }
    {
        Segment { counted: self, k }
    }

    // The starts in use.
    pub fn starts(self) -> &'a [u64]
        ensures { result.now ≡ take self.entry.index.now.state.segments self.entry.index.now.starts.now }
    {
        &self.index.starts[..self.index.state.segments as usize]
    }

    // The bases in use.
    pub fn bases(self) -> &'a [u64]
        ensures { result.now ≡ take self.entry.index.now.state.segments self.entry.index.now.bases.now }
    {
        &self.index.bases[..self.index.state.segments as usize]
    }
}

impl Segment<'_> {
    // The position at which the segment begins.
    pub fn start(self) -> u64
        ensures { result ≡ start (index_of self.entry.counted.index.now) self.entry.k }
    {
        self.counted.index.starts[self.k as usize]
    }

    // The segment's first value.
    pub fn base(self) -> u64
        ensures { result ≡ base (index_of self.entry.counted.index.now) self.entry.k }
    {
        self.counted.index.bases[self.k as usize]
    }

    // The data byte at which the segment's deltas begin.
    pub fn offset(self) -> u64
        ensures { result ≡ offset (index_of self.entry.counted.index.now) self.entry.k }
    {
        self.counted.index.offsets[self.k as usize]
    }

    // The segment's width, or that it has none.
    pub fn width(self) -> Width
        ensures { let x = self.entry.counted.index.now in result ≡ width_at x.state x.widths.now self.entry.k }
    {
        super::width_of(self.counted.index, self.k)
    }
}
