// Which segment each position of a range is in, with few searches.
#![tactic(auto)]

ghost use Rattle.std.specs.Prelude.{◌≡◌, true, ◌≤◌, ◌<◌, length};
ghost use Rattle.std.specs.List.Sorted.{IsNonDecreasing};
ghost use Rattle.index_stream.specs.Searches.{Finds};
ghost use Rattle.range_find.specs.Starts.{Holds};

use index_stream::Found;
use std::ops::Range;

// What is known of the search for the positions of a range: each pass over the range asks it.
#[derive(Clone, Copy)]
pub struct Finder<'a> {
    // The starts in use.
    pub starts: &'a [u64],
    // The range's first position, and the one behind its last.
    pub from: u64,
    pub limit: u64,
    // Whether the starts never fall, so that segments follow one another.
    pub rising: bool,
    // What the search finds from the first position on.
    pub first: Found,
    // What it finds behind those, so that a short range is searched once.
    pub second: Found,
    pub ghost rises: { rising ≡ true → IsNonDecreasing starts.now },
    pub ghost first_holds: { Holds starts.now from limit first },
    pub ghost second_holds: { Holds starts.now first.until limit second },
}

impl<'a> Finder<'a> {
    // The finder of a range, which looks ahead for its first two segments.
    pub fn new(starts: &'a [u64], range: &Range<u64>) -> Finder<'a>
        requires { range.now.start ≤ range.now.end }
        ensures starts { result.starts.now ≡ starts.now }
        ensures from { result.from ≡ range.now.start }
        ensures limit { result.limit ≡ range.now.end }
    {
        let from = range.start;
        let limit = range.end;
        let rising = rises(starts, limit - from);
        let first = look_ahead(starts, from, limit);
        let second = look_ahead(starts, first.until, limit);
        Finder {
            starts,
            from,
            limit,
            rising,
            first,
            second,
        }
    }

    // What the search for p finds, and up to where. Where that is known, or the starts rise and segment k holds p, it needs no search.
    pub fn find(&self, k: u64, p: u64) -> Found
        requires { p < self.now.limit }
        ensures { Finds self.now.starts.now (length self.now.starts.now) p self.now.limit result }
    {
        if self.from <= p && p < self.first.until {
            return self.first;
        }
        if self.first.until <= p && p < self.second.until {
            return self.second;
        }
        let starts = self.starts;
        if self.rising && k < starts.len() as u64 {
            let next = tables::entry_or(starts, k + 1, self.limit);
            if starts[k as usize] <= p && p < next {
                return Found {
                    number: k + 1,
                    until: next.min(self.limit),
                };
            }
        }
        index_stream::bisect_right_until(starts, p, self.limit)
    }
}

// Whether the starts never fall, so that segments follow one another. Not looked at, and no, for fewer positions than starts.
pub fn rises(starts: &[u64], positions: u64) -> bool
    ensures { result ≡ true → IsNonDecreasing starts.now }
{
    starts.len() as u64 <= positions && starts.is_sorted()
}

// What the search finds from p on, up to the limit.
pub fn look_ahead(starts: &[u64], p: u64, limit: u64) -> Found
    requires { p ≤ limit }
    ensures { Holds starts.now p limit result }
{
    if limit <= p {
        return Found {
            number: 0,
            until: p,
        };
    }
    index_stream::bisect_right_until(starts, p, limit)
}
