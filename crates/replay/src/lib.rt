// Replaying recorded calls of an index: each is made by the proved code, and answers in a record's numbers.
#![tactic(auto)]

ghost use Rattle.std.specs.Prelude.{◌≡◌, None, ltb, length, slice_get};
ghost use Rattle.rules.specs.Words.{when};
ghost use Rattle.rules.specs.Record.{index, fresh_state, default_minimum, open_rule};
ghost use Rattle.rules.specs.Reading.{cursor, range_rule, iter_rule, step_rule};
ghost use Rattle.rules.specs.Refusals.{index_of, index_in};
ghost use Rattle.replay.specs.Kinds.{kind_number};
ghost use Rattle.replay.specs.Replaying.{SameLent, played_by, unmoved, range_played, after_open, after_iter, after_step, entry_rule, table_rule, reply_rule, replay_rule};

mod kinds;
mod replies;

pub use kinds::{Kind, Table, UnknownKind, UnknownTable};
pub use replies::Reply;
use rules::{CompactReader, CompactWriter, Cursor};
use std::ops::Range;

// A recorded call: its kind and its numbers.
#[derive(Clone, Copy)]
pub struct Call {
    pub kind: u64,
    pub a: u64,
    pub b: u64,
    pub c: u64,
}

// What calls are made on.
#[derive(Drop)]
pub struct Player<'a> {
    // The index.
    pub index: CompactWriter<'a>,
    // The walk that was opened last.
    pub cursor: Cursor,
    // The output of get_range.
    pub out: &'a mut [u64],
}

impl<'a> Player<'a> {
    // A fresh index with the default minimum over these tables, and a walk that is done.
    pub fn start(
        starts: &'a mut [u64],
        bases: &'a mut [u64],
        offsets: &'a mut [u64],
        widths: &'a mut [u8],
        bytes: &'a mut [u8],
        out: &'a mut [u64],
    ) -> Player<'a>
        ensures index { index_in result.index ≡ index (fresh_state default_minimum) starts.old bases.old offsets.old widths.old bytes.old }
        ensures cursor { result.cursor ≡ cursor 0 0 }
        ensures out { result.out.now ≡ out.old }
        ensures lent { (result.index.starts.ghost_name ≡ starts.entry.ghost_name)
            × (result.index.bases.ghost_name ≡ bases.entry.ghost_name)
            × (result.index.offsets.ghost_name ≡ offsets.entry.ghost_name)
            × (result.index.widths.ghost_name ≡ widths.entry.ghost_name)
            × (result.index.bytes.ghost_name ≡ bytes.entry.ghost_name)
            × (result.out.ghost_name ≡ out.entry.ghost_name) }
    {
        Player {
            index: CompactWriter {
                state: compact_index::default_index(),
                starts,
                bases,
                offsets,
                widths,
                bytes,
            },
            cursor: Cursor { next: 0, end: 0 },
            out,
        }
    }

    // Makes one call on what the calls before it left.
    #[tactic(auto, unfolding(crate::specs::Replaying::replay_rule, crate::specs::Replaying::read_rule))]
    pub fn play(&mut self, call: Call) -> Reply
        ensures left { played_by self.new result ≡ replay_rule (index_in self.old.index) self.old.cursor self.old.out.now call }
        ensures lent { SameLent self.new self.old }
    {
        let Ok(kind) = Kind::try_from(call.kind) else {
            return Reply::UNKNOWN;
        };
        match kind {
            Kind::Open => self.open(call.a),
            Kind::Push => Reply::from(compact_writer::push(&mut self.index, call.a)),
            Kind::GetRange => self.get_range(&(call.a..call.b)),
            Kind::Output => self.output(call.a),
            Kind::Iter => self.iter(&(call.a..call.b)),
            Kind::Step => self.step(),
            _ => read(&self.index.reader(), kind, call),
        }
    }

    // Entry k of the output.
    #[tactic(auto, unfolding(crate::specs::Replaying::entry_rule))]
    fn output(&self, k: u64) -> Reply
        ensures { result ≡ entry_rule self.now.out.now (length self.now.out.now) k }
    {
        let out = &*self.out;
        Reply::from(out.get(k as usize).copied())
    }

    // Opens an index in place of the one there is.
    fn open(&mut self, minimum: u64) -> Reply
        ensures left { played_by self.new result ≡ unmoved (index_in self.old.index) self.old.out.now (after_open self.old.index.state self.old.cursor (open_rule minimum)) }
        ensures lent { SameLent self.new self.old }
    {
        match compact_index::compact_index(minimum) {
            Ok(fresh) => {
                self.index.state = fresh;
                Reply::from(0)
            }
            Err(e) => Reply::from(e),
        }
    }

    // Puts the values of a range into the output.
    fn get_range(&mut self, range: &Range<u64>) -> Reply
        ensures left { played_by self.new result ≡ range_played (index_in self.old.index) self.old.cursor (range_rule (index_in self.old.index) range.now.start range.now.end self.old.out.now) }
        ensures lent { SameLent self.new self.old }
    {
        let x = self.index.reader();
        Reply::from(compact_range::get_range(&x, range, self.out))
    }

    // Opens a walk in place of the one there is.
    fn iter(&mut self, range: &Range<u64>) -> Reply
        ensures left { played_by self.new result ≡ unmoved (index_in self.old.index) self.old.out.now (after_iter self.old.index.state self.old.cursor (iter_rule (index_in self.old.index) range.now.start range.now.end)) }
        ensures lent { SameLent self.new self.old }
    {
        match compact_iterator::iter(&self.index.reader(), range) {
            Ok(from) => {
                self.cursor = from;
                Reply::from(0)
            }
            Err(e) => Reply::from(e),
        }
    }

    // Takes a step of the walk; the second number says whether it was done.
    fn step(&mut self) -> Reply
        ensures left { played_by self.new result ≡ unmoved (index_in self.old.index) self.old.out.now (after_step self.old.index.state self.old.cursor (step_rule (index_in self.old.index) self.old.cursor)) }
        ensures lent { SameLent self.new self.old }
    {
        match compact_cursor::next(&mut self.cursor, &self.index.reader()) {
            Ok(Some(v)) => Reply::from(v),
            Ok(None) => Reply::from((0, 1)),
            Err(e) => Reply::from(e),
        }
    }
}

// What a read of the index alone answers.
#[tactic(auto, unfolding(crate::specs::Replaying::reply_rule, crate::specs::Replaying::find_rule))]
fn read(x: &CompactReader<'_>, kind: Kind, call: Call) -> Reply
    requires { kind_number kind ≡ call.kind }
    ensures { result ≡ reply_rule (index_of x.now) call }
{
    let a = call.a;
    let b = call.b;
    match kind {
        Kind::Length => Reply::from(compact_reader::length(x)),
        Kind::Size => Reply::from(compact_reader::size(x)),
        Kind::Get => Reply::from(compact_reader::get(x, a)),
        Kind::TargetRange => Reply::from(compact_reader::target_range(x, a, b)),
        Kind::BisectLeft => Reply::from(compact_bisect::bisect_left(x, a)),
        Kind::BisectRangeLeft => {
            Reply::from(compact_bisect::bisect_range_left(x, &(a..b), call.c))
        }
        Kind::Entry => table_entry(x, a, b),
        _ => Reply::UNKNOWN,
    }
}

// Entry k of table number t.
#[tactic(auto, using(crate::proofs::Entries::entry_found), unfolding(crate::specs::Replaying::table_rule))]
fn table_entry(x: &CompactReader<'_>, t: u64, k: u64) -> Reply
    ensures { result ≡ table_rule (index_of x.now) t k }
{
    let Ok(table) = Table::try_from(t) else {
        return Reply::UNKNOWN;
    };
    let s = x.state;
    match table {
        Table::Starts => Reply::from(in_use(x.starts, s.segments, k)),
        Table::Bases => Reply::from(in_use(x.bases, s.segments, k)),
        Table::Offsets => Reply::from(in_use(x.offsets, s.segments, k)),
        Table::Widths => Reply::from(in_use(x.widths, s.widths, k).map(u64::from)),
        Table::Bytes => Reply::from(in_use(x.bytes, s.used, k).map(u64::from)),
    }
}

// Entry k of a table of which n entries are in use, if there is one.
fn in_use<T: Copy>(table: &[T], n: u64, k: u64) -> Option<T>
    ensures { result ≡ when (ltb k n) (slice_get table.now k) None }
{
    if k < n {
        return table.get(k as usize).copied();
    }
    None
}
