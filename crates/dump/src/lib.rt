// Feeding an index with 8-byte little-endian values from an input that comes in pieces of any length.
#![tactic(auto)]

ghost use Rattle.std.specs.Prelude.{◌≡◌};
ghost use Rattle.rules.specs.Refusals.{SameTables};
ghost use Rattle.dump.specs.Feeding.{fed_of, nothing, with_byte, byte_rule, feed_rule};

use rules::CompactWriter;
use std::num::NonZeroU64;

// What is carried from one piece of the input to the next.
#[derive(Drop)]
pub struct Feed<'a> {
    // The index that the values go into.
    pub index: CompactWriter<'a>,
    // How many bytes of the next value have come.
    pub count: u64,
    // What those bytes make, the last one on top.
    pub partial: u64,
    // The number of the refusal that ended it.
    pub refusal: Option<NonZeroU64>,
}

impl<'a> Feed<'a> {
    // What is carried before the first piece, with a fresh index over these tables.
    pub fn start(
        starts: &'a mut [u64],
        bases: &'a mut [u64],
        offsets: &'a mut [u64],
        widths: &'a mut [u8],
        bytes: &'a mut [u8],
    ) -> Feed<'a>
        ensures carried { fed_of result ≡ nothing starts.old bases.old offsets.old widths.old bytes.old }
        ensures lent { (result.index.starts.ghost_name ≡ starts.entry.ghost_name)
            × (result.index.bases.ghost_name ≡ bases.entry.ghost_name)
            × (result.index.offsets.ghost_name ≡ offsets.entry.ghost_name)
            × (result.index.widths.ghost_name ≡ widths.entry.ghost_name)
            × (result.index.bytes.ghost_name ≡ bytes.entry.ghost_name) }
    {
        Feed {
            index: CompactWriter {
                state: compact_index::default_index(),
                starts,
                bases,
                offsets,
                widths,
                bytes,
            },
            count: 0,
            partial: 0,
            refusal: None,
        }
    }

    // Takes a piece of the input: pushes each value that it ends, up to the first refusal.
    #[tactic(auto, using(crate::proofs::Pieces::feed_step, crate::proofs::Pieces::feed_done))]
    pub fn feed(&mut self, piece: &[u8])
        ensures carried { fed_of self.new ≡ feed_rule (fed_of self.old) piece.now }
        ensures lent { SameTables self.new.index self.old.index }
    {
        for byte in piece {
            self.feed_byte(*byte);
        }
    }

    // Takes one byte of the input; the eighth of a value ends it, and the value is pushed.
    #[tactic(auto, using(crate::proofs::Pieces::kept, crate::proofs::Pieces::numbered, crate::proofs::Pieces::pushed), unfolding(crate::specs::Feeding::byte_rule))]
    fn feed_byte(&mut self, byte: u8)
        ensures carried { fed_of self.new ≡ byte_rule (fed_of self.old) byte }
        ensures lent { SameTables self.new.index self.old.index }
    {
        if self.refusal.is_some() {
            return;
        }
        let value = with_byte(self.partial, byte);
        if self.count < 7 {
            self.count += 1;
            self.partial = value;
            return;
        }
        self.count = 0;
        self.partial = 0;
        self.refusal = match compact_writer::push(&mut self.index, value) {
            Ok(_) => None,
            Err(e) => NonZeroU64::new(u64::from(e)),
        };
    }
}

// A value's bytes with one more on top: the ones before it move down.
fn with_byte(partial: u64, byte: u8) -> u64
    ensures { result ≡ with_byte partial byte }
{
    partial / 256 + ((byte as u64) << 56)
}
