// A list of records replayed: each record's call is made, and what it answers is held to the recorded answer.
#![tactic(auto)]

ghost use Rattle.std.specs.Prelude.{◌≡◌, ◌≤◌, ◌<◌, None, length};
ghost use Rattle.rules.specs.Refusals.{index_in};
ghost use Rattle.replay.specs.Replaying.{SameLent};
ghost use Rattle.replay_tally.specs.Tallying.{word_of, call_of, due_of, tally, unknown_after, counted, going_by, take_rule};

use replay::{Call, Player, Reply};

// A record whose answer differs: its number, counted from 1, its kind, and both answers.
#[derive(Clone, Copy)]
pub struct Difference {
    pub number: u64,
    pub kind: u64,
    pub due: Reply,
    pub found: Reply,
}

// What has been counted.
#[derive(Clone, Copy)]
pub struct Tally {
    // The records.
    pub records: u64,
    // Those whose answer differs.
    pub differ: u64,
    // Those of no known kind.
    pub unknown: u64,
    // The bytes after the last whole record.
    pub tail: u64,
    // The first record that differs, if one does.
    pub first: Option<Difference>,
}

// What has been counted before the first record.
pub fn start() -> Tally
    ensures { result ≡ tally 0 0 0 0 None }
{
    Tally {
        records: 0,
        differ: 0,
        unknown: 0,
        tail: 0,
        first: None,
    }
}

// Takes the bytes that came of a record: replays its call and counts the answer, or keeps the length of a tail.
#[tactic(auto, unfolding(crate::specs::Tallying::take_rule))]
pub fn take(player: &mut Player<'_>, t: Tally, recorded: &[u8]) -> Tally
    ensures left { going_by player.new result ≡ take_rule (going_by player.old t) recorded.now (length recorded.now) }
    ensures lent { SameLent player.new player.old }
{
    let Some(record) = recorded.first_chunk() else {
        return Tally {
            tail: recorded.len() as u64,
            ..t
        };
    };
    let call = call_of(record);
    let due = due_of(record);
    let found = player.play(call);
    count(t, call.kind, due, found)
}

// The call that a record names.
fn call_of(recorded: &[u8; 64]) -> Call
    ensures { result ≡ call_of recorded.now }
{
    Call {
        kind: word(recorded, 0),
        a: word(recorded, 1),
        b: word(recorded, 2),
        c: word(recorded, 3),
    }
}

// The answer that a record says is due.
fn due_of(recorded: &[u8; 64]) -> Reply
    ensures { result ≡ due_of recorded.now }
{
    Reply {
        answered: word(recorded, 4),
        r: word(recorded, 5),
        s: word(recorded, 6),
    }
}

// Word i of a record.
fn word(recorded: &[u8; 64], i: u64) -> u64
    requires { i < 8 }
    ensures { result ≡ word_of recorded.now i }
{
    delta::delta_at(recorded, 8 * i, 8)
}

// Counts a record: it differs exactly where a number of its answer does.
#[tactic(auto, unfolding(crate::specs::Tallying::counted, crate::specs::Tallying::one_more, crate::specs::Tallying::same_reply, rules::specs::Words::when_all))]
fn count(t: Tally, kind: u64, due: Reply, found: Reply) -> Tally
    ensures { result ≡ counted t kind due found }
{
    let records = t.records.saturating_add(1);
    let unknown = unknown_after(t.unknown, found);
    if due == found {
        return Tally {
            records,
            unknown,
            ..t
        };
    }
    let here = Difference {
        number: records,
        kind,
        due,
        found,
    };
    Tally {
        records,
        differ: t.differ.saturating_add(1),
        unknown,
        first: t.first.or(Some(here)),
        ..t
    }
}

// One more of no known kind, if that was found.
#[tactic(auto, unfolding(crate::specs::Tallying::unknown_after, crate::specs::Tallying::one_more))]
fn unknown_after(n: u64, found: Reply) -> u64
    ensures { result ≡ unknown_after n found }
{
    if found.answered == Reply::UNKNOWN.answered {
        return n.saturating_add(1);
    }
    n
}
