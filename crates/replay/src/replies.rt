// An answer in a record's numbers.
#![tactic(auto)]

ghost use Rattle.std.specs.Prelude.{◌≡◌, Some};
ghost use Rattle.rules.specs.Refusals.{number_of, answer_of, target_of};
ghost use Rattle.replay.specs.Replies.{reply, number_reply, span_reply, entry_reply, three_numbers};

use rules::{Refusal, Target};
use std::fmt;

// An answer in a record's numbers.
#[derive(Clone, Copy, PartialEq, Eq)]
pub struct Reply {
    // 1 for an answer, 0 for a refusal or an entry that is not there, 2 for a call of no known kind.
    pub answered: u64,
    // The answer, or the refusal's number.
    pub r: u64,
    // The second number of an answer of two.
    pub s: u64,
}

impl Reply {
    // An entry that is not there.
    pub const ABSENT: Reply = Reply {
        answered: 0,
        r: 0,
        s: 0,
    };

    // A call of no known kind.
    pub const UNKNOWN: Reply = Reply {
        answered: 2,
        r: 0,
        s: 0,
    };
}

impl From<Refusal> for Reply {
    ghost from_gives = { λ e y. y ≡ reply 0 (number_of e) 0 };

    fn from(e: Refusal) -> Reply {
        Reply {
            answered: 0,
            r: u64::from(e),
            s: 0,
        }
    }
}

impl From<u64> for Reply {
    ghost from_gives = { λ v y. y ≡ reply 1 v 0 };

    fn from(v: u64) -> Reply {
        Reply::from((v, 0))
    }
}

impl From<(u64, u64)> for Reply {
    ghost from_gives = { λ p y. y ≡ reply 1 p.0 p.1 };

    fn from(pair: (u64, u64)) -> Reply {
        Reply {
            answered: 1,
            r: pair.0,
            s: pair.1,
        }
    }
}

impl From<Result<u64, Refusal>> for Reply {
    ghost from_gives = { λ a y. y ≡ number_reply (answer_of a) };

    fn from(answer: Result<u64, Refusal>) -> Reply {
        match answer {
            Ok(v) => Reply::from(v),
            Err(e) => Reply::from(e),
        }
    }
}

impl From<Result<Target, Refusal>> for Reply {
    ghost from_gives = { λ a y. y ≡ span_reply (target_of a) };

    fn from(answer: Result<Target, Refusal>) -> Reply {
        match answer {
            Ok(span) => Reply::from((span.start, span.end)),
            Err(e) => Reply::from(e),
        }
    }
}

impl From<Option<u64>> for Reply {
    ghost from_gives = { λ o y. y ≡ entry_reply o };

    fn from(entry: Option<u64>) -> Reply {
        match entry {
            Some(v) => Reply::from(v),
            None => Reply::ABSENT,
        }
    }
}

impl fmt::Display for Reply {
    ghost output = { λ y. Some (three_numbers y) };

    fn fmt<W: fmt::Write>(&self, f: &mut fmt::Formatter<W>) -> fmt::Result {
        write!(f, "{} {} {}", self.answered, self.r, self.s)
    }
}
