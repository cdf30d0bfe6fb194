// The kinds of recorded calls, and the tables by their numbers.
#![tactic(auto)]

ghost use Rattle.std.specs.Prelude.{◌≡◌};
ghost use Rattle.replay.specs.Kinds.{DecodesKind, DecodesTable};

// What a recorded call asks for.
#[derive(Clone, Copy)]
pub enum Kind {
    Open,
    Push,
    Length,
    Size,
    Get,
    GetRange,
    Output,
    Iter,
    Step,
    TargetRange,
    BisectLeft,
    BisectRangeLeft,
    Entry,
}

// A number that names no kind of call.
#[derive(Clone, Copy)]
pub struct UnknownKind(pub u64);

impl TryFrom<u64> for Kind {
    type Error = UnknownKind;

    ghost try_from_gives = { DecodesKind };

    fn try_from(number: u64) -> Result<Kind, UnknownKind> {
        match number {
            1 => Ok(Kind::Open),
            2 => Ok(Kind::Push),
            3 => Ok(Kind::Length),
            4 => Ok(Kind::Size),
            5 => Ok(Kind::Get),
            6 => Ok(Kind::GetRange),
            7 => Ok(Kind::Output),
            8 => Ok(Kind::Iter),
            9 => Ok(Kind::Step),
            10 => Ok(Kind::TargetRange),
            11 => Ok(Kind::BisectLeft),
            12 => Ok(Kind::BisectRangeLeft),
            13 => Ok(Kind::Entry),
            _ => Err(UnknownKind(number)),
        }
    }
}

// One of the five tables.
#[derive(Clone, Copy)]
pub enum Table {
    Starts,
    Bases,
    Offsets,
    Widths,
    Bytes,
}

// A number that names no table.
#[derive(Clone, Copy)]
pub struct UnknownTable(pub u64);

impl TryFrom<u64> for Table {
    type Error = UnknownTable;

    ghost try_from_gives = { DecodesTable };

    fn try_from(number: u64) -> Result<Table, UnknownTable> {
        match number {
            0 => Ok(Table::Starts),
            1 => Ok(Table::Bases),
            2 => Ok(Table::Offsets),
            3 => Ok(Table::Widths),
            4 => Ok(Table::Bytes),
            _ => Err(UnknownTable(number)),
        }
    }
}
