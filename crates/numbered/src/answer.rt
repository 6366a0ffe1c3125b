// The answers in numbers: for each answer of a call the struct that crosses to C in its place.
ghost use Rattle.std.specs.Prelude.{◌≡◌};
ghost use Rattle.numbered.specs.Answers.{change_out, position_out, later_of, table_out, net_change_out, units_out, difference_out, drop_marked_out};

use answers::question;
use filing::{Dropped, Kept};
use model::{Changed, Entry, Numbers, Position, Refusal, Side, TableSaid};
use opening::Started;

// The answer of a call that may change the store: the numbers then, the question answered no, or 0, and at 17 the record
// number.
#[repr(C)]
#[derive(Clone, Copy)]
pub struct YkChange {
    pub numbers: Numbers,
    pub question: u8,
    pub record: u32,
}

// The answer of a position: the page, and the requests at or before the time.
#[repr(C)]
#[derive(Clone, Copy)]
pub struct YkPosition {
    pub question: u8,
    pub page: u32,
    pub requests: u32,
}

// The answer of a table; `later` is 1 where the outset used lies at or after the time answered, else 0.
#[repr(C)]
#[derive(Clone, Copy)]
pub struct YkTable {
    pub question: u8,
    pub rows: u32,
    pub later: u8,
    pub between: u32,
}

#[repr(C)]
#[derive(Clone, Copy)]
pub struct YkNetChange {
    pub question: u8,
    pub entries: u32,
}

// The answer of the units at a time.
#[repr(C)]
#[derive(Clone, Copy)]
pub struct YkUnits {
    pub question: u8,
    pub units: u64,
}

// The answer of the units between two times, the second less the first.
#[repr(C)]
#[derive(Clone, Copy)]
pub struct YkDifference {
    pub question: u8,
    pub units: i64,
}

// The answer of a drop by mark: the numbers then, and how many count files went.
#[repr(C)]
#[derive(Clone, Copy)]
pub struct YkDropMarked {
    pub numbers: Numbers,
    pub question: u8,
    pub gone: u32,
}

// What a start answers, and how many entries of the catalogue are to be cleared.
#[derive(Clone, Copy)]
pub struct Begun {
    pub change: YkChange,
    pub clears: usize,
}

// What a keep answers, and the entry that goes to place `at`, those from there up to `end` going up.
#[derive(Clone, Copy)]
pub struct KeptOut {
    pub change: YkChange,
    pub entry: Entry,
    pub at: usize,
    pub end: usize,
}

// What a drop answers, of a time or by mark, and over how many entries those that stay are closed up.
#[derive(Clone, Copy)]
pub struct DroppedOut<A> {
    pub answer: A,
    pub over: usize,
}

// What insert, delete or update answered.
impl From<Changed> for YkChange {
    ghost from_gives = { λ x r. r ≡ change_out x.numbers x.verdict };

    #[tactic(auto, unfolding(crate::specs::Answers::change_out))]
    fn from(x: Changed) -> YkChange {
        let numbers = x.numbers;
        match x.verdict {
            Ok(()) => YkChange {
                numbers,
                question: 0,
                record: 0,
            },
            Err(why) => {
                let no = answers::number(why);
                YkChange {
                    numbers,
                    question: no.0,
                    record: no.1,
                }
            }
        }
    }
}

impl From<Started> for Begun {
    ghost from_gives = { λ x r. r ≡ record { change = change_out x.numbers x.verdict; clears = x.clears } };

    fn from(x: Started) -> Begun {
        Begun {
            change: YkChange::from(Changed {
                numbers: x.numbers,
                verdict: x.verdict,
            }),
            clears: x.clears,
        }
    }
}

impl From<Kept> for KeptOut {
    ghost from_gives = { λ x r. r ≡ record { change = change_out x.numbers x.verdict; entry = x.entry; at = x.at; end = x.end } };

    fn from(x: Kept) -> KeptOut {
        KeptOut {
            change: YkChange::from(Changed {
                numbers: x.numbers,
                verdict: x.verdict,
            }),
            entry: x.entry,
            at: x.at,
            end: x.end,
        }
    }
}

impl From<Dropped<()>> for DroppedOut<YkChange> {
    ghost from_gives = { λ x r. r ≡ record { answer = change_out x.numbers x.answer; over = x.over } };

    fn from(x: Dropped<()>) -> DroppedOut<YkChange> {
        DroppedOut {
            answer: YkChange::from(Changed {
                numbers: x.numbers,
                verdict: x.answer,
            }),
            over: x.over,
        }
    }
}

impl From<Dropped<u32>> for DroppedOut<YkDropMarked> {
    ghost from_gives = { λ x r. r ≡ record { answer = drop_marked_out x.numbers x.answer; over = x.over } };

    #[tactic(auto, unfolding(crate::specs::Answers::drop_marked_out))]
    fn from(x: Dropped<u32>) -> DroppedOut<YkDropMarked> {
        let numbers = x.numbers;
        let answer = match x.answer {
            Ok(k) => YkDropMarked {
                numbers,
                question: 0,
                gone: k,
            },
            Err(why) => YkDropMarked {
                numbers,
                question: question(why),
                gone: 0,
            },
        };
        DroppedOut {
            answer,
            over: x.over,
        }
    }
}

impl From<Result<Position, Refusal>> for YkPosition {
    ghost from_gives = { λ x r. r ≡ position_out x };

    #[tactic(auto, unfolding(crate::specs::Answers::position_out))]
    fn from(x: Result<Position, Refusal>) -> YkPosition {
        match x {
            Ok(p) => YkPosition {
                question: 0,
                page: p.page.0,
                requests: p.requests,
            },
            Err(why) => YkPosition {
                question: question(why),
                page: 0,
                requests: 0,
            },
        }
    }
}

// No `From`: neither `Side` nor `u8` is this crate's.
#[tactic(auto, unfolding(crate::specs::Answers::later_of))]
pub fn later_of(side: Side) -> u8
    ensures { result ≡ later_of side }
{
    match side {
        Side::Earlier => 0,
        Side::Later => 1,
    }
}

impl From<Result<TableSaid, Refusal>> for YkTable {
    ghost from_gives = { λ x r. r ≡ table_out x };

    #[tactic(auto, unfolding(crate::specs::Answers::table_out))]
    fn from(x: Result<TableSaid, Refusal>) -> YkTable {
        match x {
            Ok(said) => YkTable {
                question: 0,
                rows: said.rows,
                later: later_of(said.side),
                between: said.between,
            },
            Err(why) => YkTable {
                question: question(why),
                rows: 0,
                later: 0,
                between: 0,
            },
        }
    }
}

impl From<Result<u32, Refusal>> for YkNetChange {
    ghost from_gives = { λ x r. r ≡ net_change_out x };

    #[tactic(auto, unfolding(crate::specs::Answers::net_change_out))]
    fn from(x: Result<u32, Refusal>) -> YkNetChange {
        match x {
            Ok(k) => YkNetChange {
                question: 0,
                entries: k,
            },
            Err(why) => YkNetChange {
                question: question(why),
                entries: 0,
            },
        }
    }
}

impl From<Result<u64, Refusal>> for YkUnits {
    ghost from_gives = { λ x r. r ≡ units_out x };

    #[tactic(auto, unfolding(crate::specs::Answers::units_out))]
    fn from(x: Result<u64, Refusal>) -> YkUnits {
        match x {
            Ok(k) => YkUnits {
                question: 0,
                units: k,
            },
            Err(why) => YkUnits {
                question: question(why),
                units: 0,
            },
        }
    }
}

impl From<Result<i64, Refusal>> for YkDifference {
    ghost from_gives = { λ x r. r ≡ difference_out x };

    #[tactic(auto, unfolding(crate::specs::Answers::difference_out))]
    fn from(x: Result<i64, Refusal>) -> YkDifference {
        match x {
            Ok(k) => YkDifference {
                question: 0,
                units: k,
            },
            Err(why) => YkDifference {
                question: question(why),
                units: 0,
            },
        }
    }
}
