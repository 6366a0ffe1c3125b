// The types that 01 names. What they mean, and every promise made of them, stands in specs/.
#![tactic(auto)]

ghost use Rattle.std.specs.Prelude.{◌≡◌};
ghost use Rattle.model.specs.Answers.{outcome_of};
ghost use Rattle.model.specs.Settings.{settings_of};

// A page position: how many page times are at or before a time, less one (01, "Packed tree").
#[derive(Clone, Copy)]
pub struct PagePosition(pub u32);

// The number of a node of the index, in the order of allocation.
#[derive(Clone, Copy)]
pub struct NodeNumber(pub u32);

// The number of a record of the log, from 0.
#[derive(Clone, Copy)]
pub struct RecordNumber(pub u32);

// Order d, records per page N and row limit R, each within its limits when made by `checked`.
#[derive(Clone, Copy)]
pub struct Settings {
    pub order: u16,
    pub page: u16,
    pub limit: u32,
}

// The store's numbers, passed by value. A stranger's may hold anything: question 1 tests them.
#[repr(C)]
#[derive(Clone, Copy)]
pub struct Numbers {
    // order d of the index
    pub order: u16,
    // records per page, N
    pub page: u16,
    // row limit R
    pub limit: u32,
    // records in the log, n
    pub records: u32,
    // time of the last request
    pub last: u64,
    // rows of the current table
    pub live: u32,
    // count files held
    pub files: u32,
}

// A record of the log, all six fields of it (01, "Log bytes"). Its kind is a number, as the bytes are that anyone may have written: `formed`
// of specs/Legal asks whether it is one of the two.
#[derive(Clone, Copy)]
pub struct Record {
    pub size: u16,
    pub kind: u16,
    pub id: u32,
    pub time: u64,
    pub article: u32,
    pub count: u32,
}

// An entry of the catalogue of count files: the file's time, its number of rows and its mark (02, wish 3), a number since it crosses
// to C and a stranger's may be any.
#[repr(C)]
#[derive(Clone, Copy)]
pub struct Entry {
    pub time: u64,
    pub rows: u32,
    pub mark: u32,
}

// Why a call is refused: the first of its questions that was answered no. Each variant's number in 01
// is given once, by `refusal` of specs/Answers.
#[derive(Clone, Copy)]
pub enum Refusal {
    Header,
    Order,
    PageSize,
    RowLimit,
    Memory,
    TimeNotAbove,
    ArticlePresent,
    ArticleAbsent,
    RowsFull,
    LogFull,
    IndexFull,
    TimeAfterLast,
    OutputShort,
    NotToKeep,
    CatalogueFull,
    NotKept,
    WrongRecord(RecordNumber),
    WrongMark,
}

// What a call that may change the store answers: the numbers as they then are, and whether it was accepted.
#[derive(Clone, Copy)]
pub struct Changed {
    pub numbers: Numbers,
    pub verdict: Result<(), Refusal>,
}

// The position of a time: its page, and how many requests, which are records, are at or before it.
#[derive(Clone, Copy)]
pub struct Position {
    pub page: PagePosition,
    pub requests: u32,
}

// The side of the wanted time on which the outset used lies.
#[derive(Clone, Copy)]
pub enum Side {
    Earlier,
    Later,
}

// What a table call answers: its rows, the side of the outset used and the requests between, an update counting two.
#[derive(Clone, Copy)]
pub struct TableSaid {
    pub rows: u32,
    pub side: Side,
    pub between: u32,
}

// Where an outset's rows lie: nowhere (the empty table of time 0), in an area, or in the current table.
#[derive(Clone, Copy)]
pub enum Place {
    Empty,
    Area(u32),
    Current,
}

// A table that is held: its time, where its rows lie and how many they are.
#[derive(Clone, Copy)]
pub struct Held {
    pub time: u64,
    pub place: Place,
    pub rows: u32,
}

// The outset used for a time, its side and the requests between the two, an update counting two.
#[derive(Clone, Copy)]
pub struct Chosen {
    pub outset: Held,
    pub side: Side,
    pub between: u32,
}

// What a view answers: where the rows of the outset used lie, and the same of it. `Chosen` has a time besides, which no call answers.
#[derive(Clone, Copy)]
pub struct OutsetSaid {
    pub place: Place,
    pub rows: u32,
    pub side: Side,
    pub between: u32,
}

impl Entry {
    pub const PERMANENT: u32 = 0;

    // goes on Friday
    pub const FRIDAY: u32 = 5;

    // goes on Sunday
    pub const SUNDAY: u32 = 7;
}

// "At most 65,536 records", and 16 count files.
impl Numbers {
    pub const RECORDS_MAX: u32 = 65536;

    pub const FILES_MAX: usize = 16;
}

// The kinds of a record.
impl Record {
    pub const INSERTION: u16 = 2;

    pub const DELETION: u16 = 3;
}

impl Settings {
    pub const ORDER_MIN: u16 = 2;

    pub const ORDER_MAX: u16 = 64;

    pub const PAGE_MIN: u16 = 2;

    pub const PAGE_MAX: u16 = 64;

    pub const LIMIT_MIN: u32 = 1;

    pub const LIMIT_MAX: u32 = 1024;

    // The settings, or the refusal of the first that is out of its range.
    #[tactic(auto, unfolding(crate::specs::Answers::refusal, crate::specs::Answers::first_no, crate::specs::Settings::settings_of, crate::specs::Settings::order_in_range, crate::specs::Settings::page_size_in_range, crate::specs::Settings::row_limit_in_range))]
    pub fn checked(order: u16, page: u16, limit: u32) -> Result<Settings, Refusal>
        ensures { outcome_of result ≡ settings_of order page limit }
    {
        if order < Self::ORDER_MIN || Self::ORDER_MAX < order {
            return Err(Refusal::Order);
        }
        if page < Self::PAGE_MIN || Self::PAGE_MAX < page {
            return Err(Refusal::PageSize);
        }
        if limit < Self::LIMIT_MIN || Self::LIMIT_MAX < limit {
            return Err(Refusal::RowLimit);
        }
        Ok(Settings { order, page, limit })
    }
}
