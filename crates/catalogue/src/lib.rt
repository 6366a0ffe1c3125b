// The catalogue of count files (01, "Count files"): its capacity, and what each of its entries comes to: which held tables are
// nearest to a time, which files stay. The lent slice of entries is gone along by the crate `entries`; here is what it does with
// each.
#![tactic(auto)]

ghost use Rattle.std.specs.Prelude.{◌≡◌, ◌&&◌, cond, ◌+◌, ◌*◌, ◌≤◌, ◌<◌, min, get_or, leb, ltb, eqb};
ghost use Rattle.model.specs.Marks as marks;
ghost use Rattle.model.specs.Memory as memory;
ghost use Rattle.model.specs.Memory.{no_entry};
ghost use Rattle.model.specs.Queries.{answered_time};
ghost use Rattle.catalogue.specs.Candidates.{none_around, held_at, nearer_by};
ghost use Rattle.catalogue.specs.declared.Going.TheVariants.{Of, Marked};
ghost use Rattle.catalogue.specs.Entries.{stays_when, flag_at};

use model::{Entry, Held, Numbers, Place};

// The catalogue by value: the first 16 entries, zero entries where fewer are lent, and how many are lent. An array
// and no slice, as `by_value` of specs/, which the audit's promise is of.
#[derive(Clone, Copy)]
pub struct Catalogue {
    pub entries: [Entry; 16],
    pub lent: usize,
}

// How many count files the lent entries and areas have room for.
#[tactic(auto, unfolding(model::specs::Memory::capacity))]
pub fn capacity(limit: u32, entries: usize, area_bytes: usize) -> usize
    requires le_limit { 1 ≤ limit }
    requires limit_bound { limit ≤ 1024 }
    ensures is { result ≡ memory.capacity limit entries area_bytes }
    ensures few { result ≤ 16 }
{
    let areas = area_bytes / (8 * (limit as usize));
    Numbers::FILES_MAX.min(entries.min(areas))
}

// How many of the lent entries are looked at, whatever the numbers say: those used, at most 16.
pub fn looked_at(files: u32, lent: usize) -> usize
    ensures is { result ≡ min (min 16 files) lent }
    ensures few { (result ≤ 16) × (result ≤ lent) }
{
    Numbers::FILES_MAX.min(files as usize).min(lent)
}

// Entry i of a catalogue by value.
pub fn entry_of(c: Catalogue, i: usize) -> Entry
    requires { i < 16 }
    ensures { result ≡ get_or c.entries i no_entry }
{
    c.entries[i]
}

// An entry of no file.
pub fn no_entry() -> Entry
    ensures { result ≡ no_entry }
{
    Entry {
        time: 0,
        rows: 0,
        mark: Entry::PERMANENT,
    }
}

// ---- the nearest held tables

// The two tables that an outset is chosen from, the nearest found so far at or before a time and at or after it, and how many
// entries are lent.
#[derive(Clone, Copy)]
pub struct Candidates {
    pub early: Held,
    pub late: Held,
    pub lent: usize,
}

// The time that a query answers where t is asked for: a time after the last request is answered as the last.
#[tactic(auto, unfolding(model::specs::Queries::answered_time))]
pub fn answered_time(last: u64, t: u64) -> u64
    ensures { result ≡ answered_time last t }
{
    last.min(t)
}

// Before any entry: the empty table of time 0, and the current table.
pub fn none_around(s: Numbers, lent: usize) -> Candidates
    ensures { result ≡ none_around s lent }
{
    Candidates {
        early: Held {
            time: 0,
            place: Place::Empty,
            rows: 0,
        },
        late: Held {
            time: s.last,
            place: Place::Current,
            rows: s.live,
        },
        lent,
    }
}

// The table of entry i.
fn held_at(i: usize, e: Entry) -> Held
    requires { i < 16 }
    ensures { result ≡ held_at i e }
{
    Held {
        time: e.time,
        place: Place::Area(i as u32),
        rows: e.rows,
    }
}

// The later of two tables, of those at or before t. Not one function with the next: other comparisons, and a tie goes the other way.
fn later_one(best: Held, i: usize, e: Entry, t: u64) -> Held
    requires { i < 16 }
    ensures { result ≡ cond (leb e.time t && ltb best.time e.time) (held_at i e) best }
{
    if e.time <= t && best.time < e.time {
        held_at(i, e)
    } else {
        best
    }
}

// The earlier of two tables, of those at or after t; a count file before the current table.
fn earlier_one(best: Held, i: usize, e: Entry, t: u64) -> Held
    requires { i < 16 }
    ensures { result ≡ cond (leb t e.time && leb e.time best.time) (held_at i e) best }
{
    if t <= e.time && e.time <= best.time {
        held_at(i, e)
    } else {
        best
    }
}

// The nearest tables with entry i besides.
pub fn nearer(c: Candidates, i: usize, e: Entry, t: u64) -> Candidates
    requires { i < 16 }
    ensures { result ≡ nearer_by t c i e }
{
    Candidates {
        early: later_one(c.early, i, e, t),
        late: earlier_one(c.late, i, e, t),
        ..c
    }
}

// ---- marks

// Whether files are deleted by a mark.
#[tactic(auto, unfolding(model::specs::Marks::goes))]
pub fn goes(mark: u32) -> bool
    ensures { result ≡ marks.goes mark }
{
    mark == Entry::FRIDAY || mark == Entry::SUNDAY
}

// Whether a file may have a mark.
#[tactic(auto, unfolding(model::specs::Marks::is_mark))]
pub fn is_mark(mark: u32) -> bool
    ensures { result ≡ marks.is_mark mark }
{
    mark == Entry::PERMANENT || goes(mark)
}

// ---- fewer files

// Which count files go: that of a time, or those of a mark. No closure stands in its place: the definitions `stays_when` and
// `Says` of specs/ speak of it, and callers pass it on.
#[derive(Clone, Copy)]
pub enum Going {
    Of(u64),
    Marked(u32),
}

// Of each entry whether its file stays, as one number: entry i's digit has the weight 2 ^ i. Beside it the weight of the next
// entry's digit, how many stay, and how many entries are lent. A number stays in registers where an array would be copied at
// each entry.
#[derive(Clone, Copy)]
pub struct Staying {
    pub flags: u32,
    pub next: u32,
    pub count: u32,
    pub lent: usize,
}

pub fn of_time(t: u64) -> Going
    ensures { result ≡ Of t }
{
    Going::Of(t)
}

pub fn of_mark(mark: u32) -> Going
    ensures { result ≡ Marked mark }
{
    Going::Marked(mark)
}

// Whether the file of entry e stays where others go.
#[tactic(auto, unfolding(crate::specs::Entries::stays_when))]
fn stays(e: Entry, going: Going) -> bool
    ensures { result ≡ stays_when going e }
{
    match going {
        Going::Of(t) => e.time != t,
        Going::Marked(k) => e.mark != k,
    }
}

// Before any entry.
pub fn none_staying(lent: usize) -> Staying
    ensures { result ≡ record { flags = 0; next = 1; count = 0; lent = lent } }
{
    Staying {
        flags: 0,
        next: 1,
        count: 0,
        lent,
    }
}

// With entry i besides.
pub fn noted(x: Staying, i: usize, e: Entry, going: Going) -> Staying
    requires i_bound { i < 16 }
    requires count_le_i { (x.count ≤ i) × ((x.flags < x.next) × (x.next ≤ 32768)) }
    ensures { result ≡ record {
      flags = cond (stays_when going e) (x.flags + x.next) x.flags;
      next = 2 * x.next;
      count = cond (stays_when going e) (x.count + 1) x.count;
      lent = x.lent;
    } }
{
    let next = 2 * x.next;
    if !stays(e, going) {
        return Staying { next, ..x };
    }
    Staying {
        flags: x.flags + x.next,
        next,
        count: x.count + 1,
        ..x
    }
}

// Whether the file of entry i stays.
pub fn stays_at(x: Staying, i: usize) -> bool
    requires { i < 16 }
    ensures { result ≡ flag_at x i }
{
    (x.flags >> i) % 2 == 1
}

// The place for the next file that stays, where that of entry i is j.
pub fn next_place(x: Staying, i: usize, j: usize) -> usize
    requires { (i < 16) × (j < 16) }
    ensures { result ≡ cond (flag_at x i) (j + 1) j }
{
    if stays_at(x, i) { j + 1 } else { j }
}
