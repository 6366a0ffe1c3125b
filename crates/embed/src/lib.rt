// How C and Rust call the store (include/yokefennel.h). Each exported function is lent the catalogue as a slice of entries and
// is a shell: it asks of the entries what the call needs to know, makes the call of `numbered`, and changes the entries by what
// that answers.
#![tactic(auto)]

ghost use Rattle.std.specs.Prelude.{◌≡◌, List, ℕ, ◌+◌, ◌*◌};
ghost use Rattle.model.specs.Starts.{fresh_of, open_of};
ghost use Rattle.model.specs.Changes.{insert_questions, present_questions, insert_of, delete_of, update_of};
ghost use Rattle.model.specs.Files.{drop_of, drop_marked_of};
ghost use Rattle.model.specs.Audit.{audit_of};
ghost use Rattle.numbered.specs.Lent.{memory_of};
ghost use Rattle.numbered.specs.Crossed.{ExactlyCrossed, AppendCrossed, PositionCrossed, TableCrossed, ViewCrossed, NetChangeCrossed, UnitsCrossed, DifferenceCrossed, KeepCrossed, DropMarkedCrossed, LengthsCrossed};
ghost use Rattle.numbered.specs.Answers.{yes_out};
ghost use Rattle.embed.specs.Regions.{as_lent, as_left};

use model::{Entry, Numbers};
use numbered::answer::{
    YkChange, YkDifference, YkDropMarked, YkNetChange, YkPosition, YkTable, YkUnits,
};
use numbered::needed::YkLengths;
use numbered::outset::YkView;

// 0.5.0, as the header and the Rust crate have it: 65,536 × major + 256 × minor + patch.
const VERSION: u32 = 1280;

// The version of the archive.
#[unsafe(no_mangle)]
pub extern "C" fn yk_version() -> u32
    ensures { result ≡ 0 * 65536 + 5 * 256 + 0 }
{
    VERSION
}

#[unsafe(no_mangle)]
pub extern "C" fn yk_lengths_for(
    order: u16,
    page: u16,
    limit: u32,
    records: u32,
    files: u32,
) -> YkLengths
    ensures { LengthsCrossed result order page limit records files }
{
    numbered::lengths_for(order, page, limit, records, files)
}

#[unsafe(no_mangle)]
pub extern "C" fn yk_fresh(
    order: u16,
    page: u16,
    limit: u32,
    log: &mut [u8],
    current: &mut [u8],
    entries: &mut [Entry],
    areas: &[u8],
) -> YkChange
    ensures { (index : List ℕ)
        → ExactlyCrossed result (memory_of log.new index current.new entries.new areas.now)
        (fresh_of order page limit (memory_of log.old index current.old entries.old areas.now)) }
{
    let r = numbered::fresh(order, page, limit, log, current, entries.len(), areas.len());
    entries::clear(entries, 0, r.clears);
    r.change
}

#[unsafe(no_mangle)]
pub extern "C" fn yk_open(
    log: &[u8],
    index: &mut [u64],
    current: &mut [u8],
    entries: &mut [Entry],
    areas: &[u8],
) -> YkChange
    ensures { ExactlyCrossed result (as_left log.now index.new current.new entries.new areas.now)
        (open_of (memory_of log.now index.old current.old entries.old areas.now)) }
{
    let r = numbered::open(log, index, current, entries.len(), areas.len());
    entries::clear(entries, 0, r.clears);
    r.change
}

#[unsafe(no_mangle)]
pub extern "C" fn yk_insert(
    s: Numbers,
    log: &mut [u8],
    index: &mut [u64],
    current: &mut [u8],
    entries: &[Entry],
    areas: &[u8],
    t: u64,
    article: u32,
    count: u32,
) -> YkChange
    ensures { AppendCrossed 1 result (as_lent s log.old index.old current.old entries.now areas.now) (insert_questions (as_lent s log.old index.old current.old entries.now areas.now) t article)
        (as_left log.new index.new current.new entries.now areas.now) (insert_of (as_lent s log.old index.old current.old entries.now areas.now) t article count) }
{
    numbered::insert(
        s,
        log,
        index,
        current,
        entries.len(),
        areas.len(),
        t,
        article,
        count,
    )
}

#[unsafe(no_mangle)]
pub extern "C" fn yk_delete(
    s: Numbers,
    log: &mut [u8],
    index: &mut [u64],
    current: &mut [u8],
    entries: &[Entry],
    areas: &[u8],
    t: u64,
    article: u32,
) -> YkChange
    ensures { AppendCrossed 1 result (as_lent s log.old index.old current.old entries.now areas.now) (present_questions (as_lent s log.old index.old current.old entries.now areas.now) t article 1)
        (as_left log.new index.new current.new entries.now areas.now) (delete_of (as_lent s log.old index.old current.old entries.now areas.now) t article) }
{
    numbered::delete(
        s,
        log,
        index,
        current,
        entries.len(),
        areas.len(),
        t,
        article,
    )
}

#[unsafe(no_mangle)]
pub extern "C" fn yk_update(
    s: Numbers,
    log: &mut [u8],
    index: &mut [u64],
    current: &mut [u8],
    entries: &[Entry],
    areas: &[u8],
    t: u64,
    article: u32,
    count: u32,
) -> YkChange
    ensures { AppendCrossed 2 result (as_lent s log.old index.old current.old entries.now areas.now) (present_questions (as_lent s log.old index.old current.old entries.now areas.now) t article 2)
        (as_left log.new index.new current.new entries.now areas.now) (update_of (as_lent s log.old index.old current.old entries.now areas.now) t article count) }
{
    numbered::update(
        s,
        log,
        index,
        current,
        entries.len(),
        areas.len(),
        t,
        article,
        count,
    )
}

#[unsafe(no_mangle)]
pub extern "C" fn yk_position(
    s: Numbers,
    log: &[u8],
    index: &[u64],
    current: &[u8],
    entries: &[Entry],
    areas: &[u8],
    t: u64,
) -> YkPosition
    ensures { PositionCrossed result (as_lent s log.now index.now current.now entries.now areas.now) t }
{
    numbered::position(s, log, index, current, entries.len(), areas.len(), t)
}

#[unsafe(no_mangle)]
pub extern "C" fn yk_table(
    s: Numbers,
    log: &[u8],
    index: &[u64],
    current: &[u8],
    entries: &[Entry],
    areas: &[u8],
    t: u64,
    out: &mut [u8],
) -> YkTable
    ensures { TableCrossed result (as_lent s log.now index.now current.now entries.now areas.now) t
        out.old out.new }
{
    numbered::table(
        s,
        log,
        index,
        current,
        entries::nearest(entries, s, t),
        areas,
        t,
        out,
    )
}

#[unsafe(no_mangle)]
pub extern "C" fn yk_view(
    s: Numbers,
    log: &[u8],
    index: &[u64],
    current: &[u8],
    entries: &[Entry],
    areas: &[u8],
    t: u64,
) -> YkView
    ensures { ViewCrossed result (as_lent s log.now index.now current.now entries.now areas.now) t }
{
    numbered::view(
        s,
        log,
        index,
        current,
        entries::nearest(entries, s, t),
        areas,
        t,
    )
}

#[unsafe(no_mangle)]
pub extern "C" fn yk_net_change(
    s: Numbers,
    log: &[u8],
    index: &[u64],
    current: &[u8],
    entries: &[Entry],
    areas: &[u8],
    a: u64,
    b: u64,
    out: &mut [u8],
    work: &mut [u8],
) -> YkNetChange
    ensures { NetChangeCrossed result (as_lent s log.now index.now current.now entries.now areas.now) a b
        out.old work.old out.new work.new }
{
    numbered::net_change(
        s,
        log,
        index,
        current,
        entries::nearest(entries, s, a),
        entries::nearest(entries, s, b),
        areas,
        a,
        b,
        out,
        work,
    )
}

#[unsafe(no_mangle)]
pub extern "C" fn yk_units(
    s: Numbers,
    log: &[u8],
    index: &[u64],
    current: &[u8],
    entries: &[Entry],
    areas: &[u8],
    t: u64,
) -> YkUnits
    ensures { UnitsCrossed result (as_lent s log.now index.now current.now entries.now areas.now) t }
{
    numbered::units(
        s,
        log,
        index,
        current,
        entries::nearest(entries, s, t),
        areas,
        t,
    )
}

#[unsafe(no_mangle)]
pub extern "C" fn yk_units_between(
    s: Numbers,
    log: &[u8],
    index: &[u64],
    current: &[u8],
    entries: &[Entry],
    areas: &[u8],
    a: u64,
    b: u64,
) -> YkDifference
    ensures { DifferenceCrossed result (as_lent s log.now index.now current.now entries.now areas.now) a b }
{
    numbered::units_between(
        s,
        log,
        index,
        current,
        entries::nearest(entries, s, a),
        entries::nearest(entries, s, b),
        areas,
        a,
        b,
    )
}

#[unsafe(no_mangle)]
pub extern "C" fn yk_keep(
    s: Numbers,
    log: &[u8],
    index: &[u64],
    current: &[u8],
    entries: &mut [Entry],
    areas: &mut [u8],
    t: u64,
    mark: u32,
) -> YkChange
    ensures { KeepCrossed result (as_lent s log.now index.now current.now entries.old areas.old) t mark (as_left log.now index.now current.now entries.new areas.new) }
{
    let c = entries::nearest(entries, s, t);
    let at = entries::place(entries, s, t);
    let r = numbered::keep(s, log, index, current, c, at, areas, t, mark);
    entries::insert(entries, r.at, r.end, r.entry);
    r.change
}

#[unsafe(no_mangle)]
pub extern "C" fn yk_drop(
    s: Numbers,
    log: &[u8],
    index: &[u64],
    current: &[u8],
    entries: &mut [Entry],
    areas: &mut [u8],
    t: u64,
) -> YkChange
    ensures { ExactlyCrossed result (as_left log.now index.now current.now entries.new areas.new) (drop_of (as_lent s log.now index.now current.now entries.old areas.old) t) }
{
    let x = entries::staying(entries, s, catalogue::of_time(t));
    let r = numbered::drop(s, log, index, current, x, areas, t);
    entries::remove(entries, r.over, x);
    r.answer
}

#[unsafe(no_mangle)]
pub extern "C" fn yk_drop_marked(
    s: Numbers,
    log: &[u8],
    index: &[u64],
    current: &[u8],
    entries: &mut [Entry],
    areas: &mut [u8],
    mark: u32,
) -> YkDropMarked
    ensures { DropMarkedCrossed result (as_left log.now index.now current.now entries.new areas.new) (drop_marked_of (as_lent s log.now index.now current.now entries.old areas.old) mark) }
{
    let x = entries::staying(entries, s, catalogue::of_mark(mark));
    let r = numbered::drop_marked(s, log, index, current, x, areas, mark);
    entries::remove(entries, r.over, x);
    r.answer
}

#[unsafe(no_mangle)]
pub extern "C" fn yk_audit(
    s: Numbers,
    log: &[u8],
    index: &[u64],
    current: &[u8],
    entries: &[Entry],
    areas: &[u8],
) -> u8
    ensures { result ≡ yes_out (audit_of (as_lent s log.now index.now current.now entries.now areas.now)) }
{
    numbered::audit(s, log, index, current, entries::load(entries), areas)
}
