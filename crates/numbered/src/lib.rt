// Each call with its answer in numbers: what C and Rust see, since no enum crosses to them. Of the catalogue comes what a call
// needs to know, or its length; `embed` is lent it as a slice of entries. The index is one stretch: no extents, and no starts.
#![tactic(auto)]

ghost use Rattle.std.specs.Prelude.{◌≡◌, List, ℕ, ◌+◌, ◌≤◌, length};
ghost use Rattle.model.specs.declared.Entry.{Entry};
ghost use Rattle.model.specs.Starts.{fresh_of, open_of};
ghost use Rattle.model.specs.Changes.{insert_questions, present_questions, insert_of, delete_of, update_of};
ghost use Rattle.model.specs.Files.{drop_of, drop_marked_of};
ghost use Rattle.model.specs.Audit.{audit_of};
ghost use Rattle.catalogue.specs.declared.Going.TheVariants.{Of, Marked};
ghost use Rattle.catalogue.specs.ByValue.{by_value};
ghost use Rattle.catalogue.specs.Candidates.{used_in, candidates_in};
ghost use Rattle.catalogue.specs.Entries.{place_for, entry_shifted, stays_when, staying_of, entries_closed};
ghost use Rattle.numbered.specs.Answers.{yes_out};
ghost use Rattle.numbered.specs.Lent.{memory_of, cleared, store_lent};
ghost use Rattle.numbered.specs.Crossed.{ExactlyCrossed, AppendCrossed, PositionCrossed, TableCrossed, ViewCrossed, NetChangeCrossed, UnitsCrossed, DifferenceCrossed, KeepCrossed, DropMarkedCrossed, LengthsCrossed};

use answer::{
    Begun, DroppedOut, KeptOut, YkChange, YkDifference, YkDropMarked, YkNetChange, YkPosition,
    YkTable, YkUnits,
};
use catalogue::{Candidates, Catalogue, Staying};
use model::Numbers;
use needed::YkLengths;
use outset::YkView;
use pages::Lent;
use tree::Extents;

pub mod answer; // answer.rt: the answers in numbers
pub mod needed; // needed.rt: the lengths to lend
pub mod outset; // outset.rt: that of a view

pub fn lengths_for(order: u16, page: u16, limit: u32, records: u32, files: u32) -> YkLengths
    ensures { LengthsCrossed result order page limit records files }
{
    lending::lengths_for(order, page, limit, records, files).into()
}

pub fn fresh(
    order: u16,
    page: u16,
    limit: u32,
    log: &mut [u8],
    current: &mut [u8],
    entries: usize,
    areas: usize,
) -> Begun
    ensures few { result.clears ≤ entries }
    ensures kept { (index area : List ℕ) (catalogue : List Entry) → length catalogue ≡ entries → length area ≡ areas
        → ExactlyCrossed result.change (memory_of log.new index current.new (cleared result.clears catalogue) area)
        (fresh_of order page limit (memory_of log.old index current.old catalogue area)) }
{
    opening::fresh(order, page, limit, log, current, entries, areas).into()
}

pub fn open(
    log: &[u8],
    index: &mut [u64],
    current: &mut [u8],
    entries: usize,
    areas: usize,
) -> Begun
    ensures few { result.clears ≤ entries }
    ensures kept { (area : List ℕ) (catalogue : List Entry) → length catalogue ≡ entries → length area ≡ areas
        → ExactlyCrossed result.change (memory_of log.now index.new current.new (cleared result.clears catalogue) area)
        (open_of (memory_of log.now index.old current.old catalogue area)) }
{
    let x = Extents::one_stretch(index.len());
    opening::open(log, index, x, current, entries, areas).into()
}

pub fn insert(
    s: Numbers,
    log: &mut [u8],
    index: &mut [u64],
    current: &mut [u8],
    entries: usize,
    areas: usize,
    t: u64,
    article: u32,
    count: u32,
) -> YkChange
    ensures { (catalogue : List Entry) (area : List ℕ) → length catalogue ≡ entries → length area ≡ areas
        → AppendCrossed 1 result (store_lent s log.old index.old current.old catalogue area) (insert_questions (store_lent s log.old index.old current.old catalogue area) t article)
        (memory_of log.new index.new current.new catalogue area)
        (insert_of (store_lent s log.old index.old current.old catalogue area) t article count) }
{
    let x = Extents::one_stretch(index.len());
    appending::insert(s, log, index, x, current, entries, areas, t, article, count).into()
}

pub fn delete(
    s: Numbers,
    log: &mut [u8],
    index: &mut [u64],
    current: &mut [u8],
    entries: usize,
    areas: usize,
    t: u64,
    article: u32,
) -> YkChange
    ensures { (catalogue : List Entry) (area : List ℕ) → length catalogue ≡ entries → length area ≡ areas
        → AppendCrossed 1 result (store_lent s log.old index.old current.old catalogue area) (present_questions (store_lent s log.old index.old current.old catalogue area) t article 1)
        (memory_of log.new index.new current.new catalogue area)
        (delete_of (store_lent s log.old index.old current.old catalogue area) t article) }
{
    let x = Extents::one_stretch(index.len());
    appending::delete(s, log, index, x, current, entries, areas, t, article).into()
}

pub fn update(
    s: Numbers,
    log: &mut [u8],
    index: &mut [u64],
    current: &mut [u8],
    entries: usize,
    areas: usize,
    t: u64,
    article: u32,
    count: u32,
) -> YkChange
    ensures { (catalogue : List Entry) (area : List ℕ) → length catalogue ≡ entries → length area ≡ areas
        → AppendCrossed 2 result (store_lent s log.old index.old current.old catalogue area) (present_questions (store_lent s log.old index.old current.old catalogue area) t article 2)
        (memory_of log.new index.new current.new catalogue area)
        (update_of (store_lent s log.old index.old current.old catalogue area) t article count) }
{
    let x = Extents::one_stretch(index.len());
    appending::update(s, log, index, x, current, entries, areas, t, article, count).into()
}

pub fn position(
    s: Numbers,
    log: &[u8],
    index: &[u64],
    current: &[u8],
    entries: usize,
    areas: usize,
    t: u64,
) -> YkPosition
    ensures { (catalogue : List Entry) (area : List ℕ) → length catalogue ≡ entries → length area ≡ areas
        → PositionCrossed result (store_lent s log.now index.now current.now catalogue area) t }
{
    let l = Lent::in_one_stretch(s, log, index, current);
    tables::position(l, entries, areas, t).into()
}

pub fn table(
    s: Numbers,
    log: &[u8],
    index: &[u64],
    current: &[u8],
    c: Candidates,
    areas: &[u8],
    t: u64,
    out: &mut [u8],
) -> YkTable
    ensures { (catalogue : List Entry) → c ≡ candidates_in s t catalogue
        → TableCrossed result (store_lent s log.now index.now current.now catalogue areas.now) t
        out.old out.new }
{
    let l = Lent::in_one_stretch(s, log, index, current);
    tables::table(l, c, areas, t, out).into()
}

pub fn view(
    s: Numbers,
    log: &[u8],
    index: &[u64],
    current: &[u8],
    c: Candidates,
    areas: &[u8],
    t: u64,
) -> YkView
    ensures { (catalogue : List Entry) → c ≡ candidates_in s t catalogue
        → ViewCrossed result (store_lent s log.now index.now current.now catalogue areas.now) t }
{
    let l = Lent::in_one_stretch(s, log, index, current);
    outset::view_out(
        s.limit,
        areas.len(),
        current.len(),
        tables::view(l, c, areas, t),
    )
}

pub fn net_change(
    s: Numbers,
    log: &[u8],
    index: &[u64],
    current: &[u8],
    first: Candidates,
    second: Candidates,
    areas: &[u8],
    a: u64,
    b: u64,
    out: &mut [u8],
    work: &mut [u8],
) -> YkNetChange
    ensures { (catalogue : List Entry) → first ≡ candidates_in s a catalogue → second ≡ candidates_in s b catalogue
        → NetChangeCrossed result (store_lent s log.now index.now current.now catalogue areas.now) a b
        out.old work.old out.new work.new }
{
    let l = Lent::in_one_stretch(s, log, index, current);
    comparing::net_change(l, first, second, areas, a, b, out, work).into()
}

pub fn units(
    s: Numbers,
    log: &[u8],
    index: &[u64],
    current: &[u8],
    c: Candidates,
    areas: &[u8],
    t: u64,
) -> YkUnits
    ensures { (catalogue : List Entry) → c ≡ candidates_in s t catalogue
        → UnitsCrossed result (store_lent s log.now index.now current.now catalogue areas.now) t }
{
    let lent = Lent::in_one_stretch(s, log, index, current);
    units::at(lent, c, areas, t).into()
}

pub fn units_between(
    s: Numbers,
    log: &[u8],
    index: &[u64],
    current: &[u8],
    first: Candidates,
    second: Candidates,
    areas: &[u8],
    a: u64,
    b: u64,
) -> YkDifference
    ensures { (catalogue : List Entry) → first ≡ candidates_in s a catalogue → second ≡ candidates_in s b catalogue
        → DifferenceCrossed result (store_lent s log.now index.now current.now catalogue areas.now) a b }
{
    let l = Lent::in_one_stretch(s, log, index, current);
    units::between(l, first, second, areas, a, b).into()
}

pub fn keep(
    s: Numbers,
    log: &[u8],
    index: &[u64],
    current: &[u8],
    c: Candidates,
    at: usize,
    areas: &mut [u8],
    t: u64,
    mark: u32,
) -> KeptOut
    requires { at ≤ s.files }
    ensures low { result.at ≤ result.end }
    ensures high { result.end ≤ c.lent }
    ensures kept { (catalogue : List Entry) → c ≡ candidates_in s t catalogue → at ≡ place_for t (used_in s catalogue)
        → KeepCrossed result.change (store_lent s log.now index.now current.now catalogue areas.old) t mark
        (memory_of log.now index.now current.now (entry_shifted catalogue result.at result.end result.entry) areas.new) }
{
    let l = Lent::in_one_stretch(s, log, index, current);
    filing::keep(l, c, at, areas, t, mark).into()
}

pub fn drop(
    s: Numbers,
    log: &[u8],
    index: &[u64],
    current: &[u8],
    x: Staying,
    areas: &mut [u8],
    t: u64,
) -> DroppedOut<YkChange>
    ensures few { (result.over ≤ 16) × ((result.over ≤ x.lent) × (result.over ≤ s.files)) }
    ensures kept { (catalogue : List Entry) → x ≡ staying_of (Of t) (used_in s catalogue) (length catalogue)
        → ExactlyCrossed result.answer (memory_of log.now index.now current.now (entries_closed (stays_when (Of t)) result.over catalogue) areas.new)
        (drop_of (store_lent s log.now index.now current.now catalogue areas.old) t) }
{
    filing::drop(s, log, index.len(), current, x, areas, t).into()
}

pub fn drop_marked(
    s: Numbers,
    log: &[u8],
    index: &[u64],
    current: &[u8],
    x: Staying,
    areas: &mut [u8],
    mark: u32,
) -> DroppedOut<YkDropMarked>
    requires { x.count ≤ s.files }
    ensures few { (result.over ≤ 16) × ((result.over ≤ x.lent) × (result.over ≤ s.files)) }
    ensures kept { (catalogue : List Entry) → x ≡ staying_of (Marked mark) (used_in s catalogue) (length catalogue)
        → DropMarkedCrossed result.answer (memory_of log.now index.now current.now (entries_closed (stays_when (Marked mark)) result.over catalogue) areas.new)
        (drop_marked_of (store_lent s log.now index.now current.now catalogue areas.old) mark) }
{
    filing::drop_marked(s, log, index.len(), current, x, areas, mark).into()
}

pub fn audit(
    s: Numbers,
    log: &[u8],
    index: &[u64],
    current: &[u8],
    c: Catalogue,
    areas: &[u8],
) -> u8
    ensures { (catalogue : List Entry) → c ≡ by_value catalogue
        → result ≡ yes_out (audit_of (store_lent s log.now index.now current.now catalogue areas.now)) }
{
    let l = Lent::in_one_stretch(s, log, index, current);
    u8::from(auditing::audit(l, c, areas))
}
