// Keep and drop a count file (01, "Count files", "The questions, in order"), and drop by mark (02, wish 3). What they need to know
// of the catalogue comes by value, and they answer what is to be done to its entries; the areas are written where they lie. A
// refused call gives the numbers back as they were, and nothing is to be done.
#![tactic(auto)]

ghost use Rattle.std.specs.Prelude.{◌≡◌, List, ℕ, ◌+◌, ◌*◌, ◌≤◌, ◌<◌, length, Ok, Err};
ghost use Rattle.model.specs.declared.Entry.{Entry};
ghost use Rattle.model.specs.Answers.{outcome_of};
ghost use Rattle.model.specs.Files.{with_count, file_of, drop_of, drop_marked_of};
ghost use Rattle.model.specs.Memory.{no_entry};
ghost use Rattle.model.specs.Promises.{store_of};
ghost use Rattle.pages.specs.Lent.{stretch_lent, store_lent};
ghost use Rattle.catalogue.specs.declared.Going.TheVariants.{Of, Marked};
ghost use Rattle.catalogue.specs.Candidates.{used_in, candidates_in};
ghost use Rattle.catalogue.specs.Entries.{place_for, entry_put};
ghost use Rattle.tables.specs.Ways.{ReadyLent};
ghost use Rattle.filing.specs.Filing.{KeepAsked, Keepable, Keeps, KeptFile, LetGo, Drops};

use catalogue::{Candidates, Staying};
use model::{Entry, Numbers, Refusal};
use pages::Lent;

// The numbers then, whether the call was accepted, and the entry that goes to place `at`, those from there up to `end` going up. They
// stand beside the verdict, since who is lent the entries does the same of a refusal: from 0 to 0 nothing goes up.
#[derive(Clone, Copy)]
pub struct Kept {
    pub numbers: Numbers,
    pub verdict: Result<(), Refusal>,
    pub entry: Entry,
    pub at: usize,
    pub end: usize,
}

// The numbers then, what is answered, for a drop by mark how many files went, and over how many entries those that stay are
// closed up.
#[derive(Clone, Copy)]
pub struct Dropped<T> {
    pub numbers: Numbers,
    pub answer: Result<T, Refusal>,
    pub over: usize,
}

// The numbers with another count of files.
fn counted(s: Numbers, files: u32) -> Numbers
    ensures { result ≡ with_count s files }
{
    Numbers { files, ..s }
}

// ---- keep

// Refused: no place is an entry's.
fn not_kept(s: Numbers, why: Refusal) -> Kept
    ensures { result ≡ record { numbers = s; verdict = Err why; entry = no_entry; at = 0; end = 0 } }
{
    Kept {
        numbers: s,
        verdict: Err(why),
        entry: catalogue::no_entry(),
        at: 0,
        end: 0,
    }
}

// The questions of a keep, where so many bytes of areas are lent.
fn ask_keep(l: Lent, c: Candidates, areas: usize, t: u64, mark: u32) -> Result<(), Refusal>
    ensures asked { (area : List ℕ) → length area ≡ areas → KeepAsked l.entry c area t mark result }
    ensures keepable { result ≡ Ok tt → Keepable l.entry c areas t }
{
    let s = l.numbers;
    tables::ask_sound(l, c.lent, areas)?;
    if s.last < t {
        return Err(Refusal::TimeAfterLast);
    }
    if !catalogue::is_mark(mark) {
        return Err(Refusal::WrongMark);
    }
    // kept already: the nearest count file at or before t is of t itself
    if t == 0 || c.early.time == t {
        return Err(Refusal::NotToKeep);
    }
    if s.files as usize >= catalogue::capacity(s.limit, c.lent, areas) {
        return Err(Refusal::CatalogueFull);
    }
    Ok(())
}

// The file of time t, which no question forbids, to place `at`: its area, and the rows that are answered. Its
// table is worked out first: the outset may lie in an area that is about to move.
fn keep_file(l: Lent, c: Candidates, at: usize, areas: &mut [u8], t: u64) -> u32
    requires ready { ReadyLent l t (8 * l.numbers.limit) }
    requires files_bound { (l.numbers.files < 16) × (at ≤ l.numbers.files) }
    requires files_in_bounds { 8 * l.numbers.limit * (l.numbers.files + 1) ≤ length areas.old }
    ensures { (catalogue : List Entry) (mark : ℕ) → c ≡ candidates_in l.entry.numbers t catalogue → at ≡ place_for t (used_in l.entry.numbers catalogue)
        → l.entry.numbers.files < length catalogue
        → KeptFile (store_lent l.entry catalogue areas.old) t mark
        (store_of (with_count l.entry.numbers (l.entry.numbers.files + 1)) l.entry.log.now (stretch_lent l.entry) l.entry.current.now
        (entry_put catalogue l.entry.numbers.files at (file_of t result mark areas.new).entry) areas.new) }
{
    let s = l.numbers;
    let size = 8 * (s.limit as usize);
    let mut scratch = [0u8; 8192];
    let w = tables::work_out(l, areas, c, t, &mut scratch[..size]);
    areas::put_area(areas, s.limit, s.files as usize, at, &scratch[..size]);
    w.rows
}

// Keeps the table of t as a count file with a mark; c are the candidates for t, and `at` is the place where a file of t goes.
pub fn keep(l: Lent, c: Candidates, at: usize, areas: &mut [u8], t: u64, mark: u32) -> Kept
    requires { at ≤ l.numbers.files }
    ensures { Keeps l.entry.numbers l.entry.log.now (stretch_lent l.entry) l.entry.current.now c at areas.old t mark
        result areas.new }
{
    let s = l.numbers;
    if let Err(why) = ask_keep(l, c, areas.len(), t, mark) {
        return not_kept(s, why);
    }
    let rows = keep_file(l, c, at, areas, t);
    Kept {
        numbers: counted(s, s.files + 1),
        verdict: Ok(()),
        entry: Entry {
            time: t,
            rows,
            mark,
        },
        at,
        end: s.files as usize + 1,
    }
}

// ---- drop

// Refused: nothing is closed up.
fn not_dropped<T>(s: Numbers, why: Refusal) -> Dropped<T>
    ensures { result ≡ record { numbers = s; answer = Err why; over = 0 } }
{
    Dropped {
        numbers: s,
        answer: Err(why),
        over: 0,
    }
}

// The areas of the files that stay are closed up, and zero where they are set free. Answers the numbers then.
fn let_go(s: Numbers, x: Staying, areas: &mut [u8]) -> Numbers
    requires limit_bound { (s.limit ≤ 1024) × (s.files ≤ 16) }
    requires files_in_bounds { 8 * s.limit * s.files ≤ length areas.old }
    ensures { LetGo s x areas.old result areas.new }
{
    areas::close_areas(areas, s.limit, s.files as usize, x);
    counted(s, x.count)
}

// Drops the count file of time t; x says which files stay. It looks at no node: of the index it is told how many words it has.
pub fn drop(
    s: Numbers,
    log: &[u8],
    words: usize,
    current: &[u8],
    x: Staying,
    areas: &mut [u8],
    t: u64,
) -> Dropped<()>
    ensures { (index : List ℕ) → length index ≡ words → Drops (Of t) s log.now index current.now x areas.old
        (outcome_of result.answer) result.numbers result.over areas.new (λ st. drop_of st t) }
{
    if !limits::is_sound(s, log, words, current.len(), x.lent, areas.len()) {
        return not_dropped(s, Refusal::Header);
    }
    if x.count >= s.files {
        return not_dropped(s, Refusal::NotKept);
    }
    Dropped {
        numbers: let_go(s, x, areas),
        answer: Ok(()),
        over: s.files as usize,
    }
}

// Drops the count files of a mark; x says which files stay.
pub fn drop_marked(
    s: Numbers,
    log: &[u8],
    words: usize,
    current: &[u8],
    x: Staying,
    areas: &mut [u8],
    mark: u32,
) -> Dropped<u32>
    requires { x.count ≤ s.files }
    ensures { (index : List ℕ) → length index ≡ words → Drops (Marked mark) s log.now index current.now x areas.old
        (outcome_of result.answer) result.numbers result.over areas.new (λ st. drop_marked_of st mark) }
{
    if !limits::is_sound(s, log, words, current.len(), x.lent, areas.len()) {
        return not_dropped(s, Refusal::Header);
    }
    if !catalogue::goes(mark) {
        return not_dropped(s, Refusal::WrongMark);
    }
    let stay = x.count;
    let gone = s.files - stay;
    Dropped {
        numbers: let_go(s, x, areas),
        answer: Ok(gone),
        over: s.files as usize,
    }
}
