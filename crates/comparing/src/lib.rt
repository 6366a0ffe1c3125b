// The net change between two times (01, "Count files"). All of the store is lent to be read alone; both tables are worked
// out into the workspace and then merged.
#![tactic(auto)]

ghost use Rattle.std.specs.Prelude.{◌≡◌, List, ◌*◌, ◌≤◌, length, drop};
ghost use Rattle.codec.specs.LittleEndian.{AreBytes};
ghost use Rattle.codec.specs.Parts.{part};
ghost use Rattle.model.specs.declared.Entry.{Entry};
ghost use Rattle.model.specs.Answers.{outcome_of};
ghost use Rattle.model.specs.Promises.{NetChangePromise};
ghost use Rattle.pages.specs.Lent.{store_lent};
ghost use Rattle.catalogue.specs.Candidates.{candidates_in};
ghost use Rattle.netting.specs.Merge.{Merges};
ghost use Rattle.comparing.specs.Both.{BothReadyLent, BothWorkedLent, Comparable};

use catalogue::Candidates;
use model::Refusal;
use pages::Lent;

// The numbers of rows of two tables.
#[derive(Clone, Copy)]
pub struct Both {
    pub first: u32,
    pub second: u32,
}

// Table a and then table b into the workspace, which is as long as they are.
fn work_out_both(
    l: Lent,
    areas: &[u8],
    first: Candidates,
    second: Candidates,
    a: u64,
    b: u64,
    work: &mut [u8],
) -> Both
    requires { BothReadyLent l a b (length work.old) }
    ensures within { (result.first ≤ l.entry.numbers.limit) × (result.second ≤ l.entry.numbers.limit) }
    ensures worked { BothWorkedLent l.entry areas.now first second a b result work.new }
    ensures bytes { AreBytes (drop 24 l.entry.log.now) }
{
    let (one, other) = work.split_at_mut(8 * (l.numbers.limit as usize));
    let before = tables::work_out(l, areas, first, a, one);
    let after = tables::work_out(l, areas, second, b, other);
    Both {
        first: before.rows,
        second: after.rows,
    }
}

// The net change from the first table of the workspace to the second. Answers the number of its
// entries.
fn merge_both(limit: u32, n: Both, work: &[u8], out: &mut [u8]) -> usize
    requires { Comparable limit n (length work.now) (length out.old) }
    ensures within { 12 * result ≤ length out.old }
    ensures merged { Merges (part 0 (8 * n.first) work.now) (part (8 * limit) (8 * n.second) work.now) result out.new }
{
    let start = 8 * (limit as usize);
    let first = &work[..8 * (n.first as usize)];
    let second = &work[start..start + 8 * (n.second as usize)];
    netting::merge(first, second, out)
}

// The net change from a to b into the first 24 x R bytes of out; the first 16 x R bytes of the
// workspace end holding table a and then table b.
pub fn net_change(
    l: Lent,
    first: Candidates,
    second: Candidates,
    areas: &[u8],
    a: u64,
    b: u64,
    out: &mut [u8],
    work: &mut [u8],
) -> Result<u32, Refusal>
    ensures { (catalogue : List Entry) → first ≡ candidates_in l.entry.numbers a catalogue → second ≡ candidates_in l.entry.numbers b catalogue
        → NetChangePromise (store_lent l.entry catalogue areas.now) a b out.old work.old (outcome_of result) out.new work.new }
{
    tables::ask_sound(l, first.lent, areas.len())?;
    let s = l.numbers;
    let size = 24 * (s.limit as usize);
    let space = 16 * (s.limit as usize);
    if out.len() < size || work.len() < space {
        return Err(Refusal::OutputShort);
    }
    let from = catalogue::answered_time(s.last, a);
    let to = catalogue::answered_time(s.last, b);
    let n = work_out_both(l, areas, first, second, from, to, &mut work[..space]);
    let k = merge_both(s.limit, n, work, &mut out[..size]);
    Ok(k as u32)
}
