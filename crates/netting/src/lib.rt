// Net changes between tables of any length (01, "Count files"): one merge of two ascending tables' rows, and in proofs/ the
// theorems. Nothing here knows the store or its row limit.
//   entry: offset 0, 2 bytes: length 12    offset 2, 2 bytes: kind (2 insertion, 3 deletion)
//          offset 4, 4 bytes: article      offset 8, 4 bytes: count
// On bytes that are no ascending rows the merge still ends and stays within the output.
#![tactic(auto)]

ghost use Rattle.std.specs.Prelude.{◌≡◌, ◌++◌, ◌+◌, ◌*◌, ◌/◌, ◌≤◌, ◌<◌, length};
ghost use Rattle.codec.specs.Parts.{put};
ghost use Rattle.model.specs.NetChange.{change_bytes};
ghost use Rattle.netting.specs.Merge.{change_at, Underway, Head, Passes, Merges};

use model::Record;

// How far a merge has come: the rows passed of either table, and the entries written.
#[derive(Clone, Copy)]
pub struct Way {
    pub left: usize,
    pub right: usize,
    pub entries: usize,
}

// ---- entries

// Entry k of out.
fn put_change(out: &mut [u8], k: usize, kind: u16, article: u32, count: u32)
    requires { 12 * k + 12 ≤ length out.old }
    ensures { out.new ≡ put out.old (12 * k) (change_bytes (record { kind = kind; article = article; count = count })) }
{
    let at = 12 * k;
    codec::put16(out, at, 12);
    codec::put16(out, at + 2, kind);
    codec::put32(out, at + 4, article);
    codec::put32(out, at + 8, count);
}

// Entry k of out, for row i of the rows.
fn put_row(out: &mut [u8], k: usize, kind: u16, rows: &[u8], i: usize)
    requires k_in_bounds { 12 * k + 12 ≤ length out.old }
    requires i_in_bounds { 8 * i + 8 ≤ length rows.now }
    ensures { out.new ≡ put out.old (12 * k) (change_bytes (change_at kind rows.now i)) }
{
    let article = codec::get32(rows, 8 * i);
    let count = codec::get32(rows, 8 * i + 4);
    put_change(out, k, kind, article, count);
}

// ---- the merge, one step

// The article of row i of m, or a number above every article where there are no more rows. (Article 0
// with count 0 is a row, so no row's bytes can stand for none.) An `Option` is no plainer: four arms for
// `pass` where one comparison serves.
fn head(rows: &[u8], i: usize, m: usize) -> u64
    requires i_le_m { i ≤ m }
    requires m_in_bounds { 8 * m ≤ length rows.now }
    ensures { Head rows.now i m result }
{
    if i == m {
        return 4294967296;
    }
    codec::get32(rows, 8 * i) as u64
}

// Entries k and k + 1 of out, for row i of what was and row j of what is, which are of one article and have two
// counts: the deletion comes first.
fn put_recounted(out: &mut [u8], k: usize, was: &[u8], i: usize, is: &[u8], j: usize)
    requires i_in_bounds { 8 * i + 8 ≤ length was.now }
    requires j_in_bounds { 8 * j + 8 ≤ length is.now }
    requires k_in_bounds { 12 * k + 24 ≤ length out.old }
    ensures { out.new ≡ put out.old (12 * k)
        (change_bytes (change_at 3 was.now i) ++ change_bytes (change_at 2 is.now j)) }
{
    let next = k + 1;
    put_row(out, k, Record::DELETION, was, i);
    put_row(out, next, Record::INSERTION, is, j);
}

// The first rows not yet passed, of the m rows of a and the n rows of b: that of the smaller article is
// passed, or both where they have one article. The row of a goes, that of b comes.
fn pass(a: &[u8], m: usize, b: &[u8], n: usize, out: &mut [u8], at: Way) -> Way
    requires { Underway (length a.now) at.left m (length b.now) at.right n (length out.old) at.entries }
    ensures within { (result.left ≤ m) × ((result.right ≤ n) × ((at.left + at.right < result.left + result.right) × (result.entries ≤ result.left + result.right))) }
    ensures passes { Passes a.now b.now m n at.left at.right at.entries out.old result.left result.right result.entries out.new }
{
    let x = head(a, at.left, m);
    let y = head(b, at.right, n);
    if x < y {
        put_row(out, at.entries, Record::DELETION, a, at.left);
        return Way {
            left: at.left + 1,
            entries: at.entries + 1,
            ..at
        };
    }
    if y < x {
        put_row(out, at.entries, Record::INSERTION, b, at.right);
        return Way {
            right: at.right + 1,
            entries: at.entries + 1,
            ..at
        };
    }
    if codec::get32(a, 8 * at.left + 4) == codec::get32(b, 8 * at.right + 4) {
        return Way {
            left: at.left + 1,
            right: at.right + 1,
            ..at
        };
    }
    put_recounted(out, at.entries, a, at.left, b, at.right);
    Way {
        left: at.left + 1,
        right: at.right + 1,
        entries: at.entries + 2,
    }
}

// ---- the merge

// The net change from the rows a to the rows b into out, zeros behind its entries. Answers the
// number of entries.
pub fn merge(a: &[u8], b: &[u8], out: &mut [u8]) -> usize
    requires { 12 * (length a.now / 8 + length b.now / 8) ≤ length out.old }
    ensures within { 12 * result ≤ length out.old }
    ensures merged { Merges a.now b.now result out.new }
{
    let m = a.len() / 8;
    let n = b.len() / 8;
    let mut way = Way {
        left: 0,
        right: 0,
        entries: 0,
    };
    // A `while`: a step passes a row of either table or of both.
    while way.left + way.right < m + n {
        way = pass(a, m, b, n, out, way);
    }
    codec::fill_zero(&mut out[12 * way.entries..]);
    way.entries
}
