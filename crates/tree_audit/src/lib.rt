// Whether an index holds the packed tree over the page times of a log (01, "Packed tree"), word by word: node after node
// in the order of allocation, each word compared with the time of the record it stands for. No key list is made.
#![tactic(auto)]

ghost use Rattle.std.specs.Prelude.{◌≡◌, ◌+◌, ◌-◌, ◌*◌, ◌≤◌, ◌<◌, cond, length, ltb};
ghost use Rattle.codec.specs.Parts.{same};
ghost use Rattle.model.specs.Records.{records};
ghost use Rattle.model.specs.Pages.{page_times};
ghost use Rattle.tree.specs.Places.{with_tree_at};
ghost use Rattle.tree.specs.Extents.{place_in};
ghost use Rattle.tree_audit.specs.Times.{Decides, time_in, TimesAt, Readable};
ghost use Rattle.tree_audit.specs.Stands.{span_of, Auditable, Openable};

use model::NodeNumber;
use tree::Extents;

// The time of record k, or zero from record `stop` on.
fn time_in(b: &[u8], stop: usize, k: usize) -> u64
    requires { 24 * stop ≤ length b.now }
    ensures { result ≡ time_in b.now stop k }
{
    if k < stop {
        return logs::time_at(b, k);
    }
    0
}

// Whether the w words from `at` on are the times of the records first, first + step, .. before `stop`, and zeros behind.
fn holds_times(
    b: &[u8],
    words: &[u64],
    at: usize,
    w: usize,
    first: usize,
    step: usize,
    stop: usize,
) -> bool
    requires { Readable (length b.now) (length words.now) at w first step stop }
    ensures { Decides result (TimesAt b.now first step stop words.now at w) }
{
    for (i, word) in words[at..at + w].iter().enumerate() {
        if *word != time_in(b, stop, first + i * step) {
            return false;
        }
    }
    true
}

// How many leaves further on each separator of the node is that leaf m opens; 0 where it opens none, as `span_of` of specs/Stands
// counts, which `Openable` and the walk below are of.
fn span_of(d: u32, m: u32) -> u32
    requires le_d { (2 ≤ d) × (d ≤ 64) }
    requires m_bound { m ≤ 65536 }
    ensures is { result ≡ span_of d m }
    ensures few { result ≤ m }
{
    if m == 0 {
        return 0;
    }
    let q = tree::strip(d, m);
    if q.digit != 1 {
        return 0;
    }
    q.full - (q.full - 1) / d
}

// Whether the node of w words holds its separators: the last keys before the leaf that opened it and before each leaf
// `span` leaves further on. With no span there is no such node.
fn holds_opened(
    b: &[u8],
    words: &[u64],
    at: usize,
    w: usize,
    page: usize,
    n: usize,
    first: usize,
    span: usize,
) -> bool
    requires { Openable (length b.now) (length words.now) at w page n first span }
    ensures { Decides result (0 < span → TimesAt b.now (first - page) (span * w * page) (n - page) words.now at w) }
{
    if span == 0 {
        return true;
    }
    holds_times(b, words, at, w, first - page, span * w * page, n - page)
}

// The number after that of the node that a leaf opened, if it opened one.
fn past_opened(node: u32, span: usize) -> u32
    requires { node ≤ 131072 }
    ensures { result ≡ cond (ltb 0 span) (node + 1) node }
{
    if 0 < span {
        return node + 1;
    }
    node
}

// Whether the words are those of the packed tree over the page times of the n records b.
pub fn holds_tree(b: &[u8], n: u32, order: u16, page: u16, words: &[u64], x: Extents) -> bool
    requires { Auditable order page n (length b.now) x.nodes x.starts.now (length words.now) }
    ensures { result ≡ same (with_tree_at (place_in order x.entry) order (page_times page (records b.now n)) words.now) words.now }
{
    let w = (order as usize) - 1;
    let size = page as usize;
    let stop = n as usize;
    let mut m: u32 = 0;
    let mut node: u32 = 0;
    let mut first: usize = 0;
    // A `while`: leaf, node and record go on together, each by steps of its own.
    while first < stop {
        let span = span_of(order as u32, m) as usize;
        let at = tree::node_word(x, order as u32, NodeNumber(node));
        if !holds_opened(b, words, at, w, size, stop, first, span) {
            return false;
        }
        let leaf = past_opened(node, span);
        let place = tree::node_word(x, order as u32, NodeNumber(leaf));
        if !holds_times(b, words, place, w, first, size, stop) {
            return false;
        }
        node = leaf + 1;
        first += w * size;
        m += 1;
    }
    true
}
