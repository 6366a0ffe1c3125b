// The search in the packed tree (01, "Packed tree"): how many keys are at most a time, found by a recursive descent from
// node number to node number, the remaining level falling at each call.
#![tactic(auto)]

ghost use Rattle.std.specs.Prelude.{◌≡◌, ◌+◌, ◌-◌, ◌*◌, ◌/◌, ◌≤◌, ◌<◌, ◌^◌, length};
ghost use Rattle.tree.specs.Extents.{place_in, ReachedIn};
ghost use Rattle.tree.specs.Levels.{inners_over, Room};
ghost use Rattle.descent.specs.Ranges.{Bracket, Cut};
ghost use Rattle.descent.specs.Descent.{Leaf, Node, Down, Found, Counted, child_node};

use model::NodeNumber;
use tree::Extents;

// A level that is wide enough for all leaves, the leaves below each word there, and the inner nodes over a full run.
#[derive(Clone, Copy)]
pub struct Top {
    pub level: u32,
    pub unit: u32,
    pub under: u32,
}

// One rung of the search: k words more are passed where there are so many and the last of them is at most t.
fn rung(words: &[u64], low: usize, k: usize, t: u64) -> usize
    requires k_nonzero { (0 < k) × (k ≤ 32) }
    requires bracket { Bracket words.now t low (2 * k - 1) }
    ensures { Bracket words.now t result (k - 1) }
{
    // Two tests: joined by `&&` the second becomes a jump, slower by 9 and 5 in 100 at orders 4 and 32, faster by 10 at 17.
    if words.len() < low + k {
        return low;
    }
    if words[low + k - 1] <= t {
        return low + k;
    }
    low
}

// How many of the c words from `at` on are at most t. The rungs are written out one by one: in a row the
// compiler makes conditional moves of their comparisons.
fn cut(index: &[u64], at: usize, c: usize, t: u64) -> usize
    requires c_in_bounds { at + c ≤ length index.now }
    requires c_bound { c ≤ 63 }
    ensures { Cut index.now at c t result }
{
    let words = &index[at..at + c];
    let l32 = rung(words, 0, 32, t);
    let l16 = rung(words, l32, 16, t);
    let l8 = rung(words, l16, 8, t);
    let l4 = rung(words, l8, 4, t);
    let l2 = rung(words, l4, 2, t);
    rung(words, l2, 1, t)
}

// Of leaf a, whose number is first: the keys before it, and those of its own that are at most t.
fn in_leaf(index: &[u64], x: &Extents, d: u32, k: u32, first: NodeNumber, a: u32, t: u64) -> u32
    requires { Leaf d k (ReachedIn d x.now (length index.now)) first.0 a }
    ensures { Found (place_in d x.now) index.now d k t a 1 result }
{
    let before = a * (d - 1);
    let used = (d - 1).min(k - before);
    let at = tree::node_word(*x, d, first);
    let j = cut(index, at, used as usize, t);
    before + (j as u32)
}

// The words that a node over r leaves uses, u leaves below each: by the shape, never by what they hold. Most
// nodes stand over single leaves or are full, and need no division.
fn words_used(d: u32, u: u32, r: u32) -> u32
    requires le_d { (2 ≤ d) × (d ≤ 64) }
    requires u_nonzero { 0 < u }
    requires u_lt_r { (u < r) × (r ≤ 65536) }
    ensures { result ≡ (r - 1) / u }
{
    if u == 1 {
        return r - 1;
    }
    if r == u * d {
        return d - 1;
    }
    (r - 1) / u
}

// Of the node over r leaves from the one with the number first on: how many separators are at most t. Where the
// right edge skips the level there is no node, and none.
fn in_node(
    index: &[u64],
    x: &Extents,
    d: u32,
    u: u32,
    under: u32,
    first: NodeNumber,
    r: u32,
    t: u64,
) -> u32
    requires { Node d (ReachedIn d x.now (length index.now)) u under first.0 r }
    ensures { Cut index.now (place_in d x.now (first.0 + under)) ((r - 1) / u) t result }
{
    if r <= u {
        return 0;
    }
    let c = words_used(d, u, r);
    let at = tree::node_word(*x, d, NodeNumber(first.0 + under));
    cut(index, at, c as usize, t) as u32
}

// The number of the first leaf below child j: the node itself is numbered after all of child 0.
fn child_node(first: NodeNumber, under: u32, j: u32) -> NodeNumber
    requires { first.0 + j * under + 1 < 4294967296 }
    ensures { result.0 ≡ child_node first.0 under j }
{
    NodeNumber(first.0 + j * under + j.min(1))
}

// The leaves below each word one level down, 0 for a leaf's keys: at the lowest levels without a division.
fn unit_below(d: u32, level: u32, u: u32) -> u32
    requires le_d { 2 ≤ d }
    requires level_nonzero { 0 < level }
    requires u_value { u ≡ d ^ level / d }
    ensures { result ≡ u / d }
{
    if level <= 2 {
        return level - 1;
    }
    u / d
}

// The number of the k keys that are at most t, found from the top of the leaves a to a + r - 1 down. It takes the
// index and the extents by reference: the compiler then makes a loop of the calls.
fn descend(
    index: &&[u64],
    x: &Extents,
    d: u32,
    k: u32,
    level: u32,
    u: u32,
    under: u32,
    first: NodeNumber,
    a: u32,
    r: u32,
    t: u64,
) -> u32
    requires { Down d k (ReachedIn d x.now (length index.now.now)) level u under first.0 a r }
    ensures { Found (place_in d x.now) index.now.now d k t a r result }
{
    if level == 0 {
        return in_leaf(*index, x, d, k, first, a, t);
    }
    let j = in_node(*index, x, d, u, under, first, r, t);
    let child = child_node(first, under, j);
    let past = j * u;
    let left = u.min(r - past);
    let next = unit_below(d, level, u);
    descend(
        index,
        x,
        d,
        k,
        level - 1,
        next,
        under - u,
        child,
        a + past,
        left,
        t,
    )
}

// A level that is wide enough for n leaves.
fn top_of(d: u32, n: u32) -> Top
    requires le_d { 2 ≤ d }
    requires d_bound { d ≤ 64 }
    requires n_bound { n ≤ 65536 }
    ensures unit_value { result.unit ≡ d ^ result.level / d }
    ensures under_value { result.under ≡ inners_over d result.level }
    ensures n_bound_2 { n ≤ d ^ result.level }
{
    let mut level: u32 = 0;
    let mut unit: u32 = 0;
    let mut width: u32 = 1;
    let mut under: u32 = 0;
    // A `while`: it multiplies and does not count.
    while width < n {
        under += width;
        unit = width;
        width *= d;
        level += 1;
    }
    Top { level, unit, under }
}

// How many of the k keys are at most t.
pub fn keys_up_to(index: &[u64], x: Extents, d: usize, k: usize, t: u64) -> u32
    requires { Room d k (ReachedIn d x (length index.now)) }
    ensures { Counted (place_in d x.entry) index.now d k t result }
{
    if k == 0 {
        return 0;
    }
    let order = d as u32;
    let n = ((k as u32) + (order - 2)) / (order - 1);
    let top = top_of(order, n);
    descend(
        &index,
        &x,
        order,
        k as u32,
        top.level,
        top.unit,
        top.under,
        NodeNumber(0),
        0,
        n,
        t,
    )
}
