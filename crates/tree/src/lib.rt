// The packed tree of order d over page times (01, "Packed tree"): one key more, the words that it takes, and its
// nodes cleared. A node's place is computed and never stored: `leaf_node` numbers a leaf, `node_word` is the one
// address of a node, and everything else goes from node number to node number.
#![tactic(auto)]

ghost use Rattle.std.specs.Prelude.{◌≡◌, ◌∷◌, [], ◌++◌, ◌+◌, ◌-◌, ◌*◌, ◌%◌, ◌≤◌, ◌<◌, length, drop, get_or};
ghost use Rattle.model.specs.Shape.{cofactor, valuation, padded};
ghost use Rattle.model.specs.Numbering.{leaf_node, node_word};
ghost use Rattle.model.specs.Tree.{nodes_of, index_words};
ghost use Rattle.tree.specs.Places.{most_words, without_nodes_at};
ghost use Rattle.tree.specs.Extents.{place_in, ReachedIn};
ghost use Rattle.tree.specs.Levels.{inners, full_nodes, Room};
ghost use Rattle.tree.specs.Append.{separated, with_leaf, append_of, Needed};

use model::NodeNumber;

// Where the nodes of an index stand: in extents of so many nodes each, from the words listed on, or in one stretch where
// `nodes` is 0.
#[derive(Clone, Copy)]
pub struct Extents<'a> {
    // nodes of an extent, 0 where there are none: a number and no Option, as `place_of` of specs/Places tests it
    pub nodes: u32,
    // the first word of each extent
    pub starts: &'a [u64],
    // the words of the one stretch that the index is seen as
    pub words: usize,
}

impl Extents<'_> {
    pub fn one_stretch(words: usize) -> Extents<'static>
        ensures nodes { result.nodes ≡ 0 }
        ensures words { result.words ≡ words }
    {
        Extents {
            nodes: 0,
            starts: &[],
            words,
        }
    }
}

// Of the separator of leaf m: what q leaves modulo d, and how many nodes a full run of d^v leaves has.
#[derive(Clone, Copy)]
pub struct Stripped {
    pub digit: u32,
    pub full: u32,
}

// ---- numbers of nodes

// The inner nodes that the leaves up to m opened, level by level.
fn inners_up_to(d: u32, m: u32) -> u32
    requires le_d { 2 ≤ d }
    requires d_bound { d ≤ 64 }
    requires m_bound { m ≤ 65536 }
    ensures value { result ≡ inners d m }
    ensures upper_bound { result ≤ m }
{
    let mut sum: u32 = 0;
    let mut left = m;
    // A `while`: it divides and does not count.
    while 0 < left {
        sum += left / d + (left % d).min(1);
        left /= d;
    }
    sum
}

fn leaf_node(d: u32, m: u32) -> NodeNumber
    requires le_d { 2 ≤ d }
    requires d_bound { d ≤ 64 }
    requires m_bound { m ≤ 65536 }
    ensures result_value { result.0 ≡ leaf_node d m }
    ensures result_bound { result.0 ≤ 2 * m }
{
    NodeNumber(m + inners_up_to(d, m))
}

// The words of so many nodes, one after the other.
fn words_of(d: u32, nodes: u32) -> usize
    requires le_d { 2 ≤ d }
    requires d_bound { d ≤ 64 }
    requires nodes_bound { nodes ≤ 131073 }
    ensures value { result ≡ node_word d nodes }
    ensures upper_bound { result ≤ 8257599 }
{
    (nodes * (d - 1)) as usize
}

// The one address of a node: its first word.
pub fn node_word(x: Extents, d: u32, node: NodeNumber) -> usize
    requires le_d { 2 ≤ d }
    requires d_bound { d ≤ 64 }
    requires node_bound { node.0 ≤ 131073 }
    requires reached { ReachedIn d x most_words node.0 }
    ensures value { result ≡ place_in d x.entry node.0 }
    ensures upper_bound { result ≤ most_words }
{
    if x.nodes == 0 {
        return words_of(d, node.0);
    }
    (x.starts[(node.0 / x.nodes) as usize] as usize) + words_of(d, node.0 % x.nodes)
}

// ---- one key more

// m divided by d as often as it goes.
pub fn strip(d: u32, m: u32) -> Stripped
    requires le_d { 2 ≤ d }
    requires d_bound { d ≤ 64 }
    requires m_nonzero { 0 < m }
    requires m_bound { m ≤ 65536 }
    ensures digit_value { result.digit ≡ cofactor d m % d }
    ensures full_value { result.full ≡ full_nodes d (valuation d m) }
{
    let mut left = m;
    let mut full: u32 = 1;
    // A `while`: it divides and does not count.
    while left % d == 0 {
        left /= d;
        full = full * d + 1;
    }
    Stripped {
        digit: left % d,
        full,
    }
}

// A new node of w words at the front of the part: v, and zeros.
fn new_node(part: &mut [u64], w: usize, v: u64)
    requires w_nonzero { 0 < w }
    requires w_in_bounds { w ≤ length part.old }
    ensures { part.new ≡ padded w (v ∷ []) ++ drop w part.old }
{
    part[0] = v;
    codec::clear_words(&mut part[1..w]);
}

// The last key of a leaf that is full.
fn last_key(index: &[u64], x: Extents, d: u32, leaf: NodeNumber) -> u64
    requires le_d { 2 ≤ d }
    requires d_bound { d ≤ 64 }
    requires leaf_bound { leaf.0 ≤ 131073 }
    requires reached { ReachedIn d x (length index.now) leaf.0 }
    ensures { result ≡ get_or index.now (place_in d x.entry leaf.0 + (d - 2)) 0 }
{
    index[node_word(x, d, leaf) + ((d - 2) as usize)]
}

// The last key of leaf m - 1 becomes a separator in a new node, the one before leaf m.
fn open_node(index: &mut [u64], x: Extents, d: u32, m: u32, leaf: NodeNumber)
    requires needed { Needed d (ReachedIn d x (length index.old)) m leaf.0 }
    requires m_nonzero { 0 < m }
    requires d_value { cofactor d m % d ≡ 1 }
    ensures { index.new ≡ separated (place_in d x.entry) d m index.old }
{
    let s = last_key(index, x, d, NodeNumber(leaf.0 - 2));
    let at = node_word(x, d, NodeNumber(leaf.0 - 1));
    new_node(&mut index[at..], (d - 1) as usize, s);
}

// The last key of leaf m - 1 becomes a separator in the next word of the open node of its level.
fn next_separator(
    index: &mut [u64],
    x: Extents,
    d: u32,
    m: u32,
    leaf: NodeNumber,
    digit: u32,
    full: u32,
)
    requires needed { Needed d (ReachedIn d x (length index.old)) m leaf.0 }
    requires m_nonzero { 0 < m }
    requires digit_value { digit ≡ cofactor d m % d }
    requires lt_digit { 1 < digit }
    requires full_value { full ≡ full_nodes d (valuation d m) }
    ensures { index.new ≡ separated (place_in d x.entry) d m index.old }
{
    let s = last_key(index, x, d, NodeNumber(leaf.0 - 1));
    let open = NodeNumber(leaf.0 - 1 - (digit - 1) * full);
    index[node_word(x, d, open) + ((digit - 1) as usize)] = s;
}

// Leaf m is needed: the last key of leaf m - 1, if there is one, becomes a separator.
fn put_separator(index: &mut [u64], x: Extents, d: u32, m: u32, leaf: NodeNumber)
    requires { Needed d (ReachedIn d x (length index.old)) m leaf.0 }
    ensures { index.new ≡ separated (place_in d x.entry) d m index.old }
{
    if m == 0 {
        return;
    }
    let q = strip(d, m);
    if q.digit == 1 {
        open_node(index, x, d, m, leaf);
        return;
    }
    next_separator(index, x, d, m, leaf, q.digit, q.full);
}

// Leaf m is needed for the key.
fn put_leaf(index: &mut [u64], x: Extents, d: u32, m: u32, leaf: NodeNumber, key: u64)
    requires { Needed d (ReachedIn d x (length index.old)) m leaf.0 }
    ensures { index.new ≡ with_leaf (place_in d x.entry) d m key index.old }
{
    put_separator(index, x, d, m, leaf);
    let at = node_word(x, d, leaf);
    new_node(&mut index[at..], (d - 1) as usize, key);
}

// One key more in the index of k keys.
pub fn append(index: &mut [u64], x: Extents, d: usize, k: usize, key: u64)
    requires { Room d (k + 1) (ReachedIn d x (length index.old)) }
    ensures { index.new ≡ append_of (place_in d x.entry) d k key index.old }
{
    let order = d as u32;
    let m = (k as u32) / (order - 1);
    let i = (k as u32) % (order - 1);
    let leaf = leaf_node(order, m);
    if i == 0 {
        put_leaf(index, x, order, m, leaf, key);
        return;
    }
    index[node_word(x, order, leaf) + (i as usize)] = key;
}

// ---- the words of an index

// The nodes that k keys take.
fn nodes_of(d: usize, k: usize) -> u32
    requires le_d { 2 ≤ d }
    requires d_bound { d ≤ 64 }
    requires k_bound { k ≤ 65536 }
    ensures value { result ≡ nodes_of d k }
    ensures upper_bound { result ≤ 131072 }
{
    let order = d as u32;
    let n = ((k as u32) + (order - 2)) / (order - 1);
    if n == 0 {
        return 0;
    }
    leaf_node(order, n - 1).0 + 1
}

// The words that they take in one stretch.
pub fn index_words(d: usize, k: usize) -> usize
    requires le_d { 2 ≤ d }
    requires d_bound { d ≤ 64 }
    requires k_bound { k ≤ 65536 }
    ensures { result ≡ index_words d k }
{
    words_of(d as u32, nodes_of(d, k))
}

// The nodes that k keys take are zeros, and nothing else is written.
pub fn clear_nodes(index: &mut [u64], x: Extents, d: usize, k: usize)
    requires { Room d k (ReachedIn d x (length index.old)) }
    ensures { index.new ≡ without_nodes_at (place_in d x.entry) d (nodes_of d k) index.old }
{
    let order = d as u32;
    for i in 0..nodes_of(d, k) {
        let at = node_word(x, order, NodeNumber(i));
        codec::clear_words(&mut index[at..at + ((order - 1) as usize)]);
    }
}
