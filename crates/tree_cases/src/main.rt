// Builds the trees of every order from 2 to 64 over 2,500 keys, key by key, and compares every word with 01's
// rule followed by counting, and the number of keys up to each key, to the time before and to the time after it with
// a plain count. It prints how many were wrong, an order to a line.
#![tactic(auto)]

ghost use Rattle.std.specs.Prelude.{◌+◌, ◌*◌, ◌≤◌, ◌<◌, length};
ghost use Rattle.tree.specs.Levels.{Stretch};

use descent::keys_up_to;
use std::io;
use std::io::Print;
use tree::{Extents, append, index_words};

// The leaf that opened the node of a separator, and the word of that node.
#[derive(Clone, Copy)]
pub struct Place {
    pub host: usize,
    pub slot: usize,
}

// The keys: 1 2 4 5 7 8 .., so that the time after a key may be a key.
fn key(i: usize) -> u64
    requires { i ≤ 65536 }
    ensures result_nonzero { 0 < result }
    ensures upper_bound { result ≤ 200000 }
{
    (i / 2 * 3 + i % 2 + 1) as u64
}

// One more where two words differ.
fn tally(wrong: u64, a: u64, b: u64) -> u64 {
    if a != b && wrong < 1000000 {
        wrong + 1
    } else {
        wrong
    }
}

// The word of a node, or 0 past the end.
fn word(index: &[u64], d: usize, node: usize, i: usize) -> u64
    requires le_d { 2 ≤ d }
    requires d_bound { d ≤ 64 }
    requires node_bound { node ≤ 131072 }
    requires i_bound { i ≤ 65536 }
{
    index.get(node * (d - 1) + i).copied().unwrap_or(0)
}

// How often d divides m.
fn level(d: usize, m: usize) -> usize
    requires le_d { 2 ≤ d }
    requires m_nonzero { 0 < m }
{
    let mut left = m;
    let mut v = 0;
    // A `while`, here and in `opens`: it divides and does not count.
    while left % d == 0 {
        left /= d;
        v += 1;
    }
    v
}

// Whether the separator of leaf m opens a node.
fn opens(d: usize, m: usize) -> bool
    requires le_d { 2 ≤ d }
    requires m_nonzero { 0 < m }
{
    let mut left = m;
    while left % d == 0 {
        left /= d;
    }
    left % d == 1
}

// The number of leaf m: the leaves before it, and the nodes that were opened up to it.
fn number(d: usize, m: usize) -> usize
    requires le_d { 2 ≤ d }
    requires m_bound { m ≤ 65536 }
    ensures lower_bound { m ≤ result }
    ensures upper_bound { result ≤ 131072 }
{
    let mut n = m;
    for j in 1..m + 1 {
        if opens(d, j) {
            n += 1;
        }
    }
    n
}

// Whether the separator of leaf m opened a node of level 1 + v.
fn hosts(d: usize, m: usize, v: usize) -> bool
    requires le_d { 2 ≤ d }
    requires m_nonzero { 0 < m }
{
    level(d, m) == v && opens(d, m)
}

// 1 where the separator of leaf m is on level 1 + v.
fn on_level(d: usize, m: usize, v: usize) -> usize
    requires le_d { 2 ≤ d }
    requires m_nonzero { 0 < m }
    ensures { result ≤ 1 }
{
    usize::from(level(d, m) == v)
}

// Where the separator of leaf m stands: in the last node of its level that was opened, after those since.
fn place_of(d: usize, m: usize) -> Place
    requires le_d { 2 ≤ d }
    requires m_nonzero { 0 < m }
    requires m_bound { m ≤ 65536 }
    ensures host_nonzero { 0 < result.host }
    ensures host_bound { result.host ≤ 65536 }
    ensures slot_bound { result.slot ≤ 65536 }
{
    let v = level(d, m);
    let mut slot = 0;
    for j in (2..m + 1).rev() {
        if hosts(d, j, v) {
            return Place { host: j, slot };
        }
        slot += on_level(d, j, v);
    }
    Place { host: 1, slot }
}

// The wrong words among those of key i: its own, and the separator before it.
fn wrong_key(index: &[u64], d: usize, i: usize, wrong: u64) -> u64
    requires le_d { 2 ≤ d }
    requires d_bound { d ≤ 64 }
    requires i_bound { i ≤ 65536 }
{
    let m = i / (d - 1);
    let at = i % (d - 1);
    let so_far = tally(wrong, word(index, d, number(d, m), at), key(i));
    if at != 0 || m == 0 {
        return so_far;
    }
    let p = place_of(d, m);
    tally(
        so_far,
        word(index, d, number(d, p.host) - 1, p.slot),
        key(i - 1),
    )
}

fn wrong_words(index: &[u64], d: usize, k: usize) -> u64
    requires le_d { 2 ≤ d }
    requires d_bound { d ≤ 64 }
    requires k_bound { k ≤ 65536 }
{
    let mut wrong = 0;
    for i in 0..k {
        wrong = wrong_key(index, d, i, wrong);
    }
    wrong
}

// How many words are v.
fn count_of(index: &[u64], v: u64) -> u64 {
    index.iter().filter(|w| **w == v).count() as u64
}

// How many of the k keys are at most t.
fn count_up_to(k: usize, t: u64) -> u64
    requires { k ≤ 65536 }
    ensures { result ≤ 65536 }
{
    let mut n = 0;
    for i in 0..k {
        if key(i) <= t {
            n += 1;
        }
    }
    n
}

fn wrong_count(index: &[u64], d: usize, k: usize, t: u64, wrong: u64) -> u64
    requires { Stretch d k (length index.now) }
{
    let found = keys_up_to(index, Extents::one_stretch(index.len()), d, k, t);
    tally(wrong, found as u64, count_up_to(k, t))
}

fn wrong_counts(index: &[u64], d: usize, k: usize) -> u64
    requires { Stretch d k (length index.now) }
{
    let mut wrong = 0;
    for i in 0..k {
        let t = key(i);
        wrong = wrong_count(index, d, k, t - 1, wrong);
        wrong = wrong_count(index, d, k, t, wrong);
        wrong = wrong_count(index, d, k, t + 1, wrong);
    }
    wrong
}

fn build(index: &mut [u64], d: usize, k: usize)
    requires { Stretch d k (length index.old) }
{
    let x = Extents::one_stretch(index.len());
    for i in 0..k {
        append(index, x, d, i, key(i));
    }
}

fn print_line<R: Print>(rt: &R, d: u64, wrong: u64) -> io::Result<()> {
    println!(rt; "order {d}: {wrong} wrong")
}

// The words that no key and no separator takes: zeros up to the last node, and past it what was there.
fn wrong_rest(index: &[u64], d: usize, k: usize, words: usize) -> u64
    requires le_d { 2 ≤ d }
    requires d_bound { d ≤ 64 }
    requires k_nonzero { 0 < k }
    requires k_bound { k ≤ 65536 }
    requires words_bound { words ≤ 10000000 }
{
    let used = k + (k - 1) / (d - 1);
    if words < used || index.len() < words {
        return 1;
    }
    let zeros = tally(0, count_of(index, 0), (words - used) as u64);
    tally(
        zeros,
        count_of(index, 7777777),
        (index.len() - words) as u64,
    )
}

fn report<R: Print>(rt: &R, d: usize) -> io::Result<()>
    requires le_d { 2 ≤ d }
    requires d_bound { d ≤ 64 }
{
    let mut index = [7777777u64; 5120];
    let words = index_words(d, 2500);
    if 5120 < words {
        return Ok(());
    }
    build(&mut index, d, 2500);
    let rest = wrong_rest(&index, d, 2500, words);
    let keys = wrong_words(&index, d, 2500);
    let counts = wrong_counts(&index, d, 2500);
    if rest < 1000000 && keys < 1000000 && counts < 1000000 {
        return print_line(rt, d as u64, rest + keys + counts);
    }
    Ok(())
}

fn main(rt: HostRuntime) -> io::Result<()> {
    for d in 2..65 {
        report(&rt, d)?;
    }
    Ok(())
}
