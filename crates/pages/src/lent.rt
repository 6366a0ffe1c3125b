// What a store lends. A file of its own, so that specs/ may name the struct: they are imported nowhere in it.
ghost use Rattle.std.specs.Prelude.{length};
ghost use Rattle.tree.specs.Extents.{SeenIn};
ghost use Rattle.tree.specs.OneProof.{Seen-prop};

use model::Numbers;
use tree::Extents;

// What a store lends to be read: its numbers, log, index and current table. Its nodes stand where the extents say, which each
// place that makes one proves.
#[derive(Clone, Copy)]
pub struct Lent<'a> {
    pub numbers: Numbers,
    pub log: &'a [u8],
    pub index: &'a [u64],
    pub extents: Extents<'a>,
    pub current: &'a [u8],
    ghost seen: { SeenIn numbers.order extents (length index.now) } by { Seen-prop numbers.order extents.nodes extents.starts.now extents.words (length index.now) },
}
