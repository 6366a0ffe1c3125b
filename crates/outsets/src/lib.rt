// The outset used for a time (01, "Count files"): the nearest held table at or before it, or the nearest at or after it where
// fewer requests lie between.
#![tactic(auto)]

ghost use Rattle.std.specs.Prelude.{◌+◌, ◌*◌, ◌≤◌, length};
ghost use Rattle.pages.specs.Lent.{IndexedLent, PositionLent};
ghost use Rattle.outsets.specs.Used.{NearestLent};

use model::{Chosen, Held, Position, Side};
use pages::Lent;

// The outset used for a time, and the position of its own time.
#[derive(Clone, Copy)]
pub struct Used {
    pub chosen: Chosen,
    pub at: Position,
}

// The position of a time, where that of t is known.
fn position_of(l: Lent, time: u64, t: u64, here: Position) -> Position
    requires indexed { IndexedLent l }
    requires records_in_bounds { 24 + 24 * l.numbers.records ≤ length l.log.now }
    requires position_is { PositionLent l t here }
    ensures { PositionLent l.entry time result }
{
    if time == t {
        return here;
    }
    pages::position(l, time)
}

// Of two held tables the outset used for t, whose position is `here`: the later one only where strictly fewer requests lie
// between.
#[inline(always)]
pub fn choose(l: Lent, early: Held, late: Held, t: u64, here: Position) -> Used
    requires indexed { IndexedLent l }
    requires records_in_bounds { 24 + 24 * l.numbers.records ≤ length l.log.now }
    requires position_is { PositionLent l t here }
    ensures { NearestLent l.entry early late t result }
{
    let before = position_of(l, early.time, t, here);
    let after = position_of(l, late.time, t, here);
    let back = here.requests.abs_diff(before.requests);
    let ahead = here.requests.abs_diff(after.requests);
    if ahead < back {
        return Used {
            chosen: Chosen {
                outset: late,
                side: Side::Later,
                between: ahead,
            },
            at: after,
        };
    }
    Used {
        chosen: Chosen {
            outset: early,
            side: Side::Earlier,
            between: back,
        },
        at: before,
    }
}
