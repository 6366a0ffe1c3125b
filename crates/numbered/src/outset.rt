// The answer of a view in numbers: the outset used, and the part of a lent region that its rows are.
ghost use Rattle.std.specs.Prelude.{◌≡◌};
ghost use Rattle.numbered.specs.Answers.{place_out, area_out, span_of, view_out};

use super::answer::later_of;
use answers::question;
use model::{OutsetSaid, Place, Refusal};

// The answer of a view: the outset's place (0 empty, 1 an area, 2 the current table), the number of its area, its rows, side
// and the requests between; and the part that its rows are, in bytes of the areas or of the current table.
#[repr(C)]
#[derive(Clone, Copy, Default)]
pub struct YkView {
    pub question: u8,
    pub place: u8,
    pub area: u32,
    pub rows: u32,
    pub later: u8,
    pub between: u32,
    pub start: usize,
    pub length: usize,
}

// A part of a region: its first byte and its length.
#[derive(Clone, Copy)]
pub struct Span {
    pub start: usize,
    pub length: usize,
}

// Neither this nor the next is a `From`: `Place` and the numbers are not this crate's.
#[tactic(auto, unfolding(crate::specs::Answers::place_out))]
fn place_out(place: Place) -> u8
    ensures { result ≡ place_out place }
{
    match place {
        Place::Empty => 0,
        Place::Area(_) => 1,
        Place::Current => 2,
    }
}

#[tactic(auto, unfolding(crate::specs::Answers::area_out))]
fn area_out(place: Place) -> u32
    ensures { result ≡ area_out place }
{
    match place {
        Place::Area(i) => i,
        Place::Empty | Place::Current => 0,
    }
}

// The part that the rows of a held table are, cut where the bytes lent end.
#[tactic(auto, unfolding(crate::specs::Answers::span_of))]
fn span_of(limit: u32, areas: usize, current: usize, place: Place, rows: u32) -> Span
    ensures { result ≡ span_of limit areas current place rows }
{
    let size = 8 * (rows as usize);
    match place {
        Place::Empty => Span {
            start: 0,
            length: 0,
        },
        Place::Area(i) => {
            let start = tables::area_start(limit, i, areas);
            Span {
                start,
                length: size.min(areas - start),
            }
        }
        Place::Current => Span {
            start: 0,
            length: size.min(current),
        },
    }
}

// No `From`: the part is also of the limit and of the lengths lent.
#[tactic(auto, unfolding(crate::specs::Answers::view_out))]
pub fn view_out(
    limit: u32,
    areas: usize,
    current: usize,
    answer: Result<OutsetSaid, Refusal>,
) -> YkView
    ensures { result ≡ view_out limit areas current answer }
{
    match answer {
        Ok(said) => {
            let span = span_of(limit, areas, current, said.place, said.rows);
            YkView {
                question: 0,
                place: place_out(said.place),
                area: area_out(said.place),
                rows: said.rows,
                later: later_of(said.side),
                between: said.between,
                start: span.start,
                length: span.length,
            }
        }
        Err(why) => YkView {
            question: question(why),
            ..YkView::default()
        },
    }
}
