// A refusal as 01's numbers, for programs and for callers in other languages.
#![tactic(auto)]

ghost use Rattle.std.specs.Prelude.{◌≡◌};
ghost use Rattle.answers.specs.Question.{number_of, record_of};

use model::Refusal;

// The number of the question that was answered no, and the record number that comes with it, 0 if there is none.
#[derive(Clone, Copy)]
pub struct Numbered(pub u8, pub u32);

// The numbers of a refusal, 01's table. A function, for `From` would be no plainer: `question` would have to name the type that it takes
// a field of.
#[tactic(auto, unfolding(model::specs::Answers::refusal, model::specs::Promises::refused_number, crate::specs::Question::record_in))]
pub fn number(why: Refusal) -> Numbered
    ensures { (result.0 ≡ number_of why) × (result.1 ≡ record_of why) }
{
    match why {
        Refusal::Header => Numbered(1, 0),
        Refusal::Order => Numbered(2, 0),
        Refusal::PageSize => Numbered(3, 0),
        Refusal::RowLimit => Numbered(4, 0),
        Refusal::Memory => Numbered(5, 0),
        Refusal::TimeNotAbove => Numbered(6, 0),
        Refusal::ArticlePresent => Numbered(7, 0),
        Refusal::ArticleAbsent => Numbered(8, 0),
        Refusal::RowsFull => Numbered(9, 0),
        Refusal::LogFull => Numbered(10, 0),
        Refusal::IndexFull => Numbered(11, 0),
        Refusal::TimeAfterLast => Numbered(12, 0),
        Refusal::OutputShort => Numbered(13, 0),
        Refusal::NotToKeep => Numbered(14, 0),
        Refusal::CatalogueFull => Numbered(15, 0),
        Refusal::NotKept => Numbered(16, 0),
        Refusal::WrongRecord(k) => Numbered(17, k.0),
        Refusal::WrongMark => Numbered(18, 0),
    }
}

// The number of the question alone.
pub fn question(why: Refusal) -> u8
    ensures { result ≡ number_of why }
{
    number(why).0
}
