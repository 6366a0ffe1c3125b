// The lengths to lend, in numbers.
ghost use Rattle.std.specs.Prelude.{◌≡◌};
ghost use Rattle.numbered.specs.Answers.{lengths_out};

use answers::question;
use lending::Lengths;
use model::Refusal;

// The question answered no, or 0; and the lengths, all 0 where one is.
#[repr(C)]
#[derive(Clone, Copy, Default)]
pub struct YkLengths {
    pub question: u8,
    pub log: usize,
    pub index: usize,
    pub table: usize,
    pub entries: usize,
    pub areas: usize,
    pub output: usize,
    pub workspace: usize,
}

impl From<Result<Lengths, Refusal>> for YkLengths {
    ghost from_gives = { λ x r. r ≡ lengths_out x };

    #[tactic(auto, unfolding(crate::specs::Answers::lengths_out))]
    fn from(x: Result<Lengths, Refusal>) -> YkLengths {
        match x {
            Ok(l) => YkLengths {
                question: 0,
                log: l.log,
                index: l.index,
                table: l.table,
                entries: l.entries,
                areas: l.areas,
                output: l.output,
                workspace: l.workspace,
            },
            Err(why) => YkLengths {
                question: question(why),
                ..YkLengths::default()
            },
        }
    }
}
