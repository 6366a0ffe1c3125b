// How long each lent region must be for a maker's settings, records and count files (01, "The questions, in order": "Lengths are
// the least that suffice"). What the lengths are worth stands in specs/Enough.
#![tactic(auto)]

ghost use Rattle.std.specs.Prelude.{◌≡◌, ◌≤◌};
ghost use Rattle.model.specs.Settings.{SettingsFit};
ghost use Rattle.model.specs.Answers.{outcome_of};
ghost use Rattle.lending.specs.Lengths.{lengths_for, lengths_of};

use model::{Numbers, Refusal, Settings};

// Lengths in the unit of each region: bytes, but words of the index and entries of the catalogue.
#[derive(Clone, Copy)]
pub struct Lengths {
    pub log: usize,
    pub index: usize,
    pub table: usize,
    pub entries: usize,
    pub areas: usize,
    // of a net change; a table's output needs a third of it
    pub output: usize,
    pub workspace: usize,
}

// The lengths for numbers that are within their limits.
fn lengths_in_range(s: Settings, records: u32, files: u32) -> Lengths
    requires settings_fit { SettingsFit s.order s.page s.limit }
    requires records_bound { records ≤ 65536 }
    requires files_bound { files ≤ 16 }
    ensures { result ≡ lengths_for s.order s.page s.limit records files }
{
    let rows = s.limit as usize;
    let entries = files as usize;
    let log = 24 + 24 * (records as usize);
    let index = pages::index_need(s.order, s.page, records);
    let table = 8 * rows;
    let areas = 8 * rows * entries;
    let output = 24 * rows;
    let workspace = 16 * rows;
    Lengths {
        log,
        index,
        table,
        entries,
        areas,
        output,
        workspace,
    }
}

// What to lend for a store of these settings that is to hold so many records and count files.
pub fn lengths_for(
    order: u16,
    page: u16,
    limit: u32,
    records: u32,
    files: u32,
) -> Result<Lengths, Refusal>
    ensures { outcome_of result ≡ lengths_of order page limit records files }
{
    let s = Settings::checked(order, page, limit)?;
    if Numbers::RECORDS_MAX < records {
        return Err(Refusal::Memory);
    }
    if Numbers::FILES_MAX < files as usize {
        return Err(Refusal::CatalogueFull);
    }
    Ok(lengths_in_range(s, records, files))
}
