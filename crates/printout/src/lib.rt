// What the listing program does (01, "One log by hand"; 02, wish 1): it reads a log from standard input and prints a line for each
// different request time: the time, its page position, E or L for the earlier or later outset, and the rows of its table; and as
// the last line the units of the last table.
#![tactic(auto)]

mod input;
mod output;

ghost use Rattle.std.specs.Prelude.{◌≡◌, ◌+◌, ◌≤◌, IfOk};
ghost use Rattle.arrayvec.specs.ArrayVec.{array_vec_len};
ghost use Rattle.printout.specs.Listings.{LastOf};
ghost use Rattle.printout.specs.Statuses.{code_of};

use catalogue::Candidates;
use model::Numbers;
use output::Gathered;
use pages::Lent;
use reader::LogReader;
use std::io;
use std::io::{Eprint, Input, Print};
use tree::Extents;

// How the program ends: listed, refused by one of 01's questions, or it could not read or not write.
#[derive(Clone, Copy)]
pub enum Status {
    Listed,
    Refused,
    Unread,
    Unwritten,
}

impl From<Status> for u8 {
    ghost from_gives = { λ status code. code ≡ code_of status };

    fn from(status: Status) -> u8 {
        match status {
            Status::Listed => 0,
            Status::Refused => 1,
            Status::Unread => 2,
            Status::Unwritten => 3,
        }
    }
}

// The candidates where no count file is kept and no entry is lent.
fn no_files(s: Numbers) -> Candidates {
    catalogue::none_around(s, 0)
}

// Gathers the line for the time t.
fn list_time<R: Print>(
    rt: &R,
    l: Lent,
    t: u64,
    table: &mut [u8],
    out: &mut Gathered,
) -> io::Result<()> {
    output::make_room(rt, out)?;
    let Ok(position) = tables::position(l, 0, 0, t) else {
        return Ok(());
    };
    let Ok(said) = tables::table(l, no_files(l.numbers), &[], t, table) else {
        return Ok(());
    };
    let mut line = [0u8; lines::LINE];
    let end = lines::put_line(&mut line, 0, t, position.page.0, said.side, said.rows);
    output::gather(out, &line[..end]);
    Ok(())
}

// Gathers the last line.
fn list_units<R: Print>(rt: &R, l: Lent, out: &mut Gathered) -> io::Result<()> {
    output::make_room(rt, out)?;
    if let Ok(total) = units::at(l, no_files(l.numbers), &[], l.numbers.last) {
        let mut line = [0u8; lines::LINE];
        let end = lines::put_units(&mut line, 0, total);
        output::gather(out, &line[..end]);
    }
    Ok(())
}

// A reader goes along the log from the first record, and gathers a line for a record's time, unless it is the time of the record
// before, which is 0 before the first: times are at least 1. Answers the time of the last record.
fn list_records<R: Print>(rt: &R, l: Lent, table: &mut [u8], out: &mut Gathered) -> io::Result<u64>
    ensures { IfOk result (λ time. LastOf l.entry.log.now time) }
{
    let mut time = 0;
    let mut reader = LogReader::new(l.log);
    // A `while`: a `for` ends whatever it goes over, and the edit on_after_the_end would be refused for a missing name alone.
    while let Some(record) = reader.next() {
        if record.time != time {
            list_time(rt, l, record.time, table, out)?;
            time = record.time;
        }
    }
    Ok(time)
}

// A line for each different time among the records, and the units.
fn list<R: Print>(rt: &R, l: Lent, out: &mut Gathered) -> io::Result<()>
    requires { array_vec_len out.old + 65 ≤ 8192 }
{
    let mut table = [0u8; 8192];
    output::gather(out, b"time page outset rows\n");
    let _ = list_records(rt, l, &mut table, out)?;
    list_units(rt, l, out)
}

// Opens the log and lists it, or says which question refuses it. It fails where a write does.
fn print<R: Print>(rt: &R, log: &[u8]) -> io::Result<Status> {
    let mut index = [0u64; 2729];
    let mut current = [0u8; 8192];
    let words = Extents::one_stretch(2729);
    let started = opening::open(log, &mut index, words, &mut current, 0, 0);
    let mut out = Gathered::new();
    let status = match started.verdict {
        Err(why) => {
            let mut line = [0u8; lines::LINE];
            let end = lines::put_refused(&mut line, 0, answers::question(why));
            output::gather(&mut out, &line[..end]);
            Status::Refused
        }
        Ok(()) => {
            let l = Lent::in_one_stretch(started.numbers, log, &index, &current);
            list(rt, l, &mut out)?;
            Status::Listed
        }
    };
    output::write(rt, &out)?;
    Ok(status)
}

fn read_and_print<R: Input + Print + Eprint>(rt: &R) -> Status {
    let mut log = [0u8; 65536];
    if input::read_log(&mut rt.reader(), &mut log).is_err() {
        return input::fail(rt);
    }
    match print(rt, &log) {
        Ok(status) => status,
        Err(_) => output::fail(rt),
    }
}

// The status that the program is to end with.
pub fn yk_list<R: Input + Print + Eprint>(rt: &R) -> u8
    ensures { result ≤ 3 }
{
    read_and_print(rt).into()
}
