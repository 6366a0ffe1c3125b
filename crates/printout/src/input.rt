// Standard input.
ghost use Rattle.std.specs.Prelude.{◌≡◌};
ghost use Rattle.printout.specs.declared.Status.TheVariants.{Unread};

use super::Status;
use std::io;
use std::io::{Eprint, Read};

// Reads until the log is full, and leaves what is past that, or the input ends.
pub fn read_log<I: Read>(input: &mut I, log: &mut [u8]) -> io::Result<()> {
    let mut done = 0;
    // A `while`: a read may give less than is asked for.
    while done < log.len() {
        let n = input.read(&mut log[done..])?;
        if n == 0 {
            break;
        }
        done += n;
    }
    Ok(())
}

// Says that a read failed, and answers how the program ends.
pub fn fail<R: Eprint>(rt: &R) -> Status
    ensures { result ≡ Unread }
{
    let _ = rt.eprintln("listing: cannot read standard input");
    Status::Unread
}
