// Standard output: text is gathered in a buffer, which is written when the next line might not fit, and at the end.
ghost use Rattle.std.specs.Prelude.{◌≡◌, ◌++◌, ◌+◌, ◌≤◌, IfOk, length};
ghost use Rattle.arrayvec.specs.ArrayVec.{array_vec_len};
ghost use Rattle.printout.specs.declared.Status.TheVariants.{Unwritten};

use super::Status;
use arrayvec::ArrayVec;
use std::io;
use std::io::{Eprint, Print};

// The text that is still to be written.
pub type Gathered = ArrayVec<u8, 8192>;

// Writes it.
pub fn write<R: Print>(rt: &R, out: &Gathered) -> io::Result<()> {
    rt.write_all(out.as_slice())
}

// Gathers a text, for which there is space: behind what is gathered.
pub fn gather(out: &mut Gathered, text: &[u8])
    requires { array_vec_len out.old + length text.now ≤ 8192 }
    ensures { out.new.items ≡ out.old.items ++ text.now }
{
    let _fits = out.try_extend_from_slice(text);
}

// Makes space for a line behind it.
pub fn make_room<R: Print>(rt: &R, out: &mut Gathered) -> io::Result<()>
    ensures { IfOk result (λ done. array_vec_len out.new + 65 ≤ 8192) }
{
    if out.remaining_capacity() < lines::LINE {
        write(rt, out)?;
        out.clear();
    }
    Ok(())
}

// Says that a write failed, and answers how the program ends.
pub fn fail<R: Eprint>(rt: &R) -> Status
    ensures { result ≡ Unwritten }
{
    let _ = rt.eprintln("listing: cannot write standard output");
    Status::Unwritten
}
