// What a program reads and writes, with nothing lost in silence: a failed read is told from the input's end, a failed write
// from a whole one, and either gets a line on standard error. Serves rule 7.12. No contract can speak of the bytes that the
// system moves. But the two loops stand over any reader and any writer, and where such a one says which bytes it has, the
// contracts say that these are read and written, whole and in order.
#![tactic(auto)]

ghost use Rattle.std.specs.Prelude.{◌≤◌, length, OnOk};
ghost use Rattle.std.specs.Io.KnownBytes.{Appends};
ghost use Rattle.streams.specs.Parts.{ReadsWhole};
ghost use Rattle.streams.specs.Streams.{bytes_read};

use std::io;
use std::io::{ErrorKind, Read, Write};

// Reads into the room, and answers how many bytes, up to the input's end or until the room is full. Or a read failed, and what
// came before it is not the input. A call that a signal interrupts counts as failed.
// Kept: `whole` and rule 7.12 hold this loop; std's `read_to_end` wants a heap, and tries an interrupted call again.
fn read_whole<R: Read>(from: &mut R, room: &mut [u8]) -> io::Result<usize>
    ensures in_the_room { bytes_read result ≤ length room.new }
    ensures whole { ReadsWhole (R.remaining from.old) (R.remaining from.new) room.new result }
{
    let mut done: usize = 0;
    while done < room.len() {
        let more = from.read(&mut room[done..])?;
        if more == 0 {
            return Ok(done);
        }
        done += more;
    }
    Ok(done)
}

// Writes all of the bytes, or stops at the first write that fails or takes nothing. A call that a signal interrupts counts as
// failed.
// Kept: rule 7.12 holds this loop; std's `write_all` tries an interrupted call again.
fn write_whole<W: Write>(to: &mut W, bytes: &[u8]) -> io::Result<()>
    ensures { OnOk result (Appends (W.contents to.old) (W.contents to.new) bytes.now) }
{
    let mut rest = bytes;
    while !rest.is_empty() {
        let taken = to.write(rest)?;
        if taken == 0 {
            return Err(ErrorKind::WriteZero.into());
        }
        rest = &rest[taken..];
    }
    Ok(())
}

// A line on standard error. Where that fails too there is nobody left to tell.
fn complain(rt: &HostRuntime, program: &[u8], what: &[u8]) {
    let _ = write_whole(&mut rt.stderr(), program);
    let _ = write_whole(&mut rt.stderr(), what);
}

// Reads a program's input, and says so on standard error where it cannot be read whole.
pub fn read_input(rt: &HostRuntime, program: &[u8], room: &mut [u8]) -> io::Result<usize>
    ensures { bytes_read result ≤ length room.new }
{
    let input = read_whole(&mut rt.stdin(), room);
    if input.is_err() {
        complain(
            rt,
            program,
            b": standard input could not be read to its end; nothing is answered\n",
        );
    }
    input
}

// Writes a program's output, and says so on standard error where it cannot be written whole.
pub fn write_output(rt: &HostRuntime, program: &[u8], bytes: &[u8]) {
    if write_whole(&mut rt.stdout(), bytes).is_err() {
        complain(
            rt,
            program,
            b": standard output could not be written; answers are missing\n",
        );
    }
}
