// rackrun: a step file on standard input, its answers on standard output. Serves rules 7.10 to 7.12. All of it is the
// libraries'; here the input is read, to its end or to one byte past the limit, and the answers are written.
#![tactic(auto)]

ghost use Rattle.std.specs.Prelude.{◌≡◌, length};

use stepfile::answer_file;
use streams::{read_input, write_output};

// The greatest length of an input (rule 7.10).
const LONGEST_INPUT: usize = 65536;

// Answers the input by way of the room, which is enough for every input that can be read.
#[tactic(auto, using(stepfile_rules::proofs::Files::in_room))]
fn run(rt: &HostRuntime, input: &[u8], out: &mut [u8]) {
    if let Ok(count) = answer_file(input, out) {
        write_output(rt, b"rackrun", &out[..count]);
    }
}

// Room for an input of the greatest length and one byte more, so that a longer one is seen to be too long.
fn input_room() -> [u8; LONGEST_INPUT + 1]
    ensures { 65537 ≡ length result }
{
    [0; LONGEST_INPUT + 1]
}

// 7 bytes for each byte of the longest input.
fn answer_room() -> [u8; 7 * LONGEST_INPUT]
    ensures { 458752 ≡ length result }
{
    [0; 7 * LONGEST_INPUT]
}

// Kept: rooms beside their counts: fixed memory, no heap.
fn main(rt: HostRuntime) {
    let mut room = input_room();
    let mut out = answer_room();
    if let Ok(count) = read_input(&rt, b"rackrun", &mut room) {
        run(&rt, &room[..count], &mut out);
    }
}
