// Executes step files, many in one input: each ends at a `=`, and so do its answers. Serves rules 7. The cases are the file
// stdin, their answers stdout, written by hand or by the twin. A heading is a file of its own: no SETTINGS line, so it gets 9.
#![tactic(auto)]

use stepfile::answer_file;
use streams::read_input;

// The greatest length of an input (rule 7.10), and of the cases too.
const LONGEST_INPUT: usize = 65536;

// Writes to standard output. A write that fails needs no word: what arrives is compared with the file stdout.
fn put(rt: &impl Print, bytes: &[u8]) {
    let _ = rt.write_all(bytes);
}

// Kept: no plainer by `map_or`, because that wants a closure around `out.get(..count)` and the words cut to a slice.
fn answer(rt: &impl Print, file: &[u8], out: &mut [u8]) {
    match answer_file(file, out) {
        Ok(count) => put(rt, out.get(..count).unwrap_or(&[])),
        Err(_) => put(rt, b"room too short\n"),
    }
    put(rt, b"=\n");
}

// A file goes up to its `=`, behind which it has a line feed, or to the input's end.
// Kept: no plainer with `split`, because the line feed behind each `=` would have to be cut from the next file's front.
fn answer_each(rt: &impl Print, input: &[u8], out: &mut [u8]) {
    let mut rest = input;
    while !rest.is_empty() {
        let length = rest.iter().position(|byte| *byte == b'=');
        let count = length.unwrap_or(rest.len());
        answer(rt, &rest[..count], out);
        rest = rest.get(count + 2..).unwrap_or(&[]);
    }
}

// What no input file can be: one of the greatest length, one byte more, and one without room for its answers.
fn answer_ends(rt: &impl Print, out: &mut [u8]) {
    let long: [u8; 65537] = [b'\n'; LONGEST_INPUT + 1];
    answer(rt, &long[..LONGEST_INPUT], out);
    answer(rt, &long, out);
    // Kept: fixed memory, no heap.
    let mut small = [0; 6];
    answer(rt, &long[..1], &mut small);
}

fn run(rt: &impl Print, input: &[u8], out: &mut [u8]) {
    answer_each(rt, input, out);
    answer_ends(rt, out);
}

fn main(rt: HostRuntime) {
    // Kept: rooms beside their counts: fixed memory, no heap.
    let mut room: [u8; 65536] = [0; LONGEST_INPUT];
    // 7 bytes for each byte of the longest input
    let mut out: [u8; 458752] = [0; 7 * LONGEST_INPUT];
    if let Ok(count) = read_input(&rt, b"stepfile_cases", &mut room) {
        run(&rt, &room[..count], &mut out);
    }
}
