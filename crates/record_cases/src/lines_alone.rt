// Message lines that are read, and messages that are written, on their own.
use crate::rack::status_of;
use crate::show;
use messages::Message;
use refusals::Refusal;

// A case that is read is at most so long; what is behind that is not read.
const LONGEST_CASE: usize = 64;

// A case that is written has at most so much room.
const MOST_ROOM: usize = 48;

// A line feed of the case is written `$`.
fn unfolded(byte: u8) -> u8 {
    if byte == b'$' { b'\n' } else { byte }
}

// The case is the line without its letter, its tab and its own line feed.
// Kept: a room beside its count: fixed memory, no heap.
fn read_case(line: &[u8]) -> Result<Message, Refusal> {
    let count = line.len().saturating_sub(3).min(LONGEST_CASE);
    let mut bytes = [0; LONGEST_CASE];
    for (byte, given) in bytes.iter_mut().zip(line.iter().skip(2)) {
        *byte = unfolded(*given);
    }
    lines::read_line(&bytes[..count])
}

// A message that was read is written back.
fn write_back(line: &[u8], room: &mut [u8]) -> Result<usize, Refusal> {
    let message = read_case(line)?;
    lines::write_line(message, room)
}

// Kept: a room beside its count: fixed memory, no heap.
pub fn read(rt: &impl Print, line: &[u8]) {
    let mut room = [0; 44];
    let written = write_back(line, &mut room);
    show::line(rt, written, &room);
}

// A tab is shown as ~ and a line feed as $, so that a case stays on one line.
fn shown(byte: u8) -> u8 {
    match byte {
        b'\t' => b'~',
        b'\n' => b'$',
        other => other,
    }
}

// Kept: no plainer, because the numbers and `Message` are no types of this program, so no `From` can stand here.
fn message_of(v: [u64; 7]) -> Message {
    match v[1] {
        0 => Message::LeaseRequest(v[2]),
        1 => Message::LeaseGrant(v[2]),
        2 => Message::Check(v[2]),
        _ => Message::CheckAck(v[2], v[3], status_of(v[4])),
    }
}

fn show_length(rt: &impl Print, written: Result<usize, Refusal>) {
    let _ = match written {
        Ok(count) => print!(rt; "{count} "),
        Err(refusal) => print!(rt; "refused {} ", u32::from(refusal)),
    };
}

// The room is the front of 48 bytes, all of them a point at first; a point that is left was not touched.
pub fn write(rt: &impl Print, v: [u64; 7]) {
    let mut space = [b'.'; MOST_ROOM];
    let room = v[0] as usize;
    if room <= MOST_ROOM {
        let written = lines::write_line(message_of(v), &mut space[..room]);
        show_length(rt, written);
        for byte in &mut space {
            *byte = shown(*byte);
        }
        show::text(rt, &space);
        show::text(rt, b"\n");
    }
}
