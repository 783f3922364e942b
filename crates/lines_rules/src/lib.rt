// The rules of message lines. Serves rules 6: specs/Reading.antt and specs/Writing.antt say what is read and
// written, specs/Claims.antt that the two fit each other and how much room is enough; the code is in `lines`.
#![tactic(auto)]

ghost use Rattle.lines_rules.specs.Claims.{WrittenIsRead, ReadIsWritten, LongestLineIsEnough, LongestLineIsNeeded};

// A message that is written is read back as itself.
pub fn written_is_read()
    ensures { WrittenIsRead }
{}

// A line that is read is, byte for byte, what writing its message gives.
pub fn read_is_written()
    ensures { ReadIsWritten }
{}

// Room for the longest line is enough for every message.
pub fn longest_line_is_enough()
    ensures { LongestLineIsEnough }
{}

// One message needs it.
pub fn longest_line_is_needed()
    ensures { LongestLineIsNeeded }
{}
