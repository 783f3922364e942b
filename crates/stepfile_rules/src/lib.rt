// The rules of step files. Serves rules 7: specs/Lines.antt splits a file into lines, specs/Files.antt gives
// the answers to them, specs/Claims.antt says what these keep; the code is in `stepfile`.
#![tactic(auto)]

ghost use Rattle.stepfile_rules.specs.Claims.{LinesMakeTheFile, RoomIsEnough, OneLineEach};

// Splitting loses nothing.
pub fn lines_make_the_file()
    ensures { LinesMakeTheFile }
{}

// The room that is asked for is enough.
pub fn room_is_enough()
    ensures { RoomIsEnough }
{}

// Each line gets exactly one line, until the run ends.
pub fn one_line_each()
    ensures { OneLineEach }
{}
