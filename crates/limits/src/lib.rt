// The values on either side of each limit that the customer wants proved: one table, one claim about all its rows.
#![tactic(auto)]

ghost use Rattle.limits.specs.Limits.{AsWritten};

pub fn starred_lines_hold()
    ensures { AsWritten }
{}
