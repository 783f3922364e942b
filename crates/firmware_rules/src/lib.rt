// The rules of the C calls. Serves rules 8: specs/Bytes.antt lays a record out in 680 bytes, specs/Calls.antt says
// what a call returns and leaves, specs/Claims.antt that record and bytes are the same thing; the code is in `firmware`.
#![tactic(auto)]

ghost use Rattle.firmware_rules.specs.Claims.{BytesComeBack, RecordComesBack};

// Encoding what was decoded gives the bytes back.
pub fn bytes_come_back()
    ensures { BytesComeBack }
{}

// Decoding what was encoded gives the record back.
pub fn record_comes_back()
    ensures { RecordComesBack }
{}
