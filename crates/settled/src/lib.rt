// Determinacy of each public function of the crates below: any two outcomes that its contract allows at the same arguments
// are equal, the result and what was lent as it ends. Each claim is a theorem: a function with an empty body that ensures it.
// Left out are the functions of that same kind in the crates below: they return nothing and are lent nothing.
#![tactic(auto)]

ghost use Rattle.settled.specs.OfSettings.{SettingsSettled};
ghost use Rattle.settled.specs.OfFields.{FieldsSettled};
ghost use Rattle.settled.specs.OfLines.{LinesSettled};
ghost use Rattle.settled.specs.OfRecorder.{RecorderSettled};
ghost use Rattle.settled.specs.OfObserver.{ObserverSettled};
ghost use Rattle.settled.specs.OfLent.{LentSettled};
ghost use Rattle.settled.specs.OfStandby.{StandbySettled};
ghost use Rattle.settled.specs.OfFiles.{FilesSettled};
ghost use Rattle.settled.specs.OfFirmware.{FirmwareSettled};

// The public functions of `settings`, `quorums` and `messages`.
pub fn settings_settled()
    ensures { SettingsSettled }
{}

// The public functions of `fields` and `decimals`.
pub fn fields_settled()
    ensures { FieldsSettled }
{}

// The public functions of `line_room` and `lines`.
pub fn lines_settled()
    ensures { LinesSettled }
{}

// The public functions of `recorder_rules`, `recorder_form`, `recorder_leases` and `recorder`.
pub fn recorder_settled()
    ensures { RecorderSettled }
{}

// The public functions of `observer`.
pub fn observer_settled()
    ensures { ObserverSettled }
{}

// The public functions of `observer_lent`.
pub fn lent_settled()
    ensures { LentSettled }
{}

// The public functions of `standby_rules`, `standby_form` and `standby`.
pub fn standby_settled()
    ensures { StandbySettled }
{}

// The public functions of `step_lines`, `answer_lines`, `session` and `stepfile`.
pub fn files_settled()
    ensures { FilesSettled }
{}

// The public functions of `record_bytes`, and the C calls of `firmware`.
pub fn firmware_settled()
    ensures { FirmwareSettled }
{}
