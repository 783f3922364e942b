// The recorder's steps as C calls them, a static library over `firmware`, whose promises stand here again. Serves rules 8. The
// header for C is include/recorder.h.
#![tactic(auto)]

ghost use Rattle.std.specs.Prelude.{◌≡◌};
ghost use Rattle.settings.specs.Settings.{settings_of};
ghost use Rattle.recorder_rules.specs.declared.RecorderEvent.TheVariants.{Tick, Grant, Drive};
ghost use Rattle.firmware_rules.specs.Calls.{called};

// Kept: the C interface.
#[unsafe(no_mangle)]
pub extern "C" fn recorder_tick(settings: &[u64; 7], reading: u64, buffer: &mut [u8]) -> u32
    ensures { (result ≡ (called (settings_of settings.now) buffer.old reading Tick).code) × (buffer.new ≡ (called (settings_of settings.now) buffer.old reading Tick).bytes) }
{
    firmware::recorder_tick(settings, reading, buffer)
}

// Kept: the C interface.
#[unsafe(no_mangle)]
pub extern "C" fn recorder_grant(
    settings: &[u64; 7],
    reading: u64,
    observer: u64,
    number: u64,
    buffer: &mut [u8],
) -> u32
    ensures { (result ≡ (called (settings_of settings.now) buffer.old reading (Grant observer number)).code) × (buffer.new ≡ (called (settings_of settings.now) buffer.old reading (Grant observer number)).bytes) }
{
    firmware::recorder_grant(settings, reading, observer, number, buffer)
}

// Kept: the C interface.
#[unsafe(no_mangle)]
pub extern "C" fn recorder_drive(settings: &[u64; 7], reading: u64, buffer: &mut [u8]) -> u32
    ensures { (result ≡ (called (settings_of settings.now) buffer.old reading Drive).code) × (buffer.new ≡ (called (settings_of settings.now) buffer.old reading Drive).bytes) }
{
    firmware::recorder_drive(settings, reading, buffer)
}
