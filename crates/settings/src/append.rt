// A new record behind a list.
ghost use Rattle.std.specs.Prelude.{◌≡◌, ◌*◌, ◌≤◌, length};
ghost use Rattle.rules.specs.Output.{Output, Written};
ghost use Rattle.settings.specs.Settings.{setting_size, setting_bytes, version_before, appendable, setting_after, appended};

use crate::check::check_settings;
use crate::choice::{Choice, allowed};
use crate::record::{SETTING_SIZE, setting_bytes, version_at};
use rules::put::copy_into;
use rules::refusal::Refusal;

// The most that four bytes are: the last version, and the last station.
pub const MOST_NUMBER: u64 = 4_294_967_295;

// The version of the last of n records, or 0.
fn newest_version(settings: &[u8], n: usize) -> u64
    requires { n * setting_size ≤ length settings.now }
    ensures { result ≡ version_before settings.now n }
{
    if n == 0 {
        return 0;
    }
    version_at(settings, n - 1)
}

// Whether a station's choice may follow a version: an allowed one, of a station that four bytes can name, while a version is left.
fn appendable(newest: u64, station: u64, choice: Choice) -> bool
    ensures { result ≡ appendable newest station choice }
{
    if !allowed(choice) {
        return false;
    }
    if MOST_NUMBER < station {
        return false;
    }
    newest < MOST_NUMBER
}

// Writes the record of a setting at the buffer's start.
fn write_setting(
    version: u64,
    station: u64,
    choice: Choice,
    out: &mut [u8],
) -> Result<usize, Refusal>
    requires { choice.read_only ≤ 1 }
    ensures { Written (Output.bytes (setting_bytes (record { version = version; station = station; choice = choice })))
        out.old out.new result }
{
    if out.len() < SETTING_SIZE {
        return Err(Refusal::NoRoom(SETTING_SIZE));
    }
    let bytes = setting_bytes(version, station, choice);
    copy_into(out, 0, &bytes);
    Ok(SETTING_SIZE)
}

// Writes the record that goes behind a list of this newest version.
fn append_after(newest: u64, station: u64, choice: Choice, out: &mut [u8]) -> Result<usize, Refusal>
    ensures { Written (setting_after newest station choice) out.old out.new result }
{
    if !appendable(newest, station, choice) {
        return Err(Refusal::BadSetting);
    }
    write_setting(newest + 1, station, choice, out)
}

// Writes the record that goes behind the list, with the last version plus 1.
pub fn append_setting(
    settings: &[u8],
    station: u64,
    choice: Choice,
    out: &mut [u8],
) -> Result<usize, Refusal>
    ensures { Written (appended settings.now station choice) out.old out.new result }
{
    let n = check_settings(settings)?;
    append_after(newest_version(settings, n), station, choice, out)
}
