// What a station has at a version.
ghost use Rattle.std.specs.Prelude.{cond, ◌≡◌, ◌+◌, ◌*◌, ◌≤◌, length};
ghost use Rattle.settings.specs.Settings.{setting_size, setting_at, settings_at, counts, choice_of, setting_for};

use crate::check::check_settings;
use crate::choice::{Choice, crate_choice};
use crate::record::{choice_at, station_at, version_at};
use rules::refusal::Refusal;

// The choice of record i where it is one of the station's and not above the version, else the one before it.
fn asked_next(settings: &[u8], i: usize, station: u64, version: u64, before: Choice) -> Choice
    requires { (i + 1) * setting_size ≤ length settings.now }
    ensures { result ≡ cond (counts (setting_at settings.now i) station version) (setting_at settings.now i).choice before }
{
    if station_at(settings, i) != station {
        return before;
    }
    if version < version_at(settings, i) {
        return before;
    }
    choice_at(settings, i)
}

// What the first n records give: the last one that counts stays.
fn choice_of(settings: &[u8], n: usize, station: u64, version: u64) -> Choice
    requires { n * setting_size ≤ length settings.now }
    ensures { result ≡ choice_of (settings_at settings.now 0 n) station version }
{
    let mut choice = crate_choice();
    for i in 0..n {
        choice = asked_next(settings, i, station, version, choice);
    }
    choice
}

// The choice of a station's last record not above a version, or the crate's; of a list that isn't good, the refusal.
pub fn setting_at(settings: &[u8], station: u64, version: u64) -> Result<Choice, Refusal>
    ensures { result ≡ setting_for settings.now station version }
{
    let n = check_settings(settings)?;
    Ok(choice_of(settings, n, station, version))
}
