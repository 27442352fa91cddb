// Calls of the crate `settings`.
ghost use Rattle.std.specs.Prelude.{◌≡◌};
ghost use Rattle.call_words.specs.Answer.{Answered, write_words};
ghost use Rattle.settings.specs.Settings.{settings_checked, setting_for, appended};
ghost use Rattle.settings_calls.specs.SettingWords.{setting_words};

use crate::answer::setting_words;
use call_words::answer::write_words;
use settings::choice::Choice;

// Checks the settings list in `settings`: records of 32 bytes, which are version, station, bits, probes, four bytes each, read-only, one byte, and 15
// zeros. Answer: 0, how many records it has; or 14 and its first bad record.
#[unsafe(no_mangle)]
pub extern "C" fn bt_check_settings(settings: &[u8], answer: &mut [u64; 4])
    ensures { answer.new ≡ write_words (settings_checked settings.now) }
{
    *answer = write_words(settings::check::check_settings(settings));
}

// Gives the setting of `station` at `version` by the settings list in `settings`: the station's last record not above that version, else the crate's 10
// and 7, not read-only. Answer: 0, bits, probes, read-only (0 or 1); or 14 and the first bad record.
#[unsafe(no_mangle)]
pub extern "C" fn bt_setting_at(settings: &[u8], station: u64, version: u64, answer: &mut [u64; 4])
    ensures { answer.new ≡ setting_words (setting_for settings.now station version) }
{
    *answer = setting_words(settings::find::setting_at(settings, station, version));
}

// Writes the record that goes behind the settings list in `settings` at the start of `out`, 32 bytes: the last version plus 1, `station`, `bits`, `probes`
// and `read_only`. Answer: 0, the bytes written; or 14 and the list's first bad record; 15 and 0 for bits outside 1 to 32, probes outside 1 to 64, a
// read-only that is neither 0 nor 1, a station above four bytes, or where no version is left; 7 and the bytes wanted.
#[unsafe(no_mangle)]
pub extern "C" fn bt_append_setting(
    settings: &[u8],
    station: u64,
    bits: u64,
    probes: u64,
    read_only: u64,
    out: &mut [u8],
    answer: &mut [u64; 4],
)
    ensures { Answered (appended settings.now station (record { bits = bits; probes = probes; read_only = read_only }))
        out.old out.new answer.new }
{
    let choice = Choice {
        bits,
        probes,
        read_only,
    };
    *answer = write_words(settings::append::append_setting(settings, station, choice, out));
}
