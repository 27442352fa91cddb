// The exported calls of the crate `settings_calls`.
ghost use Rattle.std.specs.Prelude.{◌≡◌};
ghost use Rattle.call_words.specs.Answer.{Answered, write_words};
ghost use Rattle.settings.specs.Settings.{settings_checked, setting_for, appended};
ghost use Rattle.settings_calls.specs.SettingWords.{setting_words};

#[unsafe(no_mangle)]
pub extern "C" fn bt_check_settings(settings: &[u8], answer: &mut [u64; 4])
    ensures { answer.new ≡ write_words (settings_checked settings.now) }
{
    settings_calls::calls::bt_check_settings(settings, answer)
}

#[unsafe(no_mangle)]
pub extern "C" fn bt_setting_at(settings: &[u8], station: u64, version: u64, answer: &mut [u64; 4])
    ensures { answer.new ≡ setting_words (setting_for settings.now station version) }
{
    settings_calls::calls::bt_setting_at(settings, station, version, answer)
}

#[unsafe(no_mangle)]
pub extern "C" fn bt_append_setting(
    settings: &[u8],
    station: u64,
    bits: u64,
    probes: u64,
    read_only: u64,
    out: &mut [u8],
    answer: &mut [u64; 4],
)
    ensures { Answered (appended settings.now station (record { bits = bits; probes = probes; read_only = read_only }))
        out.old out.new answer.new }
{
    settings_calls::calls::bt_append_setting(
        settings, station, bits, probes, read_only, out, answer,
    )
}
