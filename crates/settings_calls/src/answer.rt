// An answer as words.
ghost use Rattle.std.specs.Prelude.{◌≡◌};
ghost use Rattle.settings_calls.specs.SettingWords.{setting_words};

use call_words::answer::refusal_words;
use rules::refusal::Refusal;
use settings::choice::Choice;

pub fn setting_words(setting: Result<Choice, Refusal>) -> [u64; 4]
    ensures { result ≡ setting_words setting }
{
    match setting {
        Ok(choice) => [0, choice.bits, choice.probes, choice.read_only],
        Err(r) => refusal_words(r),
    }
}
