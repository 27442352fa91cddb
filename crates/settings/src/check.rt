// A settings list checked, in one pass.
ghost use Rattle.std.specs.Prelude.{◌≡◌, ◌+◌, ◌*◌, ◌≤◌, length};
ghost use Rattle.settings.specs.Settings.{setting_size, version_before, setting_good, settings_checked};
ghost use Rattle.table.specs.TableBytes.{first_bad};

use crate::choice::allowed;
use crate::record::{SETTING_SIZE, choice_at, version_at};
use rules::refusal::Refusal;
use rules::zeros::zero_bytes;

// Whether record i is good behind a record of this version: a newer version, a choice that is allowed, and zeros.
fn setting_good(settings: &[u8], i: usize, before: u64) -> bool
    requires { ((i + 1) * setting_size ≤ length settings.now) × (before ≡ version_before settings.now i) }
    ensures { result ≡ setting_good settings.now i }
{
    if version_at(settings, i) <= before {
        return false;
    }
    if !allowed(choice_at(settings, i)) {
        return false;
    }
    zero_bytes(settings, i * SETTING_SIZE + 17, SETTING_SIZE - 17)
}

// The first of the first n records that isn't good, or n.
fn first_bad(settings: &[u8], n: usize) -> usize
    requires { n * setting_size ≤ length settings.now }
    ensures { result ≡ first_bad (setting_good settings.now) 0 n }
{
    let mut before = 0;
    for i in 0..n {
        if !setting_good(settings, i, before) {
            return i;
        }
        before = version_at(settings, i);
    }
    n
}

// How many records a good list has, or the first bad one. Bytes at its end that are no whole record are one.
pub fn check_settings(settings: &[u8]) -> Result<usize, Refusal>
    ensures { result ≡ settings_checked settings.now }
{
    let n = settings.len() / SETTING_SIZE;
    let bad = first_bad(settings, n);
    if bad < n {
        return Err(Refusal::BadSettings(bad));
    }
    if settings.len() % SETTING_SIZE != 0 {
        return Err(Refusal::BadSettings(n));
    }
    Ok(n)
}
