// The numbers of a record, read and written.
ghost use Rattle.std.specs.Prelude.{◌≡◌, ◌+◌, ◌*◌, ◌≤◌, length};
ghost use Rattle.settings.specs.Settings.{setting_size, setting_at, u32_bytes, setting_bytes};

use crate::choice::Choice;
use rules::little_endian::u32_at;

// Bytes of a record.
pub const SETTING_SIZE: usize = 32;

// The version of record i.
pub fn version_at(settings: &[u8], i: usize) -> u64
    requires { (i + 1) * setting_size ≤ length settings.now }
    ensures { result ≡ (setting_at settings.now i).version }
{
    u32_at(settings, i * SETTING_SIZE) as u64
}

// The station of record i.
pub fn station_at(settings: &[u8], i: usize) -> u64
    requires { (i + 1) * setting_size ≤ length settings.now }
    ensures { result ≡ (setting_at settings.now i).station }
{
    u32_at(settings, i * SETTING_SIZE + 4) as u64
}

// What record i chooses.
pub fn choice_at(settings: &[u8], i: usize) -> Choice
    requires { (i + 1) * setting_size ≤ length settings.now }
    ensures { result ≡ (setting_at settings.now i).choice }
{
    let at = i * SETTING_SIZE;
    Choice {
        bits: u32_at(settings, at + 8) as u64,
        probes: u32_at(settings, at + 12) as u64,
        read_only: settings[at + 16] as u64,
    }
}

// The four bytes of a number, the lowest first.
fn u32_bytes(n: u64) -> [u8; 4]
    ensures { result ≡ u32_bytes n }
{
    [
        (n % 256) as u8,
        (n / 256 % 256) as u8,
        (n / 65_536 % 256) as u8,
        (n / 16_777_216 % 256) as u8,
    ]
}

// The bytes of a record.
pub fn setting_bytes(version: u64, station: u64, choice: Choice) -> [u8; 32]
    requires { choice.read_only ≤ 1 }
    ensures { result ≡ setting_bytes (record { version = version; station = station; choice = choice }) }
{
    let v = u32_bytes(version);
    let s = u32_bytes(station);
    let b = u32_bytes(choice.bits);
    let p = u32_bytes(choice.probes);
    let byte = choice.read_only as u8;
    [
        v[0], v[1], v[2], v[3], s[0], s[1], s[2], s[3], b[0], b[1], b[2], b[3], p[0], p[1], p[2],
        p[3], byte, 0, 0, 0, 0, 0, 0, 0, 0, 0, 0, 0, 0, 0, 0, 0,
    ]
}
