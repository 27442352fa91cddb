// A filter built from hashes (`from_hashes`, `add_hash`, `set_bit`).
ghost use Rattle.std.specs.Prelude.{true, ◌≡◌, ◌+◌, ◌*◌, ◌≤◌, ◌<◌, length, replicate};
ghost use Rattle.bloom_probe.specs.Build.{set_bit, set_bits, add_hashes, filter_of, build_output};
ghost use Rattle.bloom_probe.specs.Probes.{probes_from};
ghost use Rattle.bloom_probe.specs.Internal.Start.{start_at};
ghost use Rattle.bloom.specs.Filter.{field_size, filter_rules};
ghost use Rattle.rules.specs.Hash.{hashes_at};
ghost use Rattle.rules.specs.Output.{Written, Output};
ghost use Rattle.rules.specs.Sizes.{sizes};

use crate::probes::{Probe, count};
use bloom::rule::{bits_capacity, build_rules};
use rules::little_endian::u32_at;
use rules::passed::passed_hashes;
use rules::refusal::Refusal;
use rules::sizes::HASH_SIZE;

// Sets a bit of the field.
fn set_bit(field: &mut [u8], probe: usize)
    requires { probe < 8 * length field.old }
    ensures { field.new ≡ set_bit field.old probe }
{
    let at = probe / 8;
    let one: u8 = 1;
    field[at] = field[at] | (one << (probe % 8));
}

// Where the probes of a hash start, and by what they are stepped: its first three words, reduced by the field's bits.
#[derive(Clone, Copy)]
pub struct Start {
    pub x: u32,
    pub y: u32,
    pub z: u32,
}

// The start of the hash at a place.
pub fn start_of(hashes: &[u8], at: usize, m: u32) -> Start
    requires { (at + sizes.hash ≤ length hashes.now) × (0 < m) }
    ensures { result ≡ start_at hashes.now at m }
{
    let x = u32_at(hashes, at) % m;
    let y = u32_at(hashes, at + 4) % m;
    let z = u32_at(hashes, at + 8) % m;
    Start { x, y, z }
}

// The start of hash i of a list of n; past its end nothing is claimed of it.
fn start_in(hashes: &[u8], i: usize, n: usize, m: u32) -> Start
    requires { (sizes.hash * n ≤ length hashes.now) × (n ≤ m) }
    ensures { i < n → result ≡ start_at hashes.now (sizes.hash * i) m }
{
    if i < n {
        return start_of(hashes, HASH_SIZE * i, m);
    }
    Start { x: 0, y: 0, z: 0 }
}

// Sets the bits of the probes from a start.
pub fn set_probes(field: &mut [u8], rounds: u64, start: Start, m: u32)
    requires { (start.x < m) × (start.y < m) × (start.z < m) × (m ≤ 8 * sizes.field) × (m ≤ 8 * length field.old) }
    ensures { field.new ≡ set_bits field.old (probes_from rounds m start.x start.y start.z) }
{
    let z = start.z;
    let mut probe = Probe {
        x: start.x,
        y: start.y,
    };
    for _ in 0..rounds {
        set_bit(field, probe.x as usize);
        probe = probe.next(z, m);
    }
}

// Clears a field.
pub fn clear(field: &mut [u8])
    ensures { field.new ≡ replicate (length field.old) 0 }
{
    field.fill(0);
}

// Adds every hash of a list that is lent as bytes. The start of a hash is reduced before the bits of the one before it are set, so that the
// processor divides while it sets them.
fn add_hashes(field: &mut [u8], probes: u64, hashes: &[u8], n: usize)
    requires { (n ≤ 8 * length field.old) × (length field.old ≤ sizes.field) × (sizes.hash * n ≤ length hashes.now) }
    ensures { field.new ≡ add_hashes probes field.old (hashes_at hashes.now 0 n) }
{
    let m = 8 * field.len() as u32;
    let rounds = count(probes);
    let mut next = start_in(hashes, 0, n, m);
    for i in 0..n {
        let start = next;
        next = start_in(hashes, i + 1, n, m);
        set_probes(field, rounds, start, m);
    }
}

// Clears a field and adds the hashes of a list to it.
fn fill(field: &mut [u8], probes: u64, hashes: &[u8], n: usize)
    requires { (n ≤ 8 * length field.old) × (length field.old ≤ sizes.field) × (sizes.hash * n ≤ length hashes.now) }
    ensures { field.new ≡ add_hashes probes (replicate (length field.old) 0) (hashes_at hashes.now 0 n) }
{
    clear(field);
    add_hashes(field, probes, hashes, n);
}

// Builds the field of a filter over the first n hashes of a list, at the start of the buffer that is lent for it.
fn build(
    field: &mut [u8],
    bits: u64,
    probes: u64,
    hashes: &[u8],
    n: usize,
) -> Result<usize, Refusal>
    requires { (filter_rules n bits probes (field_size n bits) ≡ true) × (sizes.hash * n ≤ length hashes.now) }
    ensures { Written (Output.bytes (filter_of bits probes (hashes_at hashes.now 0 n)).field) field.old field.new result }
{
    let size = bits_capacity(n as u64, bits) as usize;
    if field.len() < size {
        return Err(Refusal::NoRoom(size));
    }
    fill(&mut field[..size], probes, hashes, n);
    Ok(size)
}

// Builds the field of a filter over the hashes of a list. The filter has as many entries as the list has hashes.
pub fn from_hashes(
    field: &mut [u8],
    bits: u64,
    probes: u64,
    hashes: &[u8],
) -> Result<usize, Refusal>
    ensures { Written (build_output bits probes hashes.now) field.old field.new result }
{
    let entries = hashes.len() / HASH_SIZE;
    if !build_rules(entries as u64, bits, probes) {
        return Err(Refusal::BadNumbers);
    }
    let n = passed_hashes(hashes)?;
    build(field, bits, probes, hashes, n)
}
