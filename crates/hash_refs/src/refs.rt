// A hash by its number: the hashes of a list come first, then those of further bytes.
ghost use Rattle.std.specs.Prelude.{◌≡◌, ◌+◌, ◌*◌, ◌≤◌, ◌<◌, ltb, eqb, length};
ghost use Rattle.std.proofs.lemmas.List.Edits.{sets};
ghost use Rattle.rules.specs.Hash.{hash_at, hash_bytes};
ghost use Rattle.rules.specs.Sizes.{sizes};
ghost use Rattle.hash_refs.specs.Internal.Refs.{ref_hash, ref_end};

use hash_order::hashes::{hash_before, put_hash, same_hash};
use rules::sizes::HASH_SIZE;

// Copies the hash of a number to a place of the buffer.
pub fn put_ref(
    list: &[u8],
    place: usize,
    entries: usize,
    further: &[u8],
    number: usize,
    out: &mut [u8],
    at: usize,
)
    requires { (place + sizes.hash * entries ≤ length list.now) × (number < ref_end entries further.now) × (at + sizes.hash ≤ length out.old) }
    ensures { out.new ≡ sets out.old at
        (hash_bytes (ref_hash list.now place entries further.now number)) }
{
    if number < entries {
        put_hash(out, at, list, place + HASH_SIZE * number);
        return;
    }
    put_hash(out, at, further, HASH_SIZE * (number - entries));
}

// Whether the hash of a number is before another hash.
pub fn ref_before(
    list: &[u8],
    place: usize,
    entries: usize,
    further: &[u8],
    number: usize,
    hash: &[u8],
) -> bool
    requires { (place + sizes.hash * entries ≤ length list.now) × (number < ref_end entries further.now) × (sizes.hash ≤ length hash.now) }
    ensures { result ≡ ltb (ref_hash list.now place entries further.now number) (hash_at hash.now 0) }
{
    if number < entries {
        return hash_before(list, place + HASH_SIZE * number, hash, 0);
    }
    hash_before(further, HASH_SIZE * (number - entries), hash, 0)
}

// Whether the hash of a number is another hash.
pub fn ref_same(
    list: &[u8],
    place: usize,
    entries: usize,
    further: &[u8],
    number: usize,
    hash: &[u8],
) -> bool
    requires { (place + sizes.hash * entries ≤ length list.now) × (number < ref_end entries further.now) × (sizes.hash ≤ length hash.now) }
    ensures { result ≡ eqb (ref_hash list.now place entries further.now number) (hash_at hash.now 0) }
{
    if number < entries {
        return same_hash(list, place + HASH_SIZE * number, hash, 0);
    }
    same_hash(further, HASH_SIZE * (number - entries), hash, 0)
}
