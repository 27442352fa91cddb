// Calls of the crate `rules`.
ghost use Rattle.std.specs.Prelude.{◌≡◌};
ghost use Rattle.rules.specs.Sizes.{sizes, limits_of};

// Writes every limit, in this order: bytes of a hash, bytes of a message, rows, waiting rows, dependencies of a change, hashes of a list, sent
// hashes, haves, chunks, bytes of a filter's field, probes, hashes to send.
#[unsafe(no_mangle)]
pub extern "C" fn bt_limits(limits: &mut [u64; 12])
    ensures { limits.new ≡ limits_of sizes }
{
    *limits = rules::sizes::limits();
}
