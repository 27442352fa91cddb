// Bytes put into a buffer that is lent.
ghost use Rattle.std.specs.Prelude.{◌≡◌, ◌+◌, ◌≤◌, length};
ghost use Rattle.std.proofs.lemmas.List.Edits.{sets};

// Copies bytes to a place of the buffer.
pub fn copy_into(out: &mut [u8], at: usize, bytes: &[u8])
    requires { at + length bytes.now ≤ length out.old }
    ensures { out.new ≡ sets out.old at bytes.now }
{
    // Not by copy_from_slice: it asks for memmove, which the archive does without.
    for (i, byte) in bytes.iter().enumerate() {
        out[at + i] = *byte;
    }
}
