// The flags of a message. Version 2 is none of them: any section says that the sender reads it.
ghost use Rattle.std.specs.Prelude.{◌≡◌, ◌+◌, ◌≤◌, length};
ghost use Rattle.std.specs.Int.Bits.{bit_or};
ghost use Rattle.std.proofs.Math.Seq.{slice};
ghost use Rattle.message.specs.Flags.{sync_reset, read_only_flag, supports_sync_reset, flags_of, has_flag, flags_in};

#[derive(Clone, Copy)]
pub struct MessageFlags(pub u8);

impl MessageFlags {
    // The receiver is to forget what it sent.
    pub const SYNC_RESET: u8 = 1;
    // The sender doesn't apply incoming changes.
    pub const READ_ONLY: u8 = 2;
    // The sender understands SYNC_RESET.
    pub const SUPPORTS_SYNC_RESET: u8 = 4;

    // No flag.
    pub fn new() -> MessageFlags
        ensures { result ≡ flags_of 0 }
    {
        MessageFlags(0)
    }

    // Whether some of these bits is set.
    pub fn contains(self, flag: u8) -> bool
        ensures { result ≡ has_flag self flag }
    {
        self.0 & flag != 0
    }

    pub fn wants_reset(self) -> bool
        ensures { result ≡ has_flag self sync_reset }
    {
        self.contains(MessageFlags::SYNC_RESET)
    }

    pub fn read_only(self) -> bool
        ensures { result ≡ has_flag self read_only_flag }
    {
        self.contains(MessageFlags::READ_ONLY)
    }

    pub fn supports_reset(self) -> bool
        ensures { result ≡ has_flag self supports_sync_reset }
    {
        self.contains(MessageFlags::SUPPORTS_SYNC_RESET)
    }

    // The flags with these bits set.
    pub fn set(self, flag: u8) -> MessageFlags
        ensures { result ≡ flags_of (bit_or self.0 flag) }
    {
        MessageFlags(self.0 | flag)
    }

    // The flags that the bytes of a section say, from a place up to an end.
    pub fn parse_bytes(bytes: &[u8], start: usize, end: usize) -> MessageFlags
        requires { (start ≤ end) × (end ≤ length bytes.now) }
        ensures { result ≡ flags_of (flags_in (slice start end bytes.now)) }
    {
        let mut flags = MessageFlags::new();
        for byte in &bytes[start..end] {
            if *byte >= BITFIELD_MARKER {
                flags = flags.set(*byte - BITFIELD_MARKER);
            }
        }
        flags
    }
}

// A byte of flags has this bit; other bytes are older messages' and say nothing.
pub const BITFIELD_MARKER: u8 = 128;
// What is written before the byte of flags: older peers take it for version 2.
pub const LEGACY_V2_BYTE: u8 = 2;
