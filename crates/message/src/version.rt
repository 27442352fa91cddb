// The version of a message, which its first byte says.
ghost use Rattle.std.specs.Prelude.{◌≡◌};
ghost use Rattle.message.specs.Message.{type_of};

#[derive(Clone, Copy)]
pub enum MessageVersion {
    V1,
    V2,
}

// The first byte of a message, for each version.
pub const MESSAGE_TYPE_SYNC: u8 = 66;

pub const MESSAGE_TYPE_SYNC_V2: u8 = 67;

impl MessageVersion {
    // The first byte.
    pub fn encode(self) -> u8
        ensures { result ≡ type_of self }
    {
        match self {
            MessageVersion::V1 => MESSAGE_TYPE_SYNC,
            MessageVersion::V2 => MESSAGE_TYPE_SYNC_V2,
        }
    }
}
