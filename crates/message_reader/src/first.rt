// The first list of a message.
ghost use Rattle.std.specs.Prelude.{◌≡◌};
ghost use Rattle.message_reader.specs.First.{first_list};

use crate::reader::{hashes, moved, new};
use rules::refusal::Refusal;
use wire::parse::Run;

// The hash list behind a string's first byte: of a message, its heads. What the first byte is and how long the string is aren't looked at here.
pub fn first_list(message: &[u8]) -> Result<(Run, usize), Refusal>
    ensures { result ≡ first_list message.now }
{
    hashes(moved(new(message), 1))
}
