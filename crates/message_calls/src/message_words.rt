// A message as words.
ghost use Rattle.std.specs.Prelude.{◌≡◌};
ghost use Rattle.message_calls.specs.MessageWords.{version_word, version_of, section_word, section_of, decoded_words, peeked_words};

use call_words::answer::refusal_words;
use message::flags::MessageFlags;
use message::version::MessageVersion;
use message_read::parse::Places;
use rules::refusal::Refusal;

pub fn version_word(version: MessageVersion) -> u64
    ensures { result ≡ version_word version }
{
    match version {
        MessageVersion::V1 => 1,
        MessageVersion::V2 => 2,
    }
}

pub fn version_of(n: u64) -> MessageVersion
    ensures { result ≡ version_of n }
{
    if n == 2 {
        return MessageVersion::V2;
    }
    MessageVersion::V1
}

pub fn section_word(section: Option<MessageFlags>) -> u64
    ensures { result ≡ section_word section }
{
    match section {
        None => 256,
        Some(flags) => flags.0 as u64,
    }
}

pub fn section_of(n: u64) -> Option<MessageFlags>
    ensures { result ≡ section_of n }
{
    if n < 256 {
        return Some(MessageFlags(n as u8));
    }
    None
}

pub fn decoded_words(d: Result<(Places, usize, usize), Refusal>) -> [u64; 14]
    ensures { result ≡ decoded_words d }
{
    match d {
        Ok((p, ignored, behind)) => [
            0,
            version_word(p.version),
            p.heads.start as u64,
            p.heads.count as u64,
            p.need.start as u64,
            p.need.count as u64,
            p.haves.start as u64,
            p.haves.count as u64,
            p.chunks.start as u64,
            p.chunks.count as u64,
            section_word(p.flags),
            p.next as u64,
            ignored as u64,
            behind as u64,
        ],
        Err(r) => [r.number(), r.value(), 0, 0, 0, 0, 0, 0, 0, 0, 0, 0, 0, 0],
    }
}

pub fn peeked_words(p: Result<(MessageVersion, usize), Refusal>) -> [u64; 4]
    ensures { result ≡ peeked_words p }
{
    match p {
        Ok((version, count)) => [0, version_word(version), count as u64, 0],
        Err(r) => refusal_words(r),
    }
}
