// A have as a record: the words of `bloom::have`, by name.
ghost use Rattle.std.specs.Prelude.{◌≡◌, get_or};
ghost use Rattle.send_records.specs.Summary.{no_have, summary_in};

use bloom::have::HAVE_WORDS;

#[derive(Clone, Copy)]
pub struct HaveSummary {
    // Where the last-sync hashes stand, and how many they are.
    pub place: u64,
    pub count: u64,
    // The filter: its entries, bits per entry and probes, where its field stands and how long that is.
    pub entries: u64,
    pub bits: u64,
    pub probes: u64,
    pub field: u64,
    pub size: u64,
}

// Record i of haves that are words, as reading a message leaves them; zeros behind the last whole record.
pub fn summary_in(words: &[u64], i: usize) -> HaveSummary
    ensures { result ≡ summary_in words.now i }
{
    if words.len() / HAVE_WORDS <= i {
        return HaveSummary {
            place: 0,
            count: 0,
            entries: 0,
            bits: 0,
            probes: 0,
            field: 0,
            size: 0,
        };
    }
    let at = i * HAVE_WORDS;
    HaveSummary {
        place: words[at],
        count: words[at + 1],
        entries: words[at + 2],
        bits: words[at + 3],
        probes: words[at + 4],
        field: words[at + 5],
        size: words[at + 6],
    }
}

// The have at a place of the list; zeros behind its end.
pub fn get_or(haves: &[HaveSummary], i: usize) -> HaveSummary
    ensures { result ≡ get_or haves.now i no_have }
{
    if i < haves.len() {
        return haves[i];
    }
    HaveSummary {
        place: 0,
        count: 0,
        entries: 0,
        bits: 0,
        probes: 0,
        field: 0,
        size: 0,
    }
}
