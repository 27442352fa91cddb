// Every record of a sample, counted by kind.
ghost use Rattle.std.specs.Prelude.{◌≡◌};
ghost use Rattle.sample_replay.specs.SampleWalk.{tallied, TallyRoom, tally_of, added, walk_of, SampleCounted};

use crate::kind::Kind;
use crate::record::{Record, record_at};

// How many records of a kind there are, and how many of them agree.
#[derive(Clone, Copy, Debug, Default, PartialEq, Eq)]
pub struct Tally {
    pub records: u64,
    pub agree: u64,
}

impl Tally {
    // One record more.
    fn add(&mut self, same: bool)
        requires { TallyRoom self.old same }
        ensures { self.new ≡ tallied self.old same }
    {
        self.records += 1;
        self.agree += u64::from(same);
    }
}

// The tally of each kind, up to the place `end`: the sample's end, or the first bad record.
#[derive(Clone, Copy, Debug, Default, PartialEq, Eq)]
pub struct ReplayCounts {
    pub numbers: Tally,
    pub filter_numbers: Tally,
    pub prefixed_strings: Tally,
    pub hash_lists: Tally,
    pub end: usize,
}

impl ReplayCounts {
    // The tally of a kind.
    pub fn tally(self, kind: Kind) -> Tally
        ensures { result ≡ tally_of self kind }
    {
        match kind {
            Kind::Number => self.numbers,
            Kind::FilterNumber => self.filter_numbers,
            Kind::PrefixedString => self.prefixed_strings,
            Kind::HashList => self.hash_lists,
        }
    }

    // One record more, which ends at `next`.
    fn add(&mut self, kind: Kind, same: bool, next: usize)
        requires { TallyRoom (tally_of self.old kind) same }
        ensures { self.new ≡ added self.old kind same next }
    {
        self.end = next;
        match kind {
            Kind::Number => self.numbers.add(same),
            Kind::FilterNumber => self.filter_numbers.add(same),
            Kind::PrefixedString => self.prefixed_strings.add(same),
            Kind::HashList => self.hash_lists.add(same),
        }
    }
}

// Walks from record to record, and counts. It stops at a bad record, since nothing says where the next one starts.
pub fn walk(bytes: &[u8]) -> ReplayCounts
    ensures { SampleCounted (walk_of bytes.now) result }
{
    let mut counts = ReplayCounts::default();
    // A record says where the next one starts, so no range gives the places.
    while let Some(Record { kind, same, next }) = record_at(bytes, counts.end) {
        counts.add(kind, same, next);
    }
    counts
}
