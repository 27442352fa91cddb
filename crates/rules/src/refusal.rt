// 01, Refusal numbers, and those that 02 adds. An enum, so that a refusal carries just the value that its number returns.
ghost use Rattle.std.specs.Prelude.{◌≡◌};
ghost use Rattle.rules.specs.Refusal.{number_of, value_of};

#[derive(Clone, Copy, Debug, PartialEq, Eq)]
pub enum Refusal {
    // 1: the input ends inside an item, which starts at this place.
    Cut(usize),
    // 2: the first byte is this one, and says no type that is read here.
    WrongType(u8),
    // 3: the number at this place isn't shortest, or is too large for its width.
    BadNumber(usize),
    // 4: a size is passed; the place of the count or filter that says so, else 0.
    PastSize(usize),
    // 5: the filter at this place has entries and no bits for them.
    NoBits(usize),
    // 6: the first bad row of a change table.
    BadRow(usize),
    // 7: the output buffer is too short; the length that is wanted.
    NoRoom(usize),
    // 8: chunks were to be loaded, and the host says that loading failed.
    LoadFailed,
    // 9: the first bad row of a waiting table.
    BadWaitingRow(usize),
    // 10: numbers that are no session, no have or no filter.
    BadNumbers,
    // 11: more rows before loading than there are rows.
    BadRowsBefore,
    // 12: the index doesn't fit its change table.
    BadIndex,
    // 13: the first row that has more dependencies than a row of the old width has room for.
    TooWide(usize),
    // 14: the first bad record of a settings list.
    BadSettings(usize),
    // 15: a new setting that isn't allowed, or no version left for it.
    BadSetting,
    // 16: a total would pass 64 bits.
    PastTotal,
    // 17: a pick that isn't accepted; the place of its first hash that breaks a rule, else how many hashes it has.
    BadPick(usize),
}

impl Refusal {
    pub fn number(self) -> u64
        ensures { result ≡ number_of self }
    {
        match self {
            Refusal::Cut(_) => 1,
            Refusal::WrongType(_) => 2,
            Refusal::BadNumber(_) => 3,
            Refusal::PastSize(_) => 4,
            Refusal::NoBits(_) => 5,
            Refusal::BadRow(_) => 6,
            Refusal::NoRoom(_) => 7,
            Refusal::LoadFailed => 8,
            Refusal::BadWaitingRow(_) => 9,
            Refusal::BadNumbers => 10,
            Refusal::BadRowsBefore => 11,
            Refusal::BadIndex => 12,
            Refusal::TooWide(_) => 13,
            Refusal::BadSettings(_) => 14,
            Refusal::BadSetting => 15,
            Refusal::PastTotal => 16,
            Refusal::BadPick(_) => 17,
        }
    }

    pub fn value(self) -> u64
        ensures { result ≡ value_of self }
    {
        match self {
            Refusal::Cut(place) => place as u64,
            Refusal::WrongType(byte) => byte as u64,
            Refusal::BadNumber(place) => place as u64,
            Refusal::PastSize(place) => place as u64,
            Refusal::NoBits(place) => place as u64,
            Refusal::BadRow(row) => row as u64,
            Refusal::NoRoom(length) => length as u64,
            Refusal::LoadFailed => 0,
            Refusal::BadWaitingRow(row) => row as u64,
            Refusal::BadNumbers => 0,
            Refusal::BadRowsBefore => 0,
            Refusal::BadIndex => 0,
            Refusal::TooWide(row) => row as u64,
            Refusal::BadSettings(number) => number as u64,
            Refusal::BadSetting => 0,
            Refusal::PastTotal => 0,
            Refusal::BadPick(place) => place as u64,
        }
    }
}
