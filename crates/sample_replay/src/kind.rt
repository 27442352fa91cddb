// The kinds of records.
ghost use Rattle.sample_replay.specs.Kind.{Decodes};

use std::fmt;

// What the input of a record is read as. No match asks for a new kind in `ALL` and `try_from`.
#[derive(Clone, Copy, Debug, PartialEq, Eq)]
pub enum Kind {
    Number,
    FilterNumber,
    PrefixedString,
    HashList,
}

impl Kind {
    // Every kind, in the order of their bytes.
    pub const ALL: [Kind; 4] = [
        Kind::Number,
        Kind::FilterNumber,
        Kind::PrefixedString,
        Kind::HashList,
    ];
}

// A byte that stands for no kind.
#[derive(Clone, Copy, Debug, PartialEq, Eq)]
pub struct UnknownKind(pub u8);

impl TryFrom<u8> for Kind {
    type Error = UnknownKind;

    ghost try_from_gives = { Decodes };

    fn try_from(byte: u8) -> Result<Self, UnknownKind> {
        match byte {
            1 => Ok(Kind::Number),
            2 => Ok(Kind::FilterNumber),
            3 => Ok(Kind::PrefixedString),
            4 => Ok(Kind::HashList),
            _ => Err(UnknownKind(byte)),
        }
    }
}

impl fmt::Display for Kind {
    fn fmt<W: fmt::Write>(&self, f: &mut fmt::Formatter<W>) -> fmt::Result {
        f.write_str(match self {
            Kind::Number => "numbers",
            Kind::FilterNumber => "filter numbers",
            Kind::PrefixedString => "prefixed strings",
            Kind::HashList => "hash lists",
        })
    }
}
