//! What a row asks.
ghost use Rattle.std.specs.Prelude.{◌≡◌};
ghost use Rattle.list.specs.Kinds.{kind_of};

/// The kinds of rows; tools/replay/README.md has their numbers.
#[derive(Clone, Copy, Debug, PartialEq, Eq)]
pub enum Kind {
    Crc,
    Hash,
    Trailer,
    Verify,
    Step,
    Open,
    Lookup,
    Value,
    Begin,
    Add,
    AddNumbers,
    Held,
    Size,
    Write,
    Span,
    Fill,
    Find,
}

/// No kind has the number.
#[derive(Clone, Copy, Debug, PartialEq, Eq)]
pub struct UnknownKind;

impl TryFrom<u64> for Kind {
    type Error = UnknownKind;

    ghost try_from_gives = { λ number read. read ≡ kind_of number };

    #[tactic(auto, unfolding(crate::specs::Kinds::kind_of, num::specs::Choice::choice_defs))]
    fn try_from(number: u64) -> Result<Kind, UnknownKind> {
        match number {
            1 => Ok(Kind::Crc),
            2 => Ok(Kind::Hash),
            3 => Ok(Kind::Trailer),
            4 => Ok(Kind::Verify),
            5 => Ok(Kind::Step),
            6 => Ok(Kind::Open),
            7 => Ok(Kind::Lookup),
            8 => Ok(Kind::Value),
            9 => Ok(Kind::Begin),
            10 => Ok(Kind::Add),
            11 => Ok(Kind::AddNumbers),
            12 => Ok(Kind::Held),
            13 => Ok(Kind::Size),
            14 => Ok(Kind::Write),
            15 => Ok(Kind::Span),
            16 => Ok(Kind::Fill),
            17 => Ok(Kind::Find),
            _ => Err(UnknownKind),
        }
    }
}
