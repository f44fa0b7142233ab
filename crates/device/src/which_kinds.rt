ghost use Rattle.std.specs.Prelude.{◌≡◌};
ghost use Rattle.device.specs.WhichKinds.{kind_number, NamesKind};

// Which of the two device kinds; each has the number by which it is named.
#[derive(Clone, Copy, PartialEq, Eq, Debug)]
pub enum WhichKind {
    First = 1,
    Second = 2,
}

// A number that names neither of them.
#[derive(Clone, Copy, PartialEq, Eq, Debug)]
pub struct UnknownKind(pub u8);

impl TryFrom<u8> for WhichKind {
    type Error = UnknownKind;

    ghost try_from_gives = { NamesKind };

    fn try_from(code: u8) -> Result<Self, UnknownKind> {
        match code {
            1 => Ok(WhichKind::First),
            2 => Ok(WhichKind::Second),
            _ => Err(UnknownKind(code)),
        }
    }
}

impl From<WhichKind> for u8 {
    ghost from_gives = { λ kind code. code ≡ kind_number kind };

    fn from(kind: WhichKind) -> Self {
        kind as u8
    }
}
