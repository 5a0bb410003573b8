// The three readings, by the numbers that a caller asks for them with.
ghost use Rattle.surface_answers.specs.Kinds.{Decodes};

use sheet_calls::refusal::Refusal;

#[derive(Clone, Copy, Debug, PartialEq, Eq)]
pub enum Kind {
    Level,
    Tilt,
    Bend,
}

impl TryFrom<u32> for Kind {
    type Error = Refusal;

    ghost try_from_gives = { Decodes };

    fn try_from(number: u32) -> Result<Self, Refusal> {
        match number {
            0 => Ok(Kind::Level),
            1 => Ok(Kind::Tilt),
            2 => Ok(Kind::Bend),
            _ => Err(Refusal::OtherKind),
        }
    }
}
