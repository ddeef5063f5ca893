// The two kinds of definitions, by their top byte.
ghost use Rattle.schema.specs.Steps.{Decodes};

#[derive(Clone, Copy, Debug, PartialEq, Eq)]
pub enum Kind {
    Structure = 0,
    Enum = 1,
}

impl TryFrom<u8> for Kind {
    type Error = ();

    ghost try_from_gives = { Decodes };

    fn try_from(top: u8) -> Result<Self, ()> {
        match top {
            0 => Ok(Kind::Structure),
            1 => Ok(Kind::Enum),
            _ => Err(()),
        }
    }
}
