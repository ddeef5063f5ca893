// The kinds of a row.
ghost use Rattle.value.specs.Kind.{Decodes};

// What a row holds; document 01's number is the variant's, from 0.
#[derive(Clone, Copy, Debug, PartialEq, Eq)]
pub enum Kind {
    Null,
    Bool,
    I8,
    U8,
    I16,
    U16,
    I32,
    U32,
    I64,
    U64,
    F32,
    Vec2,
    Vec3,
    Vec4,
    Hash,
    Str,
    Enum,
    Flags,
    Bytes,
    Array,
    Map,
    Struct,
}

// A number that no kind has.
#[derive(Clone, Copy, Debug, PartialEq, Eq)]
pub struct UnknownKind(pub u8);

impl TryFrom<u8> for Kind {
    type Error = UnknownKind;

    ghost try_from_gives = { Decodes };

    fn try_from(number: u8) -> Result<Self, UnknownKind> {
        match number {
            0 => Ok(Kind::Null),
            1 => Ok(Kind::Bool),
            2 => Ok(Kind::I8),
            3 => Ok(Kind::U8),
            4 => Ok(Kind::I16),
            5 => Ok(Kind::U16),
            6 => Ok(Kind::I32),
            7 => Ok(Kind::U32),
            8 => Ok(Kind::I64),
            9 => Ok(Kind::U64),
            10 => Ok(Kind::F32),
            11 => Ok(Kind::Vec2),
            12 => Ok(Kind::Vec3),
            13 => Ok(Kind::Vec4),
            14 => Ok(Kind::Hash),
            15 => Ok(Kind::Str),
            16 => Ok(Kind::Enum),
            17 => Ok(Kind::Flags),
            18 => Ok(Kind::Bytes),
            19 => Ok(Kind::Array),
            20 => Ok(Kind::Map),
            21 => Ok(Kind::Struct),
            _ => Err(UnknownKind(number)),
        }
    }
}
