// What a type byte is.
ghost use Rattle.std.specs.Prelude.{◌≡◌};
ghost use Rattle.layout.specs.Kinds;
ghost use Rattle.cells.specs.Names.{kind_is};

// An integer of so many bytes, an f32, a vector of so many f32s, or what else a member can be.
#[derive(Clone, Copy)]
pub enum Kind {
    Integer(usize),
    Single,
    Vector(usize),
    Text,
    Structure,
    Array,
    Enumeration,
    Flags,
    Map,
    Other,
}

// The kind of a type byte.
pub fn kind_of(ty: u8) -> Kind
    ensures { kind_is result ≡ Kinds.kind_of ty }
{
    // By ranges of the byte itself, as document 01 has the type bytes.
    match ty {
        0x00..=0x02 => Kind::Integer(1),
        0x03 | 0x04 | 0x1E => Kind::Integer(2),
        0x05 | 0x06 => Kind::Integer(4),
        0x07 => Kind::Single,
        0x08 => Kind::Vector(2),
        0x09 | 0x14 => Kind::Vector(3),
        0x0A | 0x15 => Kind::Vector(4),
        0x0B => Kind::Text,
        0x0C => Kind::Structure,
        0x0D => Kind::Array,
        0x0E => Kind::Enumeration,
        0x0F => Kind::Flags,
        0x10 => Kind::Map,
        0x20 => Kind::Integer(8),
        _ => Kind::Other,
    }
}

// The number of a type byte in a remark.
pub fn type_number(ty: u8) -> u32
    ensures { result ≡ Kinds.type_number ty }
{
    if ty == 0 {
        return 1;
    }
    match kind_of(ty) {
        Kind::Integer(_) => 2,
        Kind::Single => 3,
        Kind::Vector(n) => 2 + (n as u32),
        Kind::Text => 7,
        Kind::Enumeration => 8,
        Kind::Flags => 9,
        Kind::Structure => 10,
        Kind::Array => 11,
        Kind::Map => 12,
        Kind::Other => 13,
    }
}
