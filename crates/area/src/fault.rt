// What is wrong with a member: one name for each of the 13 kinds of remarks, whose number as u32 it has.
ghost use Rattle.std.specs.Prelude.{◌≡◌};
ghost use Rattle.area.specs.Fault.{fault_number};

#[derive(Clone, Copy, Debug, PartialEq, Eq)]
pub enum Fault {
    MemberSize = 1,
    WrongValue,
    StringSubtype,
    NoStructure,
    NoArrayInfo,
    MapSubtype,
    NoPair,
    NoElement,
    ElementValue,
    ZeroLengthStrings,
    StringArraySubtype,
    ElementType,
    MemberType,
}

impl From<Fault> for u32 {
    ghost from_gives = { λ fault number. number ≡ fault_number fault };

    fn from(fault: Fault) -> u32 {
        fault as u32
    }
}
