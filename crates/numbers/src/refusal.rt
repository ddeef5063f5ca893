// What is refused: one name for each of the 18 refusals, whose number as u32 it has.
ghost use Rattle.std.specs.Prelude.{◌≡◌};
ghost use Rattle.numbers.specs.Refusal.{number_of};

#[derive(Clone, Copy, Debug, PartialEq, Eq)]
pub enum Refusal {
    SheetLayout = 1,
    SheetText,
    SheetRoot,
    SectionLength,
    SchemaBounds,
    TopByte,
    NoRootDefinition,
    Depth,
    Charge,
    BlockLimit,
    FloatText,
    WorkLength,
    OutputLength,
    RemarkCount,
    Magic,
    MapLength,
    NoData,
    NoMap,
}

impl From<Refusal> for u32 {
    ghost from_gives = { λ refusal number. number ≡ number_of refusal };

    fn from(refusal: Refusal) -> u32 {
        refusal as u32
    }
}
