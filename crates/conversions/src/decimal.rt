// Decimals: as f32 bit patterns, and as whole numbers.
ghost use Rattle.std.specs.Prelude.{◌≡◌, ◌≤◌};
ghost use Rattle.conversions.specs.Decimal.{RoundedDecimal, i64_of_decimal};

use crate::single::f32_of_ratio;

// The number digits / 10^places, below zero where `minus`: -0 is a number of its own.
#[derive(Clone, Copy, Debug, PartialEq, Eq)]
pub struct Decimal {
    pub minus: bool,
    pub digits: u32,
    pub places: u32,
}

impl Decimal {
    // The pattern of the f32 nearest to it.
    pub fn to_f32(self) -> u32
        requires { self.places ≤ 9 }
        ensures { RoundedDecimal self result }
    {
        let p = f32_of_ratio(u64::from(self.digits), 10u64.pow(self.places));
        if self.minus { 0x8000_0000 + p } else { p }
    }

    // Its whole part, toward zero.
    pub fn to_i64(self) -> i64
        requires { self.places ≤ 9 }
        ensures { result ≡ i64_of_decimal self }
    {
        let n = i64::from(self.digits / 10u32.pow(self.places));
        if self.minus { -n } else { n }
    }
}
