// Why a row gives no value.

// It does not fit, or it is a float's text and no decimal (refusal 11).
#[derive(Clone, Copy, Debug, PartialEq, Eq)]
pub enum Misfit {
    Unfit,
    FloatText,
}
