// The rows of a run.
ghost use Rattle.std.specs.Prelude.{◌≡◌, ◌+◌, ◌*◌};

// The first row, and how many elements there are: one row each, or two where they are a map's pairs.
#[derive(Clone, Copy)]
pub struct Rows {
    pub first: u32,
    pub count: u32,
}

impl Rows {
    // The row of element k, of one row each.
    pub fn row(self, k: u32) -> usize
        ensures { result ≡ self.first + k }
    {
        self.first as usize + k as usize
    }

    // What a run of so many elements of `stride` bytes costs.
    pub fn cost(self, stride: u32) -> usize
        ensures { result ≡ 16 + stride * self.count }
    {
        16 + stride as usize * self.count as usize
    }
}
