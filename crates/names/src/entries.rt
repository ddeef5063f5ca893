// An enum's entries.
ghost use Rattle.std.specs.Prelude.{◌<◌, ◌^◌};

use numbers::words::read;

// `count` entries, each a name and a value of 32 bits, from `at` of the schema on.
#[derive(Clone, Copy)]
pub struct Entries<'a> {
    pub schema: &'a [u8],
    pub at: usize,
    pub count: usize,
    pub ghost low: { at < 2 ^ 63 },
    pub ghost few: { count < 2 ^ 24 },
}

impl<'a> Entries<'a> {
    ghost use Rattle.std.specs.Prelude.{◌≡◌};
    ghost use Rattle.schema.specs.Defs.{first_entry};
    ghost use Rattle.names.specs.Entries.{all_of, NoEntries};

    // No entries.
    #[tactic(auto, unfolding(schema::specs::Psch::entries_at))]
    pub fn empty(schema: &'a [u8]) -> Self
        ensures { NoEntries schema.now result }
    {
        Self {
            schema,
            at: 0,
            count: 0,
        }
    }

    // The value of the first entry that has the name.
    pub fn value_of(self, name: u32) -> Option<u32>
        ensures { result ≡ first_entry (all_of self.entry) name }
    {
        (0..self.count)
            .map(|i| self.at + 8 * i)
            .find(|&at| read::<u32>(self.schema, at) == name)
            .map(|at| read::<u32>(self.schema, at + 4))
    }
}
