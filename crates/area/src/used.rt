// Used definitions: each name once, by first use.
ghost use Rattle.std.specs.Prelude.{◌≡◌, ◌+◌, ◌*◌, ◌≤◌, length};
ghost use Rattle.layout.specs.State;
ghost use Rattle.area.specs.Rows.{names_in};
ghost use Rattle.area.specs.Posts.{Inserts};

use crate::{Area, NAMES};
use numbers::words::{read, write_u32};

// Whether the name is one of the n at `at`.
fn contains(work: &[u8], at: usize, n: usize, name: u32) -> bool
    requires { at + 4 * n ≤ length work.now }
    ensures { result ≡ State.contains name (names_in work.now at n) }
{
    (0..n).any(|k| read::<u32>(work, at + 4 * k) == name)
}

// The name behind the n at `at`, unless it is among them or they are as many as there is `room` for; how many there are then.
fn insert(work: &mut [u8], at: usize, n: usize, room: usize, name: u32) -> usize
    requires { (n ≤ room) × (at + 4 * room ≤ length work.old) }
    ensures { Inserts at n room name work.old result work.new }
{
    if contains(work, at, n, name) {
        return n;
    }
    if room <= n {
        return n;
    }
    write_u32(work, at + 4 * n, name);
    n + 1
}

impl Area<'_> {
    ghost use Rattle.area.specs.Steps.{UsesStruct, UsesEnum};

    // A structure is started: its definition is used. `use_enum` differs in the segment and in the number that it moves. As one method both
    // would be chosen by a match on a kind, which is no plainer.
    pub fn use_struct(&mut self, name: u32)
        ensures { UsesStruct self.old name self.new }
    {
        self.progress.structs = insert(
            self.bytes,
            NAMES,
            self.progress.structs,
            self.round.entries,
            name,
        );
    }

    // An enum is used.
    pub fn use_enum(&mut self, name: u32)
        ensures { UsesEnum self.old name self.new }
    {
        let entries = self.round.entries;
        self.progress.enums = insert(
            self.bytes,
            NAMES + 4 * entries,
            self.progress.enums,
            entries,
            name,
        );
    }
}
