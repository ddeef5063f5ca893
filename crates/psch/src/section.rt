// What every section is written with.
ghost use Rattle.std.specs.Prelude.{◌≡◌, [], ◌∷◌, ◌+◌, ◌≤◌, length, take, drop};
ghost use Rattle.numbers.specs.Words.{Octets, number, words, over, name_bytes};

use numbers::words::{copy, part_from, part_to, write_name, write_u32};

// Copies the n bytes of `s` at `from` to `to`; those that are there, where `s` ends before.
// Two numbers for a part that may end behind `s`, which a slice cannot say.
pub fn copy_part(s: &[u8], from: usize, n: usize, out: &mut [u8], to: usize)
    requires { to + n ≤ length out.old }
    ensures { out.new ≡ over out.old to (take n (drop from s.now)) }
{
    copy(out, to, part_to(part_from(s, from), n));
}

// A section's name, as b"PSIN", then its length.
#[tactic(auto, using(crate::proofs::Sections::name_first))]
pub fn head(out: &mut [u8], at: usize, name: &[u8; 4], size: u32)
    requires { Octets (name_bytes name.now) × (at + 8 ≤ length out.old) }
    ensures { out.new ≡ over out.old at (words (number 0 (name_bytes name.now) ∷ size ∷ [])) }
{
    write_name(out, at, name);
    write_u32(out, at + 4, size);
}
