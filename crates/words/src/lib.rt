// Numbers in byte slices, high byte first; the words of an area by index, low byte first; copying and zeroing.
// It knows nothing of holes and trees. Each contract says the whole result, and the laws callers cite are in proofs/.
#![tactic(auto)]

ghost use Rattle.std.specs.Prelude.{◌≡◌, ◌+◌, ◌*◌, ◌≤◌, ◌<◌, length, replicate};
ghost use Rattle.words.specs.Words.{bytes, Read, Written};
ghost use Rattle.words.specs.Area.{Loaded, Saved};

// The number in the W bytes at `at`.
pub fn get<const W: usize>(s: &[u8], at: usize) -> usize
    requires width { W ≤ 8 }
    requires there { at + W ≤ length s.now }
    ensures { Read W s.now at result }
{
    let mut eight = [0; 8];
    copy(&mut eight, 8 - W, &s[at..at + W]);
    usize::from_be_bytes(eight)
}

// Writes the last W bytes of v at `at`.
pub fn put<const W: usize>(s: &mut [u8], at: usize, v: usize)
    requires width { W ≤ 8 }
    requires there { at + W ≤ length s.old }
    ensures { Written s.old s.new at (bytes W v) }
{
    copy(s, at, &v.to_be_bytes()[8 - W..]);
}

// Copies all of `from` into `to`, from `at` on.
pub fn copy(to: &mut [u8], at: usize, from: &[u8])
    requires { at + length from.now ≤ length to.old }
    ensures { Written to.old to.new at from.now }
{
    // A loop: of std's copy_from_slice the archive for C would need `memmove` from outside.
    for i in 0..from.len() {
        to[at + i] = from[i];
    }
}

// Zeroes all of s.
pub fn zero(s: &mut [u8])
    ensures { s.new ≡ replicate (length s.old) 0 }
{
    s.fill(0);
}

// Word i of an area: the two bytes at 2 * i, low byte first.
#[tactic(auto, unfolding(crate::specs::Area::word))]
pub fn load(w: &[u8], i: usize) -> usize
    requires { 2 * i + 2 ≤ length w.now }
    ensures { Loaded w.now i result }
{
    u16::from_le_bytes([w[2 * i], w[2 * i + 1]]) as usize
}

// Sets word i of an area to v.
pub fn save(w: &mut [u8], i: usize, v: usize)
    requires { (2 * i + 2 ≤ length w.old) × (v < 65536) }
    ensures { Saved w.old w.new i v }
{
    copy(w, 2 * i, &(v as u16).to_le_bytes());
}
