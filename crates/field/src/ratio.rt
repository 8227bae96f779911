// Separation ratios that are in range.
ghost use Rattle.std.specs.Prelude.{◌≡◌, ◌≤◌, MatchResult};
ghost use Rattle.paper.specs.Field.{Ratio as InRange};

use paper::Refusal;

// A separation ratio a/b, a from 1 to 64 and b from 1 to 8.
#[derive(Clone, Copy)]
pub struct Ratio {
    pub a: usize,
    pub b: usize,
    pub ghost in_range: { InRange a b },
}

impl Ratio {
    // The ratio a/b where it is in range; refusal 4 elsewhere.
    pub fn new(a: usize, b: usize) -> Result<Self, Refusal>
        ensures { MatchResult result (λ r. (r.a ≡ a) × (r.b ≡ b)) (λ e. (InRange a b → ⊥) × (e ≡ Refusal.Ratio)) }
    {
        if (1..=64).contains(&a) && (1..=8).contains(&b) {
            return Ok(Ratio { a, b });
        }
        Err(Refusal::Ratio)
    }
}
