ghost use Rattle.std.specs.Prelude.{◌≡◌, ◌≤◌, MatchResult};
ghost use Rattle.bounds.specs.declared.refusal.Refusal.TheVariants as refused;

use bounds::refusal::Refusal;

// How many clocks a store's entries speak of: 1 to 8.
#[derive(Clone, Copy)]
pub struct ClockCount {
    count: usize,
    ghost least: { 1 ≤ count },
    ghost most: { count ≤ 8 },
}

impl TryFrom<usize> for ClockCount {
    type Error = Refusal;

    ghost try_from_gives = { λ count r. MatchResult r (λ n. n.count ≡ count) (λ e. (e ≡ refused.Number) × ((1 ≤ count × (count ≤ 8)) → ⊥)) };

    // Refuses, by Number, what is not 1 to 8.
    fn try_from(count: usize) -> Result<ClockCount, Refusal> {
        if !(1..=8).contains(&count) {
            return Err(Refusal::Number);
        }
        Ok(ClockCount { count })
    }
}

impl ClockCount {
    pub fn get(self) -> usize
        ensures { result ≡ self.count }
    {
        self.count
    }
}
