ghost use Rattle.std.specs.Prelude.{◌≡◌};
ghost use Rattle.zones.specs.States.{value_of, StateSays};

use bounds::refusal::Refusal;
use bounds::time::TimeDomain;

// A state: the readings of clock 1 and on, each divided by the scale. Clocks that are not given read 0.
#[derive(Clone, Copy)]
pub struct State<'a> {
    pub scale: u32,
    pub readings: &'a [u32],
}

impl State<'_> {
    // Refuses, by State, more than 8 readings, a scale that is not 1 to 1000 or not allowed, and a reading above 1,000,000,000.
    pub fn check<T: TimeDomain>(&self, time: &T) -> Result<(), Refusal>
        ensures { StateSays (T.allows time.now) self.now.scale self.now.readings.now result }
    {
        let is_good = self.readings.len() <= 8
            && self.scale >= 1
            && self.scale <= 1000
            && time.allows_scale(self.scale)
            && self.readings.iter().all(|x| *x <= 1_000_000_000);
        if is_good { Ok(()) } else { Err(Refusal::State) }
    }

    // What clock i reads: clock 0 and a clock beyond the readings read 0.
    pub(crate) fn reading(&self, i: usize) -> u32
        ensures { result ≡ value_of self.now.readings.now i }
    {
        // A `match`: `and_then` and `unwrap_or` in its place were proved too, but `holds` took a seventh longer.
        match i.checked_sub(1) {
            Some(k) => self.readings.get(k).copied().unwrap_or(0),
            None => 0,
        }
    }
}
