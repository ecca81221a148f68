//! Numbers that look random, the same on every machine.

/// A generator of numbers: Steele, Lea and Flood's SplitMix.
#[derive(Clone, Copy)]
pub struct Random {
    state: u64,
}

impl Random {
    /// The generator with a seed, of which each stream gives other numbers.
    pub fn new(seed: u64, stream: u64) -> Random {
        let mut random = Random {
            state: seed.wrapping_mul(0x9e37_79b9_7f4a_7c15) ^ stream,
        };
        let state = random.next();
        Random { state }
    }

    /// The next number.
    pub fn next(&mut self) -> u64 {
        self.state = self.state.wrapping_add(0x9e37_79b9_7f4a_7c15);
        let mut mixed = self.state;
        mixed = (mixed ^ (mixed >> 30)).wrapping_mul(0xbf58_476d_1ce4_e5b9);
        mixed = (mixed ^ (mixed >> 27)).wrapping_mul(0x94d0_49bb_1331_11eb);
        mixed ^ (mixed >> 31)
    }

    /// A number below a bound, or 0 where the bound is 0.
    pub fn below(&mut self, bound: usize) -> usize {
        (self.next() % (bound.max(1) as u64)) as usize
    }

    /// A number from one to another.
    pub fn between(&mut self, least: usize, most: usize) -> usize {
        let range = most.saturating_sub(least).saturating_add(1);
        least.saturating_add(self.below(range))
    }

    /// Whether the one in so many cases is this one.
    pub fn one_in(&mut self, cases: usize) -> bool {
        self.below(cases) == 0
    }

    /// One of some texts, or the empty text where there are none.
    pub fn pick(&mut self, options: &[&'static str]) -> &'static str {
        let index = self.below(options.len());
        match options.get(index) {
            Some(option) => *option,
            None => "",
        }
    }
}
