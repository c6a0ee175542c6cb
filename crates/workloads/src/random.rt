//! Numbers that look random, the same for the same seed.
ghost use Rattle.std.specs.Prelude.{◌≤◌};

/// A sequence of numbers.
#[derive(Clone, Copy, Drop)]
pub struct Random {
    state: u64,
}

impl Random {
    /// The sequence of a seed.
    pub fn new(seed: u64) -> Random {
        let mut random = Random {
            state: seed.wrapping_mul(0x2545_F491_4F6C_DD1D),
        };
        let _ = random.next();
        random
    }

    /// The next number.
    pub fn next(&mut self) -> u64 {
        self.state = self.state.wrapping_add(0x9E37_79B9_7F4A_7C15);
        let mixed = (self.state ^ (self.state >> 30)).wrapping_mul(0xBF58_476D_1CE4_E5B9);
        mixed ^ (mixed >> 31)
    }

    /// A number below another, or 0.
    pub fn below(&mut self, limit: usize) -> usize
        ensures { result ≤ limit }
    {
        let number = (self.next() >> 33) as usize;
        match limit {
            0 => 0,
            _ => number % limit,
        }
    }

    /// Whether it happens: once in so many times.
    pub fn once_in(&mut self, times: usize) -> bool {
        self.below(times) == 0
    }

    /// One of some texts.
    pub fn one_of(&mut self, texts: &[&'static [u8]]) -> &'static [u8] {
        let index = self.below(texts.len());
        match texts.get(index) {
            Some(text) => text,
            None => b"",
        }
    }
}
