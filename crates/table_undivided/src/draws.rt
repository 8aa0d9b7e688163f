//! Numbers that are drawn: the same ones for the same seed.
ghost use Rattle.std.specs.Prelude.{◌<◌};

/// Numbers that follow one another from a seed.
#[derive(Drop)]
pub struct Draws {
    state: u64,
}

impl Draws {
    /// The numbers of a seed.
    pub fn new(seed: u64) -> Draws {
        Draws { state: seed }
    }

    /// The next number, below `most`.
    pub fn draw(&mut self, most: u64) -> u64
        requires { 0 < most }
        ensures { result < most }
    {
        self.state = self
            .state
            .wrapping_mul(6_364_136_223_846_793_005)
            .wrapping_add(1_442_695_040_888_963_407);
        (self.state >> 33) % most
    }

    /// One of these, or `other` where there is none.
    pub fn among(&mut self, numbers: &[u16], other: u16) -> u16 {
        if numbers.is_empty() {
            return other;
        }
        numbers[self.draw(numbers.len() as u64) as usize]
    }
}
