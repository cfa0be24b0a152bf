// Random numbers from a seed.
ghost use Rattle.std.specs.Prelude.{◌≡◌, ◌<◌};
ghost use Rattle.mono_model.specs.Random.{seeded, drawn, after_draw, drawn_below};

/// A small generator of random numbers from a seed: the same seed gives the same numbers. It is not for secrets.
#[derive(Clone, Copy, Debug, PartialEq, Eq)]
pub struct FastRand {
    one: u32,
    two: u32,
}

impl FastRand {
    /// Returns the generator of this seed: its high and its low 32 bits, and low bits of 1 if they are 0.
    pub fn new(seed: u64) -> FastRand
        ensures { result ≡ seeded seed }
    {
        let one = (seed >> 32) as u32;
        let low = (seed % 0x1_0000_0000) as u32;
        let two = if low == 0 { 1 } else { low };
        FastRand { one, two }
    }

    /// Returns the next number of 32 bits.
    pub fn fastrand(&mut self) -> u32
        ensures value { result ≡ drawn self.old }
        ensures next { self.new ≡ after_draw self.old }
    {
        let s0 = self.two;
        let s1 = self.one ^ (self.one << 17);
        let s1 = s1 ^ s0 ^ (s1 >> 7) ^ (s0 >> 16);
        self.one = s0;
        self.two = s1;
        s0.wrapping_add(s1)
    }

    /// Returns the next number scaled to the range below `n`: the high 32 bits of its product with `n`. It is 0 if `n`
    /// is 0.
    pub fn fastrand_n(&mut self, n: u32) -> u32
        ensures value { result ≡ drawn_below self.old n }
        ensures below { 0 < n → result < n }
        ensures next { self.new ≡ after_draw self.old }
    {
        let value = self.fastrand();
        let product = value as u64 * n as u64;
        (product >> 32) as u32
    }
}
