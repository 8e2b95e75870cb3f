//! Numbers that look random and are the same in every run.

/// A xorshift generator.
#[derive(Clone, Copy)]
pub struct Seed {
    state: u64,
}

impl Seed {
    pub fn new(number: u64) -> Seed {
        let spread = number.wrapping_add(1).wrapping_mul(0x9E37_79B9_7F4A_7C15);
        Seed { state: spread | 1 }
    }

    fn next(&mut self) -> u64 {
        let mut x = self.state;
        x ^= x << 13;
        x ^= x >> 7;
        x ^= x << 17;
        self.state = x;
        x.wrapping_mul(0x2545_F491_4F6C_DD1D) >> 20
    }

    /// One of the numbers from `low` to `high`.
    pub fn number(&mut self, low: u32, high: u32) -> u32 {
        let width = u64::from(high.saturating_sub(low)).saturating_add(1);
        let above = self.next() % width.max(1);
        low.saturating_add(u32::try_from(above).unwrap_or(0))
    }

    // Kept beside `number`: one function of both types would leave the type of literals open.
    pub fn byte(&mut self, low: u8, high: u8) -> u8 {
        let drawn = self.number(u32::from(low), u32::from(high));
        u8::try_from(drawn).unwrap_or(high)
    }

    /// A number below `count`, or 0 where there is none.
    pub fn index(&mut self, count: usize) -> usize {
        let last = u32::try_from(count.saturating_sub(1)).unwrap_or(u32::MAX);
        // Kept as a cast: no `From` leads from u32 to usize.
        self.number(0, last) as usize
    }

    /// Yes once in `often` times.
    pub fn once_in(&mut self, often: u32) -> bool {
        self.number(1, often) == 1
    }

    /// One of the choices, where there are any.
    pub fn any_of<T: Copy>(&mut self, choices: &[T]) -> Option<T> {
        choices.get(self.index(choices.len())).copied()
    }

    pub fn one_of<T: Copy + Default + Drop>(&mut self, choices: &[T]) -> T {
        self.any_of(choices).unwrap_or_default()
    }
}
