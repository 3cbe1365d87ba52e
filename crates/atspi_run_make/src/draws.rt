//! The numbers that are drawn.

ghost use Rattle.std.specs.Prelude.{◌≡◌, ◌<◌, ◌%◌};
ghost use Rattle.atspi_run_make.specs.Draws.{drawn, next_state};

/// Draws numbers, the same for the same seed.
#[derive(Clone, Copy, Debug, PartialEq, Eq)]
pub struct Draws {
    pub state: u32,
    ghost within: { state < 2147483648 },
}

impl Draws {
    /// Draws that begin with a seed.
    pub fn new(seed: u32) -> Draws
        requires { seed < 2147483648 }
        ensures { result.state ≡ seed }
    {
        Draws { state: seed }
    }

    /// The next number, which is below `most`.
    pub fn draw(&mut self, most: u32) -> u32
        requires { 0 < most }
        ensures state { self.new.state ≡ next_state self.old.state }
        ensures value { result ≡ drawn self.old.state % most }
        ensures below { result < most }
    {
        let next = (u64::from(self.state) * 1_103_515_245 + 12_345) % 2_147_483_648;
        self.state = next as u32;
        self.state / 65_536 % most
    }
}
