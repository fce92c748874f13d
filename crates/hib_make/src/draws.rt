// Numbers that are drawn one after another, by which a made script gets its rows, sessions and schedule.
ghost use Rattle.std.specs.Prelude.{◌≡◌, ◌<◌};
ghost use Rattle.hib_make.specs.Draws.{after_draw, drawn, seeded};

use std::marker::Model;

/// Numbers that are drawn one after another. They follow from a seed.
#[derive(Drop)]
pub struct Draws {
    state: u64,
}

impl Model for Draws {
    ghost use Rattle.std.specs.Prelude.{ℕ};

    ghost Value = { ℕ };

    ghost view = { λ d. d.state };
}

impl Draws {
    /// The draws of a seed.
    pub fn new(seed: u32) -> Self
        ensures { result ≡ seeded seed }
    {
        Draws {
            state: u64::from(seed) + 1,
        }
    }

    /// The next number, one of the first `count`, from 0. There must be one.
    pub fn draw(&mut self, count: u32) -> u32
        requires { 0 < count }
        ensures below { result < count }
        ensures drawn { result ≡ drawn count self.old }
        ensures state { self.new ≡ after_draw self.old }
    {
        self.state = after_draw(self.state);
        (self.state % u64::from(count)) as u32
    }
}

/// The state after one more draw, by shifts and exclusive ors.
#[tactic(auto, unfolding(crate::specs::Draws::after_draw))]
fn after_draw(state: u64) -> u64
    ensures { result ≡ after_draw state }
{
    let left = state ^ (state << 13);
    let right = left ^ (left >> 7);
    right ^ (right << 17)
}
