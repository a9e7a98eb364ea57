ghost use Rattle.std.specs.Prelude.{◌≡◌, ◌<◌, ◌%◌, ◌^◌};
ghost use Rattle.cosim_levels.specs.SoakProgram.{draw, next};

/// Numbers drawn one after another: x becomes x * 6364136223846793005 + 1442695040888963407 modulo 2^64, and a draw is x divided by 2^33.
#[derive(Clone, Copy, PartialEq, Eq)]
pub struct Draws {
    pub x: u64,
}

/// The next draw, which is below 2^31.
pub fn draw(draws: &mut Draws) -> u64
    ensures value { result ≡ draw draws.old.x }
    ensures after { draws.new.x ≡ next draws.old.x }
    ensures bound { result < 2 ^ 31 }
{
    draws.x = draws
        .x
        .wrapping_mul(6_364_136_223_846_793_005)
        .wrapping_add(1_442_695_040_888_963_407);
    draws.x >> 33
}

/// The next draw modulo a number that is not 0.
pub fn draw_below(draws: &mut Draws, bound: u64) -> u64
    requires { 0 < bound }
    ensures value { result ≡ draw draws.old.x % bound }
    ensures after { draws.new.x ≡ next draws.old.x }
    ensures bound { result < bound }
{
    draw(draws) % bound
}
