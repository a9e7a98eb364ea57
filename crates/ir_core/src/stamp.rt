ghost use Rattle.std.specs.Prelude.{◌≡◌, ℕ, ◌+◌, ◌≤◌, Bool, true, refl};

/// When an operation starts and on which unit.
pub trait Stamp: Copy {
    ghost start: { Self → ℕ };

    ghost number: { Self → ℕ };

    ghost is_ready: { Self → Self → ℕ → ℕ → ℕ → Bool };

    /// The cycle in which the operation starts, counted from the beginning of its block or iteration.
    fn time(&self) -> u64
        ensures { result ≡ start self.now };

    /// The number of its unit within its class.
    fn unit(&self) -> u32
        ensures { result ≡ number self.now };

    /// Whether a later operation, `distance` iterations further on, may use what is there `latency` cycles after this one starts, where an iteration begins `ii` cycles after the one before it.
    fn fits(&self, later: &Self, latency: u32, distance: u32, ii: u32) -> bool
        ensures { result ≡ is_ready self.now later.now latency distance ii };

    ghost is_ready_sooner: { (one two : Self) (most latency distance ii : ℕ) → latency ≤ most → is_ready one two most distance ii ≡ true → is_ready one two latency distance ii ≡ true };

    ghost is_ready_onward: { (one two three : Self) (latency next_latency distance next_distance ii : ℕ) →
        is_ready one two latency distance ii ≡ true →
        is_ready two three next_latency next_distance ii ≡ true →
        is_ready one three (latency + next_latency) (distance + next_distance) ii ≡ true };
}

/// No time and no unit.
#[derive(Clone, Copy, PartialEq, Eq)]
pub struct Untimed;

impl Stamp for Untimed {
    ghost start = { λ one. 0 };

    ghost number = { λ one. 0 };

    ghost is_ready = { λ one two latency distance ii. true };

    ghost is_ready_sooner = { λ one two most latency distance ii fewer ready. refl };

    ghost is_ready_onward = { λ one two three latency next_latency distance next_distance ii first next. refl };

    fn time(&self) -> u64 {
        0
    }

    fn unit(&self) -> u32 {
        0
    }

    fn fits(&self, _later: &Self, _latency: u32, _distance: u32, _ii: u32) -> bool {
        true
    }
}
