use std::marker::Model;
use std::thread::yield_now;

/// How often a call has let other threads go on.
#[derive(Debug, Drop)]
pub struct Pauses {
    made: u64,
}

impl Model for Pauses {
    ghost use Rattle.std.specs.Prelude.{ℕ};

    ghost Value = { ℕ };

    ghost view = { λ pauses. pauses.made };
}

impl Pauses {
    ghost use Rattle.std.specs.Prelude.{◌≡◌, ◌+◌, ◌<◌, ◌^◌};

    /// Not once yet.
    pub fn none() -> Pauses
        ensures { result ≡ 0 }
    {
        Pauses { made: 0 }
    }

    /// Lets others go on so many times more.
    pub fn pause(&mut self, times: u32)
        requires { self.old + times < 2 ^ 64 }
        ensures { self.new ≡ self.old + times }
    {
        let mut made = 0;
        while made < times {
            yield_now();
            made += 1;
        }
        self.made += u64::from(made);
    }
}
