use crate::deque_rule::{Below, Keeps};
use crossbeam_deque::{Pass, Steal, Stealer};
use std::alloc::Global;
use std::marker::Model;

/// A handle that steals from another member's deque.
#[derive(Drop)]
pub(crate) struct Thief {
    stealer: Stealer<u32, Global, u32, Below>,
    pass: Pass<u32, u32>,
}

impl Model for Thief {
    ghost use Rattle.std.specs.Prelude.{ℕ};
    ghost use Rattle.crossbeam_deque.specs.Handles.{IsPassOf, stealer_deque};
    ghost use Rattle.crossbeam_deque.specs.Handles.{view as told};

    ghost Value = { ℕ };

    // How many regions there are.
    ghost view = { λ thief. told thief.pass };

    ghost invariant = { λ thief. IsPassOf (stealer_deque thief.stealer) thief.pass };
}

impl Thief {
    ghost use Rattle.std.specs.Prelude.{◌≡◌, ◌<◌, IfSome};
    ghost use Rattle.crossbeam_deque.specs.Handles.{IsPassOf, stealer_deque, view};

    pub(crate) fn new(stealer: Stealer<u32, Global, u32, Below>, pass: Pass<u32, u32>) -> Thief
        requires { IsPassOf (stealer_deque stealer) pass }
        ensures { result ≡ view pass }
    {
        Thief { stealer, pass }
    }

    /// Steals the number that was pushed first. Where another thread takes it meanwhile, it tries once more.
    pub(crate) fn steal(&mut self) -> Option<u32>
        ensures same { self.new ≡ self.old }
        ensures below { IfSome result (λ region. region < self.old) }
    {
        match self.stealer.steal_as::<Keeps>(&mut self.pass) {
            Steal::Success(region) => Some(region),
            Steal::Empty => None,
            Steal::Retry => self.stealer.steal_as::<Keeps>(&mut self.pass).success(),
        }
    }
}
