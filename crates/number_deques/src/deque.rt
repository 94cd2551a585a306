use crate::deque_rule::{Below, Keeps, Opens, Tells};
use crate::thief::Thief;
use crossbeam_deque::Worker;
use no_memory::NoMemory;
use std::alloc::Global;
use std::marker::Model;

/// A first-in-first-out deque of numbers of regions. Its owner pushes and pops, and thieves steal.
#[derive(Drop)]
pub(crate) struct Deque {
    worker: Worker<u32, Global, u32, Below>,
}

impl Model for Deque {
    ghost use Rattle.std.specs.Prelude.{◌≡◌, ◌≢◌, ℕ};
    ghost use Rattle.crossbeam_deque.specs.Handles.{worker_flavor, worker_view};

    ghost Value = { ℕ };

    // How many regions there are.
    ghost view = { λ deque. worker_view deque.worker };

    ghost invariant = { λ deque. (worker_flavor deque.worker ≡ 0) × (worker_view deque.worker ≢ 0) };
}

impl Deque {
    ghost use Rattle.std.specs.Prelude.{◌≡◌, ◌<◌, ◌≤◌, IfOk, IfSome};

    /// An empty deque.
    pub(crate) fn new(alloc: Global, regions: u32) -> Result<Deque, NoMemory>
        requires { 1 ≤ regions }
        ensures { IfOk result (λ deque. deque ≡ regions) }
    {
        let mut worker = Worker::<u32, Global, u32, Below>::fifo_as(alloc, 64)?;
        // By the first push all passes to come know how many regions there are.
        if worker.push_as::<Opens>(regions - 1).is_err() {
            return Err(NoMemory);
        }
        let mut deque = Deque { worker };
        deque.pop();
        Ok(deque)
    }

    /// Pushes a number, and gives whether there was memory for it.
    pub(crate) fn push(&mut self, region: u32) -> bool
        requires { region < self.old }
        ensures { self.new ≡ self.old }
    {
        self.worker.push_as::<Keeps>(region).is_ok()
    }

    /// Pops the number that was pushed first.
    pub(crate) fn pop(&mut self) -> Option<u32>
        ensures same { self.new ≡ self.old }
        ensures below { IfSome result (λ region. region < self.old) }
    {
        self.worker.pop_as::<Keeps>()
    }

    /// A handle for another thread.
    pub(crate) fn thief(&mut self) -> Result<Thief, NoMemory>
        ensures same { self.new ≡ self.old }
        ensures knows { IfOk result (λ thief. thief ≡ self.old) }
    {
        let stealer = self.worker.stealer()?;
        let pass = self.worker.another::<Tells>();
        Ok(Thief::new(stealer, pass))
    }
}
