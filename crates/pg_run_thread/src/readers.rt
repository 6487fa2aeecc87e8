//! What is read of a thread.

ghost use Rattle.std.specs.Prelude.{◌≡◌, length, slice_get};
ghost use Rattle.pg_run_thread.specs.Operands.{flat};
ghost use Rattle.pg_run_thread.specs.Step.{top_registers};

use crate::fiber::Fiber;

impl Fiber {
    /// The value of a register of the present call; none where it was never set or isn't there, and where
    /// the thread has ended.
    #[tactic(auto, using(crate::proofs::Registers::no_registers))]
    pub fn register(&self, r: u32) -> Option<u64>
        ensures value { result ≡ flat (slice_get (top_registers self.now.frames) r) }
    {
        if self.is_ended() {
            return None;
        }
        match self.top().get(r as usize) {
            Some(value) => *value,
            None => None,
        }
    }

    /// How many calls are open; none where the thread has ended.
    pub fn open_calls(&self) -> u32
        ensures count { result ≡ length self.now.frames }
    {
        if self.is_ended() { 0 } else { self.depth() }
    }
}
