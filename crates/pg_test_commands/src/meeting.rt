//! Two workers of a run are under way at once, through the top call: in the run of a line that is answered by reuse each waits for a
//! flag that the other sets in the middle of its segment. No contract says so much of host threads.

use crate::memory::{shelf_of, source_of, words_of};
use pg_commands::pg_go::{AnyHook, Crew, Together};
use pg_commands::{Status, peregrine};
use pg_free::Free;
use pg_io::MemorySink;
use pg_ir::{InstrId, ThreadNo};
use pg_session_trial::trial_program;
use pg_worker::Hook;
use std::alloc::{AllocError, Global};
use std::sync::Arc;
use std::sync::atomic::AtomicBool;
use std::sync::atomic::Ordering::SeqCst;
use std::test::Fail;
use std::thread::yield_now;

/// The most looks at a flag.
const POLLS: u32 = 10_000_000;

/// The first instruction of main behind its two creates.
const BEHIND_CREATES: InstrId = InstrId(26);

/// The first instruction of the function that both threads run.
const FIRST: InstrId = InstrId(0);

/// The flags that the hooks set.
#[derive(Drop)]
struct Flags {
    /// Main has made both threads.
    made: AtomicBool,
    /// Thread 1 has begun, and hasn't ended its segment.
    first: AtomicBool,
    /// Thread 2 has begun, and hasn't ended its segment.
    second: AtomicBool,
    /// A wait ended without its flag.
    missed: AtomicBool,
}

impl Flags {
    /// Waits until a flag is set.
    fn wait_for(&self, flag: &AtomicBool) {
        for _ in 0..POLLS {
            if flag.load(SeqCst) {
                return;
            }
            yield_now();
        }
        self.missed.store(true, SeqCst);
    }
}

/// The hook of a worker.
#[derive(Drop)]
struct Meeting {
    flags: Arc<Flags, Global>,
}

impl Hook for Meeting {
    fn at_action(&self, thread: ThreadNo, at: InstrId, is_start: bool) {
        let flags = &*self.flags;
        match thread.0 {
            0 if at == BEHIND_CREATES => flags.made.store(true, SeqCst),
            1 if is_start => flags.wait_for(&flags.made),
            1 if at == FIRST => {
                flags.first.store(true, SeqCst);
                flags.wait_for(&flags.second);
            }
            2 if is_start => flags.wait_for(&flags.first),
            2 if at == FIRST => flags.second.store(true, SeqCst),
            _ => {}
        }
    }
}

/// A hook for each of three workers.
fn hooks_of(alloc: Global, flags: &Arc<Flags, Global>) -> Result<Vec<AnyHook>, AllocError> {
    let mut hooks = Vec::new(alloc);
    for _ in 0..3 {
        let flags = Arc::try_clone(flags)?;
        let hook: Box<dyn Hook + Sync + Drop> = Box::new(alloc, Meeting { flags })?;
        hooks.push(AnyHook::new(hook))?;
    }
    Ok(hooks)
}

#[test]
fn two_workers_meet(rt: HostRuntime) -> Result<(), Fail> {
    let alloc = rt.alloc();
    let flags = Arc::new(
        alloc,
        Flags {
            made: AtomicBool::new(false),
            first: AtomicBool::new(false),
            second: AtomicBool::new(false),
            missed: AtomicBool::new(false),
        },
    )?;
    let mut crew = Together::new(hooks_of(alloc, &flags)?);
    let words = words_of(alloc, "serve x --quantum 10")?;
    let mut shelf = shelf_of(alloc, trial_program().as_bytes())?;
    let mut src = source_of(alloc, b"1 2 3\n1 2 3\n")?;
    let mut out = MemorySink::new(alloc, 200, Vec::new(alloc))?;
    let mut free = Free::new();
    let status = peregrine(
        &rt, alloc, &words, &mut src, &mut shelf, &mut out, &mut free, &mut crew,
    );
    assert_eq!(rt; status, Status::Done);
    assert_eq!(rt;
        out.bytes(),
        b"recorded 0\n12\nexit 0 after 15 turns\nreused 0\n12\nexit 0 after 15 turns\n".as_slice()
    );
    assert!(rt; flags.made.load(SeqCst) && flags.first.load(SeqCst) && flags.second.load(SeqCst));
    assert!(rt; !flags.missed.load(SeqCst));
    assert_eq!(rt; crew.count(), 15);
    Ok(())
}
