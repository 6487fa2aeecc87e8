//! Worked rows: requests in order, and what each is answered by the rules of POSIX threads.

use pg_ir::{Request, ThreadNo, TrapName};
use pg_num::{Place, Pointer, pack, place};
use pg_run_objects::{SyncState, SyncTrap};
use std::alloc::Global;
use std::test::Fail;

#[derive(Clone, Copy, Debug, PartialEq, Eq)]
enum Answer {
    /// The thread can't ask this now.
    Misplaced,
    Waits,
    Says(u64),
    /// It returns 0, and gives the exit value of a thread.
    Joins(u8),
    Traps(TrapName),
}

use Answer::{Joins, Misplaced, Says, Traps, Waits};

fn ask(state: &mut SyncState, t: u8, request: Request) -> Answer {
    let thread = ThreadNo(t);
    if !state.may_ask(thread, &request) {
        return Misplaced;
    }
    if !state.ready(thread, &request) {
        return Waits;
    }
    match state.apply(thread, &request) {
        Ok(reply) => match reply.exit_of {
            Some(joined) => Joins(joined.0),
            None => Says(reply.value),
        },
        Err(SyncTrap(name)) => Traps(name),
    }
}

/// The first row whose answer is another, and that answer.
fn first_difference(
    state: &mut SyncState,
    rows: &[(u8, Request, Answer)],
) -> Option<(usize, Answer)> {
    for (i, &(t, request, want)) in rows.iter().enumerate() {
        let found = ask(state, t, request);
        if found != want {
            return Some((i, found));
        }
    }
    None
}

fn somewhere() -> Result<Place, Fail> {
    let word = pack(Pointer {
        start: 1,
        length: 8,
        offset: 0,
    });
    Ok(place(word, 8).ok().ok_or("no place")?)
}

/// A state with this many threads, all of which have begun.
fn begun(alloc: Global, count: u8) -> Result<SyncState, Fail> {
    let mut state = SyncState::new(alloc)?;
    let create = Request::Create {
        at: somewhere()?,
        function: 1,
        argument: 0,
    };
    ask(&mut state, 0, Request::Start);
    for t in 1..count {
        ask(&mut state, 0, create);
        ask(&mut state, t, Request::Start);
    }
    Ok(state)
}

const LOCK: Request = Request::Lock { object: 8 };

const UNLOCK: Request = Request::Unlock { object: 8 };

const DESTROY: Request = Request::MutexDestroy { object: 8 };

#[test]
fn mutexes(rt: HostRuntime) -> Result<(), Fail> {
    let mut state = begun(rt.alloc(), 2)?;
    let rows = [
        (0, LOCK, Says(0)),
        (1, LOCK, Waits),
        (0, LOCK, Waits),
        (1, Request::Trylock { object: 8 }, Says(16)),
        (1, UNLOCK, Traps(TrapName::NotOwner)),
        (1, DESTROY, Traps(TrapName::BusyObject)),
        (
            1,
            Request::MutexInit { object: 8 },
            Traps(TrapName::BusyObject),
        ),
        (
            1,
            Request::Signal { object: 8 },
            Traps(TrapName::WrongObject),
        ),
        (
            1,
            Request::Arrive { object: 8 },
            Traps(TrapName::WrongObject),
        ),
        (0, UNLOCK, Says(0)),
        (0, UNLOCK, Traps(TrapName::NotOwner)),
        (1, Request::Trylock { object: 8 }, Says(0)),
        (0, LOCK, Waits),
        (1, UNLOCK, Says(0)),
        (1, DESTROY, Says(0)),
        (0, DESTROY, Says(0)),
        (0, Request::Unlock { object: 16 }, Traps(TrapName::NotOwner)),
        (
            0,
            Request::BarrierInit {
                object: 8,
                count: 2,
            },
            Says(0),
        ),
        (0, LOCK, Traps(TrapName::WrongObject)),
        (0, Request::Leave { object: 8 }, Misplaced),
    ];
    assert_eq!(rt; first_difference(&mut state, &rows), None);
    Ok(())
}

const WAIT: Request = Request::Wait {
    condition: 64,
    mutex: 8,
};

const WAKE: Request = Request::Wake {
    condition: 64,
    mutex: 8,
};

const SIGNAL: Request = Request::Signal { object: 64 };

#[test]
fn conditions(rt: HostRuntime) -> Result<(), Fail> {
    let mut state = begun(rt.alloc(), 4)?;
    let rows = [
        (1, WAIT, Traps(TrapName::NotOwner)),
        (
            1,
            Request::Wait {
                condition: 64,
                mutex: 64,
            },
            Traps(TrapName::NotOwner),
        ),
        (2, LOCK, Says(0)),
        (2, WAIT, Says(0)),
        (2, WAKE, Waits),
        (2, LOCK, Misplaced),
        (1, LOCK, Says(0)),
        (1, WAIT, Says(0)),
        (3, LOCK, Says(0)),
        (3, WAIT, Says(0)),
        (
            0,
            Request::CondInit { object: 64 },
            Traps(TrapName::BusyObject),
        ),
        (
            0,
            Request::CondDestroy { object: 64 },
            Traps(TrapName::BusyObject),
        ),
        (0, SIGNAL, Says(0)),
        (1, WAKE, Waits),
        (3, WAKE, Waits),
        (0, LOCK, Says(0)),
        (2, WAKE, Waits),
        (0, UNLOCK, Says(0)),
        (2, WAKE, Says(0)),
        (0, LOCK, Waits),
        (2, UNLOCK, Says(0)),
        (0, Request::Broadcast { object: 64 }, Says(0)),
        (3, WAKE, Says(0)),
        (1, WAKE, Waits),
        (3, UNLOCK, Says(0)),
        (1, WAKE, Says(0)),
        (
            1,
            Request::Wait {
                condition: 8,
                mutex: 8,
            },
            Traps(TrapName::WrongObject),
        ),
        (1, WAIT, Says(0)),
        (0, SIGNAL, Says(0)),
        (0, SIGNAL, Says(0)),
        (0, Request::CondDestroy { object: 64 }, Says(0)),
        (0, DESTROY, Says(0)),
        (1, WAKE, Says(0)),
        (0, LOCK, Waits),
        (1, WAIT, Says(0)),
        (0, SIGNAL, Says(0)),
        (0, DESTROY, Says(0)),
        (0, Request::CondInit { object: 8 }, Says(0)),
        (1, WAKE, Traps(TrapName::WrongObject)),
    ];
    assert_eq!(rt; first_difference(&mut state, &rows), None);
    Ok(())
}

const ARRIVE: Request = Request::Arrive { object: 8 };

const LEAVE: Request = Request::Leave { object: 8 };

const REMOVE: Request = Request::BarrierDestroy { object: 8 };

fn barrier(count: u32) -> Request {
    Request::BarrierInit { object: 8, count }
}

#[test]
fn barriers(rt: HostRuntime) -> Result<(), Fail> {
    let mut state = begun(rt.alloc(), 3)?;
    let rows = [
        (0, ARRIVE, Traps(TrapName::WrongObject)),
        (0, REMOVE, Traps(TrapName::WrongObject)),
        (0, barrier(0), Says(22)),
        (0, ARRIVE, Traps(TrapName::WrongObject)),
        (0, barrier(3), Says(0)),
        (0, ARRIVE, Says(0)),
        (0, LEAVE, Waits),
        (1, barrier(2), Traps(TrapName::BusyObject)),
        (1, barrier(0), Says(22)),
        (1, REMOVE, Traps(TrapName::BusyObject)),
        (1, ARRIVE, Says(0)),
        (2, ARRIVE, Says(0)),
        (0, LEAVE, Says(0)),
        (2, LEAVE, Says(4_294_967_295)),
        (2, ARRIVE, Says(0)),
        (2, LEAVE, Waits),
        (1, LEAVE, Says(0)),
        (1, ARRIVE, Says(0)),
        (0, ARRIVE, Says(0)),
        (2, LEAVE, Says(0)),
        (2, REMOVE, Says(0)),
        (0, LEAVE, Says(4_294_967_295)),
        (2, LOCK, Says(0)),
        (1, LEAVE, Traps(TrapName::WrongObject)),
    ];
    assert_eq!(rt; first_difference(&mut state, &rows), None);
    Ok(())
}

fn join(target: u64) -> Request {
    Request::Join { target, at: None }
}

fn exit(is_return: bool) -> Request {
    Request::Exit {
        value: 5,
        is_return,
    }
}

fn print(ends_line: bool) -> Request {
    Request::Out {
        value: 7,
        ends_line,
    }
}

#[test]
fn threads(rt: HostRuntime) -> Result<(), Fail> {
    let mut state = begun(rt.alloc(), 1)?;
    let create = Request::Create {
        at: somewhere()?,
        function: 1,
        argument: 0,
    };
    let rows = [
        (0, join(0), Traps(TrapName::BadJoin)),
        (0, join(1), Traps(TrapName::BadJoin)),
        (0, join(256), Traps(TrapName::BadJoin)),
        (0, create, Says(0)),
        (0, join(1), Waits),
        (1, LOCK, Misplaced),
        (2, Request::Start, Misplaced),
        (1, Request::Start, Says(0)),
        (1, exit(true), Says(0)),
        (1, exit(true), Misplaced),
        (0, join(1), Joins(1)),
        (0, join(1), Traps(TrapName::BadJoin)),
        (0, print(true), Says(0)),
        (0, print(false), Says(0)),
        (0, Request::Putchar { value: 0x141 }, Says(0x41)),
    ];
    assert_eq!(rt; first_difference(&mut state, &rows), None);
    for _ in 2..64 {
        assert_eq!(rt; ask(&mut state, 0, create), Says(0));
    }
    assert_eq!(rt; ask(&mut state, 0, create), Traps(TrapName::TooManyThreads));
    assert_eq!(rt; (state.thread_count(), state.is_over()), (64, false));
    assert_eq!(rt; ask(&mut state, 0, exit(true)), Says(0));
    assert_eq!(rt; state.is_over(), true);
    Ok(())
}

#[test]
fn many_objects(rt: HostRuntime) -> Result<(), Fail> {
    let mut state = begun(rt.alloc(), 1)?;
    for i in 0..4_095_u32 {
        let object = (4_095 - i) * 8;
        assert_eq!(rt; ask(&mut state, 0, Request::Lock { object }), Says(0));
    }
    let rows = [
        (
            0,
            Request::Wait {
                condition: 32_768,
                mutex: 32_776,
            },
            Traps(TrapName::TooManyObjects),
        ),
        (
            0,
            Request::Wait {
                condition: 32_768,
                mutex: 8,
            },
            Says(0),
        ),
    ];
    assert_eq!(rt; first_difference(&mut state, &rows), None);
    let mut full = begun(rt.alloc(), 1)?;
    for i in 0..4_096_u32 {
        assert_eq!(rt; ask(&mut full, 0, Request::Lock { object: i * 8 }), Says(0));
    }
    let rows = [
        (
            0,
            Request::Lock { object: 32_768 },
            Traps(TrapName::TooManyObjects),
        ),
        (
            0,
            Request::Unlock { object: 32_768 },
            Traps(TrapName::TooManyObjects),
        ),
        (
            0,
            Request::MutexDestroy { object: 32_768 },
            Traps(TrapName::TooManyObjects),
        ),
        (
            0,
            Request::BarrierInit {
                object: 32_768,
                count: 0,
            },
            Traps(TrapName::TooManyObjects),
        ),
        (0, Request::Trylock { object: 8 }, Says(16)),
        (0, UNLOCK, Says(0)),
        (0, DESTROY, Says(0)),
        (0, Request::Lock { object: 32_768 }, Says(0)),
    ];
    assert_eq!(rt; first_difference(&mut full, &rows), None);
    Ok(())
}
