//! The actions of known functions.

ghost use Rattle.std.specs.Prelude.{◌≡◌, ℕ, ◌<◌, ◌^◌, length, Err};
ghost use Rattle.pg_run_thread.specs.Operands.{number_at};
ghost use Rattle.std.specs.List.{AllByRecursion};
ghost use Rattle.pg_ir.specs.pg_num.Places.{ByteRange};
ghost use Rattle.pg_ir.specs.pg_num.Numbers.{signed};
ghost use Rattle.pg_ir.specs.pg_num.declared.width.Width.TheVariants.{W64};
ghost use Rattle.pg_ir.specs.pg_num.declared.limits.TheConstants.{THREAD_LIMIT};
ghost use Rattle.pg_ir.specs.Operands.{CanRead};
ghost use Rattle.pg_run_thread.specs.declared.action.Action.{Action};
ghost use Rattle.pg_run_thread.specs.Step.{placed, on_place, library_action, library_number, object_action, init_action, barrier_init_action, create_action, join_action, join_at, wait_action};
ghost use Rattle.pg_run_thread.specs.Step.{wait_request, exit_value};
ghost use Rattle.pg_run_thread.specs.Needs.{object_request, TakesNumber, KnownWidths};

use crate::action::Action;
use crate::operands::argument_of;
use crate::present::Present;
use crate::thread_memory::{ThreadMemory, allocated};
use pg_ir::pg_num::{PlaceFault, Width, place, trunc};
use pg_ir::{LibraryCall, Program, Request, TrapName, Value};

/// The trap of an access that has no place.
pub(crate) fn fault_action(fault: PlaceFault) -> Action
    ensures { (act : ByteRange → Action) → result ≡ placed (Err fault) act }
{
    match fault {
        PlaceFault::OutOfRange => Action::Trap(TrapName::OutOfRange),
        PlaceFault::Misaligned => Action::Trap(TrapName::Misaligned),
    }
}

/// The signed reading of a number of 64 bits.
fn signed_reading(n: u64) -> i64
    ensures { result ≡ signed W64 n }
{
    if n <= i64::MAX as u64 {
        n as i64
    } else {
        -1 - (u64::MAX - n) as i64
    }
}

/// What a call that names one object asks of it.
fn object_request(function: LibraryCall, halfway: bool, object: u32) -> Request
    ensures { result ≡ object_request halfway function object }
{
    match function {
        LibraryCall::PthreadMutexInit => Request::MutexInit { object },
        LibraryCall::PthreadMutexLock => Request::Lock { object },
        LibraryCall::PthreadMutexTrylock => Request::Trylock { object },
        LibraryCall::PthreadMutexUnlock => Request::Unlock { object },
        LibraryCall::PthreadMutexDestroy => Request::MutexDestroy { object },
        LibraryCall::PthreadCondInit => Request::CondInit { object },
        LibraryCall::PthreadCondSignal => Request::Signal { object },
        LibraryCall::PthreadCondBroadcast => Request::Broadcast { object },
        LibraryCall::PthreadCondDestroy => Request::CondDestroy { object },
        LibraryCall::PthreadBarrierDestroy => Request::BarrierDestroy { object },
        _ => {
            if halfway {
                Request::Leave { object }
            } else {
                Request::Arrive { object }
            }
        }
    }
}

/// The action of a call that names one object.
fn object_action(p: &Program, here: &Present, function: LibraryCall, args: &[Value]) -> Action
    requires { AllByRecursion (CanRead p.now (length here.now.registers.now)) args.now }
    ensures { result ≡ object_action p.now here.now.registers.now args.now (λ o. object_request here.now.halfway function o) }
{
    let Some(word) = argument_of(p, here.registers, args, 0) else {
        return Action::Trap(TrapName::Unset);
    };
    match place(word, 8) {
        Ok(at) => Action::Event(object_request(function, here.halfway, at.start())),
        Err(fault) => fault_action(fault),
    }
}

/// The action of a call that names one object and its attributes.
fn init_action(p: &Program, here: &Present, function: LibraryCall, args: &[Value]) -> Action
    requires { AllByRecursion (CanRead p.now (length here.now.registers.now)) args.now }
    ensures { result ≡ init_action p.now here.now.registers.now args.now (λ o. object_request here.now.halfway function o) }
{
    let Some(word) = argument_of(p, here.registers, args, 0) else {
        return Action::Trap(TrapName::Unset);
    };
    let Some(attribute) = argument_of(p, here.registers, args, 1) else {
        return Action::Trap(TrapName::Unset);
    };
    match place(word, 8) {
        Ok(_) if attribute != 0 => Action::Trap(TrapName::BadAttribute),
        Ok(at) => Action::Event(object_request(function, here.halfway, at.start())),
        Err(fault) => fault_action(fault),
    }
}

/// The action of `pthread_barrier_init`.
fn barrier_init_action(p: &Program, here: &Present, args: &[Value]) -> Action
    requires operands { AllByRecursion (CanRead p.now (length here.now.registers.now)) args.now }
    requires width { number_at p.now here.now.registers.now args.now 2 < 2 ^ 32 }
    ensures { result ≡ barrier_init_action p.now here.now.registers.now args.now }
{
    let Some(word) = argument_of(p, here.registers, args, 0) else {
        return Action::Trap(TrapName::Unset);
    };
    let Some(attribute) = argument_of(p, here.registers, args, 1) else {
        return Action::Trap(TrapName::Unset);
    };
    let Some(count) = argument_of(p, here.registers, args, 2) else {
        return Action::Trap(TrapName::Unset);
    };
    match place(word, 8) {
        Ok(_) if attribute != 0 => Action::Trap(TrapName::BadAttribute),
        Ok(at) => Action::Event(Request::BarrierInit {
            object: at.start(),
            count: count as u32,
        }),
        Err(fault) => fault_action(fault),
    }
}

/// The action of `pthread_create`.
fn create_action(p: &Program, here: &Present, args: &[Value]) -> Action
    requires operands { AllByRecursion (CanRead p.now (length here.now.registers.now)) args.now }
    requires width { number_at p.now here.now.registers.now args.now 2 < 2 ^ 32 }
    ensures { result ≡ create_action p.now here.now.registers.now args.now }
{
    let Some(word) = argument_of(p, here.registers, args, 0) else {
        return Action::Trap(TrapName::Unset);
    };
    let Some(attribute) = argument_of(p, here.registers, args, 1) else {
        return Action::Trap(TrapName::Unset);
    };
    let Some(function) = argument_of(p, here.registers, args, 2) else {
        return Action::Trap(TrapName::Unset);
    };
    let Some(argument) = argument_of(p, here.registers, args, 3) else {
        return Action::Trap(TrapName::Unset);
    };
    match place(word, 8) {
        Ok(_) if attribute != 0 => Action::Trap(TrapName::BadAttribute),
        Ok(at) => Action::Event(Request::Create {
            at,
            function: function as u32,
            argument,
        }),
        Err(fault) => fault_action(fault),
    }
}

/// The action of `pthread_join`: the value of the joined thread is written unless the pointer is null.
fn join_action(p: &Program, here: &Present, args: &[Value]) -> Action
    requires { AllByRecursion (CanRead p.now (length here.now.registers.now)) args.now }
    ensures { result ≡ join_action p.now here.now.registers.now args.now }
{
    let Some(target) = argument_of(p, here.registers, args, 0) else {
        return Action::Trap(TrapName::Unset);
    };
    let Some(word) = argument_of(p, here.registers, args, 1) else {
        return Action::Trap(TrapName::Unset);
    };
    if word == 0 {
        return Action::Event(Request::Join { target, at: None });
    }
    match place(word, 8) {
        Ok(at) => Action::Event(Request::Join {
            target,
            at: Some(at),
        }),
        Err(fault) => fault_action(fault),
    }
}

/// A wait on a condition is two steps: the mutex is given back, and taken again.
fn wait_request(halfway: bool, condition: u32, mutex: u32) -> Request
    ensures { result ≡ wait_request halfway condition mutex }
{
    if halfway {
        Request::Wake { condition, mutex }
    } else {
        Request::Wait { condition, mutex }
    }
}

/// The action of `pthread_cond_wait`.
fn wait_action(p: &Program, here: &Present, args: &[Value]) -> Action
    requires { AllByRecursion (CanRead p.now (length here.now.registers.now)) args.now }
    ensures { result ≡ wait_action p.now here.now.halfway here.now.registers.now args.now }
{
    let Some(condition) = argument_of(p, here.registers, args, 0) else {
        return Action::Trap(TrapName::Unset);
    };
    let Some(mutex) = argument_of(p, here.registers, args, 1) else {
        return Action::Trap(TrapName::Unset);
    };
    match place(condition, 8) {
        Ok(condition) => match place(mutex, 8) {
            Ok(mutex) => Action::Event(wait_request(
                here.halfway,
                condition.start(),
                mutex.start(),
            )),
            Err(fault) => fault_action(fault),
        },
        Err(fault) => fault_action(fault),
    }
}

/// `pthread_exit` in main ends main with 0.
fn exit_value(thread: u8, n: u64) -> u64
    ensures { result ≡ exit_value thread n }
{
    if thread == 0 { 0 } else { n }
}

/// The action of a call of a known function that takes a number, or nothing.
fn number_action(p: &Program, here: &Present, function: LibraryCall, args: &[Value]) -> Action
    requires kind { TakesNumber function }
    requires operands { AllByRecursion (CanRead p.now (length here.now.registers.now)) args.now }
    ensures { result ≡ library_action p.now here.now.memory.thread here.now.halfway here.now.registers.now function args.now }
{
    let Some(n) = argument_of(p, here.registers, args, 0) else {
        return Action::Trap(TrapName::Unset);
    };
    match function {
        LibraryCall::PgIn => Action::In(signed_reading(n)),
        LibraryCall::PgOut => Action::Event(Request::Out {
            value: n,
            ends_line: true,
        }),
        LibraryCall::PgPrint => Action::Event(Request::Out {
            value: n,
            ends_line: false,
        }),
        LibraryCall::Putchar => Action::Event(Request::Putchar { value: n }),
        LibraryCall::PthreadExit => Action::Event(Request::Exit {
            value: exit_value(here.memory.thread, n),
            is_return: false,
        }),
        _ => Action::Local,
    }
}

/// The action of a call of a known function. `here` comes by its value: by reference, each step of the
/// machine would have to put it into memory.
pub(crate) fn library_action(
    p: &Program,
    here: Present,
    function: LibraryCall,
    args: &[Value],
) -> Action
    requires operands { AllByRecursion (CanRead p.now (length here.registers.now)) args.now }
    requires width { KnownWidths p.now here.registers.now function args.now }
    ensures { result ≡ library_action p.now here.entry.memory.thread here.entry.halfway here.entry.registers.now function args.now }
{
    match function {
        LibraryCall::PgInLen => Action::InLen,
        LibraryCall::PgIn
        | LibraryCall::PgOut
        | LibraryCall::PgPrint
        | LibraryCall::Putchar
        | LibraryCall::Malloc
        | LibraryCall::Free
        | LibraryCall::PthreadExit => { number_action(p, &here, function, args) }
        LibraryCall::PthreadCreate => create_action(p, &here, args),
        LibraryCall::PthreadJoin => join_action(p, &here, args),
        LibraryCall::PthreadMutexInit => init_action(p, &here, LibraryCall::PthreadMutexInit, args),
        LibraryCall::PthreadCondInit => init_action(p, &here, LibraryCall::PthreadCondInit, args),
        LibraryCall::PthreadCondWait => wait_action(p, &here, args),
        LibraryCall::PthreadBarrierInit => barrier_init_action(p, &here, args),
        _ => object_action(p, &here, function, args),
    }
}

/// The number that a call of a known function gives its register: its first operand tells the size of
/// an allocation, and every other call's number is the answer, cut to the width of what it returns.
pub(crate) fn library_number(memory: ThreadMemory, function: LibraryCall, n: u64, reply: u64) -> u64
    requires { memory.thread < THREAD_LIMIT }
    ensures { result ≡ library_number memory function n reply }
{
    match function {
        LibraryCall::Malloc => allocated(memory, n),
        LibraryCall::PgIn
        | LibraryCall::PgInLen
        | LibraryCall::PgOut
        | LibraryCall::PgPrint
        | LibraryCall::Free
        | LibraryCall::PthreadExit => reply,
        _ => trunc(Width::W32, reply),
    }
}
