//! The known functions, and the one with which a program begins, by their names.

ghost use Rattle.std.specs.Prelude.{◌≡◌};
ghost use Rattle.std.specs.List.{find};
ghost use Rattle.std.specs.Str.{bytes_eq};
ghost use Rattle.pg_check_rules.specs.Conditions.{main_name};
ghost use Rattle.pg_check_rules.specs.KnownNames.{known_name, known_named};

use pg_ir::LibraryCall;

/// The known functions.
const KNOWN_FUNCTIONS: [LibraryCall; 23] = [
    LibraryCall::PgIn,
    LibraryCall::PgInLen,
    LibraryCall::PgOut,
    LibraryCall::PgPrint,
    LibraryCall::Putchar,
    LibraryCall::Malloc,
    LibraryCall::Free,
    LibraryCall::PthreadCreate,
    LibraryCall::PthreadJoin,
    LibraryCall::PthreadExit,
    LibraryCall::PthreadMutexInit,
    LibraryCall::PthreadMutexLock,
    LibraryCall::PthreadMutexTrylock,
    LibraryCall::PthreadMutexUnlock,
    LibraryCall::PthreadMutexDestroy,
    LibraryCall::PthreadCondInit,
    LibraryCall::PthreadCondWait,
    LibraryCall::PthreadCondSignal,
    LibraryCall::PthreadCondBroadcast,
    LibraryCall::PthreadCondDestroy,
    LibraryCall::PthreadBarrierInit,
    LibraryCall::PthreadBarrierWait,
    LibraryCall::PthreadBarrierDestroy,
];

#[tactic(auto, unfolding(crate::specs::KnownNames::known_name))]
fn known_name(function: LibraryCall) -> &'static [u8]
    ensures { result.now ≡ known_name function }
{
    match function {
        LibraryCall::PgIn => b"pg_in",
        LibraryCall::PgInLen => b"pg_in_len",
        LibraryCall::PgOut => b"pg_out",
        LibraryCall::PgPrint => b"pg_print",
        LibraryCall::Putchar => b"putchar",
        LibraryCall::Malloc => b"malloc",
        LibraryCall::Free => b"free",
        LibraryCall::PthreadCreate => b"pthread_create",
        LibraryCall::PthreadJoin => b"pthread_join",
        LibraryCall::PthreadExit => b"pthread_exit",
        LibraryCall::PthreadMutexInit => b"pthread_mutex_init",
        LibraryCall::PthreadMutexLock => b"pthread_mutex_lock",
        LibraryCall::PthreadMutexTrylock => b"pthread_mutex_trylock",
        LibraryCall::PthreadMutexUnlock => b"pthread_mutex_unlock",
        LibraryCall::PthreadMutexDestroy => b"pthread_mutex_destroy",
        LibraryCall::PthreadCondInit => b"pthread_cond_init",
        LibraryCall::PthreadCondWait => b"pthread_cond_wait",
        LibraryCall::PthreadCondSignal => b"pthread_cond_signal",
        LibraryCall::PthreadCondBroadcast => b"pthread_cond_broadcast",
        LibraryCall::PthreadCondDestroy => b"pthread_cond_destroy",
        LibraryCall::PthreadBarrierInit => b"pthread_barrier_init",
        LibraryCall::PthreadBarrierWait => b"pthread_barrier_wait",
        LibraryCall::PthreadBarrierDestroy => b"pthread_barrier_destroy",
    }
}

/// The one of these functions that has a name.
fn known_among(functions: &[LibraryCall], text: &[u8]) -> Option<LibraryCall>
    ensures { result ≡ find (λ k. bytes_eq (known_name k) text.now) functions.now }
{
    for function in functions {
        if known_name(*function) == text {
            return Some(*function);
        }
    }
    None
}

/// The known function of a name.
#[tactic(auto, unfolding(crate::specs::KnownNames::known_named))]
pub fn known_named(text: &[u8]) -> Option<LibraryCall>
    ensures { result ≡ known_named text.now }
{
    known_among(&KNOWN_FUNCTIONS, text)
}

/// Whether a name is that of the function with which a program begins.
pub fn is_main(text: &[u8]) -> bool
    ensures { result ≡ bytes_eq text.now main_name }
{
    text == b"main".as_slice()
}
