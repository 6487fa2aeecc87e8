//! The functions that a program may call without defining them.

/// The functions that a program may call without defining them: the program's input and output, the
/// C library's allocation, and the thread calls of POSIX.1-2017.
#[derive(Clone, Copy, Debug, PartialEq, Eq)]
pub enum LibraryCall {
    PgIn,
    PgInLen,
    PgOut,
    PgPrint,
    Putchar,
    Malloc,
    Free,
    PthreadCreate,
    PthreadJoin,
    PthreadExit,
    PthreadMutexInit,
    PthreadMutexLock,
    PthreadMutexTrylock,
    PthreadMutexUnlock,
    PthreadMutexDestroy,
    PthreadCondInit,
    PthreadCondWait,
    PthreadCondSignal,
    PthreadCondBroadcast,
    PthreadCondDestroy,
    PthreadBarrierInit,
    PthreadBarrierWait,
    PthreadBarrierDestroy,
}
