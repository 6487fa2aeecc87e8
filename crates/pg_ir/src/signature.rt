//! The parameters and results of known functions.

ghost use Rattle.std.specs.Prelude.{◌≡◌};
ghost use Rattle.pg_ir.specs.Signatures.{parameters_of, returned_by};

use crate::library_call::LibraryCall;
use crate::value::Scalar;
use pg_num::Width;

impl LibraryCall {
    /// The types of the function's parameters.
    pub fn parameters(self) -> &'static [Scalar]
        ensures { result.now ≡ parameters_of self }
    {
        match self {
            LibraryCall::PgInLen => &[],
            LibraryCall::PgIn | LibraryCall::PgOut | LibraryCall::PgPrint | LibraryCall::Malloc =>
                &[Scalar::Int(Width::W64)],
            LibraryCall::Putchar => &[Scalar::Int(Width::W32)],
            LibraryCall::PthreadCreate => &[Scalar::Ptr, Scalar::Ptr, Scalar::Ptr, Scalar::Ptr],
            LibraryCall::PthreadJoin => &[Scalar::Int(Width::W64), Scalar::Ptr],
            LibraryCall::PthreadMutexInit
            | LibraryCall::PthreadCondInit
            | LibraryCall::PthreadCondWait => &[Scalar::Ptr, Scalar::Ptr],
            LibraryCall::PthreadBarrierInit => &[Scalar::Ptr, Scalar::Ptr, Scalar::Int(Width::W32)],
            _ => &[Scalar::Ptr],
        }
    }

    /// The type of the function's result, if it has one.
    pub fn returned(self) -> Option<Scalar>
        ensures { result ≡ returned_by self }
    {
        match self {
            LibraryCall::PgIn | LibraryCall::PgInLen => Some(Scalar::Int(Width::W64)),
            LibraryCall::PgOut
            | LibraryCall::PgPrint
            | LibraryCall::Free
            | LibraryCall::PthreadExit => None,
            LibraryCall::Malloc => Some(Scalar::Ptr),
            _ => Some(Scalar::Int(Width::W32)),
        }
    }
}
