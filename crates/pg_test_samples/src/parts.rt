//! Parts of sample programs.

use crate::line::Line;
use pg_ir::{Scalar, Value};
use pg_num::Width;

pub const I1: Scalar = Scalar::Int(Width::W1);

pub const I8: Scalar = Scalar::Int(Width::W8);

pub const I32: Scalar = Scalar::Int(Width::W32);

pub const I64: Scalar = Scalar::Int(Width::W64);

pub const PTR: Scalar = Scalar::Ptr;

/// The pointer to nothing.
pub const NULL: Value = Value::Const(0);

/// A function: how many of its registers are parameters, the types of all, what it returns, and its basic blocks. Each
/// instruction of a block stands behind the register that it sets.
#[derive(Clone, Copy)]
pub struct Body {
    pub params: u32,
    pub registers: &'static [Scalar],
    pub returned: Option<Scalar>,
    pub blocks: &'static [&'static [(Option<u32>, Line)]],
}

/// The parts of a program: of each global the granule at which it begins, its size in bytes and its first bytes; the
/// functions; and the number of the first that runs.
#[derive(Clone, Copy)]
pub struct Parts {
    pub globals: &'static [(u32, u32, &'static [u8])],
    pub functions: &'static [Body],
    pub main: u32,
}

/// The parts of a program of main alone, which returns a number of 32 bits: the globals, the types of main's registers, and
/// its blocks.
#[macro_export]
macro_rules! main_alone {
    ($globals:expr, $registers:expr, $blocks:expr) => {
        $crate::Parts {
            globals: $globals,
            functions: &[$crate::Body {
                params: 0,
                registers: $registers,
                returned: Some($crate::I32),
                blocks: $blocks,
            }],
            main: 0,
        }
    };
}

/// The parts of a program of a function that threads begin with, and main: the globals, and of each of the two functions the
/// types of its registers, and its blocks.
#[macro_export]
macro_rules! thread_and_main {
    ($globals:expr, $own:expr, $thread:expr, $registers:expr, $main:expr) => {
        $crate::Parts {
            globals: $globals,
            functions: &[
                $crate::Body {
                    params: 1,
                    registers: $own,
                    returned: Some($crate::PTR),
                    blocks: $thread,
                },
                $crate::Body {
                    params: 0,
                    registers: $registers,
                    returned: Some($crate::I32),
                    blocks: $main,
                },
            ],
            main: 1,
        }
    };
}
