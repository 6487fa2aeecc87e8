//! The words of a command line, from arguments that a test makes.

use crate::words::words;
use pg_commands::Status;
use std::env::{Env, FillError};
use std::test::Fail;

/// Arguments in memory.
#[derive(Drop)]
struct Arguments<'a> {
    all: &'a [&'a [u8]],
}

impl<'a> Env for Arguments<'a> {
    fn arg(&self, i: usize, buf: &mut [u8]) -> Result<usize, FillError> {
        if i >= self.all.len() {
            return Err(FillError::NotPresent);
        }
        let bytes = self.all[i];
        if bytes.len() > buf.len() {
            return Err(FillError::TooLong);
        }
        buf[..bytes.len()].copy_from_slice(bytes);
        Ok(bytes.len())
    }

    fn var(&self, _name: &str, _buf: &mut [u8]) -> Result<usize, FillError> {
        Err(FillError::NotPresent)
    }

    fn var_at(&self, _i: usize, _buf: &mut [u8]) -> Result<usize, FillError> {
        Err(FillError::NotPresent)
    }
}

#[test]
fn the_name_may_be_any_bytes(rt: HostRuntime) -> Result<(), Fail> {
    let named = Arguments {
        all: &[b"\xff\xfe", b"once", b"3"],
    };
    match words(&named, rt.alloc()) {
        Ok(words) => {
            assert_eq!(rt; words.len(), 2);
            assert!(rt;
                words.len() == 2 && words[0].as_str() == "once" && words[1].as_str() == "3"
            );
        }
        Err(_) => assert!(rt; false),
    }
    Ok(())
}

#[test]
fn a_word_is_text(rt: HostRuntime) -> Result<(), Fail> {
    let spoiled = Arguments {
        all: &[b"peregrine", b"once", b"\xff"],
    };
    assert!(rt; matches!(words(&spoiled, rt.alloc()), Err(Status::Usage)));
    let empty = Arguments { all: &[] };
    match words(&empty, rt.alloc()) {
        Ok(words) => assert!(rt; words.is_empty()),
        Err(_) => assert!(rt; false),
    }
    Ok(())
}
