//! `conditions` by the top call, on worked rows. A pointer's word is its granule times 2^42, its length times 2^21 and its offset.

use crate::free::outcome;
use crate::session::SUM;
use crate::workers::Sort;
use pg_commands::Status;
use pg_free::{FreeCrew, Prefer};
use pg_ir::ThreadNo;
use std::test::Fail;

/// Keeps and prints the first number where it is below 10.
const BELOW_TEN: &[u8] = b"declare i64 @pg_in(i64)\n\
declare void @pg_out(i64)\n\
@x = global i64 0\n\
define i32 @main() {\n\
  %a = call i64 @pg_in(i64 0)\n\
  %c = icmp slt i64 %a, 10\n\
  br i1 %c, label %y, label %z\n\
y:\n\
  store i64 %a, ptr @x\n\
  call void @pg_out(i64 %a)\n\
  br label %z\n\
z:\n\
  ret i32 0\n\
}\n";

/// Prints the first number where it is neither 1 nor 2.
const NEITHER: &[u8] = b"declare i64 @pg_in(i64)\n\
declare void @pg_out(i64)\n\
define i32 @main() {\n\
  %a = call i64 @pg_in(i64 0)\n\
  switch i64 %a, label %d [ i64 1, label %e i64 2, label %e ]\n\
d:\n\
  call void @pg_out(i64 %a)\n\
  br label %e\n\
e:\n\
  ret i32 0\n\
}\n";

/// Locks a mutex as often as the input is long, once at most.
const LOCKED: &[u8] = b"declare i64 @pg_in_len()\n\
declare i32 @pthread_mutex_lock(ptr)\n\
@m = global [5 x i64] zeroinitializer\n\
define i32 @main() {\n\
  %n = call i64 @pg_in_len()\n\
  %c = icmp ugt i64 %n, 0\n\
  br i1 %c, label %l, label %e\n\
l:\n\
  %1 = call i32 @pthread_mutex_lock(ptr @m)\n\
  br label %e\n\
e:\n\
  ret i32 0\n\
}\n";

/// Divides 8 by the first number.
const DIVIDED: &[u8] = b"declare i64 @pg_in(i64)\n\
define i32 @main() {\n\
  %a = call i64 @pg_in(i64 0)\n\
  %q = sdiv i64 8, %a\n\
  ret i32 0\n\
}\n";

#[test]
fn conditions_of_one_input(rt: HostRuntime) -> Result<(), Fail> {
    let alloc = rt.alloc();
    let rows: [(&str, &[u8], &[u8]); 10] = [
        ("conditions x 3 5", SUM, b"recorded 0\n"),
        (
            "conditions x 5",
            BELOW_TEN,
            b"recorded 0\nvalue 0 = const 0\nvalue 1 = input 0\nvalue 2 = const 10\n\
value 3 = icmp slt i64 1 2\nvalue 4 = const 4398063288320\ncheck 3 is 1\ncheck 4 has 1 8\n",
        ),
        (
            "conditions --quantum=1 x 10",
            BELOW_TEN,
            b"recorded 0\nvalue 0 = const 0\nvalue 1 = input 0\nvalue 2 = const 10\n\
value 3 = icmp slt i64 1 2\ncheck 3 is 0\n",
        ),
        (
            "conditions x -- -7",
            NEITHER,
            b"recorded 0\nvalue 0 = const 0\nvalue 1 = input 0\ncheck 1 isn't 1\ncheck 1 isn't 2\n",
        ),
        (
            "conditions x 2",
            NEITHER,
            b"recorded 0\nvalue 0 = const 0\nvalue 1 = input 0\ncheck 1 is 2\n",
        ),
        (
            "conditions --seed 3 x 9 9",
            LOCKED,
            b"recorded 0\nvalue 0 = length\nvalue 1 = const 0\nvalue 2 = icmp ugt i64 0 1\n\
value 3 = const 4398130397184\ncheck 2 is 1\ncheck 3 is 4398130397184\n",
        ),
        (
            "conditions x",
            LOCKED,
            b"recorded 0\nvalue 0 = length\nvalue 1 = const 0\nvalue 2 = icmp ugt i64 0 1\n\
check 2 is 0\n",
        ),
        ("conditions x 4", DIVIDED, b"recorded 0\n"),
        (
            "conditions x 0",
            DIVIDED,
            b"refused trap DivideByZero at 1\n",
        ),
        ("conditions --free x 4", DIVIDED, b"recorded 0\n"),
    ];
    for (line, program, text) in rows {
        let mut crew = Prefer::new(ThreadNo(0));
        let (status, written) = outcome(&rt, alloc, line, program, b"", &mut crew, Sort::OneByOne)?;
        assert_eq!(rt; status, Status::Done, "of {}", line);
        assert_eq!(rt; written.as_slice(), text, "of {}", line);
    }
    Ok(())
}

/// The crew makes rounds for `--free` alone.
#[test]
fn the_crew_records_conditions(rt: HostRuntime) -> Result<(), Fail> {
    let alloc = rt.alloc();
    let rows = [
        ("conditions --free x 5", true),
        ("conditions x 5", false),
        ("conditions --seed 1 x 5", false),
    ];
    for (line, by_crew) in rows {
        let mut crew = Prefer::new(ThreadNo(0));
        let (status, _) = outcome(&rt, alloc, line, BELOW_TEN, b"", &mut crew, Sort::OneByOne)?;
        assert_eq!(rt; status, Status::Done, "of {}", line);
        assert_eq!(rt; crew.rounds() > 0, by_crew, "of {}", line);
    }
    Ok(())
}

#[test]
fn no_conditions(rt: HostRuntime) -> Result<(), Fail> {
    let alloc = rt.alloc();
    let rows: [(&str, &[u8], Status, &[u8]); 4] = [
        (
            "conditions x 1",
            b"x",
            Status::ProgramRefused,
            b"program refused 1:1 Unsupported x\n",
        ),
        ("conditions y 1", SUM, Status::ShelfFault, b""),
        ("conditions", SUM, Status::Usage, b""),
        ("conditions x --book=y", SUM, Status::Usage, b""),
    ];
    for (line, program, ends, text) in rows {
        let mut crew = Prefer::new(ThreadNo(0));
        let (status, written) = outcome(&rt, alloc, line, program, b"", &mut crew, Sort::OneByOne)?;
        assert_eq!(rt; status, ends, "of {}", line);
        assert_eq!(rt; written.as_slice(), text, "of {}", line);
    }
    Ok(())
}
