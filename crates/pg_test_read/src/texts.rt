//! Texts with their canonical texts, and the longest text. The program `pg_test_texts` has those that are refused.

use pg_num::limits::PROGRAM_TEXT_LIMIT;
use pg_read::parse;
use pg_read_ast::print_module;
use std::alloc::{AllocError, Global};
use std::process::Abort;
use std::test::Fail;

/// Texts with their canonical texts.
const PRINTED: [(&[u8], &[u8]); 6] = [
    (
        b"define i32 @main(){ret i32 0}",
        b"define i32 @main() {\n0:\n  ret i32 0\n}\n",
    ),
    (
        b"define void @f() { ret void #dbg_value() }",
        b"define void @f() {\n0:\n  ret void\n1:\n}\n",
    ),
    (
        b"define i32 @f() { %x = call void @\"llvm.dbg.\\76alue\"() ret void %x ret void %y = ret void }",
        b"define i32 @f() {\n0:\n  ret void %x\n1:\n  ret void\n2:\n  %y = ret void\n}\n",
    ),
    (
        b"declare void @f(metadata, i8 %1, ...) !dbg !0 @g = global [0 x {}] [] %t = type {}",
        b"%t = type {}\n@g = global [0 x {}] []\ndeclare void @f(metadata, i8 %1, ...)\n",
    ),
    (UNNAMED, UNNAMED_PRINTED),
    (DECORATED, DECORATED_PRINTED),
];

/// A text with flags, attributes, metadata and lines that are dropped, literals with leading zeros, and names that
/// want quotes.
const DECORATED: &[u8] =
    b"@text = private unnamed_addr constant [5 x i8] c\"hi\\5C\\22\\00\", align 1
@\"a \\22b\\22\" = global { i8, ptr } { i8 007, ptr getelementptr inbounds (i8, ptr @text, i64 1) }, section \"x\"
declare i32 @f(i32 noundef signext %n, ptr, ...) nounwind #0
define dso_local noundef i32 @all(i8 zeroext %a, ptr %p) #0 !dbg !1 {
start:
  %b = add nsw nuw i8 %a, 007
  %c = icmp samesign ult i8 %a, %b
  %d = zext nneg i8 %b to i32
  %e = select i1 %c, i32 %d, i32 -0
  br i1 %c, label %more, label %\"last one\", !prof !2
more:
  %f = phi i32 [ %e, %start ], [ undef, %more ]
  %g = alloca { i8, [2 x i64] }, i32 4, align 8
  %h = load volatile i64, ptr %p, align 8, !tbaa !0
  store volatile i64 %h, ptr getelementptr inbounds (i8, ptr @text, i64 1), align 8
  %i = getelementptr inbounds { i8, [2 x i64] }, ptr %g, i64 0, i32 1, i64 1
  %j = tail call signext i32 (i32, ptr, ...) @f(i32 noundef %e, ptr align 8 null, i64 signext 5) nounwind #0, !dbg !1
  call void @llvm.dbg.value(metadata i32 %e, metadata !2, metadata !DIExpression())
  #dbg_value(i32 %e, !2)
  store ptr inttoptr (i64 8 to ptr), ptr %p
  switch i32 %j, label %\"last one\" [ i32 0, label %more i32 1, label %\"last one\" ]
\"last one\":
  ret i32 %d
  unreachable
  call void @\"f\"()
  br label %0
}
";

/// The canonical text of it.
const DECORATED_PRINTED: &[u8] = b"@text = constant [5 x i8] c\"hi\\5C\\22\\00\"
@\"a \\22b\\22\" = global { i8, ptr } { i8 007, ptr getelementptr (i8, ptr @text, i64 1) }
declare i32 @f(i32 %n, ptr, ...)
define i32 @all(i8 %a, ptr %p) {
start:
  %b = add i8 %a, 007
  %c = icmp ult i8 %a, %b
  %d = zext i8 %b to i32
  %e = select i1 %c, i32 %d, i32 -0
  br i1 %c, label %more, label %\"last one\"
more:
  %f = phi i32 [ %e, %start ], [ undef, %more ]
  %g = alloca { i8, [2 x i64] }, i32 4
  %h = load i64, ptr %p
  store i64 %h, ptr getelementptr (i8, ptr @text, i64 1)
  %i = getelementptr { i8, [2 x i64] }, ptr %g, i64 0, i32 1, i64 1
  %j = call i32 (i32, ptr, ...) @f(i32 %e, ptr null, i64 5)
  store ptr inttoptr (i64 8 to ptr), ptr %p
  switch i32 %j, label %\"last one\" [ i32 0, label %more i32 1, label %\"last one\" ]
\"last one\":
  ret i32 %d
0:
  unreachable
1:
  call void @f()
  br label %0
}
";

/// A text with a name that wants quotes, unnamed parameters, blocks and results, names of digits with leading zeros and
/// of more digits than a machine's word holds, and calls without a result.
const UNNAMED: &[u8] = b"%w = type void
%v = type %w
@\"my \\22total\\22 \\AB\" = constant [2 x i8] c\"a\\0F\"
define i8 @f(i8, i8 %5, i8) {
  switch i8 1, label %a [ i8 007, label %a i8 -0, label %\"b c\" ]
a:
  add i8 %0, %5
  unreachable
}
define i8 @h(i8 %007, i8) {
0099999999999999999999999999999999999999999999:
  call %v @g()
  call void @g()
  call i8 @g()
  unreachable
  ret void
}
";

/// The canonical text of it.
const UNNAMED_PRINTED: &[u8] = b"%w = type void
%v = type %w
@\"my \\22total\\22 \\AB\" = constant [2 x i8] c\"a\\0F\"
define i8 @f(i8 %0, i8 %5, i8 %6) {
7:
  switch i8 1, label %a [ i8 007, label %a i8 -0, label %\"b c\" ]
a:
  %8 = add i8 %0, %5
  unreachable
}
define i8 @h(i8 %007, i8 %8) {
0099999999999999999999999999999999999999999999:
  call %v @g()
  call void @g()
  %100000000000000000000000000000000000000000000 = call i8 @g()
  unreachable
100000000000000000000000000000000000000000001:
  ret void
}
";

/// The text is a module with this canonical text.
fn prints(rt: &impl Abort, alloc: Global, text: &[u8], printed: &[u8]) -> Result<(), Fail> {
    assert!(rt; text.len() < 5000);
    let program = parse(alloc, text)?;
    let found = print_module(alloc, &program)?;
    assert_eq!(rt; found.as_slice(), printed);
    Ok(())
}

#[test]
fn reads_modules(rt: HostRuntime) -> Result<(), Fail> {
    for (text, printed) in &PRINTED {
        prints(&rt, rt.alloc(), text, printed)?;
    }
    Ok(())
}

/// As many of a line as make the longest text.
fn longest(alloc: Global) -> Result<Vec<u8>, AllocError> {
    let mut text = Vec::new(alloc);
    for _ in 0..65_536 {
        text.extend_from_slice(b"@a=global i64 0\n")?;
    }
    Ok(text)
}

#[test]
fn reads_the_longest_text(rt: HostRuntime) -> Result<(), Fail> {
    let text = longest(rt.alloc())?;
    assert!(rt; text.len() == PROGRAM_TEXT_LIMIT);
    let program = parse(rt.alloc(), text.as_slice())?;
    assert_eq!(rt; program.globals.len(), 65_536);
    Ok(())
}
