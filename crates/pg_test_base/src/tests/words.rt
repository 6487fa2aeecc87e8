//! Command lines and what they are.

use pg_commands_words::{Command, RecordingWay, command};
use std::alloc::{AllocError, Global};
use std::test::Fail;

fn texts(alloc: Global, words: &[&str]) -> Result<Vec<String>, AllocError> {
    let mut all = Vec::new(alloc);
    for word in words {
        all.push(String::from_str(alloc, word)?)?;
    }
    Ok(all)
}

#[test]
fn command_lines(rt: HostRuntime) -> Result<(), Fail> {
    let rows: [(&[&str], Option<(u32, &[i64])>); 39] = [
        (&["once", "3", "5"], Some((100, &[3, 5]))),
        (&["once", "--quantum", "1", "1"], Some((1, &[1]))),
        (&["once", "-5"], None),
        (&["once", "1", "--quantum", "0"], None),
        (&["once"], Some((100, &[]))),
        (&["once", "--", "-5"], Some((100, &[-5]))),
        (
            &["once", "--quantum=7", "1", "--", "-2"],
            Some((7, &[1, -2])),
        ),
        (&["once", "1", "--quantum", "5", "2"], Some((5, &[1, 2]))),
        (
            &["once", "1", "2", "--quantum=10000"],
            Some((10_000, &[1, 2])),
        ),
        (
            &["once", "--quantum=007", "007", "--", "-0"],
            Some((7, &[7, 0])),
        ),
        (&["once", "1", "--"], Some((100, &[1]))),
        (
            &["once", "--", "9223372036854775807", "-9223372036854775808"],
            Some((100, &[i64::MAX, i64::MIN])),
        ),
        (&["once", "--quantum"], None),
        (&["once", "1", "--quantum"], None),
        (&["once", "--quantum", "--", "5"], None),
        (&["once", "--quantum", "-5"], None),
        (&["once", "--quantum="], None),
        (&["once", "--quantum", "5", "--quantum", "6"], None),
        (&["once", "--quantum=5", "1", "--quantum=5"], None),
        (&["once", "--quantum", "10001"], None),
        (&["once", "--quantum", "+5"], None),
        (&["once", "--", "--quantum", "5"], None),
        (&["once", "--", "--"], None),
        (&["once", "1", "--", "2", "--", "3"], None),
        (&["--quantum", "5", "once"], None),
        (&["--", "once"], None),
        (&["once", "-"], None),
        (&["once", ""], None),
        (&["once", "+1"], None),
        (&["once", "1 2"], None),
        (&["once", "99999999999999999999"], None),
        (&["once", "9223372036854775808"], None),
        (&["once", "--", "-9223372036854775809"], None),
        (&["once", "--help"], None),
        (&["once", "--quant", "5"], None),
        (&["once", "--quantum5"], None),
        (&["once", "-q", "5"], None),
        (&["once", "once"], None),
        (&[], None),
    ];
    for (words, want) in rows {
        let words = texts(rt.alloc(), words)?;
        let found = command(rt.alloc(), &words)?;
        match &found {
            Some(Command::Once(once)) => {
                assert_eq!(rt; Some((once.quantum, once.numbers.as_slice())), want)
            }
            Some(_) => assert!(rt; false),
            None => assert!(rt; want.is_none()),
        }
    }
    Ok(())
}

#[test]
fn how_many_numbers(rt: HostRuntime) -> Result<(), Fail> {
    let rows: [(usize, bool); 4] = [(0, true), (511, true), (512, true), (513, false)];
    for (count, is_command) in rows {
        let mut words = texts(rt.alloc(), &["once", "--"])?;
        for _ in 0..count {
            words.push(String::from_str(rt.alloc(), "1")?)?;
        }
        let found = command(rt.alloc(), &words)?;
        match &found {
            Some(Command::Once(once)) => assert!(rt; is_command && once.numbers.len() == count),
            Some(_) => assert!(rt; false),
            None => assert!(rt; !is_command),
        }
    }
    Ok(())
}

#[test]
fn sessions(rt: HostRuntime) -> Result<(), Fail> {
    let rows: [(&[&str], Option<(&str, u32)>); 24] = [
        (&["serve", "x"], Some(("x", 100))),
        (&["serve", "x", "--quantum", "10"], Some(("x", 10))),
        (&["serve", "--quantum=10", "x"], Some(("x", 10))),
        (&["serve", "-"], Some(("-", 100))),
        (&["serve", "--quantum", "7", "-"], Some(("-", 7))),
        (&["serve", "--", "--quantum"], Some(("--quantum", 100))),
        (&["serve", "--", "-"], Some(("-", 100))),
        (&["serve", "x", "--"], Some(("x", 100))),
        (&["serve", ""], Some(("", 100))),
        (&["serve", "serve"], Some(("serve", 100))),
        (&["serve"], None),
        (&["serve", "--"], None),
        (&["serve", "x", "y"], None),
        (&["serve", "x", "--", "y"], None),
        (&["serve", "-x"], None),
        (&["serve", "x", "--quantum", "0"], None),
        (&["serve", "x", "--quantum", "-"], None),
        (&["serve", "x", "--quantum", "1", "--quantum", "1"], None),
        (&["serve", "x", "-q"], None),
        (&["serve", "--quantum=", "x"], None),
        (&["serve", "x", "--quantum=5x"], None),
        (&["serve", "x", "--quantums", "5"], None),
        (&["Serve", "x"], None),
        (&["server", "x"], None),
    ];
    for (words, want) in rows {
        let words = texts(rt.alloc(), words)?;
        let found = command(rt.alloc(), &words)?;
        match &found {
            Some(Command::Serve(serve)) => {
                let want = want.map(|(file, quantum)| (file, RecordingWay::Rotating(quantum)));
                assert_eq!(rt; Some((serve.file.as_str(), serve.way)), want);
                assert!(rt; serve.book.is_none() && !serve.only && !serve.json);
            }
            Some(_) => assert!(rt; false),
            None => assert!(rt; want.is_none()),
        }
    }
    Ok(())
}

#[test]
fn shows(rt: HostRuntime) -> Result<(), Fail> {
    let rows: [(&[&str], Option<(&str, u32, &[i64])>); 12] = [
        (&["show", "x"], Some(("x", 100, &[]))),
        (&["show", "x", "1", "2"], Some(("x", 100, &[1, 2]))),
        (&["show", "1", "2"], Some(("1", 100, &[2]))),
        (&["show", "--quantum", "1", "x", "0"], Some(("x", 1, &[0]))),
        (&["show", "x", "--", "-5"], Some(("x", 100, &[-5]))),
        (&["show", "--", "-x", "-5"], Some(("-x", 100, &[-5]))),
        (&["show", "-", "3"], Some(("-", 100, &[3]))),
        (&["show"], None),
        (&["show", "x", "y"], None),
        (&["show", "x", "-5"], None),
        (&["show", "x", "-"], None),
        (&["show", "x", "1", "--quantum", "10001"], None),
    ];
    for (words, want) in rows {
        let words = texts(rt.alloc(), words)?;
        let found = command(rt.alloc(), &words)?;
        match &found {
            Some(Command::Show(show)) => {
                let want = want.map(|(file, quantum, numbers)| {
                    (file, RecordingWay::Rotating(quantum), numbers)
                });
                assert_eq!(rt;
                    Some((show.file.as_str(), show.way, show.numbers.as_slice())),
                    want
                )
            }
            Some(_) => assert!(rt; false),
            None => assert!(rt; want.is_none()),
        }
    }
    Ok(())
}

// The way of recording of the session that words are, if they are one.
fn session_way(alloc: Global, words: &[&str]) -> Result<Option<RecordingWay>, AllocError> {
    let words = texts(alloc, words)?;
    match command(alloc, &words)? {
        Some(Command::Serve(serve)) => Ok(Some(serve.way)),
        _ => Ok(None),
    }
}

#[test]
fn ways_of_a_session(rt: HostRuntime) -> Result<(), Fail> {
    let rows: [(&[&str], Option<RecordingWay>); 32] = [
        (&["serve", "--free", "x"], Some(RecordingWay::Free)),
        (&["serve", "x", "--free"], Some(RecordingWay::Free)),
        (&["serve", "x", "--free", "--"], Some(RecordingWay::Free)),
        (&["serve", "--free", "--", "x"], Some(RecordingWay::Free)),
        (
            &["serve", "--seed", "7", "x"],
            Some(RecordingWay::Seeded(7)),
        ),
        (
            &["serve", "x", "--seed", "0"],
            Some(RecordingWay::Seeded(0)),
        ),
        (&["serve", "x", "--seed=007"], Some(RecordingWay::Seeded(7))),
        (
            &["serve", "--seed=18446744073709551615", "x"],
            Some(RecordingWay::Seeded(u64::MAX)),
        ),
        (&["serve", "--seed=18446744073709551616", "x"], None),
        (&["serve", "x", "--seed"], None),
        (&["serve", "--seed", "x"], None),
        (&["serve", "x", "--seed="], None),
        (&["serve", "x", "--seed", "-1"], None),
        (&["serve", "x", "--seed=-1"], None),
        (&["serve", "x", "--seed", "+1"], None),
        (&["serve", "x", "--seed", "1x"], None),
        (&["serve", "x", "--seed", "1", "--seed", "1"], None),
        (&["serve", "x", "--seed=1", "--seed=1"], None),
        (&["serve", "x", "--free", "--free"], None),
        (&["serve", "x", "--free="], None),
        (&["serve", "x", "--free=true"], None),
        (&["serve", "x", "-free"], None),
        (&["serve", "x", "--freely"], None),
        (&["serve", "--free"], None),
        (&["--free", "serve", "x"], None),
        (&["serve", "x", "--", "--free"], None),
        // they exclude one another
        (&["serve", "x", "--free", "--quantum", "5"], None),
        (&["serve", "--quantum=100", "x", "--free"], None),
        (&["serve", "x", "--free", "--seed", "5"], None),
        (&["serve", "--seed=5", "--free", "x"], None),
        (&["serve", "--seed=5", "--quantum=5", "x"], None),
        (&["serve", "--free", "--seed=5", "--quantum=5", "x"], None),
    ];
    for (words, want) in rows {
        assert_eq!(rt; session_way(rt.alloc(), words)?, want);
    }
    Ok(())
}

// Whether each reply of the session that words are is a line of JSON, if they are one.
fn session_is_json(alloc: Global, words: &[&str]) -> Result<Option<bool>, AllocError> {
    let words = texts(alloc, words)?;
    match command(alloc, &words)? {
        Some(Command::Serve(serve)) => Ok(Some(serve.json)),
        _ => Ok(None),
    }
}

#[test]
fn forms_of_a_session(rt: HostRuntime) -> Result<(), Fail> {
    let rows: [(&[&str], Option<bool>); 10] = [
        (&["serve", "x"], Some(false)),
        (&["serve", "--json", "x"], Some(true)),
        (&["serve", "x", "--json"], Some(true)),
        (&["serve", "--seed=1", "--json", "--", "x"], Some(true)),
        (&["serve", "x", "--json", "--only", "--book=y"], Some(true)),
        (&["serve", "--", "--json"], Some(false)),
        (&["serve", "--json"], None),
        (&["serve", "x", "--json="], None),
        (&["serve", "x", "--json=true"], None),
        (&["serve", "x", "--jsons"], None),
    ];
    for (words, want) in rows {
        assert_eq!(rt; session_is_json(rt.alloc(), words)?, want);
    }
    Ok(())
}

#[test]
fn ways_of_a_show(rt: HostRuntime) -> Result<(), Fail> {
    let rows: [(&[&str], Option<(&str, RecordingWay, &[i64])>); 16] = [
        (
            &["show", "--free", "x", "1"],
            Some(("x", RecordingWay::Free, &[1])),
        ),
        (
            &["show", "x", "--free"],
            Some(("x", RecordingWay::Free, &[])),
        ),
        (
            &["show", "x", "1", "--free", "2"],
            Some(("x", RecordingWay::Free, &[1, 2])),
        ),
        (
            &["show", "--seed", "3", "4", "5"],
            Some(("4", RecordingWay::Seeded(3), &[5])),
        ),
        (
            &["show", "x", "--seed=3", "--", "-5"],
            Some(("x", RecordingWay::Seeded(3), &[-5])),
        ),
        (&["show", "--free"], None),
        (&["show", "--free", "--free", "x"], None),
        (&["show", "--free", "--quantum", "5", "x"], None),
        (&["show", "--free", "--seed", "5", "x"], None),
        (&["show", "--quantum", "5", "--seed", "5", "x"], None),
        (&["show", "x", "--seed"], None),
        (&["show", "x", "--book", "y"], None),
        (&["show", "x", "--book=y"], None),
        (&["show", "x", "--only"], None),
        (&["show", "x", "--json"], None),
        (&["show", "x", "--", "--free"], None),
    ];
    for (words, want) in rows {
        let words = texts(rt.alloc(), words)?;
        let found = command(rt.alloc(), &words)?;
        match &found {
            Some(Command::Show(show)) => {
                assert_eq!(rt;
                    Some((show.file.as_str(), show.way, show.numbers.as_slice())),
                    want
                )
            }
            Some(_) => assert!(rt; false),
            None => assert!(rt; want.is_none()),
        }
    }
    Ok(())
}

#[test]
fn conditions(rt: HostRuntime) -> Result<(), Fail> {
    let rows: [(&[&str], Option<(&str, RecordingWay, &[i64])>); 15] = [
        (
            &["conditions", "x"],
            Some(("x", RecordingWay::Rotating(100), &[])),
        ),
        (
            &["conditions", "x", "1", "2"],
            Some(("x", RecordingWay::Rotating(100), &[1, 2])),
        ),
        (
            &["conditions", "--quantum", "1", "x", "--", "-5"],
            Some(("x", RecordingWay::Rotating(1), &[-5])),
        ),
        (
            &["conditions", "x", "1", "--seed=1"],
            Some(("x", RecordingWay::Seeded(1), &[1])),
        ),
        (
            &["conditions", "--free", "-", "3"],
            Some(("-", RecordingWay::Free, &[3])),
        ),
        (&["conditions"], None),
        (&["conditions", "x", "y"], None),
        (&["conditions", "x", "-5"], None),
        (&["conditions", "x", "1", "--quantum", "10001"], None),
        (&["conditions", "--free", "--seed", "5", "x"], None),
        (&["conditions", "x", "--book", "y"], None),
        (&["conditions", "x", "--only"], None),
        (&["conditions", "x", "--json"], None),
        (&["condition", "x"], None),
        (&["conditions", "x", "--", "--free"], None),
    ];
    for (words, want) in rows {
        let words = texts(rt.alloc(), words)?;
        let found = command(rt.alloc(), &words)?;
        match &found {
            Some(Command::Conditions(it)) => {
                assert_eq!(rt;
                    Some((it.file.as_str(), it.way, it.numbers.as_slice())),
                    want
                )
            }
            Some(_) => assert!(rt; false),
            None => assert!(rt; want.is_none()),
        }
    }
    Ok(())
}

// Words that are no command of the program.
#[test]
fn words_that_are_no_command(rt: HostRuntime) -> Result<(), Fail> {
    let rows: [&[&str]; 22] = [
        &["serve", "x", "--book="],
        &["serve", "x", "--book", ""],
        &["serve", "x", "--book", "-"],
        &["serve", "x", "--book"],
        &["serve", "x", "--book", "y", "--book", "y"],
        &["serve", "x", "--only"],
        &["serve", "x", "--book", "y", "--only", "--free"],
        &["serve", "x", "--book", "y", "--only", "--seed=1"],
        &["serve", "x", "--book", "y", "--only", "--quantum=1"],
        &["serve", "x", "--json", "--json"],
        &["book", "x", "--book", "y"],
        &["book"],
        &["once", "--free"],
        &["once", "--seed", "1"],
        &["once", "--book=y"],
        &["once", "--only"],
        &["once", "--json"],
        &["trial", "7", "--free"],
        &["trial", "7", "--seed=1"],
        &["trial", "7", "--book=y"],
        &["trial", "7", "--only"],
        &["trial", "7", "--json"],
    ];
    for words in rows {
        let words = texts(rt.alloc(), words)?;
        assert!(rt; command(rt.alloc(), &words)?.is_none());
    }
    Ok(())
}

#[test]
fn trials(rt: HostRuntime) -> Result<(), Fail> {
    let rows: [(&[&str], Option<u64>); 14] = [
        (&["trial", "7"], Some(7)),
        (&["trial", "0"], Some(0)),
        (&["trial", "9999"], Some(9_999)),
        (&["trial", "007"], Some(7)),
        (&["trial", "--", "7"], Some(7)),
        (&["trial", "7", "--"], Some(7)),
        (&["trial"], None),
        (&["trial", "10000"], None),
        (&["trial", "-7"], None),
        (&["trial", "--", "-7"], None),
        (&["trial", "+7"], None),
        (&["trial", "7", "8"], None),
        (&["trial", "7", "--quantum", "5"], None),
        (&["trial", "--quantum=5", "7"], None),
    ];
    for (words, want) in rows {
        let words = texts(rt.alloc(), words)?;
        let found = command(rt.alloc(), &words)?;
        match &found {
            Some(Command::Trial(number)) => assert_eq!(rt; Some(*number), want),
            Some(_) => assert!(rt; false),
            None => assert!(rt; want.is_none()),
        }
    }
    Ok(())
}
