//! A session with someone who sends the next lines only when each line before them was replied to by one write.
ghost use Rattle.std.specs.Prelude.{◌≡◌, true, None};

use crate::sessions::made::Sums;
use pg_io::{Failed, Sink, Source};
use pg_session::{begin, serve};
use pg_session_texts::ReplyForm;
use std::cell::Cell;
use std::test::Fail;

/// What is sent at a time.
const TWO_LINES: [u8; 4] = *b"3\n4\n";

/// The most lines that are sent.
const MOST: usize = 10;

/// Who sends lines. It ends where not as many writes came as lines were sent.
#[derive(Drop)]
struct Asker<'a> {
    writes: &'a Cell<usize>,
    lines: usize,
    ended: bool,
}

impl<'a> Source for Asker<'a> {
    ghost rest = { λ _. None };

    ghost faults = { λ _. 0 };

    ghost has_ended = { λ s. s.ended ≡ true };

    fn read(&mut self, buf: &mut [u8]) -> Result<usize, Failed> {
        let waits = self.writes.get() != self.lines || buf.len() < TWO_LINES.len();
        if self.ended || waits || self.lines >= MOST {
            self.ended = true;
            return Ok(0);
        }
        self.lines += 2;
        buf[..TWO_LINES.len()].copy_from_slice(&TWO_LINES);
        Ok(TWO_LINES.len())
    }
}

/// Who counts the writes.
#[derive(Drop)]
struct Listener<'a> {
    writes: &'a Cell<usize>,
}

impl<'a> Sink for Listener<'a> {
    ghost taken = { λ _. None };

    ghost faults = { λ _. 0 };

    fn write(&mut self, piece: &[u8]) -> Result<usize, Failed> {
        self.writes.set(self.writes.get().saturating_add(1));
        Ok(piece.len())
    }
}

#[test]
fn each_reply_is_one_write_before_the_next_read(rt: HostRuntime) -> Result<(), Fail> {
    let writes = Cell::new(0);
    let mut src = Asker {
        writes: &writes,
        lines: 0,
        ended: false,
    };
    let mut out = Listener { writes: &writes };
    assert_eq!(rt;
        serve(
            &rt,
            rt.alloc(),
            &mut Sums,
            ReplyForm::Lines,
            begin(rt.alloc())?,
            &mut src,
            &mut out
        ),
        Ok(())
    );
    assert_eq!(rt; src.lines, MOST);
    assert_eq!(rt; writes.get(), MOST);
    Ok(())
}
