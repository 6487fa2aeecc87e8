//! Trials over these runs.

use crate::sessions::made::Sums;
use pg_session::trial;
use std::test::Fail;

#[test]
fn counts(rt: HostRuntime) -> Result<(), Fail> {
    let rows: [(u64, &[u8]); 4] = [
        (
            0,
            b"trial 0\nlines 500\nrecorded 0\nreused 0\nrefused 500\nturns 0\nsum 0\n",
        ),
        (
            1,
            b"trial 1\nlines 500\nrecorded 0\nreused 0\nrefused 500\nturns 0\nsum 0\n",
        ),
        (
            7,
            b"trial 7\nlines 500\nrecorded 500\nreused 0\nrefused 0\nturns 1500\nsum 21710000\n",
        ),
        (
            9_999,
            b"trial 9999\nlines 500\nrecorded 500\nreused 0\nrefused 0\nturns 1500\nsum 1273208000\n",
        ),
    ];
    for (number, text) in rows {
        let written = trial(&rt, rt.alloc(), &mut Sums, number)?;
        assert_eq!(rt; written.as_slice(), text);
    }
    Ok(())
}
