//! `serve --json` by the top call, on worked rows.

use crate::free::outcome;
use crate::session::SUM;
use crate::workers::Sort;
use pg_commands::Status;
use pg_free::Prefer;
use pg_ir::ThreadNo;
use std::test::Fail;

/// A line for each reply: one that is recorded, one that is reused, and one that is no line of numbers.
const REPLIES: &[u8] =
    b"{\"end\":{\"exit\":0},\"entry\":0,\"output\":\"3\\n\",\"reply\":\"recorded\",\"turns\":3}\n\
{\"end\":{\"exit\":0},\"entry\":0,\"output\":\"7\\n\",\"reply\":\"reused\",\"turns\":3}\n\
{\"output\":\"\",\"reply\":\"refused line\"}\n";

#[test]
fn replies_for_tools(rt: HostRuntime) -> Result<(), Fail> {
    let alloc = rt.alloc();
    let rows: [(&str, Status, &[u8]); 6] = [
        ("serve x --json", Status::Done, REPLIES),
        ("serve --json --quantum 1 x", Status::Done, REPLIES),
        ("serve --free --json -- x", Status::Done, REPLIES),
        ("serve --json --json x", Status::Usage, b""),
        ("show --json x 1", Status::Usage, b""),
        ("serve --json y", Status::ShelfFault, b""),
    ];
    for (line, status, text) in rows {
        let mut crew = Prefer::new(ThreadNo(0));
        let (ended, written) = outcome(
            &rt,
            alloc,
            line,
            SUM,
            b"1 2\n3 4\n3,4\n",
            &mut crew,
            Sort::OneByOne,
        )?;
        assert_eq!(rt; ended, status, "of {}", line);
        assert_eq!(rt; written.as_slice(), text, "of {}", line);
    }
    Ok(())
}
