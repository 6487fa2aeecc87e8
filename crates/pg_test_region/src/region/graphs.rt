//! Walks in a small graph.

ghost use Rattle.std.specs.Prelude.{◌≡◌, length, IfOk};
ghost use Rattle.pg_cfg.specs.Graphs.{IsClosed};

use pg_cfg::{Graph, Separator, nearest_separator, ranks, reach_without};
use std::alloc::{AllocError, Global};
use std::test::Fail;

/// A loop of two vertices that leads to a third, and on to nothing.
fn looped(alloc: Global) -> Result<Graph, AllocError>
    ensures closed { IfOk result (λ g. IsClosed g) }
    ensures count { IfOk result (λ g. length g ≡ 4) }
{
    let mut graph = Graph::new(alloc);
    graph.push(&[1])?;
    graph.push(&[2, 3])?;
    graph.push(&[1])?;
    graph.push(&[])?;
    Ok(graph)
}

/// What walks meet before a vertex.
#[test]
fn walks_before_a_vertex(rt: HostRuntime) -> Result<(), Fail> {
    let alloc = rt.alloc();
    let g = looped(alloc)?;
    assert_eq!(rt;
        reach_without(alloc, &g, 1, 3)?.as_slice(),
        [1, 2].as_slice()
    );
    assert_eq!(rt;
        reach_without(alloc, &g, 1, 1)?.as_slice(),
        [2, 3].as_slice()
    );
    assert_eq!(rt; reach_without(alloc, &g, 3, 0)?.as_slice(), [].as_slice());
    Ok(())
}

/// The vertices from which a path leads to a marked one have a rank, and the others none.
#[test]
fn ranked(rt: HostRuntime) -> Result<(), Fail> {
    let alloc = rt.alloc();
    let g = looped(alloc)?;
    let of_last = ranks(alloc, &g, &[false, false, false, true])?;
    assert!(rt; of_last.iter().all(|rank| rank.is_some()), "{of_last:?}");
    let of_first = ranks(alloc, &g, &[true])?;
    assert_eq!(rt; of_first.as_slice(), [Some(0), None, None, None].as_slice());
    Ok(())
}

/// Where the last vertex is marked it is the separator of the second, with the loop before it.
#[test]
fn nearest_of_a_loop(rt: HostRuntime) -> Result<(), Fail> {
    let alloc = rt.alloc();
    let g = looped(alloc)?;
    let marked = [false, false, false, true];
    let ranks = ranks(alloc, &g, &marked)?;
    match nearest_separator(alloc, &g, &marked, ranks.as_slice(), 1)? {
        Separator::At { vertex, before } => {
            assert_eq!(rt; vertex, 3);
            assert_eq!(rt; before.as_slice(), [1, 2].as_slice());
        }
        _ => return Err(Fail::from("no separator")),
    }
    Ok(())
}

/// Where both vertices behind the second are marked nothing separates it from them.
#[test]
fn nothing_separates(rt: HostRuntime) -> Result<(), Fail> {
    let alloc = rt.alloc();
    let g = looped(alloc)?;
    let marked = [false, false, true, true];
    let ranks = ranks(alloc, &g, &marked)?;
    match nearest_separator(alloc, &g, &marked, ranks.as_slice(), 1)? {
        Separator::Nothing => Ok(()),
        _ => Err(Fail::from("a separator")),
    }
}

/// Where none is marked the second vertex leads to none that has a rank.
#[test]
fn none_is_marked(rt: HostRuntime) -> Result<(), Fail> {
    let alloc = rt.alloc();
    let g = looped(alloc)?;
    let ranks = ranks(alloc, &g, &[])?;
    match nearest_separator(alloc, &g, &[], ranks.as_slice(), 1)? {
        Separator::Unranked => Ok(()),
        _ => Err(Fail::from("a rank")),
    }
}
