//! Bytes that are stored, forgotten and loaded, by hand.

ghost use Rattle.std.specs.Prelude.{◌<◌, ℕ, IfOk, OnOk};
ghost use Rattle.pg_slice_memory.specs.Changes.{AreSymbolicNodes};

use pg_ir::Program;
use pg_ir::Value::Const;
use pg_num::Width::{W8, W16, W32, W64};
use pg_precondition::{CastKind, Node, Nodes};
use pg_slice_memory::{Held, SymbolicMemory};
use pg_slice_rules::Decision;
use pg_test_samples::Line::Return;
use pg_test_samples::{Body, I32, Parts, build};
use std::alloc::{AllocError, Global};
use std::test::Fail;

/// A program with a global of 16 bytes from byte 8 on, of which the first nine are given.
const PARTS: Parts = Parts {
    globals: &[(1, 16, b"\x01\x02\x03\x04\x05\x06\x07\x08\x09")],
    functions: &[Body {
        params: 0,
        registers: &[],
        returned: Some(I32),
        blocks: &[&[(None, Return(Some(Const(0))))]],
    }],
    main: 0,
};

/// What happens to memory: eight or four bytes of the number of node 0 are stored from a place on, one byte that isn't known,
/// so many bytes are forgotten, or all of memory is.
#[derive(Clone, Copy)]
enum Act {
    Store(u16),
    StoreFour(u16),
    StoreUnknown(u16, Decision),
    Spoil(u16, u16, Decision),
    SpoilAll(Decision),
}

/// What happens, the place and the number of the bytes that are loaded then, what is known of them, and the nodes that are
/// added behind node 0.
struct Case {
    acts: &'static [Act],
    start: u16,
    count: u8,
    held: Held,
    nodes: &'static [Node],
}

fn happens(memory: &mut SymbolicMemory, act: Act) -> Result<(), AllocError>
    ensures { OnOk result ((n : ℕ) → 0 < n → AreSymbolicNodes n memory.old → AreSymbolicNodes n memory.new) }
{
    match act {
        Act::Store(start) => memory.store(start as u64, 8, Held::Known(0)),
        Act::StoreFour(start) => memory.store(start as u64, 4, Held::Known(0)),
        Act::StoreUnknown(start, by) => memory.store(start as u64, 1, Held::Unknown(by)),
        Act::Spoil(start, bytes, by) => memory.spoil(start as u64, bytes as u64, by),
        Act::SpoilAll(by) => memory.spoil(0, 0x200_0000, by),
    }
}

fn after(alloc: Global, acts: &[Act]) -> Result<SymbolicMemory, AllocError>
    ensures { IfOk result (λ m. (n : ℕ) → 0 < n → AreSymbolicNodes n m) }
{
    let mut memory = SymbolicMemory::new(alloc);
    for act in acts {
        happens(&mut memory, *act)?;
    }
    Ok(memory)
}

/// Whether these nodes stand behind the first one.
fn are_behind(nodes: &Nodes, behind: &[Node]) -> bool {
    for i in 1..nodes.len() {
        if behind.get(i as usize - 1) != Some(&nodes.node(i)) {
            return false;
        }
    }
    nodes.len() as u64 == behind.len() as u64 + 1
}

fn gives(
    alloc: Global,
    p: &Program,
    memory: &SymbolicMemory,
    case: &Case,
) -> Result<bool, AllocError>
    requires { (n : ℕ) → 0 < n → AreSymbolicNodes n memory.now }
{
    if case.count == 0 || case.count > 8 {
        return Ok(false);
    }
    let mut nodes = Nodes::new(alloc);
    nodes.push(Node::InLen)?;
    let held = memory.load(p, &mut nodes, case.start as u64, case.count)?;
    Ok(held == case.held && are_behind(&nodes, case.nodes))
}

fn holds(alloc: Global, case: &Case) -> Result<bool, Fail> {
    let p = build(alloc, &PARTS)?;
    let memory = after(alloc, case.acts)?;
    Ok(gives(alloc, &p, &memory, case)?)
}

const FIRST: Decision = Decision::Pinned(3);

const SECOND: Decision = Decision::Exact(5);

const GLOBAL: Case = Case {
    acts: &[],
    start: 8,
    count: 8,
    held: Held::Known(1),
    nodes: &[Node::Const(0x0807_0605_0403_0201)],
};

const END_OF_GLOBAL: Case = Case {
    acts: &[],
    start: 14,
    count: 4,
    held: Held::Known(1),
    nodes: &[Node::Const(0x0009_0807)],
};

/// The first bytes of a global make one number, and the bytes behind them are zero.
#[test]
fn initial_bytes_are_one_number(rt: HostRuntime) -> Result<(), Fail> {
    assert!(rt; holds(rt.alloc(), &GLOBAL)?);
    assert!(rt; holds(rt.alloc(), &END_OF_GLOBAL)?);
    Ok(())
}

const STORED: Case = Case {
    acts: &[Act::StoreFour(16)],
    start: 16,
    count: 4,
    held: Held::Known(1),
    nodes: &[Node::Cast {
        cast: CastKind::Zext,
        from: W32,
        to: W64,
        of: 0,
    }],
};

const HALF: Case = Case {
    acts: &[Act::StoreFour(16)],
    start: 16,
    count: 2,
    held: Held::Known(1),
    nodes: &[Node::Cast {
        cast: CastKind::Zext,
        from: W16,
        to: W64,
        of: 0,
    }],
};

const BEFORE_AND_IN: Case = Case {
    acts: &[Act::StoreFour(16)],
    start: 15,
    count: 2,
    held: Held::Known(3),
    nodes: &[
        Node::Const(8),
        Node::Byte { of: 0, at: 0 },
        Node::Join {
            parts: [1, 2, 0, 0, 0, 0, 0, 0],
            count: 2,
        },
    ],
};

/// The lowest bytes of a stored number are that number, cut; with others they are joined.
#[test]
fn stored_bytes_are_loaded(rt: HostRuntime) -> Result<(), Fail> {
    assert!(rt; holds(rt.alloc(), &STORED)?);
    assert!(rt; holds(rt.alloc(), &HALF)?);
    assert!(rt; holds(rt.alloc(), &BEFORE_AND_IN)?);
    Ok(())
}

const FORGOTTEN: &[Act] = &[
    Act::Store(16),
    Act::Spoil(20, 100, FIRST),
    Act::Spoil(18, 3, SECOND),
];

const FIRST_BYTE: Case = Case {
    acts: FORGOTTEN,
    start: 16,
    count: 1,
    held: Held::Known(1),
    nodes: &[Node::Cast {
        cast: CastKind::Zext,
        from: W8,
        to: W64,
        of: 0,
    }],
};

const LOWEST: Case = Case {
    acts: FORGOTTEN,
    start: 16,
    count: 8,
    held: Held::Unknown(SECOND),
    nodes: &[],
};

const LAST_SPOILED: Case = Case {
    acts: FORGOTTEN,
    start: 119,
    count: 1,
    held: Held::Unknown(FIRST),
    nodes: &[],
};

const BEHIND: Case = Case {
    acts: FORGOTTEN,
    start: 120,
    count: 1,
    held: Held::Known(1),
    nodes: &[Node::Const(0)],
};

/// The lowest byte that isn't known has the blame, and no node is added.
#[test]
fn forgotten_bytes_are_blamed(rt: HostRuntime) -> Result<(), Fail> {
    assert!(rt; holds(rt.alloc(), &FIRST_BYTE)?);
    assert!(rt; holds(rt.alloc(), &LOWEST)?);
    assert!(rt; holds(rt.alloc(), &LAST_SPOILED)?);
    assert!(rt; holds(rt.alloc(), &BEHIND)?);
    Ok(())
}

const UNKNOWN_BYTE: Case = Case {
    acts: &[
        Act::SpoilAll(FIRST),
        Act::Store(64),
        Act::StoreUnknown(66, SECOND),
    ],
    start: 64,
    count: 8,
    held: Held::Unknown(SECOND),
    nodes: &[],
};

const STORED_AGAIN: Case = Case {
    acts: &[
        Act::SpoilAll(FIRST),
        Act::StoreUnknown(66, SECOND),
        Act::Store(64),
    ],
    start: 64,
    count: 8,
    held: Held::Known(1),
    nodes: &[Node::Cast {
        cast: CastKind::Zext,
        from: W64,
        to: W64,
        of: 0,
    }],
};

const ALL_FORGOTTEN: Case = Case {
    acts: &[Act::Store(64), Act::SpoilAll(FIRST)],
    start: 65_535,
    count: 1,
    held: Held::Unknown(FIRST),
    nodes: &[],
};

/// What is stored or forgotten last counts.
#[test]
fn last_change_counts(rt: HostRuntime) -> Result<(), Fail> {
    assert!(rt; holds(rt.alloc(), &UNKNOWN_BYTE)?);
    assert!(rt; holds(rt.alloc(), &STORED_AGAIN)?);
    assert!(rt; holds(rt.alloc(), &ALL_FORGOTTEN)?);
    Ok(())
}
