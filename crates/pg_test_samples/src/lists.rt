//! The operations with lists.

use crate::line::Line;
use crate::operations::without_list;
use pg_ir::{BlockNo, Case, Cases, Incoming, Incomings, Index, Indices, Op, Scale, Value, Values};
use pg_num::Width;
use std::alloc::{AllocError, Global};

fn values(alloc: Global, items: &[Value]) -> Result<Values, AllocError> {
    let items = items.to_vec(alloc)?;
    Ok(Values::from_vec(items))
}

fn phi(alloc: Global, rows: &[(u32, Value)]) -> Result<Op, AllocError> {
    let mut from = Vec::new(alloc);
    for (block, value) in rows {
        from.push(Incoming {
            block: BlockNo(*block),
            value: *value,
        })?;
    }
    Ok(Op::Phi {
        from: Incomings::from_vec(from),
    })
}

fn cases(alloc: Global, rows: &[(u64, u32)]) -> Result<Cases, AllocError> {
    let mut cases = Vec::new(alloc);
    for (value, to) in rows {
        cases.push(Case {
            value: *value,
            to: BlockNo(*to),
        })?;
    }
    Ok(Cases::from_vec(cases))
}

fn indices(alloc: Global, rows: &[(Value, u64)]) -> Result<Indices, AllocError> {
    let mut indices = Vec::new(alloc);
    for (value, bytes) in rows {
        indices.push(Index {
            value: *value,
            width: Width::W64,
            scale: Scale::Times(*bytes),
        })?;
    }
    Ok(Indices::from_vec(indices))
}

/// The operation of a line.
pub(crate) fn operation(alloc: Global, line: Line) -> Result<Op, AllocError> {
    match line {
        Line::Phi(rows) => phi(alloc, rows),
        Line::Switch(width, on, other, rows) => {
            let other = BlockNo(other);
            let cases = cases(alloc, rows)?;
            Ok(Op::Switch {
                width,
                on,
                other,
                cases,
            })
        }
        Line::Gep(base, rows) => {
            let indices = indices(alloc, rows)?;
            Ok(Op::Gep { base, indices })
        }
        Line::Call(function, args) => {
            let args = values(alloc, args)?;
            Ok(Op::Call { function, args })
        }
        Line::Knows(function, args) => {
            let args = values(alloc, args)?;
            Ok(Op::CallLibrary { function, args })
        }
        _ => Ok(without_list(line)),
    }
}
