//! A pointer that is moved by the input.

ghost use Rattle.std.specs.Prelude.{◌≡◌, ◌∷◌, [], length, IfOk};
ghost use Rattle.pg_num.specs.declared.width.Width.TheVariants.{W32, W64};
ghost use Rattle.pg_ir.specs.declared.instr.Op.TheVariants.{Gep};
ghost use Rattle.pg_ir.specs.declared.value.Scale.TheVariants.{Field, Times};
ghost use Rattle.pg_ir.specs.declared.value.Value.TheVariants.{Const};
ghost use Rattle.pg_slice_values.specs.SymbolicNodes.{IsSymbolicNode};

use pg_ir::{Index, Indices, Op, Scale, Value};
use pg_num::Width;
use pg_precondition::{Check, Nodes, Precondition, Scratch, Test, admits};
use pg_slice_values::{SymbolicNode, constant, from_input, operation};
use std::alloc::{AllocError, Global};
use std::test::Fail;

/// A `getelementptr` over elements of four bytes, and to a field at two bytes.
fn pointer(alloc: Global) -> Result<Op, AllocError>
    ensures { IfOk result (λ o. o ≡ Gep (Const 0) (record { value = Const 0; width = W64; scale = Times 4 } ∷ record { value = Const 0; width = W32; scale = Field 2 } ∷ [])) }
{
    let indices = Vec::from_slice(
        alloc,
        &[
            Index {
                value: Value::Const(0),
                width: Width::W64,
                scale: Scale::Times(4),
            },
            Index {
                value: Value::Const(0),
                width: Width::W32,
                scale: Scale::Field(2),
            },
        ],
    )?;
    Ok(Op::Gep {
        base: Value::Const(0),
        indices: Indices::from_vec(indices),
    })
}

/// The pointer to the first byte of sixteen from granule 9 on, moved by the input's first number.
#[tactic(auto, using(pg_slice_values::proofs::GrowingNodes::symbolic_node_more, pg_slice_values::proofs::GrowingNodes::grew_length))]
fn moved(alloc: Global, nodes: &mut Nodes) -> Result<SymbolicNode, AllocError>
    ensures { IfOk result (IsSymbolicNode (length nodes.new)) }
{
    let op = pointer(alloc)?;
    let zero = constant(nodes, 0)?;
    let index = from_input(nodes, zero)?;
    let base = constant(nodes, 39_582_452_154_368)?;
    let field = constant(nodes, 1)?;
    operation(nodes, &op, &[base, index, field])
}

/// The condition that a symbolic value is a number on the input.
fn condition(
    alloc: Global,
    nodes: Nodes,
    s: SymbolicNode,
    n: u64,
) -> Result<Precondition, AllocError>
    requires { IsSymbolicNode (length nodes) s }
{
    let mut precondition = Precondition::new(alloc, nodes);
    if let Some(node) = s.word() {
        precondition.push(Check {
            node,
            test: Test::Eq(n),
        })?;
    }
    Ok(precondition)
}

#[test]
fn a_pointer_is_moved_by_the_input(rt: HostRuntime) -> Result<(), Fail> {
    let mut nodes = Nodes::new(rt.alloc());
    let s = moved(rt.alloc(), &mut nodes)?;
    let precondition = condition(rt.alloc(), nodes, s, 39_582_452_154_382)?;
    let mut scratch = Scratch::new(rt.alloc(), &precondition)?;
    assert_eq!(rt; admits(&precondition, &mut scratch, &[3]), true);
    assert_eq!(rt; admits(&precondition, &mut scratch, &[524_291]), true);
    assert_eq!(rt; admits(&precondition, &mut scratch, &[4]), false);
    assert_eq!(rt; admits(&precondition, &mut scratch, &[]), false);
    Ok(())
}
