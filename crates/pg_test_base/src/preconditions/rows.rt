//! What the definitions say of each kind of node.

ghost use Rattle.std.specs.Prelude.{◌≡◌, ◌∷◌, ◌-◌, ◌^◌, [], pos, negsuc, None, Some, true, false};
ghost use Rattle.pg_num.specs.declared.operations.Compare.TheVariants.{Slt};
ghost use Rattle.pg_num.specs.declared.operations.Division.TheVariants.{Sdiv};
ghost use Rattle.pg_num.specs.declared.width.Width.TheVariants.{W8, W64};
ghost use Rattle.pg_precondition.specs.declared.check.Test.TheVariants as test;
ghost use Rattle.pg_precondition.specs.declared.node.CastKind.TheVariants.{Trunc, Zext, Sext};
ghost use Rattle.pg_precondition.specs.declared.node.Node.TheVariants as node;
ghost use Rattle.pg_precondition.specs.declared.node.Operation.TheVariants as operation;
ghost use Rattle.pg_precondition.specs.Values.{is_admitted, numbers_of};

/// Bytes, the lowest first.
pub fn bytes_have_these_numbers()
    ensures { numbers_of (pos 300 ∷ []) (node.Const 0 ∷ node.In 0 ∷ node.Byte 1 0 ∷ node.Byte 1 1 ∷ node.Join (3 ∷ 2 ∷ 0 ∷ 0 ∷ 0 ∷ 0 ∷ 0 ∷ 0 ∷ []) 2 ∷ [])
        ≡ Some 0 ∷ Some 300 ∷ Some 44 ∷ Some 1 ∷ Some 11265 ∷ [] }
{}

/// A number of 64 bits, cut to eight bits and extended again.
pub fn casts_have_these_numbers()
    ensures { numbers_of (negsuc 0 ∷ []) (node.Const 0 ∷ node.In 0 ∷ node.Cast Trunc W64 W8 1 ∷ node.Cast Zext W8 W64 2 ∷ node.Cast Sext W8 W64 2 ∷ node.InLen ∷ [])
        ≡ Some 0 ∷ Some (2 ^ 64 - 1) ∷ Some 255 ∷ Some 255 ∷ Some (2 ^ 64 - 1) ∷ Some 1 ∷ [] }
{}

/// A choice rests on the chosen number alone.
pub fn choices_have_these_numbers()
    ensures { numbers_of [] (node.Const 0 ∷ node.Const 7 ∷ node.Op (operation.Divide Sdiv) W64 1 0 ∷ node.Op
        (operation.Compare Slt) W64 0 1 ∷ node.Select 3 1 2 ∷ node.Select 0 1 2 ∷ []) ≡ Some 0 ∷ Some 7 ∷ None ∷ Some 1 ∷ Some 7 ∷ None ∷ [] }
{}

/// A pointer that is moved keeps its bounds.
pub fn bounds_are_met()
    ensures moved { is_admitted (pos 5 ∷ []) (record {
      nodes = node.Const 0 ∷ node.In 0 ∷ node.Const 39582452154368 ∷ node.Gep 2 1 ∷ [];
      checks = record { node = 3; test = test.Bounds 9 16 } ∷ record { node = 3; test = test.Ne 39582452154368 } ∷ [];
    }) ≡ true }
    ensures other { is_admitted (pos 5 ∷ []) (record
        { nodes = node.Const 0 ∷ node.In 0 ∷ node.Const 39582452154368 ∷ node.Gep 2 1 ∷ []; checks = record { node = 3; test = test.Bounds 9 8 } ∷ [] }) ≡ false }
{}
