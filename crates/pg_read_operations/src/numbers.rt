//! Operations on numbers, comparisons, conversions and choices.

ghost use Rattle.std.specs.Prelude.{◌≡◌, ◌≤◌, ◌<◌, length, drop, IfOk};
ghost use Rattle.pg_read_grammar.specs.GrammarOps.{binary_of, predicate_of, cast_of};
ghost use Rattle.pg_num.specs.declared.limits.TheConstants.{NESTING_LIMIT};
ghost use Rattle.pg_read_grammar.specs.Reader.{behind_comma, value_at};
ghost use Rattle.pg_read_grammar.specs.ReaderOps.{binary_at, icmp_at, cast_at, cast_tail_at, select_at, typed_value_at};
ghost use Rattle.pg_read_grammar.specs.Views.{Reads};
ghost use Rattle.pg_read_operations.specs.Rows.{two_values_at, operands_at, binary_end_at, comparison_end_at, to_type_at, cast_end_at, select_end_at};
ghost use Rattle.pg_read_ast.specs.Views.{op_of, ty_of, val_of, typed_of};

use pg_num::Compare;
use pg_num::limits::NESTING_LIMIT;
use pg_read_ast::{BinaryOp, CastOp, OpNode, TypeNode, TypedVal, ValNode};
use pg_read_grammar::{Class, ReadError, Token};
use pg_read_terms::{ClassSet, Read, Text, flags, take, take_in, type_node, typed_value_in, value};

fn binary_op(class: Class) -> BinaryOp
    ensures { result ≡ binary_of class }
{
    match class {
        Class::Add => BinaryOp::Add,
        Class::Sub => BinaryOp::Sub,
        Class::Mul => BinaryOp::Mul,
        Class::Udiv => BinaryOp::Udiv,
        Class::Sdiv => BinaryOp::Sdiv,
        Class::Urem => BinaryOp::Urem,
        Class::Srem => BinaryOp::Srem,
        Class::Shl => BinaryOp::Shl,
        Class::Lshr => BinaryOp::Lshr,
        Class::Ashr => BinaryOp::Ashr,
        Class::And => BinaryOp::And,
        Class::Or => BinaryOp::Or,
        _ => BinaryOp::Xor,
    }
}

fn predicate_op(class: Class) -> Compare
    ensures { result ≡ predicate_of class }
{
    match class {
        Class::Eq => Compare::Eq,
        Class::Ne => Compare::Ne,
        Class::Ugt => Compare::Ugt,
        Class::Uge => Compare::Uge,
        Class::Ult => Compare::Ult,
        Class::Ule => Compare::Ule,
        Class::Sgt => Compare::Sgt,
        Class::Sge => Compare::Sge,
        Class::Slt => Compare::Slt,
        _ => Compare::Sle,
    }
}

fn cast_op(class: Class) -> CastOp
    ensures { result ≡ cast_of class }
{
    match class {
        Class::Trunc => CastOp::Trunc,
        Class::Zext => CastOp::Zext,
        Class::Sext => CastOp::Sext,
        Class::PtrToInt => CastOp::PtrToInt,
        _ => CastOp::IntToPtr,
    }
}

/// An operation on two integers.
pub fn binary(text: &Text<'_>, at: usize) -> Read<OpNode>
    requires { at ≤ length text.now.tokens.now }
    ensures read { Reads text.now.tokens.now at (λ x. op_of x.0) (λ x. x.1) result (binary_at (drop at text.now.tokens.now)) }
    ensures on { IfOk result (λ x. at < x.1) }
{
    let (word, at) = take_in(text.tokens, at, ClassSet::Binary)?;
    let at = flags(text.tokens, at);
    binary_end(text, at, word)
}

/// What stands behind the flags of an operation on two integers.
fn binary_end(text: &Text<'_>, at: usize, word: &Token) -> Read<OpNode>
    requires { at ≤ length text.now.tokens.now }
    ensures { Reads text.now.tokens.now at (λ x. op_of x.0) (λ x. x.1) result (binary_end_at word.now (drop at text.now.tokens.now)) }
{
    let (ty, left, right, at) = operands(text, at)?;
    let op = binary_op(word.class);
    let node = OpNode::Binary {
        span: word.span,
        op,
        ty,
        left,
        right,
    };
    Ok((node, at))
}

/// A type and two values of it, with a comma between them.
fn operands(text: &Text<'_>, at: usize) -> Result<(TypeNode, ValNode, ValNode, usize), ReadError>
    requires { at ≤ length text.now.tokens.now }
    ensures { Reads text.now.tokens.now at (λ x. (ty_of x.0, val_of x.1, val_of x.2)) (λ x. x.3) result (operands_at (drop at text.now.tokens.now)) }
{
    let (ty, at) = type_node(text, at, NESTING_LIMIT)?;
    let (left, right, at) = two_values(text, at)?;
    Ok((ty, left, right, at))
}

/// Two values with a comma between them.
fn two_values(text: &Text<'_>, at: usize) -> Result<(ValNode, ValNode, usize), ReadError>
    requires { at ≤ length text.now.tokens.now }
    ensures { Reads text.now.tokens.now at (λ x. (val_of x.0, val_of x.1)) (λ x. x.2) result (two_values_at (drop at text.now.tokens.now)) }
{
    let (left, at) = value(text, at, NESTING_LIMIT)?;
    let (right, at) = second_value(text, at)?;
    Ok((left, right, at))
}

/// A value behind a comma.
fn second_value(text: &Text<'_>, at: usize) -> Read<ValNode>
    requires { at ≤ length text.now.tokens.now }
    ensures { Reads text.now.tokens.now at (λ x. val_of x.0) (λ x. x.1) result (behind_comma (value_at NESTING_LIMIT) (drop at text.now.tokens.now)) }
{
    let (_, at) = take(text.tokens, at, Class::Comma)?;
    value(text, at, NESTING_LIMIT)
}

/// A comparison.
pub fn comparison(text: &Text<'_>, at: usize) -> Read<OpNode>
    requires { at ≤ length text.now.tokens.now }
    ensures read { Reads text.now.tokens.now at (λ x. op_of x.0) (λ x. x.1) result (icmp_at (drop at text.now.tokens.now)) }
    ensures on { IfOk result (λ x. at < x.1) }
{
    let (word, at) = take(text.tokens, at, Class::Icmp)?;
    let at = flags(text.tokens, at);
    let (predicate, at) = take_in(text.tokens, at, ClassSet::Predicate)?;
    comparison_end(text, at, word, predicate)
}

/// What stands behind the predicate of a comparison.
fn comparison_end(text: &Text<'_>, at: usize, word: &Token, predicate: &Token) -> Read<OpNode>
    requires { at ≤ length text.now.tokens.now }
    ensures { Reads text.now.tokens.now at (λ x. op_of x.0) (λ x. x.1) result (comparison_end_at word.now predicate.now (drop at text.now.tokens.now)) }
{
    let (ty, left, right, at) = operands(text, at)?;
    let op = predicate_op(predicate.class);
    let node = OpNode::Icmp {
        span: word.span,
        predicate: op,
        ty,
        left,
        right,
    };
    Ok((node, at))
}

/// A conversion.
pub fn cast(text: &Text<'_>, at: usize) -> Read<OpNode>
    requires { at ≤ length text.now.tokens.now }
    ensures read { Reads text.now.tokens.now at (λ x. op_of x.0) (λ x. x.1) result (cast_at (drop at text.now.tokens.now)) }
    ensures on { IfOk result (λ x. at < x.1) }
{
    let (word, at) = take_in(text.tokens, at, ClassSet::Cast)?;
    cast_tail(text, at, word)
}

/// What stands behind the first token of a conversion.
pub fn cast_tail(text: &Text<'_>, at: usize, word: &Token) -> Read<OpNode>
    requires { at ≤ length text.now.tokens.now }
    ensures { Reads text.now.tokens.now at (λ x. op_of x.0) (λ x. x.1) result (cast_tail_at word.now (drop at text.now.tokens.now)) }
{
    let at = flags(text.tokens, at);
    let (value, at) = typed_value_in(text, at, NESTING_LIMIT)?;
    cast_end(text, at, word, value)
}

/// What stands behind the value of a conversion.
fn cast_end(text: &Text<'_>, at: usize, word: &Token, value: TypedVal) -> Read<OpNode>
    requires { at ≤ length text.now.tokens.now }
    ensures { Reads text.now.tokens.now at (λ x. op_of x.0) (λ x. x.1) result (cast_end_at word.now (typed_of value) (drop at text.now.tokens.now)) }
{
    let (ty, at) = to_type(text, at)?;
    let op = cast_op(word.class);
    let node = OpNode::Cast {
        span: word.span,
        op,
        value,
        ty,
    };
    Ok((node, at))
}

/// A type behind the word `to`.
fn to_type(text: &Text<'_>, at: usize) -> Read<TypeNode>
    requires { at ≤ length text.now.tokens.now }
    ensures { Reads text.now.tokens.now at (λ x. ty_of x.0) (λ x. x.1) result (to_type_at (drop at text.now.tokens.now)) }
{
    let (_, at) = take(text.tokens, at, Class::To)?;
    type_node(text, at, NESTING_LIMIT)
}

/// A choice of two values.
pub fn select(text: &Text<'_>, at: usize) -> Read<OpNode>
    requires { at ≤ length text.now.tokens.now }
    ensures read { Reads text.now.tokens.now at (λ x. op_of x.0) (λ x. x.1) result (select_at (drop at text.now.tokens.now)) }
    ensures on { IfOk result (λ x. at < x.1) }
{
    let (word, at) = take(text.tokens, at, Class::Select)?;
    let (condition, at) = typed_value_in(text, at, NESTING_LIMIT)?;
    select_end(text, at, word, condition)
}

/// The two values behind the condition of a choice.
fn select_end(text: &Text<'_>, at: usize, word: &Token, condition: TypedVal) -> Read<OpNode>
    requires { at ≤ length text.now.tokens.now }
    ensures { Reads text.now.tokens.now at (λ x. op_of x.0) (λ x. x.1) result (select_end_at word.now (typed_of condition) (drop at text.now.tokens.now)) }
{
    let (yes, at) = comma_value(text, at)?;
    let (no, at) = comma_value(text, at)?;
    let node = OpNode::Select {
        span: word.span,
        condition,
        yes,
        no,
    };
    Ok((node, at))
}

/// A value and the type before it, behind a comma.
fn comma_value(text: &Text<'_>, at: usize) -> Read<TypedVal>
    requires { at ≤ length text.now.tokens.now }
    ensures { Reads text.now.tokens.now at (λ x. typed_of x.0) (λ x. x.1) result (behind_comma typed_value_at (drop at text.now.tokens.now)) }
{
    let (_, at) = take(text.tokens, at, Class::Comma)?;
    typed_value_in(text, at, NESTING_LIMIT)
}
