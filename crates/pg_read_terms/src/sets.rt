//! Sets of classes of tokens, and reading one token of a set.

ghost use Rattle.std.specs.Prelude.{◌≡◌, ◌≤◌, ◌+◌, length, drop, IfOk};
ghost use Rattle.pg_read_grammar.specs.Classes.{is_word};
ghost use Rattle.pg_read_grammar.specs.Grammar.{no_type, opens_type, opens, plain, attribute_word, attribute_name, metadata_name, opens_value, global_name};
ghost use Rattle.pg_read_grammar.specs.GrammarOps.{binary_word, predicate_word, cast_word, op_word, no_op};
ghost use Rattle.pg_read_grammar.specs.GrammarItems.{no_item};
ghost use Rattle.pg_read_grammar.specs.Reader.{begins_type, brackets, begins_value, begins_attribute};
ghost use Rattle.pg_read_grammar.specs.ReaderItems.{begins_certain, begins_call, begins_part, begins_item};
ghost use Rattle.pg_read_grammar.specs.Reading.{comes, take_one};
ghost use Rattle.pg_read_terms.specs.Sets.{members};
ghost use Rattle.pg_read_terms.specs.Tried.{Tries};
ghost use Rattle.pg_read_grammar.specs.Views.{Takes};

use pg_read_grammar::{Class, ReadRefusal, Token};

/// A set of classes: the tokens that may stand at a place, or are refused there.
#[derive(Clone, Copy, Debug)]
pub enum ClassSet {
    Word,
    /// What isn't supported in place of a call's global.
    NoCallee,
    GlobalName,
    MetadataName,
    AttributeName,
    AttributeWord,
    /// What begins an attribute.
    Attribute,
    /// An opening bracket.
    Opening,
    /// Any token but a bracket.
    Plain,
    /// Any token but a closing bracket.
    Bracket,
    /// What begins a type.
    Type,
    /// What isn't supported in place of a type.
    NoType,
    /// What begins a type that has others in it.
    OpensType,
    /// What begins a value.
    Value,
    /// What begins a value that has others in it.
    OpensValue,
    /// What begins a value and can begin no line.
    CertainValue,
    Binary,
    Predicate,
    Cast,
    /// What begins a call.
    Call,
    /// What begins an operation.
    Operation,
    /// What isn't supported in place of an operation.
    NoOperation,
    /// What begins a label or a line.
    Part,
    /// What begins an item.
    Item,
    /// What isn't supported in place of an item.
    NoItem,
}

/// A token of these classes comes.
pub fn next_in(tokens: &[Token], at: usize, set: ClassSet) -> bool
    requires { at ≤ length tokens.now }
    ensures { result ≡ comes (members set) (drop at tokens.now) }
{
    at < tokens.len() && contains(set, tokens[at].class)
}

/// The token of these classes that comes, and the place after it.
pub fn take_in(tokens: &[Token], at: usize, set: ClassSet) -> Result<(&Token, usize), ReadRefusal>
    requires { at ≤ length tokens.now }
    ensures read { Takes tokens.now at (λ x. x.0.now) (λ x. x.1) result (take_one (members set) (drop at tokens.now)) }
    ensures step { IfOk result (λ x. x.1 ≡ at + 1) }
{
    if at < tokens.len() && contains(set, tokens[at].class) {
        Ok((&tokens[at], at + 1))
    } else {
        Err(ReadRefusal { fault: None, at })
    }
}

/// The same where such a token comes, and else nothing.
pub(crate) fn take_if_in(tokens: &[Token], at: usize, set: ClassSet) -> Option<(&Token, usize)>
    requires { at ≤ length tokens.now }
    ensures { Tries tokens.now at (members set) (λ x. x.0.now) (λ x. x.1) result }
{
    if at < tokens.len() && contains(set, tokens[at].class) {
        Some((&tokens[at], at + 1))
    } else {
        None
    }
}

/// The class is one of the set.
pub fn contains(set: ClassSet, class: Class) -> bool
    ensures { result ≡ members set class }
{
    match set {
        ClassSet::Word => is_any_word(class),
        ClassSet::NoCallee => is_no_callee(class),
        ClassSet::GlobalName => is_global_name(class),
        ClassSet::MetadataName => is_metadata_name(class),
        ClassSet::AttributeName => is_attribute_name(class),
        ClassSet::AttributeWord => is_attribute_word(class),
        ClassSet::Attribute => is_attribute(class),
        ClassSet::Opening => is_opening(class),
        ClassSet::Plain => is_plain(class),
        ClassSet::Bracket => is_bracket(class),
        ClassSet::Type => is_type(class),
        ClassSet::NoType => is_no_type(class),
        ClassSet::OpensType => is_opening_type(class),
        ClassSet::Value => is_value(class),
        ClassSet::OpensValue => is_opening_value(class),
        ClassSet::CertainValue => is_certain_value(class),
        ClassSet::Binary => is_binary(class),
        ClassSet::Predicate => is_predicate(class),
        ClassSet::Cast => is_cast(class),
        ClassSet::Call => is_call(class),
        ClassSet::Operation => is_operation(class),
        ClassSet::NoOperation => is_no_operation(class),
        ClassSet::Part => is_part(class),
        ClassSet::Item => is_item(class),
        ClassSet::NoItem => is_no_item(class),
    }
}

fn is_any_word(class: Class) -> bool
    ensures { result ≡ is_word class }
{
    match class {
        Class::Label
        | Class::Int
        | Class::Dots
        | Class::CStr
        | Class::Odd
        | Class::Str
        | Class::Local
        | Class::Global
        | Class::DroppedGlobal
        | Class::Meta
        | Class::Bang
        | Class::Attr
        | Class::DebugAttr
        | Class::OpenRound
        | Class::CloseRound
        | Class::OpenBrace
        | Class::CloseBrace
        | Class::OpenSquare
        | Class::CloseSquare
        | Class::Less
        | Class::Greater
        | Class::Comma
        | Class::Equals
        | Class::Star
        | Class::Bar
        | Class::Colon => false,
        _ => true,
    }
}

fn is_no_callee(class: Class) -> bool
    ensures { result ≡ members ClassSet.NoCallee class }
{
    match class {
        Class::Local => true,
        _ => is_any_word(class),
    }
}

fn is_global_name(class: Class) -> bool
    ensures { result ≡ global_name class }
{
    match class {
        Class::Global | Class::DroppedGlobal => true,
        _ => false,
    }
}

fn is_metadata_name(class: Class) -> bool
    ensures { result ≡ metadata_name class }
{
    match class {
        Class::Meta | Class::Bang => true,
        _ => false,
    }
}

fn is_attribute_name(class: Class) -> bool
    ensures { result ≡ attribute_name class }
{
    match class {
        Class::Attr | Class::DebugAttr => true,
        _ => false,
    }
}

fn is_attribute_word(class: Class) -> bool
    ensures { result ≡ attribute_word class }
{
    match class {
        Class::X
        | Class::To
        | Class::Align
        | Class::Volatile
        | Class::Flag
        | Class::TypeWord
        | Class::Distinct
        | Class::OtherWord => true,
        _ => is_predicate(class),
    }
}

fn is_attribute(class: Class) -> bool
    ensures { result ≡ begins_attribute class }
{
    match class {
        Class::Str => true,
        _ => is_attribute_word(class) || is_attribute_name(class) || is_metadata_name(class),
    }
}

fn is_opening(class: Class) -> bool
    ensures { result ≡ opens class }
{
    match class {
        Class::OpenRound | Class::OpenSquare | Class::OpenBrace => true,
        _ => false,
    }
}

fn is_plain(class: Class) -> bool
    ensures { result ≡ plain class }
{
    match class {
        Class::OpenRound
        | Class::OpenSquare
        | Class::OpenBrace
        | Class::CloseRound
        | Class::CloseSquare
        | Class::CloseBrace => false,
        _ => true,
    }
}

fn is_bracket(class: Class) -> bool
    ensures { result ≡ brackets class }
{
    match class {
        Class::CloseRound | Class::CloseSquare | Class::CloseBrace => false,
        _ => true,
    }
}

fn is_type(class: Class) -> bool
    ensures { result ≡ begins_type class }
{
    match class {
        Class::OpenSquare
        | Class::OpenBrace
        | Class::I1
        | Class::I8
        | Class::I16
        | Class::I32
        | Class::I64
        | Class::Ptr
        | Class::Void
        | Class::Local => true,
        _ => false,
    }
}

fn is_no_type(class: Class) -> bool
    ensures { result ≡ no_type class }
{
    match class {
        Class::I1 | Class::I8 | Class::I16 | Class::I32 | Class::I64 | Class::Ptr | Class::Void =>
            false,
        Class::Less => true,
        _ => is_any_word(class),
    }
}

fn is_opening_type(class: Class) -> bool
    ensures { result ≡ opens_type class }
{
    match class {
        Class::OpenSquare | Class::OpenBrace => true,
        _ => false,
    }
}

fn is_value(class: Class) -> bool
    ensures { result ≡ begins_value class }
{
    match class {
        Class::GetElementPtr | Class::IntToPtr | Class::Local => true,
        _ => is_certain_value(class),
    }
}

fn is_opening_value(class: Class) -> bool
    ensures { result ≡ opens_value class }
{
    match class {
        Class::GetElementPtr | Class::IntToPtr => true,
        _ => false,
    }
}

fn is_certain_value(class: Class) -> bool
    ensures { result ≡ begins_certain class }
{
    match class {
        Class::Int
        | Class::True
        | Class::False
        | Class::Null
        | Class::Undef
        | Class::Poison
        | Class::ZeroInitializer
        | Class::Global
        | Class::DroppedGlobal => true,
        _ => false,
    }
}

fn is_binary(class: Class) -> bool
    ensures { result ≡ binary_word class }
{
    match class {
        Class::Add
        | Class::Sub
        | Class::Mul
        | Class::Udiv
        | Class::Sdiv
        | Class::Urem
        | Class::Srem
        | Class::Shl
        | Class::Lshr
        | Class::Ashr
        | Class::And
        | Class::Or
        | Class::Xor => true,
        _ => false,
    }
}

fn is_predicate(class: Class) -> bool
    ensures { result ≡ predicate_word class }
{
    match class {
        Class::Eq
        | Class::Ne
        | Class::Ugt
        | Class::Uge
        | Class::Ult
        | Class::Ule
        | Class::Sgt
        | Class::Sge
        | Class::Slt
        | Class::Sle => true,
        _ => false,
    }
}

fn is_cast(class: Class) -> bool
    ensures { result ≡ cast_word class }
{
    match class {
        Class::Trunc | Class::Zext | Class::Sext | Class::PtrToInt | Class::IntToPtr => true,
        _ => false,
    }
}

fn is_call(class: Class) -> bool
    ensures { result ≡ begins_call class }
{
    match class {
        Class::Call | Class::TailWord => true,
        _ => false,
    }
}

fn is_operation(class: Class) -> bool
    ensures { result ≡ op_word class }
{
    match class {
        Class::Ret
        | Class::GetElementPtr
        | Class::Icmp
        | Class::Select
        | Class::Phi
        | Class::Br
        | Class::Switch
        | Class::Unreachable
        | Class::Alloca
        | Class::Load
        | Class::Store => true,
        _ => is_call(class) || is_cast(class) || is_binary(class),
    }
}

fn is_no_operation(class: Class) -> bool
    ensures { result ≡ no_op class }
{
    is_any_word(class) && !is_operation(class)
}

fn is_part(class: Class) -> bool
    ensures { result ≡ begins_part class }
{
    match class {
        Class::Label | Class::DebugAttr | Class::Local => true,
        _ => is_operation(class),
    }
}

fn is_item(class: Class) -> bool
    ensures { result ≡ begins_item class }
{
    match class {
        Class::Meta
        | Class::Bang
        | Class::Global
        | Class::DroppedGlobal
        | Class::Declare
        | Class::Define
        | Class::Local
        | Class::Attributes
        | Class::SourceFilename
        | Class::Target => true,
        _ => false,
    }
}

fn is_no_item(class: Class) -> bool
    ensures { result ≡ no_item class }
{
    match class {
        Class::SourceFilename
        | Class::Target
        | Class::Declare
        | Class::Define
        | Class::Attributes => false,
        _ => is_any_word(class),
    }
}
