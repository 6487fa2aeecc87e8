//! The blocks of a body, with a part put behind them.

ghost use Rattle.std.specs.Prelude.{◌≡◌, ◌||◌, ◌++◌, [], ◌∷◌, map, option_map, IfOk};
ghost use Rattle.pg_read_grammar.specs.GrammarItems as grammar;
ghost use Rattle.pg_read_grammar.specs.ReaderItems as reader;
ghost use Rattle.pg_read.specs.BodyParts.{part_of};
ghost use Rattle.pg_read_ast.specs.Syntax as syntax;
ghost use Rattle.pg_read_ast.specs.Views.{op_of, line_of, block_of};

use pg_read_ast::{BlockNode, LineNode, Name, OpNode};
use pg_read_lex::Span;
use std::alloc::{AllocError, Global};

/// A part of a function's body: a label, a line, or a line that is dropped.
#[derive(Drop)]
pub enum BodyPart {
    Label(Name),
    Line(LineNode),
    Dropped,
}

/// A `ret void`, behind which a value may come: the name before it, and the places of both words.
#[derive(Debug, Drop)]
pub struct VoidReturn {
    pub name: Option<Name>,
    pub word: Span,
    pub void: Span,
}

/// What stands before a place in a body: complete lines; a call, whose attributes may go on; or `ret void`.
#[derive(Debug, Drop)]
pub enum AfterPart {
    Complete,
    Called,
    Returned(VoidReturn),
}

/// The blocks so far, and what stands last in them.
#[derive(Drop)]
pub struct Body {
    pub blocks: Vec<BlockNode>,
    pub after: AfterPart,
}

/// The operation is the last of its block.
fn ends_block(op: &OpNode) -> bool
    ensures { result ≡ grammar.ends_block (op_of op.now) }
{
    match op {
        OpNode::Br { .. }
        | OpNode::CondBr { .. }
        | OpNode::Switch { .. }
        | OpNode::RetVoid { .. }
        | OpNode::Ret { .. }
        | OpNode::Unreachable { .. } => true,
        _ => false,
    }
}

/// The last of the lines ends a block.
fn is_closed(lines: &[LineNode]) -> bool
    ensures { result ≡ reader.is_closed (map line_of lines.now) }
{
    let count = lines.len();
    if count == 0 {
        return false;
    }
    ends_block(&lines[count - 1].op)
}

fn is_label(part: &BodyPart) -> bool
    ensures { result ≡ reader.begins_block (part_of part.now) }
{
    match part {
        BodyPart::Label(_) => true,
        _ => false,
    }
}

/// The part stands in a block of its own, and not in the last one.
fn starts_block(last: &BlockNode, part: &BodyPart) -> bool
    ensures { result ≡ (reader.is_closed (block_of last.now).lines || reader.begins_block (part_of part.now)) }
{
    is_closed(last.lines.as_slice()) || is_label(part)
}

/// A block of this part alone.
fn alone(alloc: Global, part: BodyPart) -> Result<BlockNode, AllocError>
    ensures { IfOk result (λ b. block_of b ≡ grammar.alone (part_of part)) }
{
    let mut lines = Vec::new(alloc);
    match part {
        BodyPart::Label(name) => {
            let label = Some(name);
            Ok(BlockNode { label, lines })
        }
        BodyPart::Line(line) => {
            if lines.push(line).is_err() {
                return Err(AllocError);
            }
            Ok(BlockNode { label: None, lines })
        }
        BodyPart::Dropped => Ok(BlockNode { label: None, lines }),
    }
}

/// The block with this part behind its lines.
#[tactic(auto, using(std::proofs::lemmas::List::map_push))]
fn with_back(block: BlockNode, part: BodyPart) -> Result<BlockNode, AllocError>
    ensures { IfOk result (λ b. block_of b ≡ reader.with_back (block_of block) (part_of part)) }
{
    let mut block = block;
    match part {
        BodyPart::Line(line) => {
            if block.lines.push(line).is_err() {
                return Err(AllocError);
            }
            Ok(block)
        }
        _ => Ok(block),
    }
}

/// The blocks, their last one, and a part behind it.
#[tactic(auto, using(crate::proofs::AddedParts::started, crate::proofs::AddedParts::joined))]
fn add_behind(
    alloc: Global,
    blocks: Vec<BlockNode>,
    last: BlockNode,
    part: BodyPart,
) -> Result<Vec<BlockNode>, AllocError>
    ensures { IfOk result (λ bs. map block_of bs.items ≡ reader.add_part (map block_of (blocks.items ++ last ∷ [])) (part_of part)) }
{
    let mut blocks = blocks;
    if starts_block(&last, &part) {
        let next = alone(alloc, part)?;
        if blocks.push(last).is_err() {
            return Err(AllocError);
        }
        if blocks.push(next).is_err() {
            return Err(AllocError);
        }
        return Ok(blocks);
    }
    let longer = with_back(last, part)?;
    if blocks.push(longer).is_err() {
        return Err(AllocError);
    }
    Ok(blocks)
}

/// The blocks, and a part behind them.
pub fn add_part(
    alloc: Global,
    blocks: Vec<BlockNode>,
    part: BodyPart,
) -> Result<Vec<BlockNode>, AllocError>
    ensures { IfOk result (λ bs. map block_of bs.items ≡ reader.add_part (map block_of blocks.items) (part_of part)) }
{
    let mut blocks = blocks;
    match blocks.pop() {
        None => {
            let next = alone(alloc, part)?;
            if blocks.push(next).is_err() {
                return Err(AllocError);
            }
            Ok(blocks)
        }
        Some(last) => add_behind(alloc, blocks, last, part),
    }
}

/// The blocks, and a line behind them.
pub fn add_line(
    alloc: Global,
    blocks: Vec<BlockNode>,
    name: Option<Name>,
    op: OpNode,
) -> Result<Vec<BlockNode>, AllocError>
    ensures { IfOk result (λ bs. map block_of bs.items ≡ reader.add_line (map block_of blocks.items) name (op_of op)) }
{
    add_part(alloc, blocks, BodyPart::Line(LineNode { name, op }))
}

/// The blocks, and a `ret void` behind them.
pub fn add_return(
    alloc: Global,
    blocks: Vec<BlockNode>,
    line: VoidReturn,
) -> Result<Vec<BlockNode>, AllocError>
    ensures { IfOk result (λ bs. map block_of bs.items ≡ reader.add_line (map block_of blocks.items) line.name (syntax.RetVoid line.word line.void)) }
{
    let VoidReturn { name, word, void } = line;
    add_line(alloc, blocks, name, OpNode::RetVoid { span: word, void })
}

/// The blocks, and a line behind them that is dropped where it has no operation.
pub fn add_call(
    alloc: Global,
    blocks: Vec<BlockNode>,
    name: Option<Name>,
    op: Option<OpNode>,
) -> Result<Vec<BlockNode>, AllocError>
    ensures { IfOk result (λ bs. map block_of bs.items ≡ reader.add_part (map block_of blocks.items) (grammar.line_of name (option_map op_of op))) }
{
    match op {
        Some(op) => add_part(alloc, blocks, BodyPart::Line(LineNode { name, op })),
        None => add_part(alloc, blocks, BodyPart::Dropped),
    }
}
