//! The types of functions that are called.

ghost use Rattle.std.specs.Prelude.{◌≡◌, ◌++◌, [], IfOk, OnOk, map};
ghost use Rattle.std.specs.List.{filter_map, cons_option};
ghost use Rattle.std.specs.Option.{option_map};
ghost use Rattle.pg_read_ast.specs.Syntax.{Param, ParamOf};
ghost use Rattle.pg_read_ast.specs.Views.{param_of, dparam_of, define_of, declare_of};
ghost use Rattle.pg_check_rules.specs.Nodes.{tys_behind};
ghost use Rattle.pg_check_rules.specs.Symbols.{symbol_of};
ghost use Rattle.pg_check_rules.specs.CallConditions.{definition_header, declaration_header, header_of, param_type, callee_params};
ghost use Rattle.pg_check_calls.specs.Headers.{param_behind, params_behind, header_behind};

use pg_check_rules::SymbolNode;
use pg_read_ast::{DeclareItem, DefineItem, DparamNode, ParamNode, TypeNode};
use pg_read_lex::Span;
use std::alloc::{AllocError, Global};

/// A parameter of a function that is called.
#[derive(Clone, Copy)]
pub enum HeaderParam<'a> {
    Param(&'a ParamNode),
    Metadata(Span),
    Dots(Span),
}

/// The type of a function that is called.
#[derive(Drop)]
pub struct HeaderNode<'a> {
    pub result: &'a TypeNode,
    pub params: Vec<HeaderParam<'a>>,
}

fn declared_param<'a>(param: &'a DparamNode) -> HeaderParam<'a>
    ensures { param_behind result ≡ dparam_of param.now }
{
    match param {
        DparamNode::Param(param) => HeaderParam::Param(param),
        DparamNode::Metadata(span) => HeaderParam::Metadata(*span),
        DparamNode::Dots(span) => HeaderParam::Dots(*span),
    }
}

fn declared_params<'a>(
    alloc: Global,
    params: &'a [DparamNode],
) -> Result<Vec<HeaderParam<'a>>, AllocError>
    ensures { IfOk result (λ v. params_behind v.items ≡ map dparam_of params.now) }
{
    let mut all = Vec::new(alloc);
    for param in params {
        all.push(declared_param(param))?;
    }
    Ok(all)
}

fn defined_params<'a>(
    alloc: Global,
    params: &'a [ParamNode],
) -> Result<Vec<HeaderParam<'a>>, AllocError>
    ensures { IfOk result (λ v. params_behind v.items ≡ map (λ (p : Param). ParamOf p) (map param_of params.now)) }
{
    let mut all = Vec::new(alloc);
    for param in params {
        all.push(HeaderParam::Param(param))?;
    }
    Ok(all)
}

fn definition_header<'a>(alloc: Global, item: &'a DefineItem) -> Result<HeaderNode<'a>, AllocError>
    ensures { IfOk result (λ h. header_behind h ≡ definition_header (define_of item.now)) }
{
    let params = defined_params(alloc, item.params.as_slice())?;
    Ok(HeaderNode {
        result: &item.result,
        params,
    })
}

fn declaration_header<'a>(
    alloc: Global,
    item: &'a DeclareItem,
) -> Result<HeaderNode<'a>, AllocError>
    ensures { IfOk result (λ h. header_behind h ≡ declaration_header (declare_of item.now)) }
{
    let params = declared_params(alloc, item.params.as_slice())?;
    Ok(HeaderNode {
        result: &item.result,
        params,
    })
}

/// The type of a function that a name stands for; none of anything else.
pub fn header_of<'a>(
    alloc: Global,
    symbol: SymbolNode<'a>,
) -> Result<Option<HeaderNode<'a>>, AllocError>
    ensures { IfOk result (λ o. option_map header_behind o ≡ header_of (symbol_of symbol.entry)) }
{
    match symbol {
        SymbolNode::Definition(_, item) => {
            let header = definition_header(alloc, item)?;
            Ok(Some(header))
        }
        SymbolNode::Declaration(item) => {
            let header = declaration_header(alloc, item)?;
            Ok(Some(header))
        }
        _ => Ok(None),
    }
}

/// Adds the type of a parameter that has one.
fn add_param_type<'a>(
    all: &mut Vec<&'a TypeNode>,
    param: &HeaderParam<'a>,
) -> Result<(), AllocError>
    ensures { OnOk result (tys_behind all.new.items ≡ tys_behind all.old.items ++ cons_option (param_type (param_behind param.now)) []) }
{
    match param {
        HeaderParam::Param(param) => {
            all.push(&param.ty)?;
            Ok(())
        }
        HeaderParam::Metadata(_) => Ok(()),
        HeaderParam::Dots(_) => Ok(()),
    }
}

fn param_types<'a>(
    alloc: Global,
    params: &[HeaderParam<'a>],
) -> Result<Vec<&'a TypeNode>, AllocError>
    ensures { IfOk result (λ v. tys_behind v.items ≡ filter_map param_type (params_behind params.now)) }
{
    let mut all = Vec::new(alloc);
    for param in params {
        add_param_type(&mut all, param)?;
    }
    Ok(all)
}

/// The types of the parameters of a function that a name stands for.
pub fn callee_params<'a>(
    alloc: Global,
    symbol: SymbolNode<'a>,
) -> Result<Vec<&'a TypeNode>, AllocError>
    ensures { IfOk result (λ v. tys_behind v.items ≡ callee_params (symbol_of symbol.entry)) }
{
    match header_of(alloc, symbol)? {
        Some(header) => param_types(alloc, header.params.as_slice()),
        None => Ok(Vec::new(alloc)),
    }
}
