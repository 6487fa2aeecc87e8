//! The classes of tokens, and the words that the grammar fixes.

/// What a token is to the grammar: each word that it fixes is a class of its own, or stands in a class with
/// the words that may stand in the same places.
#[derive(Clone, Copy, Debug, PartialEq, Eq)]
pub enum Class {
    I1,
    I8,
    I16,
    I32,
    I64,
    Ptr,
    Void,
    MetadataWord,
    LabelWord,
    /// Another word of a type.
    OtherType,
    X,
    To,
    Align,
    Volatile,
    /// A flag of an instruction.
    Flag,
    Eq,
    Ne,
    Ugt,
    Uge,
    Ult,
    Ule,
    Sgt,
    Sge,
    Slt,
    Sle,
    TypeWord,
    Distinct,
    GlobalWord,
    ConstantWord,
    True,
    False,
    Null,
    Undef,
    Poison,
    ZeroInitializer,
    SourceFilename,
    Target,
    Declare,
    Define,
    Attributes,
    Add,
    Sub,
    Mul,
    Udiv,
    Sdiv,
    Urem,
    Srem,
    Shl,
    Lshr,
    Ashr,
    And,
    Or,
    Xor,
    Icmp,
    Trunc,
    Zext,
    Sext,
    PtrToInt,
    IntToPtr,
    Select,
    Phi,
    Br,
    Switch,
    /// `tail`, `musttail` or `notail`.
    TailWord,
    Call,
    Ret,
    Unreachable,
    Alloca,
    Load,
    Store,
    GetElementPtr,
    /// Another word with which an instruction or an item of LLVM begins.
    OtherLeading,
    /// A word that refuses what it stands at.
    Refused,
    /// Any other word.
    OtherWord,
    Label,
    Int,
    Dots,
    CStr,
    Odd,
    Str,
    Local,
    Global,
    /// A global whose calls are dropped.
    DroppedGlobal,
    Meta,
    /// `!` alone.
    Bang,
    Attr,
    /// An attribute that begins with `#dbg_`.
    DebugAttr,
    OpenRound,
    CloseRound,
    OpenBrace,
    CloseBrace,
    OpenSquare,
    CloseSquare,
    Less,
    Greater,
    Comma,
    Equals,
    Star,
    Bar,
    Colon,
}

/// A word of the grammar and its class.
#[derive(Clone, Copy, Debug)]
pub struct WordClass {
    pub word: &'static [u8],
    pub class: Class,
}

/// The words of the grammar, each with its class.
pub const WORDS: [WordClass; 117] = [
    WordClass {
        word: b"i1",
        class: Class::I1,
    },
    WordClass {
        word: b"i8",
        class: Class::I8,
    },
    WordClass {
        word: b"i16",
        class: Class::I16,
    },
    WordClass {
        word: b"i32",
        class: Class::I32,
    },
    WordClass {
        word: b"i64",
        class: Class::I64,
    },
    WordClass {
        word: b"ptr",
        class: Class::Ptr,
    },
    WordClass {
        word: b"void",
        class: Class::Void,
    },
    WordClass {
        word: b"metadata",
        class: Class::MetadataWord,
    },
    WordClass {
        word: b"label",
        class: Class::LabelWord,
    },
    WordClass {
        word: b"token",
        class: Class::OtherType,
    },
    WordClass {
        word: b"opaque",
        class: Class::OtherType,
    },
    WordClass {
        word: b"half",
        class: Class::OtherType,
    },
    WordClass {
        word: b"bfloat",
        class: Class::OtherType,
    },
    WordClass {
        word: b"float",
        class: Class::OtherType,
    },
    WordClass {
        word: b"double",
        class: Class::OtherType,
    },
    WordClass {
        word: b"fp128",
        class: Class::OtherType,
    },
    WordClass {
        word: b"x86_fp80",
        class: Class::OtherType,
    },
    WordClass {
        word: b"ppc_fp128",
        class: Class::OtherType,
    },
    WordClass {
        word: b"x86_mmx",
        class: Class::OtherType,
    },
    WordClass {
        word: b"x86_amx",
        class: Class::OtherType,
    },
    WordClass {
        word: b"x",
        class: Class::X,
    },
    WordClass {
        word: b"to",
        class: Class::To,
    },
    WordClass {
        word: b"align",
        class: Class::Align,
    },
    WordClass {
        word: b"volatile",
        class: Class::Volatile,
    },
    WordClass {
        word: b"nsw",
        class: Class::Flag,
    },
    WordClass {
        word: b"nuw",
        class: Class::Flag,
    },
    WordClass {
        word: b"exact",
        class: Class::Flag,
    },
    WordClass {
        word: b"inbounds",
        class: Class::Flag,
    },
    WordClass {
        word: b"nusw",
        class: Class::Flag,
    },
    WordClass {
        word: b"disjoint",
        class: Class::Flag,
    },
    WordClass {
        word: b"nneg",
        class: Class::Flag,
    },
    WordClass {
        word: b"samesign",
        class: Class::Flag,
    },
    WordClass {
        word: b"eq",
        class: Class::Eq,
    },
    WordClass {
        word: b"ne",
        class: Class::Ne,
    },
    WordClass {
        word: b"ugt",
        class: Class::Ugt,
    },
    WordClass {
        word: b"uge",
        class: Class::Uge,
    },
    WordClass {
        word: b"ult",
        class: Class::Ult,
    },
    WordClass {
        word: b"ule",
        class: Class::Ule,
    },
    WordClass {
        word: b"sgt",
        class: Class::Sgt,
    },
    WordClass {
        word: b"sge",
        class: Class::Sge,
    },
    WordClass {
        word: b"slt",
        class: Class::Slt,
    },
    WordClass {
        word: b"sle",
        class: Class::Sle,
    },
    WordClass {
        word: b"type",
        class: Class::TypeWord,
    },
    WordClass {
        word: b"distinct",
        class: Class::Distinct,
    },
    WordClass {
        word: b"global",
        class: Class::GlobalWord,
    },
    WordClass {
        word: b"constant",
        class: Class::ConstantWord,
    },
    WordClass {
        word: b"true",
        class: Class::True,
    },
    WordClass {
        word: b"false",
        class: Class::False,
    },
    WordClass {
        word: b"null",
        class: Class::Null,
    },
    WordClass {
        word: b"undef",
        class: Class::Undef,
    },
    WordClass {
        word: b"poison",
        class: Class::Poison,
    },
    WordClass {
        word: b"zeroinitializer",
        class: Class::ZeroInitializer,
    },
    WordClass {
        word: b"source_filename",
        class: Class::SourceFilename,
    },
    WordClass {
        word: b"target",
        class: Class::Target,
    },
    WordClass {
        word: b"declare",
        class: Class::Declare,
    },
    WordClass {
        word: b"define",
        class: Class::Define,
    },
    WordClass {
        word: b"attributes",
        class: Class::Attributes,
    },
    WordClass {
        word: b"add",
        class: Class::Add,
    },
    WordClass {
        word: b"sub",
        class: Class::Sub,
    },
    WordClass {
        word: b"mul",
        class: Class::Mul,
    },
    WordClass {
        word: b"udiv",
        class: Class::Udiv,
    },
    WordClass {
        word: b"sdiv",
        class: Class::Sdiv,
    },
    WordClass {
        word: b"urem",
        class: Class::Urem,
    },
    WordClass {
        word: b"srem",
        class: Class::Srem,
    },
    WordClass {
        word: b"shl",
        class: Class::Shl,
    },
    WordClass {
        word: b"lshr",
        class: Class::Lshr,
    },
    WordClass {
        word: b"ashr",
        class: Class::Ashr,
    },
    WordClass {
        word: b"and",
        class: Class::And,
    },
    WordClass {
        word: b"or",
        class: Class::Or,
    },
    WordClass {
        word: b"xor",
        class: Class::Xor,
    },
    WordClass {
        word: b"icmp",
        class: Class::Icmp,
    },
    WordClass {
        word: b"trunc",
        class: Class::Trunc,
    },
    WordClass {
        word: b"zext",
        class: Class::Zext,
    },
    WordClass {
        word: b"sext",
        class: Class::Sext,
    },
    WordClass {
        word: b"ptrtoint",
        class: Class::PtrToInt,
    },
    WordClass {
        word: b"inttoptr",
        class: Class::IntToPtr,
    },
    WordClass {
        word: b"select",
        class: Class::Select,
    },
    WordClass {
        word: b"phi",
        class: Class::Phi,
    },
    WordClass {
        word: b"br",
        class: Class::Br,
    },
    WordClass {
        word: b"switch",
        class: Class::Switch,
    },
    WordClass {
        word: b"tail",
        class: Class::TailWord,
    },
    WordClass {
        word: b"musttail",
        class: Class::TailWord,
    },
    WordClass {
        word: b"notail",
        class: Class::TailWord,
    },
    WordClass {
        word: b"call",
        class: Class::Call,
    },
    WordClass {
        word: b"ret",
        class: Class::Ret,
    },
    WordClass {
        word: b"unreachable",
        class: Class::Unreachable,
    },
    WordClass {
        word: b"alloca",
        class: Class::Alloca,
    },
    WordClass {
        word: b"load",
        class: Class::Load,
    },
    WordClass {
        word: b"store",
        class: Class::Store,
    },
    WordClass {
        word: b"getelementptr",
        class: Class::GetElementPtr,
    },
    WordClass {
        word: b"fence",
        class: Class::OtherLeading,
    },
    WordClass {
        word: b"cmpxchg",
        class: Class::OtherLeading,
    },
    WordClass {
        word: b"atomicrmw",
        class: Class::OtherLeading,
    },
    WordClass {
        word: b"invoke",
        class: Class::OtherLeading,
    },
    WordClass {
        word: b"callbr",
        class: Class::OtherLeading,
    },
    WordClass {
        word: b"indirectbr",
        class: Class::OtherLeading,
    },
    WordClass {
        word: b"resume",
        class: Class::OtherLeading,
    },
    WordClass {
        word: b"cleanupret",
        class: Class::OtherLeading,
    },
    WordClass {
        word: b"catchret",
        class: Class::OtherLeading,
    },
    WordClass {
        word: b"freeze",
        class: Class::OtherLeading,
    },
    WordClass {
        word: b"extractvalue",
        class: Class::OtherLeading,
    },
    WordClass {
        word: b"insertvalue",
        class: Class::OtherLeading,
    },
    WordClass {
        word: b"module",
        class: Class::OtherLeading,
    },
    WordClass {
        word: b"uselistorder",
        class: Class::OtherLeading,
    },
    WordClass {
        word: b"thread_local",
        class: Class::Refused,
    },
    WordClass {
        word: b"byval",
        class: Class::Refused,
    },
    WordClass {
        word: b"byref",
        class: Class::Refused,
    },
    WordClass {
        word: b"sret",
        class: Class::Refused,
    },
    WordClass {
        word: b"inalloca",
        class: Class::Refused,
    },
    WordClass {
        word: b"preallocated",
        class: Class::Refused,
    },
    WordClass {
        word: b"external",
        class: Class::Refused,
    },
    WordClass {
        word: b"extern_weak",
        class: Class::Refused,
    },
    WordClass {
        word: b"alias",
        class: Class::Refused,
    },
    WordClass {
        word: b"ifunc",
        class: Class::Refused,
    },
    WordClass {
        word: b"addrspace",
        class: Class::Refused,
    },
    WordClass {
        word: b"personality",
        class: Class::Refused,
    },
    WordClass {
        word: b"gc",
        class: Class::Refused,
    },
];
