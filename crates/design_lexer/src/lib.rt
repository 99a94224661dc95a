//! The tokens of the language's files, the syntax trees that are written by them, and readers of tokens.
#![tactic(auto)]

mod laws;
mod piece;
mod scan;
mod syntax;
mod token;
mod tree;

pub use laws::{texts_are_cut_in_one_way, tokens_have_their_bytes};
pub use scan::{LexFault, lex};
pub use syntax::class::Class;
pub use syntax::fault::ReadFault;
pub use syntax::lexemes::Lexemes;
pub use token::{Token, TokenKind};
pub use tree::{
    ArgTree, BodyTree, BranchTree, ConstantTree, ExprTree, FactorTree, File, NameAt, Number,
    ParamTree, PlaceTree, PortTree, PosetTree, RefTree, RowTree, RuleTree, Side, TypeTree,
    ValueTree,
};
