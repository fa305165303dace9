//! The tokens of policy text.
#![tactic(auto)]

mod cursor;
mod lexeme;
mod pieces;
mod token;
mod whole;

pub use cursor::{Cursor, scan};
pub use lexeme::{Lexeme, Lexemes};
pub use token::{Kind, Sign, Span, Token, TokenFault, Word};
pub use whole::tokens;
