//! The tokens of a query text.
#![tactic(auto)]

mod fault;
mod laws;
mod meaning;
mod scan;
mod token;
mod tokens;

pub use fault::LexFault;
pub use laws::text_has_one_reading;
pub use meaning::{number_value, text_value};
pub use scan::lex;
pub use token::{Token, TokenKind};
pub use tokens::Tokens;
