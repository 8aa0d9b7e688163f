//! Lines and tokens: `specs/Lines.antt` says what the lines of a text are, and `specs/Tokens.antt` what the tokens of a line are.
#![tactic(auto)]

pub mod front;
pub mod line;
pub mod token;

pub use line::{is_passed_over, next_line};
pub use token::{LexFault, Token, TokenKind, Tokens, read_tokens, tokens};
