//! The lexer of the compiler: it cuts the text of a specification into tokens.
//!
//! [`lex`] returns the words, numbers and signs of a text in order, each with its line and its
//! span, or the first fault of the text. Contracts see the tokens as a list, which `tokens_of` in
//! `specs/Tokens.antt` defines.
//!
//! ```
//! let tokens = lex(alloc, b"FTSPEC grant: request -> F[0,3] granted;")?;
//! for token in tokens.as_slice() {
//!     if let What::Word(name) = &token.what {
//!         // grant, request, granted
//!         io.write(name.bytes())?;
//!     }
//! }
//! ```
#![tactic(auto)]

pub mod fault;
mod front;
mod lexer;
pub mod token;

pub use fault::LexFault;
pub use lexer::lex;
pub use token::{Keyword, Sign, Token, Tokens, What};
