// The tokens of a criterion's text, cut over the caller's bytes.
#![tactic(auto)]

// What a token can be.
mod words;
// A token of a text.
mod token;

// What each byte begins.
mod classes;
// Runs of bytes of one kind.
mod spans;
// The token that begins some bytes.
mod lexeme;
// A text, read token by token.
mod lexer;
// What a token means.
mod naming;

pub use lexer::Lexer;
pub use token::Token;
pub use words::{ConnectiveSign, PrefixSign, Punctuation, Sign, Word};
