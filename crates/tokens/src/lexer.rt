// The lexer: a text, and how far it is read.
ghost use Rattle.std.specs.Prelude.{◌≤◌, length};

// What it answers.
mod reading;

#[derive(Clone, Copy)]
pub struct Lexer<'a> {
    text: &'a [u8],
    at: usize,
    ghost within: { at ≤ length text.now },
}
