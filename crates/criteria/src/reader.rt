// The reader of a text: its tokens from the one at hand on, and the parts so far.
ghost use Rattle.std.specs.Prelude.{◌≡◌, ◌≤◌, length};

use super::formula::MOST_PARTS;
use super::scope::Scope;
use parts::Part;
use tokens::{Lexer, Token};

// Taking tokens.
mod taking;
// Bringing and writing parts.
mod writing;
// Windows.
mod windows;
// What is read of a measure.
mod operands;
// Measures.
mod measures;
// Formulas.
mod properties;
// A whole text.
mod whole;

pub use whole::read_text;

#[derive(Clone, Copy)]
pub struct Reader<'t> {
    // What the text is read for.
    scope: &'t Scope<'t>,
    lexer: Lexer<'t>,
    token: Token<'t>,
    // Fixed memory with a count, which becomes the formula's once the text is whole: there is no heap.
    parts: [Part; MOST_PARTS],
    // How many parts are written, and how many the tokens so far have brought.
    count: usize,
    brought: usize,
    ghost places: { length parts ≡ 128 },
    ghost few: { brought ≤ 128 },
    ghost written: { count ≤ brought },
}
