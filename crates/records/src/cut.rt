// One field cut off the front of some bytes, by RFC 4180.
ghost use Rattle.std.specs.Prelude.{◌≡◌, ◌+◌, ◌≤◌, true, false, length, IfSome};
ghost use Rattle.std.specs.List.{prefix_len};
ghost use Rattle.records.specs.Bytes.{text_data, quotable};
ghost use Rattle.records.specs.Fields.{closing, following, separator, opens, size, cut, Lies};

// What follows a field: a field of the same record, a record, or nothing.
#[derive(Clone, Copy, PartialEq, Eq, Debug)]
pub enum Next {
    Field,
    Record,
    End,
}

// A field's size in bytes, its quotes among them, and what follows it.
#[derive(Clone, Copy)]
pub struct Cut {
    pub size: usize,
    // A field has quotes or not, and has a size in either case.
    pub quoted: bool,
    pub next: Next,
}

fn is_text_data(b: u8) -> bool
    ensures { result ≡ text_data b }
{
    matches!(b, 0x20..=0x21 | 0x23..=0x2B | 0x2D..=0x7E)
}

fn is_quotable(b: u8) -> bool
    ensures { result ≡ quotable b }
{
    is_text_data(b) || b == b',' || b == b'\r' || b == b'\n'
}

// How many bytes of text data stand in front.
fn plain_size(bytes: &[u8]) -> usize
    ensures value { result ≡ prefix_len text_data bytes.now }
    ensures bound { result ≤ length bytes.now }
{
    bytes.iter().take_while(|b| is_text_data(**b)).count()
}

// The size of the field whose opening quote stands before these bytes, where another quote closes it.
fn quoted_size(inside: &[u8]) -> Option<usize>
    ensures value { result ≡ closing inside.now false 1 }
    ensures bound { IfSome result (λ n. (2 ≤ n) × (n ≤ length inside.now + 1)) }
{
    // A quote that came just before: it closes the field unless another follows.
    let mut quote = false;
    // A loop: whether a byte ends the field depends on the quote before it.
    for (i, b) in inside.iter().enumerate() {
        if *b == b'"' {
            quote = !quote;
        } else if quote {
            return Some(i + 1);
        } else if !is_quotable(*b) {
            return None;
        }
    }
    if quote { Some(inside.len() + 1) } else { None }
}

fn next_of(bytes: &[u8]) -> Option<Next>
    ensures value { result ≡ following bytes.now }
    ensures bound { IfSome result (λ next. separator next ≤ length bytes.now) }
{
    match bytes {
        [] | [b'\r', b'\n'] => Some(Next::End),
        [b',', ..] => Some(Next::Field),
        [b'\r', b'\n', ..] => Some(Next::Record),
        _ => None,
    }
}

fn is_quoted(bytes: &[u8]) -> bool
    ensures { result ≡ opens bytes.now }
{
    matches!(bytes, [b'"', ..])
}

fn field_size(bytes: &[u8]) -> Option<usize>
    ensures value { result ≡ size bytes.now }
    ensures bound { IfSome result (λ n. (n ≤ length bytes.now) × (opens bytes.now ≡ true → 2 ≤ n)) }
{
    match bytes {
        [b'"', inside @ ..] => quoted_size(inside),
        _ => Some(plain_size(bytes)),
    }
}

// The field in front.
pub(crate) fn cut_field(bytes: &[u8]) -> Option<Cut>
    ensures value { result ≡ cut bytes.now }
    ensures bound { IfSome result (Lies bytes.now) }
{
    let size = field_size(bytes)?;
    let next = next_of(&bytes[size..])?;
    Some(Cut {
        size,
        quoted: is_quoted(bytes),
        next,
    })
}
