// The fields of a file, one after the other.
use super::expect::at;
use records::{Field, Fields, Next, Position, TextFault};
use std::process::Abort;

fn plain(text: &[u8], at: Position, next: Next) -> Field {
    Field {
        text,
        quoted: false,
        at,
        next,
    }
}

fn quoted(text: &[u8], at: Position, next: Next) -> Field {
    Field {
        text,
        quoted: true,
        at,
        next,
    }
}

// The file's fields are these, and then it has ended, also at a second call.
fn yields(rt: &impl Abort, file: &[u8], expected: &[Field]) {
    let mut fields = Fields::over(file);
    for (i, field) in expected.iter().enumerate() {
        assert_eq!(rt; fields.next_field(), Ok(Some(*field)), "field {i}");
    }
    for _ in 0..2 {
        assert_eq!(rt; fields.next_field(), Ok(None), "the file has not ended");
    }
}

#[test]
fn fields_and_what_follows(rt: HostRuntime) {
    yields(
        &rt,
        b"a,\"b\"\"c\",\r\n\"\",x y\r\n\"d,\r\ne\"",
        &[
            plain(b"a", at(0, 0, 0), Next::Field),
            quoted(b"b\"\"c", at(0, 1, 2), Next::Field),
            plain(b"", at(0, 2, 9), Next::Record),
            quoted(b"", at(1, 0, 11), Next::Field),
            plain(b"x y", at(1, 1, 14), Next::Record),
            quoted(b"d,\r\ne", at(2, 0, 19), Next::End),
        ],
    );
}

// The empty file has one empty field, and so has one whose only bytes are a line end.
#[test]
fn empty_fields(rt: HostRuntime) {
    yields(&rt, b"", &[plain(b"", at(0, 0, 0), Next::End)]);
    yields(&rt, b"\r\n", &[plain(b"", at(0, 0, 0), Next::End)]);
    yields(
        &rt,
        b"\r\n\r\n",
        &[
            plain(b"", at(0, 0, 0), Next::Record),
            plain(b"", at(1, 0, 2), Next::End),
        ],
    );
    yields(
        &rt,
        b"a,",
        &[
            plain(b"a", at(0, 0, 0), Next::Field),
            plain(b"", at(0, 1, 2), Next::End),
        ],
    );
}

// The bytes at both ends of the three ranges of text data: 20-21, 23-2B and 2D-7E.
#[test]
fn text_data(rt: HostRuntime) {
    yields(
        &rt,
        b" !#+-~,\"\r\n, !#+-~\"",
        &[
            plain(b" !#+-~", at(0, 0, 0), Next::Field),
            quoted(b"\r\n, !#+-~", at(0, 1, 7), Next::End),
        ],
    );
}

// The bytes outside these ranges, also between quotes.
#[test]
fn no_text_data(rt: HostRuntime) {
    let cases: [&[u8]; 12] = [
        b"a,\x1F",
        b"a,\x7F",
        b"a,\x00",
        b"a,\t",
        b"a,\x80",
        b"a,\xFF",
        b"a,\"\x1F\"",
        b"a,\"\x7F\"",
        b"a,\"\x00\"",
        b"a,\"\t\"",
        b"a,\"\x80\"",
        b"a,\"\xFF\"",
    ];
    for (i, file) in cases.iter().enumerate() {
        second_refused(&rt, i, file, at(0, 1, 2));
    }
    second_refused(&rt, cases.len(), b"a\r\nb\"", at(1, 0, 3));
}

// The first field is read, and the second is refused, and again at a second call.
fn second_refused(rt: &impl Abort, case: usize, file: &[u8], place: Position) {
    let mut fields = Fields::over(file);
    assert!(rt;
        matches!(fields.next_field(), Ok(Some(_))),
        "case {case}: the first field"
    );
    for _ in 0..2 {
        assert_eq!(rt;
            fields.next_field(),
            Err(TextFault { at: place }),
            "case {case}"
        );
    }
}
