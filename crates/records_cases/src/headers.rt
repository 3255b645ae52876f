// Headers that are refused, and what a header says.
use super::expect::{header_of, headers_refused};
use records::{Fields, Header};
use std::process::Abort;
use std::test::Fail;

// A field that breaks RFC 4180 is refused as 8, at its first byte or opening quote.
#[test]
fn outside_the_grammar(rt: HostRuntime) {
    headers_refused(
        &rt,
        8,
        &[
            (b"\r", 0),
            (b"\n", 0),
            (b"stay,a\r", 5),
            (b"stay,a\n", 5),
            (b"stay,a\rb\r\n", 5),
            (b"stay,a\n1,2\n", 5),
            (b"stay\r\r\n", 0),
            (b"st\"ay\",a", 0),
            (b"stay,a\"b", 5),
            (b"stay,a\"b\",c", 5),
            (b"stay, \"a\"", 5),
            (b"stay,\"a\" ", 5),
            (b"stay,\"a", 5),
            (b"stay,\"a\r\n1,2\r\n", 5),
            (b"stay,\"", 5),
            (b"stay,\"a\"\"", 5),
            (b"stay,b,a\x7F", 7),
            // The mark that some editors put before UTF-8.
            (b"\xEF\xBB\xBFstay,a", 0),
        ],
    );
}

// A quote in a name is refused as 8 too, though the field is one by RFC 4180.
#[test]
fn quote_in_a_name(rt: HostRuntime) {
    headers_refused(
        &rt,
        8,
        &[
            (b"\"st\"\"ay\",a", 0),
            (b"stay,\"a\"\"b\"", 5),
            (b"stay,a,\"\"\"\"", 7),
            (b"\"stay\",a,\"b\"\"\",\"\"\"\"", 9),
            (b"stay,\"\"\"a\"", 5),
        ],
    );
}

// Each 8 comes before each 9, and the leftmost 8 first.
#[test]
fn grammar_before_names_and_width(rt: HostRuntime) {
    headers_refused(
        &rt,
        8,
        &[
            (b"step,a\"", 5),
            (b"stay,,b\x7F", 6),
            (b"stay,a,a,\"b", 9),
            (b"stay,{,\"\"\"\"", 7),
            (b"stay\"", 0),
            (b"stay,a,b,c,d,e,f,g,h,i,j,k,l,m,n,o,p,\"", 37),
            (b"stay,\x7F,\"\"\"\"", 5),
            (b"stay,\"\"\"\",\x7F", 5),
        ],
    );
}

// A header has 1 to 16 columns, which is looked at before any name.
#[test]
fn too_few_and_too_many_columns(rt: HostRuntime) {
    headers_refused(
        &rt,
        9,
        &[
            (b"", 0),
            (b"\r\n", 0),
            (b"\r\nstay,a", 0),
            (b"stay", 0),
            (b"stay\r\n1\r\n", 0),
            (b"stay\r\nstay,a\r\n", 0),
            (b"stay,a,b,c,d,e,f,g,h,i,j,k,l,m,n,o,p,q", 0),
            (b"stay,,,,,,,,,,,,,,,,,", 0),
        ],
    );
}

// The first field is `stay` and nothing else.
#[test]
fn another_first_field(rt: HostRuntime) {
    headers_refused(
        &rt,
        9,
        &[
            (b"step,a", 0),
            (b"Stay,a", 0),
            (b" stay,a", 0),
            (b"stay ,a", 0),
            (b"\"stay \",a", 0),
            (b"sta,a", 0),
            (b",a", 0),
            // A later field is at fault too.
            (b"a,stay,stay,{", 0),
        ],
    );
}

#[test]
fn unlawful_names(rt: HostRuntime) {
    headers_refused(
        &rt,
        9,
        &[
            (b"stay,", 5),
            (b"stay,\r\n1,2", 5),
            (b"stay,a,,b", 7),
            (b"stay,\"\"", 5),
            (b"stay,{", 5),
            (b"stay,a,b}", 7),
            (b"stay,a,\"{b}\"", 7),
            (b"stay,\"a\rb\"", 5),
            (b"stay,\"a\nb\"", 5),
            (b"stay,b,\"a\r\nb\"", 7),
            (b"stay,stay", 5),
            (b"\"stay\",\"stay\"", 7),
            (b"stay,a,b,a", 9),
            (b"stay,a,\"a\"", 7),
            // The leftmost fault counts.
            (b"stay,a,a,{,", 7),
            (b"stay,{,a,a", 5),
            (b"stay,a,b,c,d,e,f,g,h,i,j,k,l,m,n,o,o", 35),
        ],
    );
}

// A name of 64 bytes may stand, and one of 65, here 13 times `abcde`, may not.
#[test]
fn longest_name(rt: HostRuntime) -> Result<(), Fail> {
    let longest = b"bcdeabcdeabcdeabcdeabcdeabcdeabcdeabcdeabcdeabcdeabcdeabcdeabcde";
    let mut fields = Fields::over(
        b"stay,bcdeabcdeabcdeabcdeabcdeabcdeabcdeabcdeabcdeabcdeabcdeabcdeabcde",
    );
    let header = header_of(&mut fields)?;
    assert_eq!(rt; longest.len(), 64);
    named(&rt, &header, 0, longest)?;
    headers_refused(
        &rt,
        9,
        &[
            (
                b"stay,abcdeabcdeabcdeabcdeabcdeabcdeabcdeabcdeabcdeabcdeabcdeabcdeabcde",
                5,
            ),
            (
                b"stay,x,\"abcdeabcdeabcdeabcdeabcdeabcdeabcdeabcdeabcdeabcdeabcdeabcdeabcde\"",
                7,
            ),
        ],
    );
    Ok(())
}

// The column has this name, and the name is that column's.
fn named(rt: &impl Abort, header: &Header, column: usize, name: &[u8]) -> Result<(), Fail> {
    assert_eq!(rt; header.name(column).ok_or("no such column")?, name);
    assert_eq!(rt; header.column(name), Some(column));
    Ok(())
}

#[test]
fn names_and_columns(rt: HostRuntime) -> Result<(), Fail> {
    let mut fields = Fields::over(b"\"stay\",level,\"at, noon\", ~!,Stay\r\n1,x");
    let header = header_of(&mut fields)?;
    assert_eq!(rt; header.width(), 4);
    named(&rt, &header, 0, b"level")?;
    named(&rt, &header, 1, b"at, noon")?;
    named(&rt, &header, 2, b" ~!")?;
    named(&rt, &header, 3, b"Stay")?;
    for column in [4, 5, 16, 17, usize::MAX] {
        assert!(rt; header.name(column).is_none(), "column {column}");
    }
    let strangers: [&[u8]; 6] = [b"stay", b"", b"leve", b"levels", b"Level", b"at"];
    for (i, name) in strangers.iter().enumerate() {
        assert_eq!(rt; header.column(name), None, "stranger {i}");
    }
    Ok(())
}

#[test]
fn one_and_sixteen_columns(rt: HostRuntime) -> Result<(), Fail> {
    let mut least = Fields::over(b"stay,a");
    let one = header_of(&mut least)?;
    assert_eq!(rt; one.width(), 1);
    named(&rt, &one, 0, b"a")?;
    assert!(rt; one.name(1).is_none());
    let mut most = Fields::over(b"stay,a,b,c,d,e,f,g,h,i,j,k,l,m,n,o,p\r\n");
    let sixteen = header_of(&mut most)?;
    assert_eq!(rt; sixteen.width(), 16);
    named(&rt, &sixteen, 0, b"a")?;
    named(&rt, &sixteen, 15, b"p")?;
    assert!(rt; sixteen.name(16).is_none());
    Ok(())
}
