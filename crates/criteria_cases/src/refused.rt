// Texts that are refused, by their number.
use super::expect::{FILE, LARGEST, all_refused, refused_for};
use criteria::{Formula, read};
use records::Refusal;

// What begins no token, and a text that stops early, is 2.
#[test]
fn no_token(rt: HostRuntime) {
    all_refused(
        &rt,
        2,
        &[
            (b"0=-", 2),
            (b"0=- 1", 2),
            (b"0==0", 2),
            (b"0< =0", 3),
            (b"XX0=0", 0),
            (b"XF[0,1]0=0", 0),
            (b"\xE2\x88", 0),
            (b"0=0\xE2", 3),
            (b"0=0\t", 3),
            (b"0=0\n", 3),
            (b"{}=0", 0),
            (b"{a=0", 0),
            (b"{a\x7F}=0", 0),
            (b"   ", 3),
            (b"0=", 2),
            (b"0= ", 3),
            (b"(0=0", 4),
        ],
    );
}

// A token that cannot follow is 2 at its place.
#[test]
fn cannot_follow(rt: HostRuntime) {
    all_refused(
        &rt,
        2,
        &[
            (b"({a})<1", 4),
            (b"0=d(1)", 2),
            (b"abs(d(1))<0", 4),
            (b"X[]0=0", 2),
            (b"X[-1]0=0", 2),
            (b"sum({a})<1", 4),
            (b"sum([0,1]max([0,1]{a}))<1", 9),
            (b"F[-1,2]0=0", 2),
            (b"F[+1,2]0=0", 2),
            (b"avg([0,1]{a})<1", 0),
            (b"0=0 0=0", 4),
            (b"0", 1),
            (b"add(1)<2", 5),
        ],
    );
}

#[test]
fn beyond_a_limit(rt: HostRuntime) {
    all_refused(
        &rt,
        3,
        &[
            (b"0=-1000000001", 2),
            (b"0=1000000001", 2),
            (b"X[4097]0=0", 2),
            (b"F[0,1000000001]0=0", 4),
            (b"F[1000000001,0]0=0", 2),
        ],
    );
    all_refused(&rt, 4, &[(b"F[4,2]({level}<5)", 4), (b"0=0U[1,0]0=0", 7)]);
    all_refused(
        &rt,
        5,
        &[
            (b"{stay}=0", 0),
            (b"{b}=0", 0),
            (b"{a\"b}=0", 0),
            (b"0={ a}", 2),
        ],
    );
}

// A bound is broken at a measure's closing bracket, and the refusal is placed at its name.
#[test]
fn beyond_a_bound(rt: HostRuntime) {
    all_refused(
        &rt,
        7,
        &[
            (b"add(add(sum([0,1]{a}),sum([0,1]{a})),sum([0,1]{a}))<1", 0),
            (b"multiply({a},10001)<1", 0),
            (b"0<multiply(add({a},1),0)", 2),
        ],
    );
}

// The lengths come first, then the magnitude, then the header.
#[test]
fn before_the_text(rt: HostRuntime) {
    let cases: [(&[u8], &[u8], i64, u8, usize); 7] = [
        (b"", b"", 0, 1, 0),
        (b"0", b"", 0, 12, 0),
        (b"0", b"", 1_000_000_001, 12, 0),
        (b"0", b"", -1, 12, 0),
        (b"0", b"", 1, 9, 0),
        (b"0", b"stay,a\"b", 1, 8, 5),
        (b"0", b"stay,a,a", LARGEST, 9, 7),
    ];
    for (i, (text, file, magnitude, number, place)) in cases.into_iter().enumerate() {
        refused_for(&rt, i, text, file, magnitude, Refusal { number, place });
    }
    let mut formula = Formula::new();
    assert!(rt; read(b"0=0", FILE, 1, &mut formula).is_ok());
}
