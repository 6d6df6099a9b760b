// A run by a closure that holds a value, which a type with `Test` does not.
use crate::run_end;

#[test]
fn run_ends_before_the_scalar_that_is_held(rt: HostRuntime) {
    let source = "a\u{e9}b c".as_bytes();
    for (held, end) in [
        (0x61, 0),
        (0xe9, 1),
        (0x62, 3),
        (0x20, 4),
        (0x63, 5),
        (0x7a, 6),
    ] {
        assert_eq!(rt; run_end(source, 0, |v| v != held), end, "before {held}");
    }
    assert_eq!(rt;
        run_end(source, 3, |v| v != 0x61),
        6,
        "from a later place on"
    );
    assert_eq!(rt;
        run_end(b"ab\xffc", 0, |v| v != 0x63),
        2,
        "what is ill-formed ends it"
    );
}
