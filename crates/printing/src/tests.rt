// The contract of `list` does not say which reason a refusal has: these are document 01's numbers.
use crate::list;
use buffer::Writer;
use readers::{Comments, Reading};

#[test]
fn refuses_by_number(rt: HostRuntime) {
    let reading = Reading {
        comments: Comments::Crate,
    };
    let mut out = Writer::<64>::new(rt.stdout());
    for (source, number) in [
        (b"a \xff".as_slice(), 2),
        (b"\"a".as_slice(), 16),
        (b"'".as_slice(), 13),
    ] {
        let answer = list(&mut out, source, reading).map_err(|refusal| u32::from(refusal.reason));
        assert_eq!(rt; answer, Err(number));
    }
    assert_eq!(rt; list(&mut out, b"a \"b\"", reading).is_ok(), true);
}
