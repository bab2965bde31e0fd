// Parts of lines and the curves that they list, by the format's own description.
use crate::FaultWord::{Limit, Number, Order, Shape};
use crate::{FaultWord, LIST_MOST, PartFault, Scale, append_list, append_number, read_curve};
use mono_curve::Listed;
use std::test::Fail;

// The items and then the base, each after a space, or the word.
fn answer(rt: &HostRuntime, part: &[u8], node: bool) -> Result<Result<Vec<u8>, FaultWord>, Fail> {
    match read_curve(rt.alloc(), part, Scale::PLAIN, node) {
        Ok(curve) => {
            let mut text = Vec::new(rt.alloc());
            append_list(&mut text, &curve, 0, 0)?;
            append_number(&mut text, curve.base())?;
            Ok(Ok(text))
        }
        Err(PartFault::Word(word)) => Ok(Err(word)),
        Err(PartFault::NoMemory) => Err("there is memory".into()),
    }
}

#[test]
fn parts(rt: HostRuntime) -> Result<(), Fail> {
    for (part, node, want) in [
        (
            b"0 2 4 5 10".as_slice(),
            false,
            Ok(b" 0 2 4 5 10 0".as_slice()),
        ),
        (b"\t+3  base -007 ", true, Ok(b" 3 -7")),
        (
            b"-inf 3 inf base 1000000000",
            false,
            Ok(b" -inf 3 +inf 1000000000"),
        ),
        // an empty list is the point 0 of a node, and no curve of an arc
        (b"", true, Ok(b" 0 0")),
        (b"base 5", true, Ok(b" 0 5")),
        (b"", false, Err(Shape)),
        (b"base 5", false, Err(Shape)),
        // one word each
        (b"0 x", false, Err(Number)),
        (b"0 base", true, Err(Number)),
        (b"0 base 1 base", true, Err(Number)),
        (b"0 base inf", true, Err(Number)),
        (b"1000000001", true, Err(Limit)),
        (b"0 base -1000000001", true, Err(Limit)),
        (b"0 1", true, Err(Shape)),
        (b"inf", true, Err(Shape)),
        (b"0 1 -inf", false, Err(Shape)),
        (b"0 2 4 2 10", false, Err(Order)),
        (b"3 0 3", false, Err(Order)),
        // the first word of several
        (b"0 1000000001 base x", false, Err(Number)),
        (b"0 1000000001", false, Err(Limit)),
        (b"4 1 3 0", false, Err(Shape)),
    ] {
        match (answer(&rt, part, node)?, want) {
            (Ok(text), Ok(wanted)) => assert_eq!(rt; text.as_slice(), wanted, "at {part:?}"),
            (Err(word), Err(wanted)) => assert_eq!(rt; word, wanted, "at {part:?}"),
            _ => return Err("read or refused otherwise".into()),
        }
    }
    Ok(())
}

// So many zeros are no rising list, and one more is too long.
#[test]
fn long_parts(rt: HostRuntime) -> Result<(), Fail> {
    let mut part = Vec::new(rt.alloc());
    for _ in 0..LIST_MOST {
        part.extend_from_slice(b"0 ")?;
    }
    assert_eq!(rt; answer(&rt, &part, true)?.err(), Some(Order));
    part.push(b'0')?;
    assert_eq!(rt; answer(&rt, &part, true)?.err(), Some(Limit));
    Ok(())
}
