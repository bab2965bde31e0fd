// Texts of certificates of one model, right and wrong. Each wrong one differs in one place from a right one.
use crate::{CertFault, Certificate, print_cert, read_cert};
use model_text::{Model, Name};
use mono_curve::{Curve, Ext};
use std::test::Fail;

const FLAT: [Ext; 1] = [Ext::At(0)];

/// The nodes s and t, an arc a from s to t and an arc t from t to s.
fn model(rt: &HostRuntime) -> Result<Model, Fail> {
    let mut m = Model::new(rt.alloc());
    for name in [b"s", b"t"] {
        let supply = Curve::of_list(rt.alloc(), &FLAT, 0)?;
        m.add_node(Name::of(rt.alloc(), name)?, supply)?;
    }
    let from = m.node_of(b"s").ok_or("s is there")?;
    let to = m.node_of(b"t").ok_or("t is there")?;
    let curve = Curve::of_list(rt.alloc(), &FLAT, 0)?;
    m.add_arc(Name::of(rt.alloc(), b"a")?, from, to, curve)?;
    let curve = Curve::of_list(rt.alloc(), &FLAT, 0)?;
    m.add_arc(Name::of(rt.alloc(), b"t")?, to, from, curve)?;
    Ok(m)
}

#[test]
fn right_texts_come_back(rt: HostRuntime) -> Result<(), Fail> {
    let m = model(&rt)?;
    for (text, kind) in [
        (
            b"certificate 1 optimal\ncost 13\nvalue -13\nnode s 0 5\nnode t -7 -5\narc a 5\narc t 0\n".as_slice(),
            "optimal",
        ),
        (
            b"certificate 1 optimal\ncost 1000000000000000000000000000000\nvalue -1000000000000000000000000000000\nnode s 1000000000000000 -1000000000000000\nnode t 0 0\narc a 0\narc t 0\n".as_slice(),
            "optimal",
        ),
        (
            b"certificate 1 cut\ncapacity -5\nside *\nside t\n".as_slice(),
            "cut",
        ),
        (b"certificate 1 cut\ncapacity 0\n".as_slice(), "cut"),
        (
            b"certificate 1 circuit\nspan -2\nnode s 0\nnode t 0\narc a 0\narc t 0\nstep + arc a\nstep - node t\nstep + arc t\nstep + arc t\n".as_slice(),
            "circuit",
        ),
        (
            b"certificate 1 circuit\nspan 0\nnode s 0\nnode t 0\narc a 0\narc t 0\n".as_slice(),
            "circuit",
        ),
    ] {
        assert!(rt; text.len() < 1000);
        let certificate = read_cert(rt.alloc(), &m, text)?;
        let read = match &certificate {
            Certificate::Optimal { .. } => "optimal",
            Certificate::Cut { .. } => "cut",
            Certificate::Circuit { .. } => "circuit",
        };
        assert_eq!(rt; read, kind);
        let printed = print_cert(rt.alloc(), &m, &certificate)?;
        assert_eq!(rt; printed.as_slice(), text);
    }
    Ok(())
}

#[test]
fn wrong_texts_name_the_line(rt: HostRuntime) -> Result<(), Fail> {
    let m = model(&rt)?;
    for (text, line) in [
        (b"".as_slice(), 1),
        (b"\n".as_slice(), 1),
        (b"certificate 2 cut\ncapacity 0\n".as_slice(), 1),
        (b"certificate 1 cut".as_slice(), 1),
        (b"certificate 1 cut\r\ncapacity 0\n".as_slice(), 1),
        (b"certificate 1 cut\n".as_slice(), 2),
        (b"certificate 1 cut\ncapacity -0\n".as_slice(), 2),
        (b"certificate 1 cut\ncapacity +5\n".as_slice(), 2),
        (
            b"certificate 1 cut\ncapacity 1000000000000000000000000000001\n".as_slice(),
            2,
        ),
        (
            b"certificate 1 cut\ncapacity 99999999999999999999999999999999999999999999\n".as_slice(),
            2,
        ),
        (b"certificate 1 cut\ncapacity 5".as_slice(), 2),
        (b"certificate 1 cut\ncapacity 5 \n".as_slice(), 2),
        (
            b"certificate 1 cut\ncapacity 5\nside t\nside s\n".as_slice(),
            4,
        ),
        (
            b"certificate 1 cut\ncapacity 5\nside s\nside s\n".as_slice(),
            4,
        ),
        (b"certificate 1 cut\ncapacity 5\nside a\n".as_slice(), 3),
        (b"certificate 1 cut\ncapacity 5\nside t\n\n".as_slice(), 4),
        (
            b"certificate 1 cut\ncapacity 5\nside *\nside t".as_slice(),
            4,
        ),
        (
            b"certificate 1 optimal\ncost 13\nvalue 13\nnode s 0 5\nnode t 0 -5\narc a 05\narc t 0\n".as_slice(),
            6,
        ),
        (
            b"certificate 1 optimal\ncost 13\nvalue 13\nnode s 0 5\nnode t 0 -5\narc t 5\narc a 0\n".as_slice(),
            6,
        ),
        (
            b"certificate 1 optimal\ncost 13\nvalue 13\nnode s 0 5\nnode t 0 -5\narc a 5\n".as_slice(),
            7,
        ),
        (
            b"certificate 1 optimal\ncost 13\nvalue 13\nnode s 0 5\nnode t 0 -5\narc a 5\narc t 0".as_slice(),
            7,
        ),
        (
            b"certificate 1 optimal\ncost 13\nvalue 13\nnode s 0 5\nnode t 0 -5\narc a 5\narc t 0\n\n".as_slice(),
            8,
        ),
        (
            b"certificate 1 optimal\ncost 13\nvalue 13\nnode s 0 1000000000000001\nnode t 0 -5\narc a 5\narc t 0\n".as_slice(),
            4,
        ),
        (
            b"certificate 1 optimal\ncost 13\nvalue 13\nnode s 5\nnode t 0 -5\narc a 5\narc t 0\n".as_slice(),
            4,
        ),
        (
            b"certificate 1 circuit\nspan -2\nnode s 0\nnode t 0\narc a 0\narc t 0\nstep + arc a\nstep * arc a\n".as_slice(),
            8,
        ),
        (
            b"certificate 1 circuit\nspan -2\nnode s 0\nnode t 0\narc a 0\narc t 0\nstep + arc s\n".as_slice(),
            7,
        ),
        (
            b"certificate 1 circuit\nspan -2\nnode s 0\nnode t 0\narc a 0\narc t 0\nstep + node a\n".as_slice(),
            7,
        ),
        (
            b"certificate 1 circuit\nspan -2\nnode s 0\nnode t 0\narc a 0\narc t 0\nstep + arc a\nstep - arc t".as_slice(),
            8,
        ),
    ] {
        assert!(rt; text.len() < 1000);
        let fault = read_cert(rt.alloc(), &m, text).err();
        assert_eq!(rt; fault, Some(CertFault::BadText { line }), "at {text:?}");
    }
    Ok(())
}
