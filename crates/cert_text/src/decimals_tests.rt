// Texts of certificates of models with decimals: the whole numbers that they are of, and which line is wrong.
use crate::{CertFault, Certificate, FlowPart, TensionPart, print_cert, print_feasible, read_cert};
use model_text::{Model, read_model};
use std::process::Abort;
use std::test::Fail;

/// Flows have one decimal, tensions two, costs three. The arc carries 5 units: 4 at 2.25 and 1 at 5 are 14, and each of the 5
/// costs 2.50 before it.
const WORKED: &[u8] =
    b"network 2\ndecimals 1 2\nnode s -inf 2.5 +inf\nnode t -5\narc a s t 0 2.25 4 5 10\n";

const WORKED_CERTIFICATE: &[u8] =
    b"certificate 2 optimal\ncost 26.500\nvalue 26.500\nnode s 2.50 5.0\nnode t 7.50 -5.0\narc a 5.0\n";

/// Version 2 without decimals, and with as many as there can be.
const WHOLE: &[u8] = b"network 2\ndecimals 0 0\nnode s\nnode t\narc a s t 0\n";

const FINEST: &[u8] = b"network 2\ndecimals 6 6\nnode s\nnode t\narc a s t 0\n";

const FLOWS_ONLY: &[u8] = b"network 2\ndecimals 3 0\nnode s\nnode t\narc a s t 0\n";

const PLAIN: &[u8] = b"network 1\nnode s\nnode t\narc a s t 0\n";

fn model(rt: &(impl Abort + AllocGlobal), text: &[u8]) -> Result<Model, Fail> {
    assert!(rt; text.len() < 1000);
    Ok(read_model(rt.alloc(), text)?)
}

#[test]
fn decimals_count_units(rt: HostRuntime) -> Result<(), Fail> {
    let m = model(&rt, WORKED)?;
    let Certificate::Optimal { x, u, cost, value } = read_cert(rt.alloc(), &m, WORKED_CERTIFICATE)?
    else {
        return Err("a pair is read".into());
    };
    assert_eq!(rt; x.as_slice(), [50, -50, 50].as_slice());
    assert_eq!(rt; u.as_slice(), [0, 250, 750].as_slice());
    assert_eq!(rt; cost, 26_500);
    assert_eq!(rt; value, 26_500);
    Ok(())
}

#[test]
fn decimals_come_back(rt: HostRuntime) -> Result<(), Fail> {
    for (model_text, text) in [
        (WORKED, WORKED_CERTIFICATE),
        (
            WORKED,
            b"certificate 2 optimal\ncost 0.000\nvalue -0.001\nnode s -0.01 0.1\nnode t 10.00 -0.1\narc a 0.0\n",
        ),
        (WORKED, b"certificate 2 cut\ncapacity -2.5\nside s\n"),
        (
            WORKED,
            b"certificate 2 circuit\nspan -0.05\nnode s 0.0\nnode t 0.0\narc a 10.0\nstep + arc a\nstep - arc a\n",
        ),
        (
            WHOLE,
            b"certificate 2 optimal\ncost 13\nvalue -13\nnode s 0 5\nnode t -7 -5\narc a 5\n",
        ),
        (
            FINEST,
            b"certificate 2 optimal\ncost 1000000000000000000.000000000000\nvalue -0.000000000001\nnode s 1000000000.000000 -1000000000.000000\nnode t -0.000010 0.000000\narc a 0.100000\n",
        ),
        (
            FLOWS_ONLY,
            b"certificate 2 optimal\ncost -0.100\nvalue 5.000\nnode s 3 0.005\nnode t -4 0.000\narc a -12.345\n",
        ),
        (FLOWS_ONLY, b"certificate 2 cut\ncapacity -0.001\n"),
        (
            FLOWS_ONLY,
            b"certificate 2 circuit\nspan -1\nnode s 0.000\nnode t 0.000\narc a 10.000\n",
        ),
    ] {
        let m = model(&rt, model_text)?;
        assert!(rt; text.len() < 1000);
        let certificate = read_cert(rt.alloc(), &m, text)?;
        let printed = print_cert(rt.alloc(), &m, &certificate)?;
        assert_eq!(rt; printed.as_slice(), text);
    }
    Ok(())
}

#[test]
fn wrong_decimals_name_the_line(rt: HostRuntime) -> Result<(), Fail> {
    for (model_text, text, line) in [
        // the version is that of the model
        (WORKED, b"certificate 1 cut\ncapacity -2.5\n".as_slice(), 1),
        (WHOLE, b"certificate 1 cut\ncapacity -2\n", 1),
        (PLAIN, b"certificate 2 cut\ncapacity -2\n", 1),
        (PLAIN, b"certificate 1 cut\ncapacity -2.0\n", 2),
        // as many decimals as the place has
        (
            WORKED,
            b"certificate 2 optimal\ncost 26.50\nvalue 26.500\nnode s 2.50 5.0\nnode t 7.50 -5.0\narc a 5.0\n",
            2,
        ),
        (
            WORKED,
            b"certificate 2 optimal\ncost 26.500\nvalue 26.5000\nnode s 2.50 5.0\nnode t 7.50 -5.0\narc a 5.0\n",
            3,
        ),
        (
            WORKED,
            b"certificate 2 optimal\ncost 26.500\nvalue 26.500\nnode s 2.5 5.0\nnode t 7.50 -5.0\narc a 5.0\n",
            4,
        ),
        (
            WORKED,
            b"certificate 2 optimal\ncost 26.500\nvalue 26.500\nnode s 2.50 5.0\nnode t 7.50 -5.00\narc a 5.0\n",
            5,
        ),
        (
            WORKED,
            b"certificate 2 optimal\ncost 26.500\nvalue 26.500\nnode s 2.50 5.0\nnode t 7.50 -5.0\narc a 5\n",
            6,
        ),
        (WORKED, b"certificate 2 cut\ncapacity -2.50\n", 2),
        (WORKED, b"certificate 2 cut\ncapacity -2\n", 2),
        (
            WORKED,
            b"certificate 2 circuit\nspan -0.5\nnode s 0.0\nnode t 0.0\narc a 10.0\n",
            2,
        ),
        (
            WORKED,
            b"certificate 2 circuit\nspan -0.50\nnode s 0.00\nnode t 0.0\narc a 10.0\n",
            3,
        ),
        // in the one form that a number has
        (WORKED, b"certificate 2 cut\ncapacity -0.0\n", 2),
        (WORKED, b"certificate 2 cut\ncapacity +2.5\n", 2),
        (WORKED, b"certificate 2 cut\ncapacity 02.5\n", 2),
        (WORKED, b"certificate 2 cut\ncapacity .5\n", 2),
        (WORKED, b"certificate 2 cut\ncapacity 25.\n", 2),
        (WORKED, b"certificate 2 cut\ncapacity 2..5\n", 2),
        (WORKED, b"certificate 2 cut\ncapacity 2,5\n", 2),
        (WHOLE, b"certificate 2 cut\ncapacity 25.0\n", 2),
        // within the limits, which are those of the units
        (
            FINEST,
            b"certificate 2 optimal\ncost 1000000000000000000.000000000001\nvalue 0.000000000000\n",
            2,
        ),
        (
            FINEST,
            b"certificate 2 optimal\ncost 0.000000000000\nvalue 0.000000000000\nnode s 1000000000.000001 0.000000\n",
            4,
        ),
    ] {
        let m = model(&rt, model_text)?;
        assert!(rt; text.len() < 1000);
        let fault = read_cert(rt.alloc(), &m, text).err();
        assert_eq!(rt; fault, Some(CertFault::BadText { line }), "at {text:?}");
    }
    Ok(())
}

#[test]
fn feasible_texts_have_decimals(rt: HostRuntime) -> Result<(), Fail> {
    let m = model(&rt, WORKED)?;
    let Certificate::Optimal { x, u, .. } = read_cert(rt.alloc(), &m, WORKED_CERTIFICATE)? else {
        return Err("a pair is read".into());
    };
    let printed = print_feasible(rt.alloc(), &m, &FlowPart::Yes(x), &TensionPart::Yes(u))?;
    assert_eq!(rt;
        printed.as_slice(),
        b"flow yes\nnode s 5.0\nnode t -5.0\narc a 5.0\ntension yes\nnode s 2.50\nnode t 7.50\n".as_slice()
    );
    Ok(())
}

#[test]
fn refusals_have_decimals(rt: HostRuntime) -> Result<(), Fail> {
    let m = model(&rt, WORKED)?;
    let Certificate::Cut { side, capacity } = read_cert(
        rt.alloc(),
        &m,
        b"certificate 2 cut\ncapacity -2.5\nside s\n",
    )?
    else {
        return Err("a cut is read".into());
    };
    let Certificate::Circuit { walk, span, .. } = read_cert(
        rt.alloc(),
        &m,
        b"certificate 2 circuit\nspan -0.05\nnode s 0.0\nnode t 0.0\narc a 10.0\nstep + arc a\n",
    )?
    else {
        return Err("a circuit is read".into());
    };
    let flow = FlowPart::No { side, capacity };
    let tension = TensionPart::No { walk, span };
    let printed = print_feasible(rt.alloc(), &m, &flow, &tension)?;
    assert_eq!(rt;
        printed.as_slice(),
        b"flow no -2.5\nside s\ntension no -0.05\nstep + arc a\n".as_slice()
    );
    Ok(())
}
