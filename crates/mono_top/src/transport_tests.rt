// Tables that are planned or fall short, row by row.
use crate::tests::{Row, compare, plain};
use std::test::Fail;

/// Two plants and two shops. The first ten of `p` cost 2 each, the next ten 5.
const TABLE: &[u8] =
    b"transport 1\nplant p 10 2 10 5\nplant q 8 3\nshop a 12\nshop b 6\nlane pa p a 20 1\nlane qa q a 5 2\nlane pb p b 20 4\nlane qb q b 20 1\n";

const TOO_SMALL: &[u8] = b"transport 1\nplant p 3 1\nshop a 5\nlane l p a 10 1\n";

const FALLING: &[u8] =
    b"transport 1\nplant p 10 5 10 5\nplant q 8 3\nshop a 12\nshop b 6\nlane pa p a 20 1\nlane qa q a 5 2\nlane pb p b 20 4\nlane qb q b 20 1\n";

/// The lane carries 4 of the 5 that the shop needs, and the plant makes enough.
const TOO_NARROW: &[u8] = b"transport 1\nplant p 9 1\nshop a 5\nlane l p a 4 1\n";

/// A row over a table.
fn plans(name: &'static str, text: &'static [u8], code: u8, written: &'static str) -> Row {
    plain(name, &["transport", "a"], text, code, written)
}

#[test]
fn tables(rt: HostRuntime) -> Result<(), Fail> {
    let rows = [
        plans(
            "two plants, two shops",
            TABLE,
            0,
            "transport cost 64\nplant p 10\nplant q 8\nlane pa 10\nlane qa 2\nlane pb 0\nlane qb 6\n",
        ),
        plans(
            "a plant that makes too little",
            TOO_SMALL,
            1,
            "transport short 2\nplant p\nshop a\n",
        ),
        plans(
            "a lane that carries too little",
            TOO_NARROW,
            1,
            "transport short 1\nshop a\n",
        ),
        plans(
            "a price that doesn't rise",
            FALLING,
            18,
            "table line 2: order\n",
        ),
        plans("the empty table", b"transport 1\n", 0, "transport cost 0\n"),
        plans("a model", b"network 1\n", 18, "table line 1: header\n"),
    ];
    for row in &rows {
        compare(&rt, rt.alloc(), row)?;
    }
    Ok(())
}
