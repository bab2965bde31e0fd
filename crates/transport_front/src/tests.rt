// Worked tables: the model that a table stands for, and where a text spells none.
use crate::TableWord::{Header, Keyword, Limit, Name, Number, Order, Twice, Unknown, Utf8};
use crate::{TableError, TableWord, compile, read_table};
use model_text::print_model;
use outside_io::ByteText;
use std::test::Fail;

// The printed form of the model that the table stands for, or the line and the word.
fn answer(rt: &HostRuntime, text: &[u8]) -> Result<Result<ByteText, (u32, TableWord)>, Fail> {
    if text.len() > 1 << 20 {
        return Err("the text is short".into());
    }
    match read_table(rt.alloc(), text) {
        Ok(table) => {
            let model = compile(rt.alloc(), &table)?;
            Ok(Ok(print_model(rt.alloc(), &model)?))
        }
        Err(TableError::Fault { line, word }) => Ok(Err((line, word))),
        Err(TableError::NoMemory) => Err("there is memory".into()),
    }
}

#[test]
fn texts(rt: HostRuntime) -> Result<(), Fail> {
    for (text, want) in [
        // two plants, two shops and four lanes
        (
            b"transport 1\nplant p 10 2 10 5\nplant q 8 3\nshop a 12\nshop b 6\nlane pa p a 20 1\nlane qa q a 5 2\nlane pb p b 20 4\nlane qb q b 20 1\n".as_slice(),
            Ok(
                b"network 1\nnode p 0 2 10 5 20\nnode q 0 3 8\nnode a -12\nnode b -6\narc pa p a 0 1 20\narc qa q a 0 2 5\narc pb p b 0 4 20\narc qb q b 0 1 20\n".as_slice(),
            ),
        ),
        (b"transport 1 # nothing", Ok(b"network 1\n")),
        (
            b"transport 1\r\nshop a 007\r\n",
            Ok(b"network 1\nnode a -7\n"),
        ),
        (b"transport 1\nshop a 0\n", Ok(b"network 1\nnode a 0\n")),
        (
            b"transport 1\nplant p 1 -5 +2 0\n",
            Ok(b"network 1\nnode p 0 -5 1 0 3\n"),
        ),
        // one word each
        (b"", Err((1, Header))),
        (b"# a\n", Err((2, Header))),
        (b"network 1\n", Err((1, Header))),
        (b"transport 1\n# \xff\n", Err((2, Utf8))),
        (b"transport 1\ndepot p 1 1\n", Err((2, Keyword))),
        (b"transport 1\nplant\n", Err((2, Name))),
        (b"transport 1\nlane l p a!\n", Err((2, Name))),
        (b"transport 1\nplant p\n", Err((2, Number))),
        (b"transport 1\nplant p 1 2 3\n", Err((2, Number))),
        (b"transport 1\nplant p 1 inf\n", Err((2, Number))),
        (b"transport 1\nplant p 1.5 2\n", Err((2, Number))),
        (b"transport 1\nshop a\n", Err((2, Number))),
        (b"transport 1\nshop a 1 2\n", Err((2, Number))),
        (b"transport 1\nplant p 0 2\n", Err((2, Limit))),
        (b"transport 1\nplant p -3 2\n", Err((2, Limit))),
        (b"transport 1\nshop a -1\n", Err((2, Limit))),
        (b"transport 1\nplant p 10 5 10 5\n", Err((2, Order))),
        (b"transport 1\nplant p 1 1\nshop p 1\n", Err((3, Twice))),
        (
            b"transport 1\nplant p 1 1\nshop a 1\nlane l p a 1 1\nlane l p a 1 1\n",
            Err((5, Twice)),
        ),
        (
            b"transport 1\nplant p 1 1\nlane l p a 1 1\nshop a 1\n",
            Err((3, Unknown)),
        ),
        (
            b"transport 1\nplant p 1 1\nshop a 1\nlane l a p 1 1\n",
            Err((4, Unknown)),
        ),
        // the first word of several
        (b"transport 1\nplant p 0 x\n", Err((2, Number))),
        (b"transport 1\nplant p 0 5 1 5\n", Err((2, Limit))),
        (b"transport 1\nshop p 1\nplant p 1 5 1 5\n", Err((3, Order))),
    ] {
        match (answer(&rt, text)?, want) {
            (Ok(printed), Ok(model)) => assert_eq!(rt; printed.as_slice(), model),
            (Err(fault), Err(wanted)) => assert_eq!(rt; fault, wanted),
            _ => return Err("read or refused otherwise".into()),
        }
    }
    Ok(())
}
