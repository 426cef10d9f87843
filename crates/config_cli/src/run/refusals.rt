//! Which fault a file is refused with, and where.
use super::refused_files::{OF_EXPRESSIONS, OF_TYPES, OF_VALUES, Refused};
use super::run_alone;
use super::tests::{BOX, NO_CRITERIA, Row, check_row, words_of};
use crate::status::Status;
use cfg_io::{MemoryShelf, MemorySink};
use prod_model::limits::MOST_FILE_BYTES;
use std::alloc::{AllocError, Global};
use std::process::Abort;
use std::test::Fail;

/// Files with several faults. Which comes first in the file says nothing.
const SEVERAL: [Refused; 12] = [
    (
        "{\"format\":\"product-model 1\",\"root\":\"Box\",\"instances\":1,\
            \"types\":[{\"name\":\"1Box\"}],\"colour\":1}",
        NO_CRITERIA,
        "refused model F03 /\n",
    ),
    (
        "{\"format\":\"product-model 1\",\"root\":\"Box\",\"instances\":0,\
            \"types\":[{\"name\":\"Box\"},{\"name\":\"Box\"}]}",
        NO_CRITERIA,
        "refused model F06 /types/1/name\n",
    ),
    (
        "{\"format\":\"product-model 1\",\"root\":\"Box\",\"instances\":1,\
            \"types\":[{\"name\":\"Box\",\"attributes\":[{\"name\":\"width\",\"range\":[0,9]},\
            {\"name\":\"colour\",\"words\":[\"red\",\"blue\"]}]}],\"rules\":[{\"name\":\"a\",\
            \"type\":\"Box\",\"holds\":[\"<\",[\"attr\",\"depth\"],1]},{\"name\":\"b\",\
            \"type\":\"Box\",\"holds\":[\"mod\",7,2]}]}",
        NO_CRITERIA,
        "refused model F12 /rules/1/holds\n",
    ),
    (
        "{\"format\":\"product-model 2\",\"root\":\"Rack\",\"instances\":3,\
            \"types\":[{\"name\":\"Rack\",\"ports\":[{\"name\":\"cards\",\"kind\":\"part\",\
            \"target\":\"Card\",\"links\":[0,2],\"inverse\":\"home\"}]},{\"name\":\"Card\",\
            \"ports\":[{\"name\":\"home\",\"kind\":\"use\",\"target\":\"Rack\",\"links\":[1,1]}]}\
            ],\"rules\":[{\"name\":\"r\",\"type\":\"Rack\",\"holds\":[\"<\",1000000000000001,0]}]\
            }",
        NO_CRITERIA,
        "refused model F16 /rules/0/holds/1\n",
    ),
    (
        BOX,
        "{\"format\":\"order 1\",\"requests\":[{\"name\":\"q\",\"holds\":1}],\
            \"criteria\":[{\"name\":\"c\",\"minimise\":[\"attr\",\"depth\"]}]}",
        "refused order F14 /criteria/0/minimise/1\n",
    ),
    (
        "{\"format\":\"product-model 1\",\"root\":\"Box\",\"instances\":1,\
            \"types\":[{\"name\":\"Box\",\"attributes\":[{\"name\":\"width\",\"range\":[0,9]},\
            {\"name\":\"colour\",\"words\":[\"red\",\"blue\"]}]}],\"rules\":[{\"name\":\"r\",\
            \"type\":\"Box\",\"holds\":[\"<\",1000000000000001,0]}]}",
        r#"{"#,
        "refused model F16 /rules/0/holds/1\n",
    ),
    (
        "{\"types\":[{\"ports\":[{\"name\":\"lid\",\"kind\":\"whole\",\"target\":\"Box\",\
            \"links\":[0,1]}],\"attributes\":[{\"name\":\"width\",\"range\":[1,2,3]}],\
            \"name\":\"Box\"}],\"instances\":1,\"root\":\"Box\",\"format\":\"product-model 1\"}",
        NO_CRITERIA,
        "refused model F03 /types/0/attributes/0/range\n",
    ),
    (
        "{\"rules\":[{\"name\":\"1r\",\"type\":\"Box\",\"holds\":[\"<\",0,1]}],\
            \"types\":[{\"name\":\"Box\"},{\"name\":\"1Lid\"}],\"instances\":1,\"root\":\"Box\",\
            \"format\":\"product-model 1\"}",
        NO_CRITERIA,
        "refused model F05 /types/1/name\n",
    ),
    (
        "{\"types\":[{\"ports\":[{\"name\":\"lid\",\"kind\":\"part\",\"target\":\"Box\",\
            \"links\":[0,1]}],\"attributes\":[{\"name\":\"lid\",\"range\":[0,1]}],\
            \"name\":\"Box\"}],\"instances\":1,\"root\":\"Box\",\"format\":\"product-model 1\"}",
        NO_CRITERIA,
        "refused model F06 /types/0/ports/0/name\n",
    ),
    (
        "{\"bounds\":[{\"type\":\"Box\",\"count\":[2,1]}],\"types\":[{\"name\":\"Box\"}],\
            \"instances\":0,\"root\":\"Box\",\"format\":\"product-model 1\"}",
        NO_CRITERIA,
        "refused model F07 /instances\n",
    ),
    (
        "{\"rules\":[{\"name\":\"r\",\"type\":\"Lid\",\"holds\":[\"<\",0,1]}],\
            \"bounds\":[{\"type\":\"Lid\",\"count\":[0,1]}],\"types\":[{\"name\":\"Box\"}],\
            \"instances\":1,\"root\":\"Box\",\"format\":\"product-model 1\"}",
        NO_CRITERIA,
        "refused model F08 /bounds/0/type\n",
    ),
    (
        BOX,
        "{\"criteria\":[{\"name\":\"1c\",\"minimise\":1}],\"requests\":[{\"name\":\"1q\",\
            \"holds\":[\"<\",0,1]}],\"format\":\"order 1\"}",
        "refused order F05 /requests/0/name\n",
    ),
];

/// Each is refused with its line.
fn check_refused(rt: &impl Abort, alloc: Global, rows: &[Refused]) -> Result<(), AllocError> {
    for (model, order, line) in rows {
        let row = Row {
            shows: line,
            model,
            order,
            failing_read: None,
            failing_write: None,
            status: Status::Refused,
            written: line,
        };
        check_row(rt, alloc, "configure model order", &row)?;
    }
    Ok(())
}

#[test]
fn tells_the_fault_of_a_value(rt: HostRuntime) -> Result<(), Fail> {
    Ok(check_refused(&rt, rt.alloc(), &OF_VALUES)?)
}

#[test]
fn tells_the_fault_of_types(rt: HostRuntime) -> Result<(), Fail> {
    Ok(check_refused(&rt, rt.alloc(), &OF_TYPES)?)
}

#[test]
fn tells_the_fault_of_an_expression(rt: HostRuntime) -> Result<(), Fail> {
    Ok(check_refused(&rt, rt.alloc(), &OF_EXPRESSIONS)?)
}

#[test]
fn tells_the_first_of_several_faults(rt: HostRuntime) -> Result<(), Fail> {
    Ok(check_refused(&rt, rt.alloc(), &SEVERAL)?)
}

/// The text, with blanks behind it up to so many bytes.
fn padded(alloc: Global, text: &str, size: usize) -> Result<Vec<u8>, AllocError> {
    let mut bytes = Vec::from_slice(alloc, text.as_bytes())?;
    bytes.resize_with(size, || b' ')?;
    Ok(bytes)
}

/// Whether a run over these files is refused with this line.
fn is_refused(
    alloc: Global,
    model: Vec<u8>,
    order: Vec<u8>,
    line: &str,
) -> Result<bool, AllocError> {
    let mut files = Vec::new(alloc);
    files.push((String::from_str(alloc, "model")?, model))?;
    files.push((String::from_str(alloc, "order")?, order))?;
    let mut shelf = MemoryShelf::new(alloc, files, Vec::new(alloc));
    let mut out = MemorySink::new(alloc, Vec::new(alloc));
    let words = words_of(alloc, "configure model order")?;
    let status = run_alone(alloc, &words, &mut shelf, &mut out);
    Ok(status == Status::Refused.number() && out.written() == line.as_bytes())
}

#[test]
fn refuses_files_that_are_too_long(rt: HostRuntime) -> Result<(), Fail> {
    let alloc = rt.alloc();
    let long = padded(alloc, BOX, MOST_FILE_BYTES + 1)?;
    let broken = padded(alloc, "{", 1)?;
    assert!(rt; is_refused(alloc, long, broken, "refused model F01 /\n")?);
    let plain = padded(alloc, BOX, MOST_FILE_BYTES)?;
    let long = padded(alloc, NO_CRITERIA, MOST_FILE_BYTES + 1)?;
    assert!(rt; is_refused(alloc, plain, long, "refused order F01 /\n")?);
    Ok(())
}
