//! What a check of an answer results in.
use super::check_files::{RACK, RACK_BIG_BIG, STRONG_20_CHEAPEST};
use super::check_rows::{BROKEN, REFUSED, REFUSED_FIRST, RefusedAnswer, SATISFIED, Told};
use super::run_alone;
use super::tests::{BOX, NO_CRITERIA, words_of};
use crate::status::Status;
use cfg_io::{MemoryShelf, MemorySink};
use prod_model::limits::MOST_ANSWER_BYTES;
use std::alloc::{AllocError, Global};
use std::process::Abort;
use std::test::Fail;

/// The files of a check: a model, an order and an answer.
fn files_of(
    alloc: Global,
    model: &str,
    order: &str,
    answer: Vec<u8>,
) -> Result<Vec<(String, Vec<u8>)>, AllocError> {
    let mut files = Vec::new(alloc);
    files.push((
        String::from_str(alloc, "model")?,
        Vec::from_slice(alloc, model.as_bytes())?,
    ))?;
    files.push((
        String::from_str(alloc, "order")?,
        Vec::from_slice(alloc, order.as_bytes())?,
    ))?;
    files.push((String::from_str(alloc, "answer")?, answer))?;
    Ok(files)
}

/// Whether `check model order answer` over these files ends with this status and text. The calls of
/// the shelf with these numbers fail.
fn results_in(
    alloc: Global,
    files: Vec<(String, Vec<u8>)>,
    failing: Vec<u32>,
    status: Status,
    text: &str,
) -> Result<bool, AllocError> {
    let mut shelf = MemoryShelf::new(alloc, files, failing);
    let mut out = MemorySink::new(alloc, Vec::new(alloc));
    let words = words_of(alloc, "check model order answer")?;
    let number = run_alone(alloc, &words, &mut shelf, &mut out);
    Ok(number == status.number() && out.written() == text.as_bytes())
}

/// Each of the rows ends with the status and its text.
pub(super) fn check_told(
    rt: &impl Abort,
    alloc: Global,
    rows: &[Told],
    status: Status,
) -> Result<(), AllocError> {
    for (model, order, answer, text) in rows {
        let answer = Vec::from_slice(alloc, answer.as_bytes())?;
        let files = files_of(alloc, model, order, answer)?;
        assert!(rt;
            results_in(alloc, files, Vec::new(alloc), status, text)?,
            "{text}"
        );
    }
    Ok(())
}

/// Each of the answers is refused with its line.
fn check_refused(rt: &impl Abort, alloc: Global, rows: &[RefusedAnswer]) -> Result<(), AllocError> {
    for (model, answer, line) in rows {
        let row = [(*model, NO_CRITERIA, *answer, *line)];
        check_told(rt, alloc, &row, Status::Refused)?;
    }
    Ok(())
}

#[test]
fn tells_the_first_bad_line(rt: HostRuntime) -> Result<(), Fail> {
    Ok(check_refused(&rt, rt.alloc(), &REFUSED)?)
}

#[test]
fn tells_the_first_broken_test(rt: HostRuntime) -> Result<(), Fail> {
    Ok(check_told(&rt, rt.alloc(), &BROKEN, Status::Broken)?)
}

#[test]
fn tells_the_values_of_criteria(rt: HostRuntime) -> Result<(), Fail> {
    Ok(check_told(&rt, rt.alloc(), &SATISFIED, Status::Satisfied)?)
}

#[test]
fn tells_faults_of_the_other_files_first(rt: HostRuntime) -> Result<(), Fail> {
    Ok(check_told(&rt, rt.alloc(), &REFUSED_FIRST, Status::Refused)?)
}

#[test]
fn reads_the_answer_last(rt: HostRuntime) -> Result<(), Fail> {
    let alloc = rt.alloc();
    let answer = Vec::from_slice(alloc, RACK_BIG_BIG.as_bytes())?;
    let files = files_of(alloc, RACK, STRONG_20_CHEAPEST, answer)?;
    let mut failing = Vec::new(alloc);
    failing.push(2)?;
    assert!(rt; results_in(alloc, files, failing, Status::ReadFailed, "")?);
    let mut files = files_of(alloc, BOX, NO_CRITERIA, Vec::new(alloc))?;
    let _answer = files.pop();
    assert!(rt; results_in(alloc, files, Vec::new(alloc), Status::ReadFailed, "")?);
    Ok(())
}

/// The answer of the box, with blanks behind it up to so many bytes.
fn padded_box(alloc: Global, size: usize) -> Result<Vec<u8>, AllocError> {
    let mut bytes = Vec::from_slice(alloc, b"preferred\n0 Box\n")?;
    bytes.resize_with(size, || b' ')?;
    Ok(bytes)
}

#[test]
fn reads_answers_up_to_their_limit(rt: HostRuntime) -> Result<(), Fail> {
    let alloc = rt.alloc();
    for (size, line) in [
        (MOST_ANSWER_BYTES, "refused answer A2 3\n"),
        (MOST_ANSWER_BYTES + 1, "refused answer F01 /\n"),
    ] {
        let files = files_of(alloc, BOX, NO_CRITERIA, padded_box(alloc, size)?)?;
        assert!(rt;
            results_in(alloc, files, Vec::new(alloc), Status::Refused, line)?,
            "{line}"
        );
    }
    Ok(())
}
