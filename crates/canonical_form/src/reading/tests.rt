//! What no clause says: that texts are read at all. The codes of bad lines are worked out by hand.
mod sample;

use super::read_answer;
use crate::answer_text::write_answer;
use crate::fault::AnswerRefusal;
use prod_model::Problem;
use sample::bikes;
use std::alloc::{AllocError, Global};
use std::test::Fail;

/// The line of the fault, and the number of its code.
fn fault_of(alloc: Global, problem: &Problem, text: &[u8]) -> Option<(u32, u32)> {
    match read_answer(alloc, problem, text) {
        Err(AnswerRefusal::Line(fault)) => Some((fault.line, fault.code.number())),
        _ => None,
    }
}

/// Texts, each with its first bad line and the code of the part there.
const BAD_LINES: [(&str, u32, u32); 32] = [
    ("", 1, 1),
    ("prefered\n", 1, 1),
    ("preferred", 1, 6),
    ("preferred \n", 1, 6),
    ("preferred\n", 2, 2),
    ("preferred\n1 Wheel\n", 2, 2),
    ("preferred\n00 Wheel\n", 2, 2),
    ("preferred\n0 Wheel\n2 Wheel\n", 3, 2),
    ("preferred\n0 Wheel\n\n", 3, 2),
    ("preferred\n0 Any\n", 2, 3),
    ("preferred\n0 Wheels\n", 2, 3),
    ("preferred\n0  Wheel\n", 2, 3),
    ("preferred\n0 Bike color=red price=1 left:\n", 2, 4),
    ("preferred\n0 Bike price=-0 color=red left:\n", 2, 4),
    ("preferred\n0 Bike price=018 color=red left:\n", 2, 4),
    ("preferred\n0 Bike price=1000001 color=red left:\n", 2, 4),
    ("preferred\n0 Bike price=+1 color=red left:\n", 2, 4),
    ("preferred\n0 Bike price=1 color=green left:\n", 2, 4),
    ("preferred\n0 Bike price=1 color=reddish left:\n", 2, 4),
    ("preferred\n0 Bike price=1 color=red\n", 2, 5),
    ("preferred\n0 Bike price=1 color=red left:2,1\n", 2, 5),
    ("preferred\n0 Bike price=1 color=red left:1,1\n", 2, 5),
    ("preferred\n0 Bike price=1 color=red left:1,\n", 2, 5),
    ("preferred\n0 Bike price=1 color=red left:01\n", 2, 5),
    ("preferred\n0 Bike price=1 color=red left:256\n", 2, 5),
    ("preferred\n0 Bike price=1 color=red left:255,256\n", 2, 5),
    ("preferred\n0 Bike price=1 color=red left:,\n", 2, 6),
    ("preferred\n0 Bike price=1 color=red left:-\n", 2, 6),
    ("preferred\n0 Bike price=1 color=red left:64 \n", 2, 6),
    ("preferred\n0 Bike price=1 color=red left:255 \n", 2, 6),
    ("preferred\n0 Wheel", 2, 6),
    ("preferred\n0 Wheel\r\n", 2, 6),
];

#[test]
fn tells_the_first_bad_line(rt: HostRuntime) -> Result<(), Fail> {
    let alloc = rt.alloc();
    let problem = bikes(alloc)?;
    for (text, line, code) in BAD_LINES {
        let fault = fault_of(alloc, &problem, text.as_bytes());
        assert_eq!(rt; fault, Some((line, code)), "at {text}");
    }
    Ok(())
}

const ANSWERS: [&str; 4] = [
    "preferred\n0 Wheel\n",
    "preferred\n0 Bike price=0 color=blue left:\n",
    "preferred\n0 Bike price=-1000000 color=red left:0\n",
    "preferred\n0 Bike price=1000000 color=red left:1,2,10,64,255\n1 Wheel\n2 Wheel\n",
];

/// Whether the text is read as an answer, whose text is the same again.
fn comes_back(alloc: Global, problem: &Problem, text: &[u8]) -> Result<bool, AllocError> {
    match read_answer(alloc, problem, text) {
        Ok(configuration) => {
            let written = write_answer(alloc, problem, &configuration)?;
            Ok(written.as_slice() == text)
        }
        Err(_) => Ok(false),
    }
}

#[test]
fn reads_what_it_writes(rt: HostRuntime) -> Result<(), Fail> {
    let alloc = rt.alloc();
    let problem = bikes(alloc)?;
    for text in ANSWERS {
        assert!(rt; comes_back(alloc, &problem, text.as_bytes())?, "{text}");
    }
    Ok(())
}

/// The line `preferred`, and so many lines of wheels.
fn wheels(alloc: Global, count: u64) -> Result<Vec<u8>, AllocError> {
    let mut text = Vec::from_slice(alloc, b"preferred\n")?;
    for number in 0..count {
        crate::numbers::put_number(&mut text, number)?;
        text.extend_from_slice(b" Wheel\n")?;
    }
    Ok(text)
}

#[test]
fn no_line_stands_behind_the_last_instance(rt: HostRuntime) -> Result<(), Fail> {
    let alloc = rt.alloc();
    let problem = bikes(alloc)?;
    for count in [64, 65, 256] {
        let read = read_answer(alloc, &problem, &wheels(alloc, count)?);
        assert!(rt; read.is_ok(), "{count} instances");
    }
    let fault = fault_of(alloc, &problem, &wheels(alloc, 257)?);
    assert_eq!(rt; fault, Some((258, 2)));
    Ok(())
}
