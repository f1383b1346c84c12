//! The texts of accusations.

use crate::posts::config_of;
use accuse::Accusation;
use accuse_text::print_accuse;
use hb_base::MemorySink;
use hb_rules::Report;
use std::alloc::{AllocError, Global};
use std::test::Fail;

// The number of nodes, and the version of the rules; the accusations; the status; and the text.
const TEXTS: [(u8, u8, &[(u8, u32, u32)], u8, &str); 4] = [
    (
        4,
        1,
        &[(3, 3, 4)],
        0,
        "accuse nodes 4 faulty 1 version 1 epochs 1\naccused 3 posts 3 4\nend 0\n",
    ),
    (
        1,
        1,
        &[],
        0,
        "accuse nodes 1 faulty 0 version 1 epochs 1\nend 0\n",
    ),
    (
        4,
        2,
        &[(3, 31, 33)],
        5,
        "accuse nodes 4 faulty 1 version 2 epochs 1\naccused 3 posts 31 33\nend 5\n",
    ),
    (
        16,
        2,
        &[(0, 0, 4194303), (9, 10, 99), (15, 4294967294, 4294967295)],
        4,
        "accuse nodes 16 faulty 5 version 2 epochs 1\naccused 0 posts 0 4194303\naccused 9 posts 10 99\naccused 15 posts 4294967294 4294967295\nend 4\n",
    ),
];

fn report_of(alloc: Global, nodes: u8, version: u8, status: u8) -> Result<Report, Fail> {
    let mut report = Report::empty(alloc);
    report.config = config_of(nodes, version)?;
    report.status = status;
    Ok(report)
}

fn accusations(alloc: Global, told: &[(u8, u32, u32)]) -> Result<Vec<Accusation>, AllocError> {
    let mut found = Vec::new(alloc);
    for (node, first, second) in told {
        found.push(Accusation {
            node: *node,
            first: *first,
            second: *second,
        })?;
    }
    Ok(found)
}

// Prints accusations where the puts of these numbers fail: whether none has failed, and whether this text was written.
fn printed(
    alloc: Global,
    report: &Report,
    told: &[(u8, u32, u32)],
    fails: Vec<u32>,
    text: &[u8],
) -> Result<(bool, bool), AllocError> {
    let found = accusations(alloc, told)?;
    let mut out = MemorySink::new(alloc, fails);
    let is_ok = print_accuse(report, &found, &mut out).is_ok();
    Ok((is_ok, out.held() == text))
}

#[test]
fn texts(rt: HostRuntime) -> Result<(), Fail> {
    for &(nodes, version, told, status, text) in &TEXTS {
        let report = report_of(rt.alloc(), nodes, version, status)?;
        let fails = Vec::new(rt.alloc());
        let (is_ok, is_text) = printed(rt.alloc(), &report, told, fails, text.as_bytes())?;
        assert!(rt; is_ok && is_text, "{text}");
    }
    Ok(())
}

// Where a put fails, the lines before it have been written.
#[test]
fn a_put_that_fails(rt: HostRuntime) -> Result<(), Fail> {
    let report = report_of(rt.alloc(), 4, 1, 0)?;
    let mut fails = Vec::new(rt.alloc());
    fails.push(2u32)?;
    let text = b"accuse nodes 4 faulty 1 version 1 epochs 1\n";
    let (is_ok, is_text) = printed(rt.alloc(), &report, &[(3, 3, 4)], fails, text)?;
    assert!(rt; !is_ok && is_text);
    Ok(())
}
