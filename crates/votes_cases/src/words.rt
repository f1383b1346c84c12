//! What the words of votes are.

use crate::callers::in_words;
use crate::rows::{FOUR, FOUR_BRIEF, FOUR_FULL, ONE, ONE_BRIEF, ONE_FULL};
use hb_base::Bytes;
use std::alloc::{AllocError, Global};
use std::test::Fail;
use votes_app::Detail;

fn has_words(alloc: Global, detail: Detail, text: &str, words: &str) -> Result<bool, AllocError> {
    let text = Bytes::copy(alloc, text.as_bytes())?;
    match in_words(alloc, detail, &text) {
        Ok(told) => Ok(told.as_slice() == words.as_bytes()),
        Err(_) => Ok(false),
    }
}

#[test]
fn each_kind_of_vote(rt: HostRuntime) -> Result<(), Fail> {
    let alloc = rt.alloc();
    assert!(rt; has_words(alloc, Detail::Brief, FOUR, FOUR_BRIEF)?);
    assert!(rt; has_words(alloc, Detail::Full, FOUR, FOUR_FULL)?);
    Ok(())
}

#[test]
fn one_node(rt: HostRuntime) -> Result<(), Fail> {
    let alloc = rt.alloc();
    assert!(rt; has_words(alloc, Detail::Brief, ONE, ONE_BRIEF)?);
    assert!(rt; has_words(alloc, Detail::Full, ONE, ONE_FULL)?);
    Ok(())
}
