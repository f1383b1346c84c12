//! A liar that sends a frame that is false, among four nodes with workers.

use crate::calls::{Answer, Host, run_workers_with};
use crate::texts::FOUR;
use app_cases::FalseFrame;
use liar_cast::Liar;
use std::alloc::{AllocError, Global};
use std::test::Fail;

// Whether a text has a line, or several, that stand behind another.
fn has_lines(text: &[u8], lines: &str) -> bool {
    text.windows(lines.len().max(1))
        .any(|part| part == lines.as_bytes())
}

// Runs the four nodes, of which node 3 sends a false frame, with so many workers at each, and checks what every schedule has to
// leave.
fn run_false_frame(rt: &impl Host, alloc: Global, workers: u8) -> Result<Answer, AllocError> {
    let keys = r#","liars":[{"node":3,"name":"false_frame"}]"#;
    let mut liars: Vec<Box<dyn Liar>> = Vec::new(alloc);
    liars.push(Box::new(alloc, FalseFrame)?)?;
    run_workers_with(rt, alloc, FOUR, keys, workers, liars, &[0, 5])
}

// A frame that is false stands for no bytes, in every schedule: where the liar's lane is accepted its batch is empty.
#[test]
fn false_frames(rt: HostRuntime) -> Result<(), Fail> {
    for workers in [1, 4] {
        let answer = run_false_frame(&rt, rt.alloc(), workers)?;
        let text = answer.out.held();
        let is_accepted = has_lines(text, "batch 3 ");
        assert!(rt;
            has_lines(text, "node 3 liar\n")
                && !has_lines(text, "tx 6133\n")
                && has_lines(text, "batch 3 txs 0\n") == is_accepted
        );
    }
    Ok(())
}
