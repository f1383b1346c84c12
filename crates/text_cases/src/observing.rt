//! Texts of observers.

use crate::observers::{EVERY_TO_TWO, run_of};
use crate::reports::{failing_sink, lines};
use hb_base::{Bytes, Config, MemorySink, NodeSet};
use hb_rules::Report;
use hb_wire::{Post, PostBytes, To};
use observer_text::{ObserveFault, print_observe};
use std::alloc::{AllocError, Global};
use std::test::Fail;

// What is printed of an observer without an epoch, and of one with the batches of a, b and c.
const NONE: &str = "0\n";

const THREE: &str =
    "1\nepoch 0 batches 3\nbatch 0 txs 1\ntx 61\nbatch 1 txs 1\ntx 62\nbatch 2 txs 1\ntx 63\n";

const TWO: &str = "1\nepoch 0 batches 2\nbatch 0 txs 1\ntx 61\nbatch 1 txs 1\ntx 62\n";

// A transaction twice in a batch, in two batches, and in two epochs.
const AGAIN: &str = "2
epoch 0 batches 3
batch 0 txs 2
tx 61
batch 1 txs 1
batch 2 txs 3
tx 62
tx ff00
epoch 1 batches 4
batch 0 txs 1
batch 1 txs 2
tx 6162
tx 616263
batch 2 txs 1
tx 63
batch 3 txs 3
";

// Histories of runs among four nodes, with what is dropped, and what is printed of each observer behind `observer I epochs`.
const OBSERVED: [(&str, &[(Option<u8>, Option<u8>, u32, u32)], [&str; 4]); 7] = [
    // nothing was closed
    ("", &[], [NONE, NONE, NONE, NONE]),
    // one node has, and two have
    ("0dC00abc-", &[], [NONE, NONE, NONE, NONE]),
    ("0dC00abc- 1dC00abc-", &[], [THREE, THREE, THREE, THREE]),
    // an observer hears its own node alone
    (
        "0dC00abc- 1dC00abc- 2dC00abc-",
        EVERY_TO_TWO,
        [THREE, THREE, NONE, THREE],
    ),
    // two epochs, and one behind an epoch that is left out
    (
        "0dC00TaM- 1dC00TaM- 0dC01bLcM 1dC01bLcM 0dC03a--- 1dC03a---",
        &[],
        [AGAIN, AGAIN, AGAIN, AGAIN],
    ),
    // the second epoch first
    (
        "0dC01bLcM 1dC01bLcM 0dC00TaM- 1dC00TaM-",
        &[],
        [AGAIN, AGAIN, AGAIN, AGAIN],
    ),
    // two lists, and an observer that hears but one of the two nodes that made the first claim
    (
        "3dC00ab-- 0dC00ab-- 1dC00abc- 2dC00abc-",
        &[(Some(0), Some(1), 1, 0)],
        [TWO, THREE, TWO, TWO],
    ),
];

// The text of a run among four nodes.
fn text_of(alloc: Global, observers: [&str; 4]) -> Result<String, Fail> {
    let [zero, one, two, three] = observers;
    Ok(format!(in alloc;
        "observe nodes 4 faulty 1 version 2 epochs 32\nobserver 0 epochs {zero}observer 1 epochs {one}observer 2 epochs {two}observer 3 epochs {three}end 4\n"
    )?)
}

#[test]
fn observed(rt: HostRuntime) -> Result<(), Fail> {
    for &(history, drops, observers) in &OBSERVED {
        let report = run_of(rt.alloc(), history, drops)?;
        let text = text_of(rt.alloc(), observers)?;
        let mut out = MemorySink::new(rt.alloc(), Vec::new(rt.alloc()));
        let done = print_observe(rt.alloc(), &report, &mut out);
        assert!(rt;
            done.is_ok() && out.held() == text.as_bytes(),
            "the history {history}"
        );
    }
    Ok(())
}

// Whether the lines before the put with this number are written, and the fault of the sink is answered exactly where lines are
// missing.
fn is_right_at(alloc: Global, report: &Report, text: &str, call: u32) -> Result<bool, AllocError> {
    let mut out = failing_sink(alloc, call)?;
    let done = print_observe(alloc, report, &mut out);
    let front = lines(text.as_bytes(), call.saturating_sub(1));
    let wanted = if front.len() == text.len() {
        Ok(())
    } else {
        Err(ObserveFault::Sink)
    };
    Ok(out.held() == front && done == wanted)
}

// Where a put fails, the lines before it have been written.
#[test]
fn puts_fail(rt: HostRuntime) -> Result<(), Fail> {
    for &(history, drops, observers) in &OBSERVED {
        let report = run_of(rt.alloc(), history, drops)?;
        let text = text_of(rt.alloc(), observers)?;
        for call in 1..80u32 {
            let is_right = is_right_at(rt.alloc(), &report, text.as_str(), call)?;
            assert!(rt; is_right, "put {call} of {history}");
        }
    }
    Ok(())
}

// The report of a run of one node that has closed its only epoch.
fn one_node(alloc: Global) -> Result<Report, Fail> {
    let mut report = Report::empty(alloc);
    report.config = Config::new(1, 0, 1, 3, 64, 0, 1, NodeSet::new()).ok_or("no config")?;
    report.status = 0;
    report.history.push(Post {
        from: 0,
        actor: 1,
        to: To::Book,
        bytes: PostBytes::plain(Bytes::copy(
            alloc,
            b"\x12\x00\x01\x00\x00\x00\x00\x06\x00\x01\x00\x02hi",
        )?),
    })?;
    Ok(report)
}

#[test]
fn one_observer(rt: HostRuntime) -> Result<(), Fail> {
    let report = one_node(rt.alloc())?;
    let mut out = MemorySink::new(rt.alloc(), Vec::new(rt.alloc()));
    let done = print_observe(rt.alloc(), &report, &mut out);
    let text = "observe nodes 1 faulty 0 version 1 epochs 1
observer 0 epochs 1
epoch 0 batches 1
batch 0 txs 1
tx 6869
end 0
";
    assert!(rt; done.is_ok() && out.held() == text.as_bytes());
    Ok(())
}
