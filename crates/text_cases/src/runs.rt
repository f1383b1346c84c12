//! Texts of runs.

use crate::reports::{Told, failing_sink, lines, report_of};
use hb_base::MemorySink;
use ledger_text::print_run;
use std::test::Fail;

const RUNS: [(Told, &str); 11] = [
    // nothing was closed
    (
        Told {
            nodes: 4,
            faulty: 1,
            liars: &[3],
            ends: "rrrrr rrrrr rrrrr -",
            history: "",
            status: 4,
        },
        "run nodes 4 faulty 1 version 2 epochs 32
node 0 running
node 1 running
node 2 running
node 3 liar
end 4
",
    ),
    // one list, of a liar nothing
    (
        Told {
            nodes: 4,
            faulty: 1,
            liars: &[3],
            ends: "rrrrr rrrrr rrrrr -",
            history: "0dC00abc- 1dC00abc- 2dC00abc- 3dC00abcd",
            status: 0,
        },
        "run nodes 4 faulty 1 version 2 epochs 32
node 0 running
epoch 0 batches 3
batch 0 txs 1
tx 61
batch 1 txs 1
tx 62
batch 2 txs 1
tx 63
node 1 running
epoch 0 batches 3
batch 0 txs 1
tx 61
batch 1 txs 1
tx 62
batch 2 txs 1
tx 63
node 2 running
epoch 0 batches 3
batch 0 txs 1
tx 61
batch 1 txs 1
tx 62
batch 2 txs 1
tx 63
node 3 liar
end 0
",
    ),
    // a transaction twice in a batch, in two batches, and in two epochs
    (
        Told {
            nodes: 4,
            faulty: 1,
            liars: &[3],
            ends: "rrrrr rrrrr rrrrr -",
            history: "0dC00TaM- 0dC01bLcM 2dC00M---",
            status: 4,
        },
        "run nodes 4 faulty 1 version 2 epochs 32
node 0 running
epoch 0 batches 3
batch 0 txs 2
tx 61
batch 1 txs 1
batch 2 txs 3
tx 62
tx ff00
epoch 1 batches 4
batch 0 txs 1
batch 1 txs 2
tx 6162
tx 616263
batch 2 txs 1
tx 63
batch 3 txs 3
node 1 running
node 2 running
epoch 0 batches 1
batch 0 txs 3
tx 61
tx 62
tx ff00
node 3 liar
end 4
",
    ),
    // batches that are none, or empty
    (
        Told {
            nodes: 4,
            faulty: 1,
            liars: &[3],
            ends: "rrrrr rrrrr rrrrr -",
            history: "0dC00XYZa 1dC000__b 2dC31----",
            status: 4,
        },
        "run nodes 4 faulty 1 version 2 epochs 32
node 0 running
epoch 0 batches 4
batch 0 txs 0
batch 1 txs 0
batch 2 txs 0
batch 3 txs 1
tx 61
node 1 running
epoch 0 batches 4
batch 0 txs 0
batch 1 txs 0
batch 2 txs 0
batch 3 txs 1
tx 62
node 2 running
epoch 31 batches 0
node 3 liar
end 4
",
    ),
    // actors that ended, and one whose end is missing
    (
        Told {
            nodes: 4,
            faulty: 1,
            liars: &[3],
            ends: "rmjrf rrrrr rrr.r rrrrr",
            history: "0dC00abc- 2dC00abc-",
            status: 9,
        },
        "run nodes 4 faulty 1 version 2 epochs 32
node 0 ended
actor 1 memory
actor 2 journal
actor 4 full
epoch 0 batches 3
batch 0 txs 1
tx 61
batch 1 txs 1
tx 62
batch 2 txs 1
tx 63
node 1 running
node 2 ended
epoch 0 batches 3
batch 0 txs 1
tx 61
batch 1 txs 1
tx 62
batch 2 txs 1
tx 63
node 3 liar
end 9
",
    ),
    // epochs out of order, and one left out; lists without the first node, or one in the middle
    (
        Told {
            nodes: 4,
            faulty: 1,
            liars: &[3],
            ends: "rrrrr rrrrr rrrrr -",
            history: "1dC05---a 1dC00b--- 1dC03-a-b",
            status: 5,
        },
        "run nodes 4 faulty 1 version 2 epochs 32
node 0 running
node 1 running
epoch 0 batches 1
batch 0 txs 1
tx 62
epoch 3 batches 2
batch 1 txs 1
tx 61
batch 3 txs 1
epoch 5 batches 1
batch 3 txs 1
node 2 running
node 3 liar
end 5
",
    ),
    // two lists of an epoch, posted again
    (
        Told {
            nodes: 4,
            faulty: 1,
            liars: &[3],
            ends: "rrrrr rrrrr rrrrr -",
            history: "0dC01ab-- 0dC00a--- 0dC00b--- 0dC00a--- 0dC01ab-- 1dC00a---",
            status: 4,
        },
        "run nodes 4 faulty 1 version 2 epochs 32
node 0 running
epoch 0 batches 1
batch 0 txs 1
tx 61
epoch 0 batches 1
batch 0 txs 1
tx 62
epoch 1 batches 2
batch 0 txs 1
batch 1 txs 1
node 1 running
epoch 0 batches 1
batch 0 txs 1
tx 61
node 2 running
node 3 liar
end 4
",
    ),
    // a list of a lane, of an actor beyond the desk, of no node, of no epoch
    (
        Told {
            nodes: 4,
            faulty: 1,
            liars: &[3],
            ends: "rrrrr rrrrr rrrrr -",
            history: "03C00abc- 05C00abc- 4dC00abc- 0dC32abc- 0dP00a",
            status: 4,
        },
        "run nodes 4 faulty 1 version 2 epochs 32
node 0 running
node 1 running
node 2 running
node 3 liar
end 4
",
    ),
    // no liar
    (
        Told {
            nodes: 4,
            faulty: 1,
            liars: &[],
            ends: "rrrrr rrrrr rrrrr rrrrr",
            history: "3dC00abcd 0dC00abcd",
            status: 0,
        },
        "run nodes 4 faulty 1 version 2 epochs 32
node 0 running
epoch 0 batches 4
batch 0 txs 1
tx 61
batch 1 txs 1
tx 62
batch 2 txs 1
tx 63
batch 3 txs 1
tx 64
node 1 running
node 2 running
node 3 running
epoch 0 batches 4
batch 0 txs 1
tx 61
batch 1 txs 1
tx 62
batch 2 txs 1
tx 63
batch 3 txs 1
tx 64
end 0
",
    ),
    // one node
    (
        Told {
            nodes: 1,
            faulty: 0,
            liars: &[],
            ends: "rr",
            history: "0dC00T 0dC01b",
            status: 0,
        },
        "run nodes 1 faulty 0 version 2 epochs 32
node 0 running
epoch 0 batches 1
batch 0 txs 2
tx 61
epoch 1 batches 1
batch 0 txs 1
tx 62
end 0
",
    ),
    // sixteen nodes
    (
        Told {
            nodes: 16,
            faulty: 5,
            liars: &[1, 11, 12, 13, 14],
            ends: "rrrrrrrrrrrrrrrrr - rrrrrrrrrrrrrrrrr rrrrrrrrrrrrrrrrr rrrrrrrrrrrrrrrrr rrrrrrrrrrrrrrrrr rrrrrrrrrrrrrrrrr rrrrrrrrrrrrrrrrr rrrrrrrrrrrrrrrrr rrrrrrrrrrrrrrrrr rrrrrrrrrrrrrrrrr - - - - rrrrrrrrrrrrrrrrr",
            history: "0dC00abcdabcdabcd0XYT fdC31L--------------M",
            status: 4,
        },
        "run nodes 16 faulty 5 version 2 epochs 32
node 0 running
epoch 0 batches 16
batch 0 txs 1
tx 61
batch 1 txs 1
tx 62
batch 2 txs 1
tx 63
batch 3 txs 1
tx 64
batch 4 txs 1
batch 5 txs 1
batch 6 txs 1
batch 7 txs 1
batch 8 txs 1
batch 9 txs 1
batch 10 txs 1
batch 11 txs 1
batch 12 txs 0
batch 13 txs 0
batch 14 txs 0
batch 15 txs 2
node 1 liar
node 2 running
node 3 running
node 4 running
node 5 running
node 6 running
node 7 running
node 8 running
node 9 running
node 10 running
node 11 liar
node 12 liar
node 13 liar
node 14 liar
node 15 running
epoch 31 batches 2
batch 0 txs 2
tx 6162
tx 616263
batch 15 txs 3
tx 61
tx 62
tx ff00
end 4
",
    ),
];

#[test]
fn runs(rt: HostRuntime) -> Result<(), Fail> {
    for &(told, text) in &RUNS {
        let report = report_of(rt.alloc(), told)?;
        let mut out = MemorySink::new(rt.alloc(), Vec::new(rt.alloc()));
        let done = print_run(rt.alloc(), &report, &mut out);
        assert!(rt;
            done.is_ok() && out.held() == text.as_bytes(),
            "the history {history}",
            history = told.history
        );
    }
    Ok(())
}

// Where a put fails, the lines before it have been written.
#[test]
fn puts_that_fail(rt: HostRuntime) -> Result<(), Fail> {
    for &(told, text) in &RUNS {
        let report = report_of(rt.alloc(), told)?;
        for call in 1..60u32 {
            let mut out = failing_sink(rt.alloc(), call)?;
            let is_whole = print_run(rt.alloc(), &report, &mut out).is_ok();
            let front = lines(text.as_bytes(), call - 1);
            assert!(rt;
                out.held() == front && is_whole == (front.len() == text.len()),
                "put {call} of {history}",
                history = told.history
            );
        }
    }
    Ok(())
}
