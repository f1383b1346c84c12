//! Texts of generated runs.

use crate::reports::{Told, failing_sink, lines, report_of};
use hb_base::MemorySink;
use ledger_text::print_soak;
use std::test::Fail;

// The history among four nodes, of which node 3 lies, the status, and the text.
const SOAKS: [(&str, u8, &str); 6] = [
    // nothing
    (
        "",
        4,
        "soak 18446744073709551615 nodes 4 faulty 1 epochs 32 batch 16 workers 3
comparable yes
batches yes
unaltered yes
end 4
",
    ),
    // all is as it must be
    (
        "0dP00a 1dP00b 2dP00c 0dC00abc- 1dC00abc-",
        0,
        "soak 18446744073709551615 nodes 4 faulty 1 epochs 32 batch 16 workers 3
comparable yes
batches yes
unaltered yes
end 0
",
    ),
    // another list
    (
        "0dP00a 1dP00b 2dP00c 0dC00abc- 1dC00abcd",
        4,
        "soak 18446744073709551615 nodes 4 faulty 1 epochs 32 batch 16 workers 3
comparable no
batches yes
unaltered yes
end 4
",
    ),
    // too few batches
    (
        "0dP00a 1dP00b 0dC00ab-- 1dC00ab--",
        4,
        "soak 18446744073709551615 nodes 4 faulty 1 epochs 32 batch 16 workers 3
comparable yes
batches no
unaltered yes
end 4
",
    ),
    // one was not proposed
    (
        "0dP00a 1dP00b 2dP00b 0dC00abc- 1dC00abc-",
        9,
        "soak 18446744073709551615 nodes 4 faulty 1 epochs 32 batch 16 workers 3
comparable yes
batches yes
unaltered no
end 9
",
    ),
    // all is wrong
    (
        "0dC00a--- 1dC00-b--",
        5,
        "soak 18446744073709551615 nodes 4 faulty 1 epochs 32 batch 16 workers 3
comparable no
batches no
unaltered no
end 5
",
    ),
];

fn told(history: &'static str, status: u8) -> Told {
    Told {
        nodes: 4,
        faulty: 1,
        liars: &[3],
        ends: "",
        history,
        status,
    }
}

#[test]
fn soaks(rt: HostRuntime) -> Result<(), Fail> {
    for &(history, status, text) in &SOAKS {
        let report = report_of(rt.alloc(), told(history, status))?;
        let mut out = MemorySink::new(rt.alloc(), Vec::new(rt.alloc()));
        let done = print_soak(u64::MAX, &report, &mut out);
        assert!(rt;
            done.is_ok() && out.held() == text.as_bytes(),
            "the history {history}"
        );
    }
    Ok(())
}

// Where a put fails, the lines before it have been written.
#[test]
fn puts_that_fail(rt: HostRuntime) -> Result<(), Fail> {
    for &(history, status, text) in &SOAKS {
        let report = report_of(rt.alloc(), told(history, status))?;
        for call in 1..6u32 {
            let mut out = failing_sink(rt.alloc(), call)?;
            let done = print_soak(u64::MAX, &report, &mut out);
            assert!(rt;
                done.is_err() && out.held() == lines(text.as_bytes(), call - 1),
                "put {call} of {history}"
            );
        }
    }
    Ok(())
}
