//! What is submitted at a node.
ghost use Rattle.std.specs.Prelude.{◌≡◌, ◌==◌, [], ◌∷◌, ◌++◌, IfOk, OnOk, if◌then◌else◌};
ghost use Rattle.std.specs.List.{AllByRecursion};
ghost use Rattle.hb_base.specs.ByteLists.{AreBytes};
ghost use Rattle.hb_rules.specs.Report.{submitted_at};

use hb_base::Bytes;
use net_script::{Script, Submit};
use std::alloc::{AllocError, Global};

// The transactions that are submitted at a node, in their order. Their bytes are shared.
pub(crate) fn submitted_at(
    alloc: Global,
    script: &Script,
    node: u8,
) -> Result<Vec<Bytes>, AllocError>
    ensures exact { IfOk result (λ txs. txs.items ≡ submitted_at script.now node) }
    ensures bytes { IfOk result (λ txs. AllByRecursion AreBytes txs.items) }
{
    let mut txs = Vec::new(alloc);
    for submit in &script.submit {
        add_submitted(submit, node, &mut txs)?;
    }
    Ok(txs)
}

// Adds a transaction, if it is submitted at the node.
fn add_submitted(submit: &Submit, node: u8, txs: &mut Vec<Bytes>) -> Result<(), AllocError>
    ensures exact { OnOk result (txs.new.items ≡ txs.old.items ++ (if submit.now.node == node then submit.now.tx ∷ [] else [])) }
    ensures bytes { OnOk result (AllByRecursion AreBytes txs.old.items → AllByRecursion AreBytes txs.new.items) }
{
    if submit.node == node {
        txs.push(share(&submit.tx)?)?;
    }
    Ok(())
}

// One owner more of a transaction's bytes.
fn share(tx: &Bytes) -> Result<Bytes, AllocError>
    ensures same { IfOk result (λ copy. copy ≡ tx.now) }
    ensures bytes { AreBytes tx.now }
{
    are_bytes(tx.as_slice());
    tx.clone()
}

// What a slice of bytes has are bytes. The call does nothing; its contract tells so.
fn are_bytes(_bytes: &[u8])
    ensures { AreBytes _bytes.now }
{}
