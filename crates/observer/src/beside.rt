//! The observers of a run: one beside each node.

ghost use Rattle.std.specs.Prelude.{◌≡◌, [], ◌∷◌, ◌++◌, List, IfOk, OnOk};
ghost use Rattle.hb_wire.specs.declared.post.Post.{Post};
ghost use Rattle.net_script.specs.Delivery.{shape_of};
ghost use Rattle.hb_rules.specs.Report.{is_drop};
ghost use Rattle.observer.specs.Beside.{arriving, IsBeside, AreBeside};
ghost use Rattle.observer.specs.Standing.{HasHeard};

use crate::observer::Observer;
use hb_rules::Report;
use hb_wire::Post;
use net_script::{Link, Shape, shape_by};
use std::alloc::{AllocError, Global};

/// The observer beside a node: it has heard, in order, the posts of the history that are not dropped on their way to the node.
pub fn observer_beside(alloc: Global, report: &Report, node: u8) -> Result<Observer, AllocError>
    ensures { IfOk result (λ o. IsBeside report.now node o) }
{
    let mut observer = Observer::new(alloc, &report.config)?;
    let links = report.script.links.as_slice();
    let posts = report.history.as_slice();
    for k in 0..posts.len() {
        hear_arriving(&mut observer, links, node, k, &posts[k])?;
    }
    Ok(observer)
}

// Hears post k, unless it is dropped on its way to a node.
fn hear_arriving(
    observer: &mut Observer,
    links: &[Link],
    node: u8,
    k: usize,
    post: &Post,
) -> Result<(), AllocError>
    ensures config { observer.new.config ≡ observer.old.config }
    ensures heard { OnOk result ((heard : List Post) → HasHeard observer.old heard
        → HasHeard observer.new (heard ++ arriving links.now node k (post.now ∷ []))) }
{
    if is_dropped(links, post.from, node, k) {
        return Ok(());
    }
    observer.hear(post)?;
    Ok(())
}

/// The observers beside all nodes, in order.
pub fn observers_beside(alloc: Global, report: &Report) -> Result<Vec<Observer>, AllocError>
    ensures { IfOk result (λ observers. AreBeside report.now report.now.config.n observers.items) }
{
    let mut observers = Vec::new(alloc);
    for node in 0..report.config.n() {
        let observer = observer_beside(alloc, report, node)?;
        observers.push(observer)?;
    }
    Ok(observers)
}

/// Whether post k is dropped on its way from one node to another, whichever number it has.
pub(crate) fn is_dropped(links: &[Link], from: u8, to: u8, k: usize) -> bool
    ensures { result ≡ is_drop (shape_of links.now from to k) }
{
    shape_by(links, from, to, k) == Shape::Drop
}
