ghost use Rattle.std.specs.Prelude.{◌≡◌, drop};
ghost use Rattle.net_script.specs.Delivery.{fits, is_any_or, shape_of};

use crate::script::{Link, Script, Shape};

/// The shape of post `k` from node `from` to node `to` by the rules of a script.
pub fn shape(script: &Script, from: u8, to: u8, k: u32) -> Shape
    ensures { result ≡ shape_of script.now.links.items from to k }
{
    shape_by(script.links.as_slice(), from, to, k as usize)
}

/// The shape of post `k` from node `from` to node `to`: Once within a node, else that of the first rule that fits the
/// post, and Once where none does. A rule fits where it names these nodes, or any, and `k` mod `every` is `at`. It
/// takes no memory. A history that is looked at may have more posts than a run can make, so `k` may be any number.
pub fn shape_by(links: &[Link], from: u8, to: u8, k: usize) -> Shape
    ensures { result ≡ shape_of links.now from to k }
{
    if from == to {
        return Shape::Once;
    }
    for link in links {
        if fits(link, from, to, k) {
            return link.shape;
        }
    }
    Shape::Once
}

fn fits(link: &Link, from: u8, to: u8, k: usize) -> bool
    ensures { result ≡ fits link.now from to k }
{
    is_any_or(link.from, from)
        && is_any_or(link.to, to)
        && link.every != 0
        && k % link.every as usize == link.at as usize
}

// Whether a rule that names this node, or any, speaks of that one.
fn is_any_or(named: Option<u8>, node: u8) -> bool
    ensures { result ≡ is_any_or named node }
{
    match named {
        None => true,
        Some(named) => named == node,
    }
}
