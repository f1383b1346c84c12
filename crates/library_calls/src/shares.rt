//! Shares of small deals. Keys, polynomials, salts and roots are those of `tools/oracles/run shares_of_coins`.

ghost use Rattle.std.specs.Prelude.{◌≡◌, ◌*◌, ◌<◌, ◌≤◌, ◌⊎◌, [], false, length, IfOk, IsSome, IfSome, Any};
ghost use Rattle.coin_deal.specs.Deal.{dealt_coin};
ghost use Rattle.coin_deal.specs.Heard.{HeardShare, has_share_of, Collides};
ghost use Rattle.coin_share.specs.Shares.{with_share, deciding, IsOfCoin};

use coin_deal::{Deal, DealtShare, deal, leaf_of};
use coin_share::{Offer, Shares};
use hb_base::{Config, NodeSet};
use merkle_branch::{Leaves, Tree};
use std::alloc::{AllocError, Global};
use std::process::Abort;
use std::test::*;

// Seed 0, four nodes, f = 1, the first coin: its polynomial is 0x76 + 0xA0 x.
const ROOT: [u8; 32] = [
    0x44, 0xA6, 0x1B, 0xC7, 0xBB, 0x8A, 0xE2, 0x06, 0x57, 0xCD, 0xB6, 0xF9, 0xC9, 0x0A, 0x5C, 0x80,
    0xB8, 0xF5, 0x1D, 0x10, 0xA6, 0x89, 0x9F, 0xFE, 0x23, 0x73, 0x77, 0xD0, 0xE0, 0x10, 0x90, 0xE0,
];

const SHARES: [u8; 4] = [0xD6, 0x2B, 0x8B, 0xCC];

const SALTS: [[u8; 16]; 4] = [
    [
        0x40, 0x5D, 0x6A, 0xE5, 0x53, 0x86, 0xBD, 0x28, 0xBD, 0xD2, 0x19, 0xB8, 0xA0, 0x8D, 0xED,
        0x1A,
    ],
    [
        0xA8, 0x36, 0xEF, 0xCC, 0x8B, 0x77, 0x0D, 0xC7, 0xDA, 0x41, 0x59, 0x7C, 0x51, 0x57, 0x48,
        0x8D,
    ],
    [
        0x77, 0x24, 0xE0, 0x3F, 0xB8, 0xD8, 0x4A, 0x37, 0x6A, 0x43, 0xB8, 0xF4, 0x15, 0x18, 0xA1,
        0x1C,
    ],
    [
        0xC3, 0x87, 0xB6, 0x69, 0xB2, 0xEE, 0x65, 0x86, 0x9F, 0x07, 0xE7, 0xBE, 0x55, 0x51, 0x38,
        0x7A,
    ],
];

// f, the coin, and the shares of the 3f + 1 nodes. The secrets have a low bit that differs from the high one.
const DEALS: [(u8, bool, &[u8]); 6] = [
    (0, true, &[0x7F]),
    (1, false, &[0xAB, 0x98, 0x89, 0xFE]),
    (2, true, &[0xE0, 0x10, 0x8F, 0x8C, 0x13, 0xE3, 0x7C]),
    (
        3,
        false,
        &[0x60, 0xC5, 0x34, 0x1D, 0x3D, 0x27, 0x2C, 0xBD, 0x04, 0x41],
    ),
    (
        4,
        true,
        &[
            0xEF, 0x98, 0x16, 0x03, 0xD7, 0x14, 0xDE, 0x43, 0xA6, 0xBE, 0x45, 0xEC, 0x4D,
        ],
    ),
    (
        5,
        false,
        &[
            0xDE, 0x24, 0x61, 0x53, 0x79, 0xD5, 0xDE, 0x5F, 0xFF, 0x41, 0xC0, 0xCB, 0x25, 0xCD,
            0x02, 0x6C,
        ],
    ),
];

// Offers in turn: the node, the share, whose salt and whose branch it comes with, the answer, and the coin after it.
const OFFERS: [(u8, u8, u8, u8, Offer, Option<bool>); 7] = [
    (2, 0x2B, 1, 1, Offer::Wrong, None),
    (1, 0x2C, 1, 1, Offer::Wrong, None),
    (1, 0x2B, 0, 1, Offer::Wrong, None),
    (1, 0x2B, 1, 1, Offer::Added, None),
    (1, 0x2B, 1, 1, Offer::Known, None),
    (1, 0x2C, 1, 1, Offer::Known, None),
    (0, 0xD6, 0, 0, Offer::Added, Some(false)),
];

// The tree of the first coin.
fn first_tree(alloc: Global) -> Result<Tree, AllocError>
    ensures { IfOk result (λ tree. length tree ≡ 4) }
{
    let mut leaves = Leaves::new();
    leaves.add(&leaf_of(SHARES[0], &SALTS[0]));
    leaves.add(&leaf_of(SHARES[1], &SALTS[1]));
    leaves.add(&leaf_of(SHARES[2], &SALTS[2]));
    leaves.add(&leaf_of(SHARES[3], &SALTS[3]));
    Tree::build(alloc, &leaves)
}

#[test]
fn first_coin_of_seed_0(rt: HostRuntime) -> Result<(), Fail> {
    let tree = first_tree(rt.alloc())?;
    assert!(rt; tree.root() == ROOT);
    let mut shares = Shares::new(4, 1, ROOT);
    for &(m, share, salt, branch, answer, coin) in &OFFERS {
        assert!(rt; m < 4 && salt < 4 && branch < 4);
        let given = shares.offer(m, share, &SALTS[salt as usize], &tree.branch(branch));
        assert!(rt; given == answer && shares.coin() == coin);
    }
    Ok(())
}

// The tree of a deal in which the salt of node m is sixteen bytes m.
fn tree_of(alloc: Global, dealt: &[u8]) -> Result<Tree, AllocError>
    requires some { 0 < length dealt.now }
    requires few { length dealt.now ≤ 16 }
    ensures { IfOk result (λ tree. length tree ≡ length dealt.now) }
{
    let mut leaves = Leaves::new();
    for m in 0..dealt.len() {
        leaves.add(&leaf_of(dealt[m], &[m as u8; 16]));
    }
    Tree::build(alloc, &leaves)
}

// Offers the shares of the chosen nodes of such a deal, from the last node on. From f + 1 of them on the coin is known.
fn offer_chosen(rt: &impl Abort, f: u8, coin: bool, dealt: &[u8], tree: &Tree, chosen: u32)
    requires few { length dealt.now ≤ 16 }
    requires enough { 3 * f < length dealt.now }
    requires leaves { length tree.now ≡ length dealt.now }
{
    let n = dealt.len() as u8;
    let mut shares = Shares::new(n, f, tree.root());
    let mut count = 0;
    for i in 0..n {
        let m = n - 1 - i;
        if chosen >> m & 1 == 1 {
            let offer = shares.offer(m, dealt[m as usize], &[m; 16], &tree.branch(m));
            assert!(rt; offer == Offer::Added);
            count += 1;
        }
        let known = if count > f { Some(coin) } else { None };
        assert!(rt; shares.coin() == known);
    }
}

#[test]
fn each_f(rt: HostRuntime) -> Result<(), Fail> {
    for &(f, coin, dealt) in &DEALS {
        assert!(rt; f <= 5 && dealt.len() == 3 * f as usize + 1);
        let tree = tree_of(rt.alloc(), dealt)?;
        offer_chosen(&rt, f, coin, dealt, &tree, u32::MAX);
    }
    Ok(())
}

// The polynomial 0x35 + 0x80 x, whose values at 1, 2 and 3 are known by hand, and the deal above with f = 2.
const LINE: &[u8] = &[0xB5, 0x28, 0xA8, 0x0F];

#[test]
fn each_choice(rt: HostRuntime) -> Result<(), Fail> {
    for (f, coin, dealt) in [(1u8, true, LINE), DEALS[2]] {
        assert!(rt; f <= 2 && dealt.len() == 3 * f as usize + 1);
        let tree = tree_of(rt.alloc(), dealt)?;
        for chosen in 0..1u32 << dealt.len() {
            if chosen.count_ones() == f as u32 + 1 {
                offer_chosen(&rt, f, coin, dealt, &tree, chosen);
            }
        }
    }
    Ok(())
}

// What a caller may rest on: a dealt share is added where none of its node was.
fn offer_dealt(run: &Deal, r: u8, m: u8, shares: &mut Shares) -> Offer
    requires epoch { 0 < run.now.epochs }
    requires round { r < run.now.rounds }
    requires node { m < run.now.n }
    requires of { IsOfCoin shares.old run.now 0 0 r }
    requires first { has_share_of shares.old.added m ≡ false }
    ensures added { result ≡ Offer.Added }
    ensures more { (a : HeardShare) × (a.node ≡ m) × (shares.new ≡ with_share shares.old a) }
{
    let DealtShare {
        share,
        salt,
        branch,
    } = run.dealt_to(0, 0, r, m);
    shares.offer(m, share, &salt, &branch)
}

// It is added too where it is known to be good.
fn add_dealt(run: &Deal, r: u8, m: u8, shares: &mut Shares)
    requires epoch { 0 < run.now.epochs }
    requires round { r < run.now.rounds }
    requires node { m < run.now.n }
    requires of { IsOfCoin shares.old run.now 0 0 r }
    ensures { IsOfCoin shares.new run.now 0 0 r }
{
    let DealtShare {
        share,
        salt,
        branch,
    } = run.dealt_to(0, 0, r, m);
    shares.add_checked(m, share, &salt, &branch);
}

// And f + 1 of them give the dealt coin, or two of the strings that are hashed to check one of them collide.
fn coin_of_two(run: &Deal, r: u8, shares: &mut Shares) -> Option<bool>
    requires epoch { 0 < run.now.epochs }
    requires round { r < run.now.rounds }
    requires nodes { 1 < run.now.n }
    requires f { run.now.f ≡ 1 }
    requires of { IsOfCoin shares.old run.now 0 0 r }
    requires none { shares.old.added ≡ [] }
    ensures known { IsSome result }
    ensures dealt { IfSome result (λ coin. (coin ≡ dealt_coin run.now 0 0 r) ⊎ Any (Collides run.now 0 0 r) (deciding shares.new)) }
{
    offer_dealt(run, r, 0, shares);
    offer_dealt(run, r, 1, shares);
    shares.coin()
}

#[test]
fn dealt_shares(rt: HostRuntime) -> Result<(), Fail> {
    let config = Config::new(4, 1, 1, 1, 1, 0, 1, NodeSet::new()).expect(&rt, "a config");
    let run = deal(rt.alloc(), &config)?;
    assert!(rt; config.n() == 4 && config.f() == 1 && config.epochs() == 1 && config.rounds() == 1);
    let mut shares = Shares::new(4, 1, run.root_of(0, 0, 0));
    let coin = coin_of_two(&run, 0, &mut shares);
    let dealt = run.coin_of(0, 0, 0);

    // one of each node counts
    let mut checked = Shares::new(4, 1, run.root_of(0, 0, 0));
    add_dealt(&run, 0, 2, &mut checked);
    add_dealt(&run, 0, 2, &mut checked);
    let coin_of_one = checked.coin();
    add_dealt(&run, 0, 3, &mut checked);
    assert!(rt; coin == Some(dealt) && coin_of_one == None && checked.coin() == coin);
    Ok(())
}

// Shares of the first coin of seed 0: the node, the share, whose salt and whose branch it comes with, and whether the node was
// dealt these.
const SHOWN: [(u8, u8, u8, u8, bool); 8] = [
    (0, 0xD6, 0, 0, true),
    (1, 0x2B, 1, 1, true),
    (2, 0x8B, 2, 2, true),
    (3, 0xCC, 3, 3, true),
    (2, 0x2B, 1, 1, false),
    (1, 0x2C, 1, 1, false),
    (1, 0x2B, 0, 1, false),
    (1, 0x2B, 1, 0, false),
];

#[test]
fn dealt_alone(rt: HostRuntime) -> Result<(), Fail> {
    let config = Config::new(4, 1, 1, 1, 1, 0, 1, NodeSet::new()).expect(&rt, "a config");
    let run = deal(rt.alloc(), &config)?;
    assert!(rt; config.n() == 4 && config.epochs() == 1 && config.rounds() == 1);
    let tree = first_tree(rt.alloc())?;
    for &(m, share, salt, branch, wanted) in &SHOWN {
        assert!(rt; m < 4 && salt < 4 && branch < 4);
        let shown = tree.branch(branch);
        let is_dealt = run.is_dealt(0, 0, 0, m, share, &SALTS[salt as usize], &shown);
        assert!(rt; is_dealt == wanted);
    }

    // one bit of the salt differs, or one of a digest
    let mut salt = SALTS[1];
    let mut branch = tree.branch(1);
    assert!(rt; run.is_dealt(0, 0, 0, 1, 0x2B, &salt, &branch));
    salt[15] ^= 1;
    assert!(rt; !run.is_dealt(0, 0, 0, 1, 0x2B, &salt, &branch));
    salt[15] ^= 1;
    branch.digests[1][31] ^= 1;
    assert!(rt; !run.is_dealt(0, 0, 0, 1, 0x2B, &salt, &branch));
    Ok(())
}

// The salts and the branches take no memory.
#[test]
fn size(rt: HostRuntime) {
    assert!(rt; size_of::<Shares>() == 3 + 32 + 2 * 16);
}
