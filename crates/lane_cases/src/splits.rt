//! Every split of inputs among three correct nodes and a liar that says both bits: what is decided when the votes come first
//! in first out, last in first out, and in orders that are drawn.

ghost use Rattle.std.specs.Prelude.{◌≡◌};
ghost use Rattle.std.specs.Arc.{arc_value};

use crate::node::Node;
use crate::text::{mixed, text_of};
use crate::world::{CORRECT, Order, ROUNDS, World, config_of, input_of, run};
use coin_deal::{Deal, deal};
use hb_base::Config;
use hb_wire::Vote;
use std::alloc::{AllocError, Global};
use std::sync::Arc;
use std::test::Fail;

// So many orders are drawn for each split, of which the sums of the first are known.
const ORDERS: u64 = 1_000;

const DRAWN: u64 = 125;

// The version, and the inputs of nodes 0 to 2 as bits from the lowest; what they have decided where the first envelope comes
// next, and where the last does: 0, 1, or - where the rounds are spent; how many nodes decide 0, 1 and nothing in the drawn
// orders; and the FNV-1a sum of all votes of all nodes in these, in their order.
const ROWS: [(u8, u8, &str, &str, [u32; 3], u64); 16] = [
    (1, 0, "000", "000", [375, 0, 0], 0x2cec_2566_01ed_b238),
    (1, 1, "000", "000", [212, 47, 116], 0x9ed6_5309_2069_4b43),
    (1, 2, "000", "111", [210, 45, 120], 0xb510_1d75_5456_ade5),
    (1, 3, "111", "111", [61, 201, 113], 0x7434_9b58_1a2b_eaea),
    (1, 4, "000", "111", [202, 68, 105], 0x894d_9ee5_3141_3e56),
    (1, 5, "111", "111", [68, 173, 134], 0x19e2_457a_50d4_1c4b),
    (1, 6, "111", "111", [65, 216, 94], 0xc024_8a43_2472_a5b7),
    (1, 7, "111", "111", [0, 375, 0], 0x81c2_2684_1c21_5a6d),
    (2, 0, "000", "000", [375, 0, 0], 0xbd77_ecd5_6e8b_d1b9),
    (2, 1, "000", "000", [147, 27, 201], 0xcdf1_5886_a5c8_a5ef),
    (2, 2, "000", "111", [152, 22, 201], 0xc387_585b_638e_262e),
    (2, 3, "111", "111", [41, 147, 187], 0xc977_2f03_c29e_baa9),
    (2, 4, "000", "111", [163, 27, 185], 0xba63_0b70_ac78_6c81),
    (2, 5, "111", "111", [33, 159, 183], 0x3031_0b16_dd3b_058e),
    (2, 6, "111", "111", [26, 168, 181], 0x153c_b2d0_fa54_eba1),
    (2, 7, "111", "111", [0, 375, 0], 0x1457_f9ea_043b_c21f),
];

// What came of runs: how many nodes have decided 0, 1 and nothing, and the sum of all votes.
#[derive(Clone, Copy, Debug, PartialEq, Eq)]
struct Sums {
    decided: [u32; 3],
    votes: u64,
}

impl Sums {
    fn new() -> Sums {
        Sums {
            decided: [0; 3],
            votes: 0xcbf2_9ce4_8422_2325,
        }
    }

    fn add(&mut self, alloc: Global, nodes: &[Node]) -> Result<(), AllocError> {
        for node in nodes {
            let place = match node.decided() {
                Some(bit) => bit as usize,
                None => 2,
            };
            self.decided[place] = self.decided[place].saturating_add(1);
            self.votes = mixed(self.votes, &text_of(alloc, node.votes())?);
        }
        Ok(())
    }
}

fn letter_of(decided: Option<bool>) -> u8 {
    match decided {
        Some(true) => b'1',
        Some(false) => b'0',
        None => b'-',
    }
}

// What each node has decided.
fn letters_of(alloc: Global, world: &World) -> Result<Vec<u8>, AllocError> {
    let mut letters = Vec::new(alloc);
    for node in &world.nodes {
        letters.push(letter_of(node.decided()))?;
    }
    Ok(letters)
}

// Whether all that is decided is one bit, which is the input of some correct node, and a node that has decided nothing has
// picked in the last round.
fn is_sound(world: &World, split: u8) -> bool {
    let mut found = None;
    for node in &world.nodes {
        let is_well = match node.decided() {
            Some(bit) => is_input(split, bit) && found.replace(bit).unwrap_or(bit) == bit,
            None => has_spent(node.votes()),
        };
        if !is_well {
            return false;
        }
    }
    true
}

fn is_input(split: u8, bit: bool) -> bool {
    (0..CORRECT).any(|number| input_of(split, number) == bit)
}

fn has_spent(votes: &[Vote]) -> bool {
    votes.iter().any(is_last_pick)
}

fn is_last_pick(vote: &Vote) -> bool {
    match vote {
        Vote::Pick { round, .. } => *round == ROUNDS - 1,
        _ => false,
    }
}

// A run in an order, if all is sound.
fn sound_run(
    alloc: Global,
    config: &Config,
    deal: &Arc<Deal, Global>,
    split: u8,
    order: Order,
) -> Result<World, Fail>
    requires { arc_value deal.now ≡ config.now }
{
    let world = run(alloc, config, deal, split, order)?;
    if !is_sound(&world, split) {
        return Err("the agreement is not sound".into());
    }
    Ok(world)
}

// Whether this is decided in an order, and all is sound.
fn comes_to(
    alloc: Global,
    config: &Config,
    deal: &Arc<Deal, Global>,
    split: u8,
    order: Order,
    wanted: &str,
) -> Result<bool, Fail>
    requires { arc_value deal.now ≡ config.now }
{
    let world = sound_run(alloc, config, deal, split, order)?;
    let found = letters_of(alloc, &world)?;
    Ok(found.as_slice() == wanted.as_bytes())
}

// What comes of the drawn orders, if all is sound.
fn drawn(alloc: Global, config: &Config, deal: &Arc<Deal, Global>, split: u8) -> Result<Sums, Fail>
    requires { arc_value deal.now ≡ config.now }
{
    let mut sums = Sums::new();
    for k in 0..DRAWN {
        let order = Order::Drawn(8 * k + split as u64);
        let world = sound_run(alloc, config, deal, split, order)?;
        sums.add(alloc, &world.nodes)?;
    }
    Ok(sums)
}

// Whether all is sound in the drawn orders behind the first.
fn check_others(
    alloc: Global,
    config: &Config,
    deal: &Arc<Deal, Global>,
    split: u8,
) -> Result<(), Fail>
    requires { arc_value deal.now ≡ config.now }
{
    for k in DRAWN..ORDERS {
        let order = Order::Drawn(8 * k + split as u64);
        let _world = sound_run(alloc, config, deal, split, order)?;
    }
    Ok(())
}

#[test]
fn splits(rt: HostRuntime) -> Result<(), Fail> {
    let alloc = rt.alloc();
    for &(version, split, want_first, want_last, decided, votes) in &ROWS {
        let config = config_of(version)?;
        let deal = Arc::new(alloc, deal(alloc, &config)?)?;
        let by_first = comes_to(alloc, &config, &deal, split, Order::First, want_first)?;
        let by_last = comes_to(alloc, &config, &deal, split, Order::Last, want_last)?;
        let sums = drawn(alloc, &config, &deal, split)?;
        assert!(rt;
            by_first && by_last && sums == Sums { decided, votes },
            "version {version}, split {split}"
        );
        check_others(alloc, &config, &deal, split)?;
    }
    Ok(())
}
