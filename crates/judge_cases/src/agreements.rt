//! What no clause says: that calls find memory, and what a lane of a run of one node may cast, row by row. There each count asks
//! for one node. Votes that are heard are read of their bytes.
ghost use Rattle.std.specs.Prelude.{◌≡◌, ◌<◌, ◌≤◌, true, IfOk};
ghost use Rattle.hb_wire.specs.Votes.{epoch_of};
ghost use Rattle.hb_rules.specs.History.{HasSpelling};
ghost use Rattle.hb_rules.specs.Terms.{AreHeardSpelled};
ghost use Rattle.aba_judge.specs.Checked.{is_share_checked, AreSharesChecked};

use crate::votes::vote_of;
use aba_judge::{Place, may_agree};
use coin_deal::{Deal, deal, leaf_of};
use hb_base::{Config, NodeSet};
use hb_rules::Heard;
use hb_wire::{Vals, Vote};
use merkle_branch::is_branch;
use std::alloc::Global;
use std::test::Fail;

// Votes are words of three letters, all of epoch 0: the kind, the round, and a bit, or a set of bits of which 1 has 0, 2 has 1
// and 3 has both. Of a bit c is the coin of round 0 and n the other one, of a set c is the coin alone. E is Est, B is Bval, A is
// Aux, C is Conf, P is Pick, S is the node's share of the round, D is Decided and N is NoMore.
//
// Whether the lane may cast a vote, under a version of the rules, where it has cast these and heard these of node 0.
type Row = (u8, &'static str, &'static str, &'static str, bool);

const ROWS: [Row; 24] = [
    // it begins with 0 where the desk wants no more lanes, once
    (1, "", "N00", "E00", true),
    (1, "", "N00", "E01", false),
    (1, "", "", "E00", false),
    (1, "E01", "N00", "E00", false),
    // it supports what it began with, and accepts what is supported
    (1, "E01", "", "B01", true),
    (1, "E01", "", "B00", false),
    (1, "E01", "B01", "A01", true),
    (1, "E01", "B01", "A00", false),
    (1, "E01", "", "A01", false),
    // it picks by what is accepted
    (1, "A01", "B01 A01", "P02", true),
    (1, "A01", "B01 A01", "P01", false),
    (1, "A01", "B01 A01", "P03", false),
    // under version 2 it confirms that first, and picks by what is confirmed
    (2, "A01", "B01 A01", "C02", true),
    (2, "A01", "B01 A01", "P02", false),
    (2, "C02", "B01 C02", "P02", true),
    // its share of the round, once it has picked
    (1, "P03", "", "S00", true),
    (1, "", "", "S00", false),
    (1, "P03", "", "S10", false),
    // with both bits it goes on with the coin
    (1, "P03", "S00", "E1c", true),
    (1, "P03", "S00", "E1n", false),
    (1, "P03", "", "E1c", false),
    // with the coin alone it decides
    (1, "P0c", "S00", "D0c", true),
    (1, "P03", "S00", "D0c", false),
    (1, "P0c", "", "D0c", false),
];

// One node and one epoch.
fn one_node(version: u8, rounds: u8) -> Result<Config, Fail> {
    let config = Config::new(1, 0, 1, rounds, 1, 5, version, NodeSet::new()).ok_or("no config")?;
    Ok(config)
}

// The kind of a vote, as its bytes begin with it.
fn kind_of(letter: u8) -> u8 {
    match letter {
        b'E' => 0x05,
        b'B' => 0x06,
        b'A' => 0x07,
        b'P' => 0x08,
        b'S' => 0x09,
        b'D' => 0x0a,
        b'C' => 0x0b,
        _ => 0x11,
    }
}

// The bit, or the set of bits, of the last letter of a word.
fn value_of(kind: u8, letter: u8, coin: bool) -> u8 {
    match letter {
        b'c' if kind == b'P' => 1 + coin as u8,
        b'c' => coin as u8,
        b'n' => !coin as u8,
        _ => letter.saturating_sub(b'0'),
    }
}

// The bytes of a word.
fn bytes_of(alloc: Global, config: &Config, deal: &Deal, word: &str) -> Result<Vec<u8>, Fail>
    requires { deal.now ≡ config.now }
{
    let (kind, round, last) = match word.as_bytes() {
        &[kind, round, last] => (kind, round.saturating_sub(b'0'), last),
        _ => return Err("no word".into()),
    };
    let mut bytes = Vec::new(alloc);
    bytes.push(kind_of(kind))?;
    bytes.push(0)?;
    match kind {
        b'N' => {}
        b'S' => put_share(config, deal, round, &mut bytes)?,
        b'D' => bytes.push(value_of(kind, last, coin(config, deal)))?,
        _ => bytes.extend_from_slice(&[round, value_of(kind, last, coin(config, deal))])?,
    }
    Ok(bytes)
}

// The coin of lane 0 in round 0.
fn coin(config: &Config, deal: &Deal) -> bool
    requires { deal.now ≡ config.now }
{
    let epochs = config.epochs();
    let n = config.n();
    let rounds = config.rounds();
    prove!(0 < epochs);
    prove!(0 < n);
    prove!(0 < rounds);
    deal.coin_of(0, 0, 0)
}

// Adds a round, and node 0's share and salt in it.
fn put_share(config: &Config, deal: &Deal, round: u8, bytes: &mut Vec<u8>) -> Result<(), Fail>
    requires { deal.now ≡ config.now }
{
    if round >= config.rounds() {
        return Err("no round".into());
    }
    let epochs = config.epochs();
    let n = config.n();
    prove!(0 < epochs);
    prove!(0 < n);
    let dealt = deal.dealt_to(0, 0, round, 0);
    bytes.extend_from_slice(&[round, dealt.share])?;
    bytes.extend_from_slice(&dealt.salt)?;
    Ok(())
}

// A vote of node 0 that is heard. If it shows a share, that is checked.
fn said(alloc: Global, config: &Config, deal: &Deal, bytes: &[u8]) -> Result<Heard, Fail>
    requires { deal.now ≡ config.now }
    ensures spelled { IfOk result (λ said. HasSpelling config.now said.vote) }
    ensures checked { IfOk result (λ said. is_share_checked config.now 0 said.from said.vote ≡ true) }
{
    let n = config.n();
    prove!(n >= 1);
    let vote = vote_of(alloc, config, bytes)?;
    if let Vote::Coin {
        epoch,
        round,
        share,
        salt,
        branch,
    } = &vote
    {
        if *epoch >= config.epochs() || *round >= config.rounds() {
            return Err("no round".into());
        }
        let root = deal.root_of(*epoch, 0, *round);
        if !is_branch(&root, n, 0, &leaf_of(*share, salt), branch) {
            return Err("a wrong branch".into());
        }
    }
    Ok(Heard::new(0, vote))
}

// Votes that are heard, told by words.
fn heard_of(alloc: Global, config: &Config, deal: &Deal, words: &str) -> Result<Vec<Heard>, Fail>
    requires { deal.now ≡ config.now }
    ensures spelled { IfOk result (λ heard. AreHeardSpelled config.now heard.items) }
    ensures checked { IfOk result (λ heard. AreSharesChecked config.now 0 heard.items) }
{
    let mut heard = Vec::new(alloc);
    for word in words.split_ascii_whitespace() {
        let bytes = bytes_of(alloc, config, deal, word)?;
        let one = said(alloc, config, deal, bytes.as_slice())?;
        heard.push(one)?;
    }
    Ok(heard)
}

// Whether lane 0 may cast a vote of epoch 0.
fn may(
    config: &Config,
    deal: &Deal,
    own: &[Vote],
    heard: &[Heard],
    vote: &Vote,
) -> Result<bool, Fail>
    requires deal { deal.now ≡ config.now }
    requires checked { AreSharesChecked config.now 0 heard.now }
    requires spelled { AreHeardSpelled config.now heard.now }
{
    let epochs = config.epochs();
    let n = config.n();
    prove!(0 < epochs);
    prove!(0 < n);
    let place = Place {
        config: *config,
        node: 0,
        lane: 0,
        epoch: 0,
    };
    if vote.epoch() != 0 {
        return Err("another epoch".into());
    }
    Ok(may_agree(deal, &place, own, heard, vote))
}

// The vote that a word tells.
fn told(alloc: Global, config: &Config, deal: &Deal, word: &str) -> Result<Vote, Fail>
    requires { deal.now ≡ config.now }
{
    let bytes = bytes_of(alloc, config, deal, word)?;
    vote_of(alloc, config, bytes.as_slice())
}

// What the lane has cast, told by at most one word.
fn cast(alloc: Global, config: &Config, deal: &Deal, word: &str) -> Result<Vec<Vote>, Fail>
    requires { deal.now ≡ config.now }
{
    let mut own = Vec::new(alloc);
    if !word.is_empty() {
        own.push(told(alloc, config, deal, word)?)?;
    }
    Ok(own)
}

// The answer to a row.
fn answer(alloc: Global, row: &Row) -> Result<bool, Fail> {
    let (version, own, heard, vote, _) = *row;
    let config = one_node(version, 2)?;
    let deal = deal(alloc, &config)?;
    let own = cast(alloc, &config, &deal, own)?;
    let heard = heard_of(alloc, &config, &deal, heard)?;
    let vote = told(alloc, &config, &deal, vote)?;
    may(&config, &deal, own.as_slice(), heard.as_slice(), &vote)
}

#[test]
fn rows(rt: HostRuntime) -> Result<(), Fail> {
    for row in &ROWS {
        let (version, own, heard, vote, wanted) = *row;
        let may = answer(rt.alloc(), row)?;
        assert!(rt; may == wanted, "{version}: {own}; {heard}; {vote}");
    }
    Ok(())
}

// Five votes of each of 31 rounds, and three of the last.
fn many(alloc: Global) -> Result<Vec<Vote>, Fail> {
    let epoch = 0;
    let mut own = Vec::new(alloc);
    for round in 0..32 {
        own.push(Vote::Est {
            epoch,
            round,
            bit: true,
        })?;
        own.push(Vote::Bval {
            epoch,
            round,
            bit: false,
        })?;
        own.push(Vote::Bval {
            epoch,
            round,
            bit: true,
        })?;
        if round < 31 {
            own.push(Vote::Aux {
                epoch,
                round,
                bit: true,
            })?;
            own.push(Vote::Pick {
                epoch,
                round,
                vals: Vals::Both,
            })?;
        }
    }
    Ok(own)
}

// A lane that has cast votes of all rounds, but for its last Aux and what follows that, and has heard that its bit is supported
// in the last two.
#[test]
fn votes_of_all_rounds(rt: HostRuntime) -> Result<(), Fail> {
    let alloc = rt.alloc();
    let config = one_node(1, 32)?;
    let deal = deal(alloc, &config)?;
    let own = many(alloc)?;
    let backed = [
        said(alloc, &config, &deal, b"\x06\x00\x1e\x01")?,
        said(alloc, &config, &deal, b"\x06\x00\x1f\x01")?,
    ];
    for (round, bit, wanted) in [(31, true, true), (31, false, false), (30, true, false)] {
        let vote = Vote::Aux {
            epoch: 0,
            round,
            bit,
        };
        let answer = may(&config, &deal, own.as_slice(), &backed, &vote)?;
        assert!(rt; answer == wanted, "an Aux of round {round} with {bit}");
    }
    Ok(())
}
