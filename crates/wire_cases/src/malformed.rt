//! Bytes that spell no vote under any version, each with its reason.

ghost use Rattle.std.specs.Prelude.{◌≤◌};

use hb_wire::*;
use std::alloc::Global;
use std::test::*;

// The number of nodes, the bytes, and why they are refused.
const MALFORMED: &str = "\
4 - empty
4 00000000 no such kind
4 0000 no such kind, short
4 0b000000 no such kind
4 0b00 no such kind, short
4 0c000000 no such kind
4 0c00 no such kind, short
4 0f000000 no such kind
4 0f00 no such kind, short
4 13000000 no such kind
4 1300 no such kind, short
4 20000000 no such kind
4 2000 no such kind, short
4 80000000 no such kind
4 8000 no such kind, short
4 ff000000 no such kind
4 ff00 no such kind, short
4 01 no epoch
4 02 no epoch
4 03 no epoch
4 04 no epoch
4 05 no epoch
4 06 no epoch
4 07 no epoch
4 08 no epoch
4 09 no epoch
4 0a no epoch
4 10 no epoch
4 11 no epoch
4 12 no epoch
1 01200011111111111111111111111111111111111111111111111111111111111111110000000177 epoch 32 of Val
1 01ff0011111111111111111111111111111111111111111111111111111111111111110000000177 epoch 255 of Val
1 022011111111111111111111111111111111111111111111111111111111111111110000000177 epoch 32 of Echo
1 02ff11111111111111111111111111111111111111111111111111111111111111110000000177 epoch 255 of Echo
1 03201111111111111111111111111111111111111111111111111111111111111111 epoch 32 of Ready
1 03ff1111111111111111111111111111111111111111111111111111111111111111 epoch 255 of Ready
1 0420000000026162 epoch 32 of Delivered
1 04ff000000026162 epoch 255 of Delivered
1 05200000 epoch 32 of Est
1 05ff0000 epoch 255 of Est
1 06200000 epoch 32 of Bval
1 06ff0000 epoch 255 of Bval
1 07200000 epoch 32 of Aux
1 07ff0000 epoch 255 of Aux
1 08200001 epoch 32 of Pick
1 08ff0001 epoch 255 of Pick
1 0920000922222222222222222222222222222222 epoch 32 of Coin
1 09ff000922222222222222222222222222222222 epoch 255 of Coin
1 0a2000 epoch 32 of Decided
1 0aff00 epoch 255 of Decided
1 1020000000026162 epoch 32 of Propose
1 10ff000000026162 epoch 255 of Propose
1 1120 epoch 32 of NoMore
1 11ff epoch 255 of NoMore
1 122001000000000178 epoch 32 of Closed
1 12ff01000000000178 epoch 255 of Closed
1 010000111111111111111111111111111111111111111111111111111111111111111100000001 last byte of Val missing
1 0200111111111111111111111111111111111111111111111111111111111111111100000001 last byte of Echo missing
1 030011111111111111111111111111111111111111111111111111111111111111 last byte of Ready missing
1 04000000000261 last byte of Delivered missing
1 050000 last byte of Est missing
1 060000 last byte of Bval missing
1 070000 last byte of Aux missing
1 080000 last byte of Pick missing
1 09000009222222222222222222222222222222 last byte of Coin missing
1 0a00 last byte of Decided missing
1 10000000000261 last byte of Propose missing
1 11 last byte of NoMore missing
1 1200010000000001 last byte of Closed missing
1 0100001111111111111111111111111111111111111111111111111111111111111111000000017700 a byte behind Val
1 02001111111111111111111111111111111111111111111111111111111111111111000000017700 a byte behind Echo
1 0300111111111111111111111111111111111111111111111111111111111111111100 a byte behind Ready
1 040000000002616200 a byte behind Delivered
1 0500000000 a byte behind Est
1 0600000000 a byte behind Bval
1 0700000000 a byte behind Aux
1 0800000100 a byte behind Pick
1 090000092222222222222222222222222222222200 a byte behind Coin
1 0a000000 a byte behind Decided
1 100000000002616200 a byte behind Propose
1 110000 a byte behind NoMore
1 12000100000000017800 a byte behind Closed
4 05002000 round 32 of Est
4 05004000 round 64 of Est
4 0500ff00 round 255 of Est
4 05000002 bit 2 of Est
4 05000003 bit 3 of Est
4 050000ff bit 255 of Est
4 06002000 round 32 of Bval
4 06004000 round 64 of Bval
4 0600ff00 round 255 of Bval
4 06000002 bit 2 of Bval
4 06000003 bit 3 of Bval
4 060000ff bit 255 of Bval
4 07002000 round 32 of Aux
4 07004000 round 64 of Aux
4 0700ff00 round 255 of Aux
4 07000002 bit 2 of Aux
4 07000003 bit 3 of Aux
4 070000ff bit 255 of Aux
4 08000000 set 0
4 08000004 set 4
4 08000005 set 5
4 080000ff set 255
4 08002001 round 32 of Pick
1 0900200922222222222222222222222222222222 round 32 of Coin
4 0800c801 round 200 of Pick
1 0900c80922222222222222222222222222222222 round 200 of Coin
4 0a0002 bit 2 of Decided
4 0a0007 bit 7 of Decided
4 0a00ff bit 255 of Decided
1 01000111111111111111111111111111111111111111111111111111111111111111110000000177 target 1 of 1 nodes
1 01000211111111111111111111111111111111111111111111111111111111111111110000000177 target 2 of 1 nodes
1 0100ff11111111111111111111111111111111111111111111111111111111111111110000000177 target 255 of 1 nodes
2 010002111111111111111111111111111111111111111111111111111111111111111100000001775a5a5a5a5a5a5a5a5a5a5a5a5a5a5a5a5a5a5a5a5a5a5a5a5a5a5a5a5a5a5a5a target 2 of 2 nodes
2 010003111111111111111111111111111111111111111111111111111111111111111100000001775a5a5a5a5a5a5a5a5a5a5a5a5a5a5a5a5a5a5a5a5a5a5a5a5a5a5a5a5a5a5a5a target 3 of 2 nodes
2 0100ff111111111111111111111111111111111111111111111111111111111111111100000001775a5a5a5a5a5a5a5a5a5a5a5a5a5a5a5a5a5a5a5a5a5a5a5a5a5a5a5a5a5a5a5a target 255 of 2 nodes
1 010000111111111111111111111111111111111111111111111111111111111111111100000000 no shard in Val
1 0200111111111111111111111111111111111111111111111111111111111111111100000000 no shard in Echo
1 020011111111111111111111111111111111111111111111111111111111111111110000408977777777 shard length 16521
1 020011111111111111111111111111111111111111111111111111111111111111110100000077 length of Echo little-endian
1 01000011111111111111111111111111111111111111111111111111111111111111110100000077 length of Val little-endian
1 020011111111111111111111111111111111111111111111111111111111111111110000000277 shard one byte short
1 02001111111111111111111111111111111111111111111111111111111111111111000000017777 shard one byte long
1 02001111111111111111111111111111111111111111111111111111111111111111ffffffff77 shard length 2^32 - 1
2 020011111111111111111111111111111111111111111111111111111111111111110000000177 a digest missing among 2
2 0200111111111111111111111111111111111111111111111111111111111111111100000001775a5a5a5a5a5a5a5a5a5a5a5a5a5a5a5a5a5a5a5a5a5a5a5a5a5a5a5a5a5a5a5a5a5a5a5a5a5a5a5a5a5a5a5a5a5a5a5a5a5a5a5a5a5a5a5a5a5a5a5a5a5a5a5a a digest more among 2
2 0900000922222222222222222222222222222222 a digest of Coin missing among 2
3 0200111111111111111111111111111111111111111111111111111111111111111100000001775a5a5a5a5a5a5a5a5a5a5a5a5a5a5a5a5a5a5a5a5a5a5a5a5a5a5a5a5a5a5a5a a digest missing among 3
3 0200111111111111111111111111111111111111111111111111111111111111111100000001775a5a5a5a5a5a5a5a5a5a5a5a5a5a5a5a5a5a5a5a5a5a5a5a5a5a5a5a5a5a5a5a5a5a5a5a5a5a5a5a5a5a5a5a5a5a5a5a5a5a5a5a5a5a5a5a5a5a5a5a5a5a5a5a5a5a5a5a5a5a5a5a5a5a5a5a5a5a5a5a5a5a5a5a5a5a5a5a5a5a5a5a5a5a5a5a a digest more among 3
3 09000009222222222222222222222222222222225a5a5a5a5a5a5a5a5a5a5a5a5a5a5a5a5a5a5a5a5a5a5a5a5a5a5a5a5a5a5a5a a digest of Coin missing among 3
1 0200111111111111111111111111111111111111111111111111111111111111111100000001775a5a5a5a5a5a5a5a5a5a5a5a5a5a5a5a5a5a5a5a5a5a5a5a5a5a5a5a5a5a5a5a branch of two nodes at one
1 09000009222222222222222222222222222222225a5a5a5a5a5a5a5a5a5a5a5a5a5a5a5a5a5a5a5a5a5a5a5a5a5a5a5a5a5a5a5a coin of two nodes at one
4 0400000040836162 value length 16515 in Delivered
4 0400020000006162 length of Delivered little-endian
4 0400000000036162 Delivered a byte short
4 0400000000016162 Delivered a byte long
4 0400000000 length of Delivered cut
4 040000026162 length of Delivered in 2 bytes
4 0400 Delivered without its length
4 1000000040836162 value length 16515 in Propose
4 1000020000006162 length of Propose little-endian
4 1000000000036162 Propose a byte short
4 1000000000016162 Propose a byte long
4 1000000000 length of Propose cut
4 100000026162 length of Propose in 2 bytes
4 1000 Propose without its length
4 120002000000000178000000000179 equal nodes
4 120002010000000178000000000179 falling nodes
4 120003000000000002000000000100000000 falling at last
4 120003000000000003000000000300000000 equal at last
1 12000200000000000000000000 count above 1
1 1200010100000000 node 1 of 1
1 120002 count 2 and no item
4 12000500000000000100000000020000000003000000000300000000 count above 4
4 1200010400000000 node 4 of 4
4 120005 count 5 and no item
4 120000000000000178 count 0 and an item
4 120002000000000178 count one too great
4 120001000000000178010000000179 count one too small
4 1200ff count 255
4 1200010000004083 item length 16515
4 120001000100000078 item length little-endian
4 120001000000000278 item a byte short
4 120001000000000078 item a byte long
4 120001 no item
4 12000100 item without its length
4 1200 no count
4 120001ff00000000 node 255
4 11001100 two votes
4 0600000006000000 two votes of one kind
4 000000 kind missing
4 0006000000 a byte in front
4 030011111111111111111111111111111111111111111111111111111111111111 root of 31 bytes
4 0300111111111111111111111111111111111111111111111111111111111111111111 root of 33 bytes
4 0300 no root
4 010000 Val without a root
4 090000 Coin without a share
1 09000009 no salt
1 090000092222222222222222 half a salt
4 050000 Est without a bit
4 0a000000 Decided with a round
4 0500000000 Est of five bytes
4 110000 NoMore of three bytes
4 1121 epoch 33 of NoMore
4 1122 epoch 34 of NoMore
4 1123 epoch 35 of NoMore
4 1124 epoch 36 of NoMore
4 1125 epoch 37 of NoMore
4 1126 epoch 38 of NoMore
4 1127 epoch 39 of NoMore
4 1128 epoch 40 of NoMore
4 1129 epoch 41 of NoMore
4 112a epoch 42 of NoMore
4 112b epoch 43 of NoMore
4 112c epoch 44 of NoMore
4 112d epoch 45 of NoMore
4 112e epoch 46 of NoMore
4 112f epoch 47 of NoMore
4 1130 epoch 48 of NoMore
4 0b000300 no set, in Conf
4 0b000304 set 4 in Conf
4 0b0003ff set 255 in Conf
4 0b002001 round 32 of Conf
4 0b00ff01 round 255 of Conf
4 0b200001 epoch 32 of Conf
4 0b0003 last byte of Conf missing
4 0b00030100 a byte behind Conf
4 0b no epoch
4 0600000100 a byte behind
4 06200001 epoch 32
";

// Whether all that reads refuses the bytes.
fn is_refused(alloc: Global, n: u8, version: u8, bytes: &[u8]) -> bool
    requires some { 1 ≤ n }
    requires few { n ≤ 16 }
{
    let unread = matches!(read(alloc, n, version, bytes), Err(WireFault::NotAMessage));
    unread && view(n, version, bytes).is_none() && glance(n, version, bytes).is_none()
}

// The number of nodes and the bytes of a row.
fn row(alloc: Global, line: &str) -> Result<(u8, Vec<u8>), Fail> {
    let (n, rest) = line.split_once(' ').ok_or("a number")?;
    let (text, _) = rest.split_once(' ').ok_or("bytes")?;
    let text = if text == "-" { "" } else { text };
    Ok((n.parse::<u8>()?, hex::decode(alloc, text)?))
}

// Whether the bytes of a row are refused under each version.
fn is_refused_always(alloc: Global, line: &str) -> Result<bool, Fail> {
    let (n, bytes) = row(alloc, line)?;
    if n < 1 || n > 16 {
        return Ok(false);
    }
    for version in 0..4 {
        if !is_refused(alloc, n, version, &bytes) {
            return Ok(false);
        }
    }
    Ok(true)
}

#[test]
fn malformed(rt: HostRuntime) -> Result<(), Fail> {
    let mut count = 0u32;
    for line in MALFORMED.lines() {
        assert!(rt; is_refused_always(rt.alloc(), line)?, "{line}");
        count = count.saturating_add(1);
    }
    assert!(rt; count == 211);
    Ok(())
}

// What version 2 alone has, and other versions than 1 and 2.
#[test]
fn versions(rt: HostRuntime) {
    for &(version, conf, aux) in &[
        (0, false, false),
        (1, false, true),
        (2, true, true),
        (3, false, false),
    ] {
        for vals in 1..4 {
            let refused = is_refused(rt.alloc(), 4, version, &[0x0B, 0, 3, vals]);
            assert!(rt; refused != conf);
        }
        let refused = is_refused(rt.alloc(), 4, version, &[0x07, 0, 3, 1]);
        assert!(rt; refused != aux);
    }
}
