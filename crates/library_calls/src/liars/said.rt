//! What each kind says at its start and on posts of every kind, call by call.

ghost use Rattle.std.specs.Prelude.{◌≤◌};

use super::*;
use sha2::{Digest, Sha256};

// Posts that a liar hears, in this order: the sender, the actor and the bytes, behind which the digests of a branch
// stand where there is a +, each byte of them 5C. `own` is the liar's node, `each` all lanes in turn, with `lane` the
// node of the lane, and `desk` the desk.
const POSTS: &str = "\
1 1 010002a1a1a1a1a1a1a1a1a1a1a1a1a1a1a1a1a1a1a1a1a1a1a1a1a1a1a1a1a1a1a1a100000002b1b2+
0 0 010103a1a1a1a1a1a1a1a1a1a1a1a1a1a1a1a1a1a1a1a1a1a1a1a1a1a1a1a1a1a1a1a100000001c1+
1 1 0200a1a1a1a1a1a1a1a1a1a1a1a1a1a1a1a1a1a1a1a1a1a1a1a1a1a1a1a1a1a1a1a100000002b1b2+
1 2 0301a1a1a1a1a1a1a1a1a1a1a1a1a1a1a1a1a1a1a1a1a1a1a1a1a1a1a1a1a1a1a1a1
0 2 040000000000
1 0 05000100
1 0 06000000
0 0 06000001
0 0 06000100
0 0 06010001
0 1 06000000
1 3 061f1f01
1 0 07000301
1 0 08000003
1 0 0900007b5a5a5a5a5a5a5a5a5a5a5a5a5a5a5a5a+
0 0 0900000d5b5b5b5b5b5b5b5b5b5b5b5b5b5b5b5b+
0 0 0900010d5b5b5b5b5b5b5b5b5b5b5b5b5b5b5b5b+
0 2 0901000d5b5b5b5b5b5b5b5b5b5b5b5b5b5b5b5b+
1 0 0a0001
1 0 0b000003
0 1 1000000000020000
0 1 1102
0 1 120000
1 3 ff
1 3 06000002
1 3 
own 2 06000001
own 2 ff
1 desk 06000000
lane each 010001a1a1a1a1a1a1a1a1a1a1a1a1a1a1a1a1a1a1a1a1a1a1a1a1a1a1a1a1a1a1a1a100000002b1b2+
lane each 011f05a1a1a1a1a1a1a1a1a1a1a1a1a1a1a1a1a1a1a1a1a1a1a1a1a1a1a1a1a1a1a1a100000003b1b2b3+
lane each 010109a1a1a1a1a1a1a1a1a1a1a1a1a1a1a1a1a1a1a1a1a1a1a1a1a1a1a1a1a1a1a1a100000001c1+
lane each 01020ea1a1a1a1a1a1a1a1a1a1a1a1a1a1a1a1a1a1a1a1a1a1a1a1a1a1a1a1a1a1a1a100000001c1+
lane each 06050701
0 each 06050700
lane each 06070500
lane each 061f0001
lane each 06001f00
lane each 0905077b5a5a5a5a5a5a5a5a5a5a5a5a5a5a5a5a+
0 each 090507005b5b5b5b5b5b5b5b5b5b5b5b5b5b5b5b+
lane each 090705015a5a5a5a5a5a5a5a5a5a5a5a5a5a5a5a+
lane each 091f00ff5a5a5a5a5a5a5a5a5a5a5a5a5a5a5a5a+
lane each 09001f025a5a5a5a5a5a5a5a5a5a5a5a5a5a5a5a+
own each 06050701
";

// For each kind and seat the digest of what is said: a line for the start and one for each post. The seat is a byte
// each for the nodes, the faulty ones, the epochs, the version of the rules, and the liar's node.
const DIGESTS: &str = "\
silent 3b9a789f01869751b0722b679743fe3beb654b00aee8e1dd99cdf3f0b5f3bafd 0401020102
equivocate 613d3fad59399c173fa9f1d066df2f35fd21998d87eb569d091e3ef355d86646 0401020102
echo_split 8e7c9b9c2e320372198f9139360da5ddd0ef6263a04d0879136867282eb10706 0401020102
bval_both 0f706dd241a15b93360a2995183f05086336f8f17397ff38f7a94354208a29ba 0401020102
false_share 5bcf9e855179c3c9ad9374fdd9d129e1aa9fbe9a2692c80745f701efa5dd2157 0401020102
babble 19580986b6a797d4110d0a762765699b002c93684600412e1313ab37cb207629 0401020102
silent 3b9a789f01869751b0722b679743fe3beb654b00aee8e1dd99cdf3f0b5f3bafd 0401030103
equivocate c2455860b114d80a7cf0d977f26d11360ed9867eedcedb71f829e7b222e25a2b 0401030103
echo_split 0c0648be546a59b8e65d825420b5abbd38e71a0dff527d7fad02f75fd81732b5 0401030103
bval_both 0f706dd241a15b93360a2995183f05086336f8f17397ff38f7a94354208a29ba 0401030103
false_share 5bcf9e855179c3c9ad9374fdd9d129e1aa9fbe9a2692c80745f701efa5dd2157 0401030103
babble 74b5fef215ea5c471ee40801ae75b2722d6bf2bd7ba2a476d41f68a947d66541 0401030103
silent 75e29798bd139d70bd8fa1a99abd175593feccd2b18d9d92873f581b69fe4ec5 0702050202
equivocate cf29a37d12b46d202a54e23d4e0119135d807dfe1762aa036319e49167db631f 0702050202
echo_split 032b3c9a984b5a92477b08e8b486e9f5d3a4d4c4ef14a233c819e1dc2b1bb39b 0702050202
bval_both 8fa670deb7ba478ebee79ee6dcaa5c1ec7b7422abeeea6d898418b1df603f6ea 0702050202
false_share 12b5bfb56bab4d329103ea38282b33cf9bdb66d4510a0735fcba9d60bcf4c948 0702050202
babble 87f5b14c0bb5d3949fa40758e9868411ee692da47d74ce4c8a7756ac70b8bf96 0702050202
silent 75e29798bd139d70bd8fa1a99abd175593feccd2b18d9d92873f581b69fe4ec5 0702200205
equivocate e12150f37e72180c05ab23fb3d6fd3e42eeac871c63cf4425e0be32ecdd45a8d 0702200205
echo_split 31c5b230b070ad9d7ba2deb5b1fb6a8031f742ddb0cf859effef03d341ab26e5 0702200205
bval_both 8fa670deb7ba478ebee79ee6dcaa5c1ec7b7422abeeea6d898418b1df603f6ea 0702200205
false_share 12b5bfb56bab4d329103ea38282b33cf9bdb66d4510a0735fcba9d60bcf4c948 0702200205
babble e3078a22f6163ce0b7b723575fa7a4a3ca66d04dfbf60676035219302f31fc67 0702200205
silent 190d88c820baafb40a624fa0aa30d1478e237d13efada4c7c391dc91ebdb8df5 0a03040209
equivocate a7a04ba21ddc2625ea4343acbe042d06a643a580acc63db8d6c94a27f6959bfd 0a03040209
echo_split 16126e865cded8dfedf64aa22ecb6e2bd81ef4a8a7b7ebc61284954041203c86 0a03040209
bval_both 7664fdcf50e941ed047455a44d4bd235ed2b57ab06cec3a96cc368d06a3a2bc1 0a03040209
false_share ac94a540bfd9895925f1ab4e28680dde640587d4c568225d4b89d0ea3cffeae9 0a03040209
babble f833a3d6d661f964d255100791f581b2cfaec7d4c549156187156153f74ba0cd 0a03040209
silent b17d600888cf952e2ff73b65ca172e05ceac34becd2bc63034e2c2b5b562be02 1005020101
equivocate fdbf7f6de2ca291c8aa0fe9358ad955cb9fdf1818cf27db0d8698d2570536636 1005020101
echo_split 67f66eac9aefd89eff47c456554fa4a1e0078e990c35fa48e1d59b7df76d206a 1005020101
bval_both ea4be5e2eb7d11ecb31527257b5f9653a15001ac0ef7d6761df040028ddc86de 1005020101
false_share 6d07461d7d35575e6ea11989976c98e87906138707f7ed9a2f6173bd595449b3 1005020101
babble de15338b74518d7ab212d4ec128056f562baeab75809e017665438620e5df3cd 1005020101
silent b17d600888cf952e2ff73b65ca172e05ceac34becd2bc63034e2c2b5b562be02 100520010e
equivocate d2f233d4f24d835169221e35183caf1e0f0271761cdc0641aa22a721a2fd60c9 100520010e
echo_split 5dcd6e073678012fbd261093b03aa7a452efdc3e5c063b363c8b0ee3fd28b518 100520010e
bval_both ea4be5e2eb7d11ecb31527257b5f9653a15001ac0ef7d6761df040028ddc86de 100520010e
false_share 6d07461d7d35575e6ea11989976c98e87906138707f7ed9a2f6173bd595449b3 100520010e
babble 8c13e172c19fc80cf6dbcb517b629c8a5809ab76a3eedc3a0c6fec1625a1d5fc 100520010e
";

// What is said in a run of one epoch and four nodes: the liar's node, its kind, the number of the row that it hears
// (0 for the start), and the lies.
const LINES: &str = "\
2 equivocate 0 2 Node(0) 0100005782b6417e7f4981915dbc0f3a092ccd6789382656737c267d1469a492c1da0200000005000000050\
0c43b165aadc2dd783a22adcde620ee73f1328c9a93a56af2df76ae34cdd304162c6a34cf74cdd7f039f0e51f6a9e5ccc0cc0c403a79803e\
be34a693c741c1085;2 Node(2) 0100025782b6417e7f4981915dbc0f3a092ccd6789382656737c267d1469a492c1da0200000005020002\
8d0067545d9f90ab59102d12039b7ee989c29da5f4a2bfb90ff402349327f7a9a7037b34034c86b2422fd722cfb1f548c971dc3554ea36e3\
a468874a4c4b8b7296a4;2 Node(1) 0100018c126eabfb4cf839d82660a95410906efc76401144344c4e6eb1118847455b2e00000005010\
00142005127b58fd490ec9387a49c2ce625e95241ebae33ac4d4beb6597eff374939d58d74372d5f0e01c75e959799c3f0c930415a33780c\
be4b271339f16355630b97d;2 Node(3) 0100038c126eabfb4cf839d82660a95410906efc76401144344c4e6eb1118847455b2e00000005\
030003cc004bb93453734e4feaa8257e4a192231dd0dfdaddac980a9e75614c418402a1ba1c49c8f2ec647590d2d4912068a67dc01a12fb9\
941da92abe45ed4542a3471d37
3 equivocate 0 3 Node(0) 0100005782b6417e7f4981915dbc0f3a092ccd6789382656737c267d1469a492c1da0200000005000000050\
0c43b165aadc2dd783a22adcde620ee73f1328c9a93a56af2df76ae34cdd304162c6a34cf74cdd7f039f0e51f6a9e5ccc0cc0c403a79803e\
be34a693c741c1085;3 Node(2) 0100025782b6417e7f4981915dbc0f3a092ccd6789382656737c267d1469a492c1da0200000005020002\
8d0067545d9f90ab59102d12039b7ee989c29da5f4a2bfb90ff402349327f7a9a7037b34034c86b2422fd722cfb1f548c971dc3554ea36e3\
a468874a4c4b8b7296a4;3 Node(1) 0100018c126eabfb4cf839d82660a95410906efc76401144344c4e6eb1118847455b2e00000005010\
00142005127b58fd490ec9387a49c2ce625e95241ebae33ac4d4beb6597eff374939d58d74372d5f0e01c75e959799c3f0c930415a33780c\
be4b271339f16355630b97d;3 Node(3) 0100038c126eabfb4cf839d82660a95410906efc76401144344c4e6eb1118847455b2e00000005\
030003cc004bb93453734e4feaa8257e4a192231dd0dfdaddac980a9e75614c418402a1ba1c49c8f2ec647590d2d4912068a67dc01a12fb9\
941da92abe45ed4542a3471d37
2 echo_split 1 1 Node(0) 0200a1a1a1a1a1a1a1a1a1a1a1a1a1a1a1a1a1a1a1a1a1a1a1a1a1a1a1a1a1a1a1a100000002b1b25c5c5c5\
c5c5c5c5c5c5c5c5c5c5c5c5c5c5c5c5c5c5c5c5c5c5c5c5c5c5c5c5c5c5c5c5c5c5c5c5c5c5c5c5c5c5c5c5c5c5c5c5c5c5c5c5c5c5c5c5\
c5c5c5c5c;1 Node(2) 0200a1a1a1a1a1a1a1a1a1a1a1a1a1a1a1a1a1a1a1a1a1a1a1a1a1a1a1a1a1a1a1a100000002b1b25c5c5c5c5c5c\
5c5c5c5c5c5c5c5c5c5c5c5c5c5c5c5c5c5c5c5c5c5c5c5c5c5c5c5c5c5c5c5c5c5c5c5c5c5c5c5c5c5c5c5c5c5c5c5c5c5c5c5c5c5c5c5c\
5c5c;1 Node(1) 0300ffffffffffffffffffffffffffffffffffffffffffffffffffffffffffffffff;1 Node(3) 0300ffffffffffffff\
ffffffffffffffffffffffffffffffffffffffffffffffffff
3 echo_split 2 0 Node(0) 0201a1a1a1a1a1a1a1a1a1a1a1a1a1a1a1a1a1a1a1a1a1a1a1a1a1a1a1a1a1a1a1a100000001c15c5c5c5c5\
c5c5c5c5c5c5c5c5c5c5c5c5c5c5c5c5c5c5c5c5c5c5c5c5c5c5c5c5c5c5c5c5c5c5c5c5c5c5c5c5c5c5c5c5c5c5c5c5c5c5c5c5c5c5c5c5\
c5c5c5c;0 Node(2) 0201a1a1a1a1a1a1a1a1a1a1a1a1a1a1a1a1a1a1a1a1a1a1a1a1a1a1a1a1a1a1a1a100000001c15c5c5c5c5c5c5c5c\
5c5c5c5c5c5c5c5c5c5c5c5c5c5c5c5c5c5c5c5c5c5c5c5c5c5c5c5c5c5c5c5c5c5c5c5c5c5c5c5c5c5c5c5c5c5c5c5c5c5c5c5c5c5c5c5c\
;0 Node(1) 0301ffffffffffffffffffffffffffffffffffffffffffffffffffffffffffffffff;0 Node(3) 0301ffffffffffffffffff\
ffffffffffffffffffffffffffffffffffffffffffffff
2 bval_both 7 0 All 06000000;0 All 06000001;0 All 07000000;0 All 07000001
2 bval_both 12 3 All 061f1f00;3 All 061f1f01;3 All 071f1f00;3 All 071f1f01
3 false_share 15 0 All 09000000000000000000000000000000000000000000000000000000000000000000000000000000000000000\
0000000000000000000000000000000000000000000000000000000000000000000000000000000
3 babble 4 2 All ff;2 All 0301a1a1a1a1a1a1a1a1a1a1a1a1a1a1a1a1a1a1a1a1a1a1a1a1a1a1a1a1a1a1a1a0
2 babble 26 3 All ff
2 babble 27 2 All ff
";

// Adds a line of what waits, which is then forgotten: of each lie its actor, where it goes, and its bytes.
fn add_line(alloc: Global, lines: &mut String, lies: &mut Lies) -> Result<(), AllocError> {
    for (place, lie) in lies.waiting().iter().enumerate() {
        let bytes = hex::encode(alloc, lie.bytes.as_slice())?;
        let between = if place > 0 { ";" } else { "" };
        let (actor, to) = (lie.actor, lie.to);
        write!(lines, "{between}{actor} {to:?} {bytes}")?;
    }
    lines.push_str("\n")?;
    lies.clear();
    Ok(())
}

// The bytes of a post among n nodes.
fn bytes_of(alloc: Global, n: u8, text: &str) -> Result<Bytes, Fail>
    requires some { 1 ≤ n }
    requires few { n ≤ 16 }
{
    let front = text.strip_suffix("+");
    let mut bytes = hex::decode(alloc, front.unwrap_or(text))?;
    if front.is_some() {
        for _ in 0..merkle_branch::height(n) {
            bytes.extend_from_slice(&[0x5C; 32])?;
        }
    }
    Ok(Bytes::copy(alloc, &bytes)?)
}

// The actors in whose name a post comes, from the first to the last.
fn actors(n: u8, text: &str) -> Result<(u8, u8), Fail>
    requires { 1 ≤ n }
{
    match text {
        "each" => Ok((0, n - 1)),
        "desk" => Ok((n, n)),
        _ => {
            let lane = text.parse::<u8>()?;
            Ok((lane, lane))
        }
    }
}

fn sender(me: &LiarSeat, actor: u8, text: &str) -> Result<u8, Fail> {
    match text {
        "own" => Ok(me.node),
        "lane" => Ok(actor),
        _ => Ok(text.parse::<u8>()?),
    }
}

// Adds a line of what is said on each post of a row.
fn add_heard(
    alloc: Global,
    me: &LiarSeat,
    liar: &mut Kind,
    lies: &mut Lies,
    lines: &mut String,
    row: &str,
) -> Result<(), Fail> {
    let n = me.config.n();
    let (from, rest) = row.split_once(' ').ok_or("a sender")?;
    let (actor, text) = rest.split_once(' ').ok_or("an actor")?;
    let (first, last) = actors(n, actor)?;
    for actor in first..=last {
        let post = Post {
            from: sender(me, actor, from)?,
            actor,
            to: To::All,
            bytes: PostBytes::plain(bytes_of(alloc, n, text)?),
        };
        liar.hear(alloc, me, &post, lies);
        add_line(alloc, lines, lies)?;
    }
    Ok(())
}

// The lines of what a liar of this name says at its start and on each post.
fn lines_of(alloc: Global, me: &LiarSeat, name: &str) -> Result<String, Fail> {
    let mut liar = liar_of(alloc, name)?;
    let mut lies = Lies::new(alloc, me.node);
    let mut lines = String::new(alloc);
    liar.start(alloc, me, &mut lies);
    add_line(alloc, &mut lines, &mut lies)?;
    for row in POSTS.lines() {
        add_heard(alloc, me, &mut liar, &mut lies, &mut lines, row)?;
    }
    Ok(lines)
}

fn digest_of(alloc: Global, text: &str) -> Result<String, AllocError> {
    let mut hasher = Sha256::new();
    hasher.update(text.as_bytes());
    let digest = hasher.finalize();
    hex::encode(alloc, digest.as_slice())
}

fn seat_of(alloc: Global, text: &str) -> Result<LiarSeat, Fail> {
    match hex::decode(alloc, text)?.as_slice() {
        [n, f, epochs, version, node] => seat(*n, *f, *epochs, *version, *node),
        _ => Err(Fail::from("no seat")),
    }
}

fn is_said(alloc: Global, row: &str) -> Result<bool, Fail> {
    let (name, rest) = row.split_once(' ').ok_or("a name")?;
    let (want, text) = rest.split_once(' ').ok_or("a digest")?;
    let me = seat_of(alloc, text)?;
    let lines = lines_of(alloc, &me, name)?;
    Ok(digest_of(alloc, lines.as_str())?.as_str() == want)
}

#[test]
fn all_that_is_said(rt: HostRuntime) -> Result<(), Fail> {
    for row in DIGESTS.lines() {
        assert!(rt; is_said(rt.alloc(), row)?, "{row}");
    }
    assert!(rt; DIGESTS.lines().count() == 42);
    Ok(())
}

// Lies of which so many may still be told.
fn lies_left(alloc: Global, node: u8, left: u16) -> Lies {
    let mut lies = Lies::new(alloc, node);
    for _ in left..4_096 {
        let _ = lies.say(alloc, 0, To::Home, &[]);
    }
    lies.clear();
    lies
}

// The line of what a new liar says at the start, or on this row of posts, where it may tell so many lies.
fn line_of(alloc: Global, node: u8, name: &str, row: u8, left: u16) -> Result<String, Fail> {
    let me = seat(4, 1, 1, 1, node)?;
    let mut liar = liar_of(alloc, name)?;
    let mut lies = lies_left(alloc, node, left);
    let mut line = String::new(alloc);
    if row == 0 {
        liar.start(alloc, &me, &mut lies);
        add_line(alloc, &mut line, &mut lies)?;
        return Ok(line);
    }
    let row = POSTS.lines().nth(row as usize - 1).ok_or("a row")?;
    add_heard(alloc, &me, &mut liar, &mut lies, &mut line, row)?;
    Ok(line)
}

// The line of the first so many lies of a line.
fn front(alloc: Global, line: &str, count: usize) -> Result<String, AllocError> {
    let mut front = String::new(alloc);
    for (place, lie) in line.split(';').take(count).enumerate() {
        let between = if place > 0 { ";" } else { "" };
        write!(front, "{between}{lie}")?;
    }
    front.push_str("\n")?;
    Ok(front)
}

// A row of the lines: the liar's node, its kind, the row that it hears, and the line.
fn line_row(row: &str) -> Result<(u8, &str, u8, &str), Fail> {
    let (node, rest) = row.split_once(' ').ok_or("a node")?;
    let (name, rest) = rest.split_once(' ').ok_or("a name")?;
    let (heard, line) = rest.split_once(' ').ok_or("a row")?;
    Ok((node.parse::<u8>()?, name, heard.parse::<u8>()?, line))
}

// Whether as much is said of the line as may be told. A liar whose lies are spent in a call says no more in it.
fn is_line(alloc: Global, row: &str, left: u16) -> Result<bool, Fail> {
    let (node, name, heard, line) = line_row(row)?;
    let said = line_of(alloc, node, name, heard, left)?;
    Ok(said.as_str() == front(alloc, line, left as usize)?.as_str())
}

// Whether the first so many lies of the line are said, however many these are.
fn is_front(alloc: Global, row: &str) -> Result<bool, Fail> {
    let (node, name, heard, line) = line_row(row)?;
    let said = line_of(alloc, node, name, heard, 4_096)?;
    let count = said.as_str().split(' ').count() / 2;
    Ok(said.as_str() == front(alloc, line, count)?.as_str())
}

#[test]
fn lines_of_four_nodes(rt: HostRuntime) -> Result<(), Fail> {
    for row in LINES.lines() {
        for left in 0..6 {
            assert!(rt; is_line(rt.alloc(), row, left)?, "{left} of {row}");
        }
    }
    Ok(())
}

// A liar that finds no memory in a call says no more in it. Here it always finds some, unless the test is run by
// `rt try --test --fail-alloc N`, which has the allocation of this number fail: then the test may end with `AllocError`
// where it was the test's own, but no line may be other than a front.
#[test]
fn fronts_of_lines(rt: HostRuntime) -> Result<(), Fail> {
    for row in LINES.lines() {
        assert!(rt; is_front(rt.alloc(), row)?, "{row}");
    }
    Ok(())
}
