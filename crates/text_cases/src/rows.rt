//! A text of 25 lines, and the posts that it tells of: the first and the last three of a run of one node, and posts of each form
//! between them.

use hb_wire::To;

/// A post: its sender, where it goes, and its bytes.
pub(crate) type Row = (u8, u8, To, &'static [u8]);

pub(crate) const POSTS: [Row; 23] = [
    (
        0,
        1,
        To::Home,
        b"\x10\x00\x00\x00\x00\x06\x00\x01\x00\x02\x68\x69",
    ),
    (1, 1, To::Home, b"\x00"),
    (253, 202, To::All, b"\x16"),
    (100, 12, To::Node(0), b"\xff\x03\x0a"),
    (0, 0, To::Node(52), b"\xde\xad\xbe\xef"),
    (5, 1, To::Book, b""),
    (249, 206, To::Home, b"\x00"),
    (100, 16, To::All, b"\x4d"),
    (0, 0, To::Node(0), b"\xff\x08\x0a"),
    (9, 1, To::Node(117), b"\xde\xad\xbe\xef"),
    (245, 210, To::Book, b""),
    (100, 20, To::Home, b"\x00"),
    (0, 0, To::All, b"\x84"),
    (13, 1, To::Node(0), b"\xff\x0d\x0a"),
    (241, 214, To::Node(182), b"\xde\xad\xbe\xef"),
    (100, 24, To::Book, b""),
    (0, 0, To::Home, b"\x00"),
    (17, 1, To::All, b"\xbb"),
    (237, 218, To::Node(0), b"\xff\x12\x0a"),
    (100, 28, To::Node(247), b"\xde\xad\xbe\xef"),
    (0, 0, To::Home, b"\x0a\x00\x01"),
    (0, 1, To::Home, b"\x11\x00"),
    (
        0,
        1,
        To::Book,
        b"\x12\x00\x01\x00\x00\x00\x00\x06\x00\x01\x00\x02\x68\x69",
    ),
];

pub(crate) const TEXT: &str =
    "trace nodes 1 faulty 0 version 1 epochs 1 rounds 3 batch 64 seed 0 liars 0
post 0 from 0 actor 1 to home 100000000006000100026869
post 1 from 1 actor 1 to home 00
post 2 from 253 actor 202 to all 16
post 3 from 100 actor 12 to node 0 ff030a
post 4 from 0 actor 0 to node 52 deadbeef
post 5 from 5 actor 1 to book -
post 6 from 249 actor 206 to home 00
post 7 from 100 actor 16 to all 4d
post 8 from 0 actor 0 to node 0 ff080a
post 9 from 9 actor 1 to node 117 deadbeef
post 10 from 245 actor 210 to book -
post 11 from 100 actor 20 to home 00
post 12 from 0 actor 0 to all 84
post 13 from 13 actor 1 to node 0 ff0d0a
post 14 from 241 actor 214 to node 182 deadbeef
post 15 from 100 actor 24 to book -
post 16 from 0 actor 0 to home 00
post 17 from 17 actor 1 to all bb
post 18 from 237 actor 218 to node 0 ff120a
post 19 from 100 actor 28 to node 247 deadbeef
post 20 from 0 actor 0 to home 0a0001
post 21 from 0 actor 1 to home 1100
post 22 from 0 actor 1 to book 1200010000000006000100026869
end 23
";
