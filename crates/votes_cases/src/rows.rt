//! Histories by hand, and the words of their posts, which were written beside the bytes from the table of the bytes of votes.

// Each kind of vote among four nodes under version 2, and bytes that spell none.
pub(crate) const FOUR: &str =
    "trace nodes 4 faulty 1 version 2 epochs 32 rounds 32 batch 64 seed 18446744073709551615 liars 8\n\
    post 0 from 3 actor 3 to node 2 010502000102030405060708090a0b0c0d0e0f101112131415161718191a1b1c1d1e1f00000003aabbcc1122334455000000000000000000000000000000000000000000000000000000aabbccddeeffffffffffffffffffffffffffffffffffffffffffffffffffffff\n\
    post 1 from 0 actor 1 to all 021f000102030405060708090a0b0c0d0e0f101112131415161718191a1b1c1d1e1f000000015a1122334455000000000000000000000000000000000000000000000000000000aabbccddeeffffffffffffffffffffffffffffffffffffffffffffffffffffff\n\
    post 2 from 1 actor 2 to all 0307000102030405060708090a0b0c0d0e0f101112131415161718191a1b1c1d1e1f\n\
    post 3 from 2 actor 3 to home 0400000000020000\n\
    post 4 from 2 actor 3 to home 040100000000\n\
    post 5 from 0 actor 0 to book 05020100\n\
    post 6 from 0 actor 0 to all 06021f01\n\
    post 7 from 2 actor 0 to all 07000301\n\
    post 8 from 1 actor 0 to book 08000401\n\
    post 9 from 1 actor 0 to book 08000402\n\
    post 10 from 1 actor 0 to book 08000403\n\
    post 11 from 3 actor 2 to all 090005c80f1e2d3c4b5a69788796a5b4c3d2e1f01122334455000000000000000000000000000000000000000000000000000000aabbccddeeffffffffffffffffffffffffffffffffffffffffffffffffffffff\n\
    post 12 from 1 actor 1 to home 0a0300\n\
    post 13 from 1 actor 1 to home 0a0301\n\
    post 14 from 2 actor 1 to all 0b090603\n\
    post 15 from 0 actor 4 to home 100400000006000100026869\n\
    post 16 from 0 actor 4 to home 1106\n\
    post 17 from 0 actor 4 to book 12000100000000020000\n\
    post 18 from 3 actor 4 to book 12020201000000000300000003000100\n\
    post 19 from 3 actor 4 to book 120000\n\
    post 20 from 3 actor 0 to all -\n\
    post 21 from 3 actor 0 to all ff\n\
    post 22 from 3 actor 255 to node 255 110600\n\
    post 23 from 3 actor 0 to all 1120\n\
    post 24 from 3 actor 0 to all 07000302\n\
    post 25 from 3 actor 0 to all 07002001\n\
    post 26 from 3 actor 0 to all 0307000102030405060708090a0b0c0d0e0f101112131415161718191a1b1c1d1e\n\
    post 27 from 3 actor 4 to book 12010203000000000100000000\n\
    end 28\n";

// Its posts in words.
pub(crate) const FOUR_BRIEF: &str =
    "trace nodes 4 faulty 1 version 2 epochs 32 rounds 32 batch 64 seed 18446744073709551615 liars 8\n\
    post 0 from 3 actor 3 to node 2: VAL epoch 5 target 2 root 00010203 shard length 3 branch 11223344 aabbccdd\n\
    post 1 from 0 actor 1 to all: ECHO epoch 31 root 00010203 shard length 1 branch 11223344 aabbccdd\n\
    post 2 from 1 actor 2 to all: READY epoch 7 root 00010203\n\
    post 3 from 2 actor 3 to home: DELIVERED epoch 0 value length 2\n\
    post 4 from 2 actor 3 to home: DELIVERED epoch 1 value length 0\n\
    post 5 from 0 actor 0 to book: EST epoch 2 round 1 bit 0\n\
    post 6 from 0 actor 0 to all: BVAL epoch 2 round 31 bit 1\n\
    post 7 from 2 actor 0 to all: AUX epoch 0 round 3 bit 1\n\
    post 8 from 1 actor 0 to book: PICK epoch 0 round 4 bits 0\n\
    post 9 from 1 actor 0 to book: PICK epoch 0 round 4 bits 1\n\
    post 10 from 1 actor 0 to book: PICK epoch 0 round 4 bits 0 1\n\
    post 11 from 3 actor 2 to all: COIN epoch 0 round 5 share 200 salt 0f1e2d3c branch 11223344 aabbccdd\n\
    post 12 from 1 actor 1 to home: DECIDED epoch 3 bit 0\n\
    post 13 from 1 actor 1 to home: DECIDED epoch 3 bit 1\n\
    post 14 from 2 actor 1 to all: CONF epoch 9 round 6 bits 0 1\n\
    post 15 from 0 actor 4 to home: PROPOSE epoch 4 value length 6\n\
    post 16 from 0 actor 4 to home: NOMORE epoch 6\n\
    post 17 from 0 actor 4 to book: CLOSED epoch 0 values 1 node 0 value length 2\n\
    post 18 from 3 actor 4 to book: CLOSED epoch 2 values 2 node 1 value length 0 node 3 value length 3\n\
    post 19 from 3 actor 4 to book: CLOSED epoch 0 values 0\n\
    post 20 from 3 actor 0 to all: no vote\n\
    post 21 from 3 actor 0 to all: no vote\n\
    post 22 from 3 actor 255 to node 255: no vote\n\
    post 23 from 3 actor 0 to all: no vote\n\
    post 24 from 3 actor 0 to all: no vote\n\
    post 25 from 3 actor 0 to all: no vote\n\
    post 26 from 3 actor 0 to all: no vote\n\
    post 27 from 3 actor 4 to book: no vote\n\
    end 28\n";

// Its posts in words, with all bytes.
pub(crate) const FOUR_FULL: &str =
    "trace nodes 4 faulty 1 version 2 epochs 32 rounds 32 batch 64 seed 18446744073709551615 liars 8\n\
    post 0 from 3 actor 3 to node 2: VAL epoch 5 target 2 root 000102030405060708090a0b0c0d0e0f101112131415161718191a1b1c1d1e1f shard aabbcc branch 1122334455000000000000000000000000000000000000000000000000000000 aabbccddeeffffffffffffffffffffffffffffffffffffffffffffffffffffff\n\
    post 1 from 0 actor 1 to all: ECHO epoch 31 root 000102030405060708090a0b0c0d0e0f101112131415161718191a1b1c1d1e1f shard 5a branch 1122334455000000000000000000000000000000000000000000000000000000 aabbccddeeffffffffffffffffffffffffffffffffffffffffffffffffffffff\n\
    post 2 from 1 actor 2 to all: READY epoch 7 root 000102030405060708090a0b0c0d0e0f101112131415161718191a1b1c1d1e1f\n\
    post 3 from 2 actor 3 to home: DELIVERED epoch 0 value 0000\n\
    post 4 from 2 actor 3 to home: DELIVERED epoch 1 value -\n\
    post 5 from 0 actor 0 to book: EST epoch 2 round 1 bit 0\n\
    post 6 from 0 actor 0 to all: BVAL epoch 2 round 31 bit 1\n\
    post 7 from 2 actor 0 to all: AUX epoch 0 round 3 bit 1\n\
    post 8 from 1 actor 0 to book: PICK epoch 0 round 4 bits 0\n\
    post 9 from 1 actor 0 to book: PICK epoch 0 round 4 bits 1\n\
    post 10 from 1 actor 0 to book: PICK epoch 0 round 4 bits 0 1\n\
    post 11 from 3 actor 2 to all: COIN epoch 0 round 5 share 200 salt 0f1e2d3c4b5a69788796a5b4c3d2e1f0 branch 1122334455000000000000000000000000000000000000000000000000000000 aabbccddeeffffffffffffffffffffffffffffffffffffffffffffffffffffff\n\
    post 12 from 1 actor 1 to home: DECIDED epoch 3 bit 0\n\
    post 13 from 1 actor 1 to home: DECIDED epoch 3 bit 1\n\
    post 14 from 2 actor 1 to all: CONF epoch 9 round 6 bits 0 1\n\
    post 15 from 0 actor 4 to home: PROPOSE epoch 4 value 000100026869\n\
    post 16 from 0 actor 4 to home: NOMORE epoch 6\n\
    post 17 from 0 actor 4 to book: CLOSED epoch 0 values 1 node 0 value 0000\n\
    post 18 from 3 actor 4 to book: CLOSED epoch 2 values 2 node 1 value - node 3 value 000100\n\
    post 19 from 3 actor 4 to book: CLOSED epoch 0 values 0\n\
    post 20 from 3 actor 0 to all: no vote -\n\
    post 21 from 3 actor 0 to all: no vote ff\n\
    post 22 from 3 actor 255 to node 255: no vote 110600\n\
    post 23 from 3 actor 0 to all: no vote 1120\n\
    post 24 from 3 actor 0 to all: no vote 07000302\n\
    post 25 from 3 actor 0 to all: no vote 07002001\n\
    post 26 from 3 actor 0 to all: no vote 0307000102030405060708090a0b0c0d0e0f101112131415161718191a1b1c1d1e\n\
    post 27 from 3 actor 4 to book: no vote 12010203000000000100000000\n\
    end 28\n";

// One node, whose trees have no digest in a branch; and a vote that version 1 lacks.
pub(crate) const ONE: &str =
    "trace nodes 1 faulty 0 version 1 epochs 1 rounds 32 batch 64 seed 0 liars 0\n\
    post 0 from 0 actor 0 to node 0 010000000102030405060708090a0b0c0d0e0f101112131415161718191a1b1c1d1e1f0000000400000000\n\
    post 1 from 0 actor 0 to all 090002000f1e2d3c4b5a69788796a5b4c3d2e1f0\n\
    post 2 from 0 actor 0 to all 0b000003\n\
    end 3\n";

// Its posts in words.
pub(crate) const ONE_BRIEF: &str =
    "trace nodes 1 faulty 0 version 1 epochs 1 rounds 32 batch 64 seed 0 liars 0\n\
    post 0 from 0 actor 0 to node 0: VAL epoch 0 target 0 root 00010203 shard length 4 branch -\n\
    post 1 from 0 actor 0 to all: COIN epoch 0 round 2 share 0 salt 0f1e2d3c branch -\n\
    post 2 from 0 actor 0 to all: no vote\n\
    end 3\n";

// Its posts in words, with all bytes.
pub(crate) const ONE_FULL: &str =
    "trace nodes 1 faulty 0 version 1 epochs 1 rounds 32 batch 64 seed 0 liars 0\n\
    post 0 from 0 actor 0 to node 0: VAL epoch 0 target 0 root 000102030405060708090a0b0c0d0e0f101112131415161718191a1b1c1d1e1f shard 00000000 branch -\n\
    post 1 from 0 actor 0 to all: COIN epoch 0 round 2 share 0 salt 0f1e2d3c4b5a69788796a5b4c3d2e1f0 branch -\n\
    post 2 from 0 actor 0 to all: no vote 0b000003\n\
    end 3\n";
