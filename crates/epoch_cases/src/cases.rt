//! Runs of one desk. What it casts is what `tools/oracles/run desks` makes, which goes through the rows of the desk's rules
//! again and again until nothing is owed.

/// A run of a desk, of three epochs.
#[derive(Clone, Copy)]
pub(crate) struct Case {
    pub(crate) nodes: u8,
    pub(crate) faulty: u8,
    pub(crate) batch: u8,

    /// What is submitted: a transaction of one letter each.
    pub(crate) submitted: &'static str,

    /// What the desk has cast before, as votes with + between them. A proposal is P, the epoch and the transactions; NoMore is
    /// N and the epoch; a closing is C, the epoch, and for each item the lane and the transactions. A value that is no batch
    /// is ?.
    pub(crate) own: &'static str,

    /// What it hears: + or - of a lane that decides 1 or 0, = of one that delivers; then the lane, the epoch, and the
    /// transactions that are delivered.
    pub(crate) script: &'static str,

    /// What it casts at first, and after each thing that it hears, as votes with + between them, or a dot.
    pub(crate) wanted: &'static str,
}

pub(crate) const CASES: [Case; 13] = [
    // the epochs one after the other
    Case {
        nodes: 4,
        faulty: 1,
        batch: 2,
        submitted: "abcde",
        own: "",
        script: "+00 +10 +20 =00ab =10xy =20c -30 +01 =01cd +11 =11e +21 =21 +31 =31z +02 +12 +22 +32 =32 =22ab =12e =02q",
        wanted: "P0ab . . N0 . . . C00ab1xy2c+P1de . . . . N1 . . C10cd1e23z+P2 . . N2 . . . . C20q1e2ab3",
    },
    // the last first, and all three closed at once
    Case {
        nodes: 4,
        faulty: 1,
        batch: 2,
        submitted: "abcdefg",
        own: "",
        script: "+02 =02ef +12 =12g +22 =22 -32 +01 =01cd +11 =11x +21 =21b -31 +00 =00ab +10 =10c +20 =20 -30",
        wanted: "P0ab . . . . N2 . . . . . . N1 . . . . . . N0 . C00ab1c2+C10cd1x2b+C20ef1g2+P1de+P2ef",
    },
    // two at once, by a delivery; bytes that are no batch
    Case {
        nodes: 4,
        faulty: 1,
        batch: 3,
        submitted: "abcabd",
        own: "",
        script: "=01c +01 =11a +11 =21? +21 -31 -00 =10bx +10 =20 +20 +30 +22 =22 +32 =32 +12 =12d =30d -02",
        wanted: "P0abc . . . . . N1 . . . . . . N0 . . . . N2 . C01bx23d+C10c1a2?+P1ac+P2 C21d23",
    },
    // of a lane the first of each counts; an epoch that the run has not
    Case {
        nodes: 4,
        faulty: 1,
        batch: 1,
        submitted: "abc",
        own: "",
        script: "+00 -00 =00a =00b +10 =10? +20 =20b -30 +30 +01 +11 +21 -31 =11 =01 +03 =03c -33 =21c -02 -12 -22 -32",
        wanted: "P0a . . . . . . N0 . C00a1?2b+P1c . . . N1 . . . . . . C1012c+P2 . . . C2",
    },
    // lanes that decided 0 are left out, whatever they deliver
    Case {
        nodes: 4,
        faulty: 1,
        batch: 2,
        submitted: "ab",
        own: "",
        script: "=00b -00 -10 -20 -30 -01 -11 =21a -21 -31 -02 -12 -22 -32",
        wanted: "P0ab . . . . C0+P1ab . . . . C1+P2ab . . . C2",
    },
    // one node that nothing was submitted to
    Case {
        nodes: 1,
        faulty: 0,
        batch: 4,
        submitted: "",
        own: "",
        script: "+00 =00 =01ab +01 +02 =02",
        wanted: "P0 N0 C00+P1 . N1+C10ab+P2 N2 C20",
    },
    // one node, the last first; what comes twice is proposed once
    Case {
        nodes: 1,
        faulty: 0,
        batch: 4,
        submitted: "aabba",
        own: "",
        script: "=02b +02 =01 +01 =00a +00",
        wanted: "P0ab . N2 . N1 . N0+C00a+C10+C20b+P1b+P2b",
    },
    // seven nodes
    Case {
        nodes: 7,
        faulty: 2,
        batch: 3,
        submitted: "abcdefghijk",
        own: "",
        script: "+60 =60k =50ab +50 +40 =40c +30 =30a +20 =20 -10 -00 +01 =01def +11 =11 -21 -31 +41 =41g +51 =51 +61 =61h",
        wanted: "P0abc . . . . . . . . N0 . . C023a4c5ab6k+P1def . . . . . . . . . . N1 C10def14g56h+P2ij",
    },
    // closed before the first proposal was cast
    Case {
        nodes: 4,
        faulty: 1,
        batch: 2,
        submitted: "abcd",
        own: "N0+C00a1bx2+P1cd",
        script: "+01 +11 +21 =01 =11c =21x -31",
        wanted: "P0ab . . N1 . . . C101c2x+P2d",
    },
    // all closed, and nothing proposed first
    Case {
        nodes: 1,
        faulty: 0,
        batch: 2,
        submitted: "abc",
        own: "C00ab+P1c+C10+P2c+C20c",
        script: "+00 =00 +02",
        wanted: "P0ab N0 . N2",
    },
    // wanted no more in a later epoch
    Case {
        nodes: 4,
        faulty: 1,
        batch: 1,
        submitted: "ab",
        own: "P0a+N1",
        script: "+01 +11 +21 +00 +10 +20 =00b =10 =20 -30",
        wanted: ". . . . . . N0 . . . C00b12+P1a",
    },
    // a closed batch that is none
    Case {
        nodes: 1,
        faulty: 0,
        batch: 3,
        submitted: "ab",
        own: "P0ab+N0+C00?+P1ab",
        script: "+01 =01ba",
        wanted: ". N1 C10ba+P2",
    },
    // wants no more and closes at once, two epochs the second time
    Case {
        nodes: 4,
        faulty: 1,
        batch: 2,
        submitted: "abcdef",
        own: "",
        script: "-30 =00a +00 =10c +10 =20 +20 -12 +02 =02f =22 +22 =32 +32 =01bd +01 -21 =11 +11 =31e +31",
        wanted: "P0ab . . . . . . N0+C00a1c2+P1bd . . . . . . N2 . . . . . . N1+C10bd13e+C20f23+P2f",
    },
];
