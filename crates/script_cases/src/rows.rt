//! Texts, and the line that tells why they are no scenario: one row a line, and `fine` where a text is one.

// Whole texts.
pub(crate) const WHOLE: &str = r#"{ | refused 2 NotJson
{"nodes":4 | refused 2 NotJson
nodes | refused 2 NotJson
{"nodes":4,} | refused 2 NotJson
[1e999] | refused 2 NotJson
{"nodes":4}{} | refused 2 NotJson
null | refused 3 WrongKind top 0 -
true | refused 3 WrongKind top 0 -
7 | refused 3 WrongKind top 0 -
"{}" | refused 3 WrongKind top 0 -
[] | refused 3 WrongKind top 0 -
[{"nodes":4,"faulty":1,"epochs":1}] | refused 3 WrongKind top 0 -
{} | refused 4 Missing top 0 nodes
{"faulty":1,"epochs":1} | refused 4 Missing top 0 nodes
{"nodes":4,"epochs":1} | refused 4 Missing top 0 faulty
{"nodes":4,"faulty":1} | refused 4 Missing top 0 epochs
{"epochs":1,"zz":1} | refused 4 Missing top 0 nodes
{"nodes":4,"faulty":1,"epochs":1,"node":4} | refused 5 Unknown top 0 key=6e6f6465
{"nodes":4,"faulty":1,"epochs":1,"zz":1,"b":1,"Nodes":1} | refused 5 Unknown top 0 key=4e6f646573
{"nodes":0,"faulty":1,"epochs":1,"":1} | refused 5 Unknown top 0 key=
{"nodes":4,"faulty":1,"epochs":1,"\u00e9\n":1} | refused 5 Unknown top 0 key=c3a90a
{"\u006eodes":4,"faulty":1,"epochs":1} | fine
{"nodes":null,"faulty":1,"epochs":1} | refused 6 NotNumber top 0 nodes
{"nodes":true,"faulty":1,"epochs":1} | refused 6 NotNumber top 0 nodes
{"nodes":"4","faulty":1,"epochs":1} | refused 6 NotNumber top 0 nodes
{"nodes":[],"faulty":1,"epochs":1} | refused 6 NotNumber top 0 nodes
{"nodes":{},"faulty":1,"epochs":1} | refused 6 NotNumber top 0 nodes
{"nodes":4.0,"faulty":1,"epochs":1} | refused 6 NotNumber top 0 nodes
{"nodes":4e0,"faulty":1,"epochs":1} | refused 6 NotNumber top 0 nodes
{"nodes":-4,"faulty":1,"epochs":1} | refused 6 NotNumber top 0 nodes
{"nodes":0,"faulty":9,"epochs":1} | refused 7 OutOfRange top 0 nodes value=0
{"nodes":17,"faulty":1,"epochs":1} | refused 7 OutOfRange top 0 nodes value=17
{"nodes":16,"faulty":5,"epochs":32} | fine
{"nodes":1,"faulty":0,"epochs":1} | fine
{"nodes":4,"faulty":-0,"epochs":1} | refused 6 NotNumber top 0 faulty
{"nodes":4,"faulty":6,"epochs":"x"} | refused 7 OutOfRange top 0 faulty value=6
{"nodes":16,"faulty":1,"epochs":null} | refused 6 NotNumber top 0 epochs
{"nodes":4,"faulty":1,"epochs":0} | refused 7 OutOfRange top 0 epochs value=0
{"nodes":4,"faulty":1,"epochs":33} | refused 7 OutOfRange top 0 epochs value=33
{"nodes":3,"faulty":1,"epochs":1} | refused 8 TooFewNodes n=3 f=1
{"nodes":15,"faulty":5,"epochs":1} | refused 8 TooFewNodes n=15 f=5
{"nodes":3,"faulty":1,"epochs":1,"order":"lifo"} | refused 14 BadWord top 0 order word=6c69666f
{"nodes":3,"faulty":1,"epochs":1,"submit":7} | refused 8 TooFewNodes n=3 f=1
{"nodes":3,"nodes":4,"faulty":1,"epochs":1} | fine
{"nodes":4,"nodes":0,"faulty":1,"epochs":1} | refused 7 OutOfRange top 0 nodes value=0"#;

// The numbers and the order. These rows, and those of each list, stand behind seven nodes, of which two may be faulty, and
// one epoch.
pub(crate) const NUMBERS: &str = r#","rounds":0 | refused 7 OutOfRange top 0 rounds value=0
,"rounds":1 | fine
,"rounds":32 | fine
,"rounds":33 | refused 7 OutOfRange top 0 rounds value=33
,"rounds":null,"batch":0 | refused 6 NotNumber top 0 rounds
,"batch":0 | refused 7 OutOfRange top 0 batch value=0
,"batch":1 | fine
,"batch":64 | fine
,"batch":65 | refused 7 OutOfRange top 0 batch value=65
,"batch":1.5,"seed":-1 | refused 6 NotNumber top 0 batch
,"seed":18446744073709551615 | fine
,"seed":18446744073709551616 | refused 6 NotNumber top 0 seed
,"seed":"","version":0 | refused 6 NotNumber top 0 seed
,"version":0 | refused 7 OutOfRange top 0 version value=0
,"version":2 | fine
,"version":3 | refused 7 OutOfRange top 0 version value=3
,"version":true,"workers":9 | refused 6 NotNumber top 0 version
,"workers":0 | fine
,"workers":4 | fine
,"workers":5 | refused 7 OutOfRange top 0 workers value=5
,"workers":"2","order":1 | refused 6 NotNumber top 0 workers
,"workers":5,"order":1 | refused 7 OutOfRange top 0 workers value=5
,"order":null | refused 3 WrongKind top 0 order
,"order":["fifo"] | refused 3 WrongKind top 0 order
,"order":"fifo" | fine
,"order":"mixed" | fine
,"order":"lifo" | refused 14 BadWord top 0 order word=6c69666f
,"order":"" | refused 14 BadWord top 0 order word=
,"order":"Fifo","submit":1 | refused 14 BadWord top 0 order word=4669666f"#;

// Submissions.
pub(crate) const SUBMIT: &str = r#","submit":null | refused 3 WrongKind top 0 submit
,"submit":{} | refused 3 WrongKind top 0 submit
,"submit":"","liars":0 | refused 3 WrongKind top 0 submit
,"submit":[] | fine
,"submit":[7] | refused 3 WrongKind submit 0 -
,"submit":[null] | refused 3 WrongKind submit 0 -
,"submit":[[]] | refused 3 WrongKind submit 0 -
,"submit":[{}] | refused 4 Missing submit 0 node
,"submit":[{"node":0}] | refused 4 Missing submit 0 tx
,"submit":[{"tx":"61"}] | refused 4 Missing submit 0 node
,"submit":[{"node":0,"tx":"61"},{"node":0,"tx":"61"}] | fine
,"submit":[{"node":0,"tx":"61","n":0,"m":0}] | refused 5 Unknown submit 0 key=6d
,"submit":[{"node":0,"Tx":"61"}] | refused 4 Missing submit 0 tx
,"submit":[{"node":"0","tx":1}] | refused 6 NotNumber submit 0 node
,"submit":[{"node":6,"tx":"aB"}] | fine
,"submit":[{"node":7,"tx":1}] | refused 7 OutOfRange submit 0 node value=7
,"submit":[{"node":0,"tx":61}] | refused 3 WrongKind submit 0 tx
,"submit":[{"node":0,"tx":null}] | refused 3 WrongKind submit 0 tx
,"submit":[{"node":0,"tx":"61"},{"node":0,"tx":"6"}] | refused 12 BadHex submit 1 tx
,"submit":[{"node":0,"tx":"61"},{"node":0,"tx":""}] | refused 13 BadLength submit 1 tx length=0
,"submit":[{"node":0,"tx":"6g"}] | refused 12 BadHex submit 0 tx
,"submit":[{"node":0,"tx":" 6"}] | refused 12 BadHex submit 0 tx
,"submit":[{"node":0,"tx":"61"},{"node":7,"tx":""},7] | refused 7 OutOfRange submit 1 node value=7
,"submit":[{"node":1,"tx":"zz","tx":"61"}] | fine"#;

// Liars.
pub(crate) const LIARS: &str = r#","liars":7 | refused 3 WrongKind top 0 liars
,"liars":[{"node":0,"name":"silent"}] | fine
,"liars":["silent"] | refused 3 WrongKind liars 0 -
,"liars":[{"name":"silent"}] | refused 4 Missing liars 0 node
,"liars":[{"node":0}] | refused 4 Missing liars 0 name
,"liars":[{"node":0,"name":"silent","hear":0}] | refused 5 Unknown liars 0 key=68656172
,"liars":[{"node":7,"name":7}] | refused 7 OutOfRange liars 0 node value=7
,"liars":[{"node":0,"name":7}] | refused 3 WrongKind liars 0 name
,"liars":[{"node":0,"name":"Silent"}] | refused 14 BadWord liars 0 name word=53696c656e74
,"liars":[{"node":0,"name":""}] | refused 14 BadWord liars 0 name word=
,"liars":[{"node":0,"name":"0123456789abcdefg","hears":null}] | refused 14 BadWord liars 0 name word=3031323334353637383961626364656667
,"liars":[{"node":0,"name":"silent","hears":null}] | refused 6 NotNumber liars 0 hears
,"liars":[{"node":0,"name":"silent","hears":4194304}] | fine
,"liars":[{"node":0,"name":"silent","hears":4194305}] | refused 7 OutOfRange liars 0 hears value=4194305
,"liars":[{"node":0,"name":"silent"},{"node":0,"name":"silent"},{"node":0,"name":"silent"}] | refused 9 TooManyLiars named=3 f=2
,"liars":[{"node":0,"name":"silent"},{"node":0,"name":"silent"},{"node":1,"name":""}] | refused 14 BadWord liars 2 name word=
,"liars":[{"node":3,"name":"silent"},{"node":3,"name":"ghosty"}] | refused 10 LiarTwice node=3
,"liars":[{"node":3,"name":"silent"},{"node":2,"name":"silent"}] | fine
,"liars":[{"node":3,"name":"babble"},{"node":2,"name":"babble"}],"links":7 | refused 11 NoSuchLiar name=626162626c65
,"liars":[{"node":0,"name":"ghosty"}] | refused 11 NoSuchLiar name=67686f737479
,"liars":[{"node":0,"name":"ghosty"},{"node":1,"name":"ghosty"}],"submit":[7] | refused 3 WrongKind submit 0 -
,"liars":[{"node":null,"name":7}] | refused 6 NotNumber liars 0 node"#;

// Rules on links.
pub(crate) const LINKS: &str = r#","links":"once" | refused 3 WrongKind top 0 links
,"links":[[]] | refused 3 WrongKind links 0 -
,"links":[{"from":9}] | refused 4 Missing links 0 every
,"links":[{"every":1,"shape":"once"}] | refused 4 Missing links 0 at
,"links":[{"every":1,"at":0}] | refused 4 Missing links 0 shape
,"links":[{"every":1,"at":0,"shape":"once","node":0}] | refused 5 Unknown links 0 key=6e6f6465
,"links":[{"from":7,"to":7,"every":0,"at":0,"shape":"once"}] | refused 7 OutOfRange links 0 from value=7
,"links":[{"from":null,"every":1,"at":0,"shape":"once"}] | refused 6 NotNumber links 0 from
,"links":[{"from":6,"to":7,"every":0,"at":0,"shape":"once"}] | refused 7 OutOfRange links 0 to value=7
,"links":[{"to":"1","every":1,"at":0,"shape":"once"}] | refused 6 NotNumber links 0 to
,"links":[{"every":0,"at":0,"shape":"once"}] | refused 7 OutOfRange links 0 every value=0
,"links":[{"every":65536,"at":65535,"shape":"late"}] | fine
,"links":[{"every":65537,"at":9,"shape":"once"}] | refused 7 OutOfRange links 0 every value=65537
,"links":[{"every":3,"at":2,"shape":"drop"}] | fine
,"links":[{"every":3,"at":3,"shape":7}] | refused 7 OutOfRange links 0 at value=3
,"links":[{"every":3,"at":-0,"shape":"once"}] | refused 6 NotNumber links 0 at
,"links":[{"every":3,"at":0,"shape":true}] | refused 3 WrongKind links 0 shape
,"links":[{"every":3,"at":0,"shape":"twice"},{"every":3,"at":0,"shape":"Once"}] | refused 14 BadWord links 1 shape word=4f6e6365
,"links":[{"every":-1,"at":9,"shape":7}] | refused 6 NotNumber links 0 every"#;

// Stops.
pub(crate) const STOPS: &str = r#","stops":{} | refused 3 WrongKind top 0 stops
,"stops":[0] | refused 3 WrongKind stops 0 -
,"stops":[{"actor":0,"call":1,"leave":"old"}] | refused 4 Missing stops 0 node
,"stops":[{"node":0,"call":1,"leave":"old"}] | refused 4 Missing stops 0 actor
,"stops":[{"node":0,"actor":0,"leave":"old"}] | refused 4 Missing stops 0 call
,"stops":[{"node":0,"actor":0,"call":1,"x":1}] | refused 4 Missing stops 0 leave
,"stops":[{"node":0,"actor":0,"call":1,"leave":"old","x":1}] | refused 5 Unknown stops 0 key=78
,"stops":[{"node":7,"actor":8,"call":0,"leave":"tore"}] | refused 7 OutOfRange stops 0 node value=7
,"stops":[{"node":6,"actor":8,"call":0,"leave":"tore"}] | refused 7 OutOfRange stops 0 actor value=8
,"stops":[{"node":6,"actor":7,"call":0,"leave":"tore"}] | refused 7 OutOfRange stops 0 call value=0
,"stops":[{"node":6,"actor":7,"call":1,"leave":"tore"}] | refused 14 BadWord stops 0 leave word=746f7265
,"stops":[{"node":6,"actor":7,"call":1000000,"leave":"torn"}] | fine
,"stops":[{"node":6,"actor":7,"call":1000001,"leave":7}] | refused 7 OutOfRange stops 0 call value=1000001
,"stops":[{"node":0,"actor":0,"call":1,"leave":null}] | refused 3 WrongKind stops 0 leave
,"stops":1,"faults":1 | refused 3 WrongKind top 0 stops
,"stops":[{"node":1.0,"actor":-0,"call":1e0,"leave":7}] | refused 6 NotNumber stops 0 node
,"stops":[{"node":1,"actor":-0,"call":1e0,"leave":7}] | refused 6 NotNumber stops 0 actor
,"stops":[{"node":1,"actor":0,"call":1e0,"leave":7}] | refused 6 NotNumber stops 0 call"#;

// Faults.
pub(crate) const FAULTS: &str = r#","faults":1 | refused 3 WrongKind top 0 faults
,"faults":[true] | refused 3 WrongKind faults 0 -
,"faults":[{"node":0,"actor":0}] | refused 4 Missing faults 0 call
,"faults":[{"node":0,"actor":0,"call":1,"leave":"old"}] | refused 5 Unknown faults 0 key=6c65617665
,"faults":[{"node":0,"actor":9,"call":0}] | refused 7 OutOfRange faults 0 actor value=9
,"faults":[{"node":0,"actor":7,"call":1e0}] | refused 6 NotNumber faults 0 call
,"faults":[{"actor":0,"call":1}] | refused 4 Missing faults 0 node
,"faults":[{"node":0,"call":1}] | refused 4 Missing faults 0 actor
,"faults":[{"node":7,"actor":8,"call":0}] | refused 7 OutOfRange faults 0 node value=7
,"faults":[{"node":0,"actor":7,"call":0}] | refused 7 OutOfRange faults 0 call value=0
,"faults":[{"node":"","actor":"","call":""}] | refused 6 NotNumber faults 0 node
,"faults":[{"node":0,"actor":"","call":""}] | refused 6 NotNumber faults 0 actor
,"faults":[{"node":0,"actor":0,"call":1},{"node":0,"call":1,"x":1}] | refused 4 Missing faults 1 actor"#;

// Scenarios with a number at `@`: its place, and the least and the greatest that it takes.
pub(crate) const BOUNDS: &str = r#"{"nodes":@,"faulty":0,"epochs":1} | top 0 nodes | 1 | 16
{"nodes":16,"faulty":@,"epochs":1} | top 0 faulty | 0 | 5
{"nodes":7,"faulty":2,"epochs":@} | top 0 epochs | 1 | 32
{"nodes":7,"faulty":2,"epochs":1,"rounds":@} | top 0 rounds | 1 | 32
{"nodes":7,"faulty":2,"epochs":1,"batch":@} | top 0 batch | 1 | 64
{"nodes":7,"faulty":2,"epochs":1,"seed":@} | top 0 seed | 0 | 18446744073709551615
{"nodes":7,"faulty":2,"epochs":1,"version":@} | top 0 version | 1 | 2
{"nodes":7,"faulty":2,"epochs":1,"workers":@} | top 0 workers | 0 | 4
{"nodes":7,"faulty":2,"epochs":1,"submit":[{"node":0,"tx":"61"},{"node":@,"tx":"61"}]} | submit 1 node | 0 | 6
{"nodes":7,"faulty":2,"epochs":1,"liars":[{"node":@,"name":"silent"}]} | liars 0 node | 0 | 6
{"nodes":7,"faulty":2,"epochs":1,"liars":[{"node":0,"name":"silent","hears":@}]} | liars 0 hears | 0 | 4194304
{"nodes":7,"faulty":2,"epochs":1,"links":[{"from":@,"every":2,"at":1,"shape":"drop"}]} | links 0 from | 0 | 6
{"nodes":7,"faulty":2,"epochs":1,"links":[{"to":@,"every":2,"at":1,"shape":"late"}]} | links 0 to | 0 | 6
{"nodes":7,"faulty":2,"epochs":1,"links":[{"every":@,"at":0,"shape":"once"}]} | links 0 every | 1 | 65536
{"nodes":7,"faulty":2,"epochs":1,"links":[{"every":9,"at":@,"shape":"twice"}]} | links 0 at | 0 | 8
{"nodes":7,"faulty":2,"epochs":1,"stops":[{"node":@,"actor":0,"call":1,"leave":"old"}]} | stops 0 node | 0 | 6
{"nodes":7,"faulty":2,"epochs":1,"stops":[{"node":0,"actor":@,"call":1,"leave":"new"}]} | stops 0 actor | 0 | 7
{"nodes":7,"faulty":2,"epochs":1,"stops":[{"node":0,"actor":0,"call":@,"leave":"torn"}]} | stops 0 call | 1 | 1000000
{"nodes":7,"faulty":2,"epochs":1,"faults":[{"node":@,"actor":0,"call":1}]} | faults 0 node | 0 | 6
{"nodes":7,"faulty":2,"epochs":1,"faults":[{"node":0,"actor":@,"call":1}]} | faults 0 actor | 0 | 7
{"nodes":7,"faulty":2,"epochs":1,"faults":[{"node":0,"actor":0,"call":@}]} | faults 0 call | 1 | 1000000"#;

// Texts with a value at `@`: its place, and the kind that it takes.
pub(crate) const KINDS: &str = r#"@ | top 0 - | {}
{"nodes":7,"faulty":2,"epochs":1,"order":@} | top 0 order | ""
{"nodes":7,"faulty":2,"epochs":1,"submit":@} | top 0 submit | []
{"nodes":7,"faulty":2,"epochs":1,"submit":[{"node":0,"tx":"61"},@]} | submit 1 - | {}
{"nodes":7,"faulty":2,"epochs":1,"submit":[{"node":0,"tx":@}]} | submit 0 tx | ""
{"nodes":7,"faulty":2,"epochs":1,"liars":@} | top 0 liars | []
{"nodes":7,"faulty":2,"epochs":1,"liars":[@]} | liars 0 - | {}
{"nodes":7,"faulty":2,"epochs":1,"liars":[{"node":0,"name":@}]} | liars 0 name | ""
{"nodes":7,"faulty":2,"epochs":1,"links":@} | top 0 links | []
{"nodes":7,"faulty":2,"epochs":1,"links":[@]} | links 0 - | {}
{"nodes":7,"faulty":2,"epochs":1,"links":[{"every":1,"at":0,"shape":@}]} | links 0 shape | ""
{"nodes":7,"faulty":2,"epochs":1,"stops":@} | top 0 stops | []
{"nodes":7,"faulty":2,"epochs":1,"stops":[@]} | stops 0 - | {}
{"nodes":7,"faulty":2,"epochs":1,"stops":[{"node":0,"actor":0,"call":1,"leave":@}]} | stops 0 leave | ""
{"nodes":7,"faulty":2,"epochs":1,"faults":@} | top 0 faults | []
{"nodes":7,"faulty":2,"epochs":1,"faults":[@]} | faults 0 - | {}"#;

// Texts in parts: the first, the second, how often that stands, the end, and the line.
pub(crate) const LONG: &str =
    r#"{"nodes":4,"faulty":1,"epochs":1,"links":[{"every":1,"at":0,"shape":"once"} | ,{"every":1,"at":0,"shape":"once"} | 255 | ]} | fine
{"nodes":4,"faulty":1,"epochs":1,"links":[{"every":1,"at":0,"shape":"once"} | ,{"every":1,"at":0,"shape":"once"} | 256 | ]} | refused 7 OutOfRange top 0 links value=257
{"nodes":4,"faulty":1,"epochs":1,"links":[{"every":1,"at":0,"shape":"once"} | ,{"every":1,"at":0,"shape":"once"} | 256 | ,7]} | refused 7 OutOfRange top 0 links value=258
{"nodes":4,"faulty":1,"epochs":1,"submit":[{"node":0,"tx":"0 | 00 | 255 | 0"}]} | fine
{"nodes":4,"faulty":1,"epochs":1,"submit":[{"node":0,"tx":"0 | 00 | 256 | 0"}]} | refused 13 BadLength submit 0 tx length=257
{"nodes":4,"faulty":1,"epochs":1,"submit":[{"node":0,"tx":"0 | 00 | 256 | "}]} | refused 12 BadHex submit 0 tx
{"nodes":4,"faulty":1,"epochs":1,"stops":[{"node":1,"actor":2,"call":1,"leave":"new"} | ,{"node":1,"actor":2,"call":9,"leave":"old"} | 3 | ]} | fine
{"nodes":4,"faulty":1,"epochs":1,"stops":[{"node":1,"actor":2,"call":1,"leave":"new"} | ,{"node":1,"actor":2,"call":9,"leave":"old"} | 4 | ]} | refused 7 OutOfRange stops 4 actor value=5
{"nodes":4,"faulty":1,"epochs":1,"stops":[{"node":1,"actor":2,"call":1,"leave":"new"} | ,{"node":1,"actor":2,"call":9,"leave":"old"} | 3 | ,{"node":1,"actor":2,"call":0,"leave":"new"}]} | refused 7 OutOfRange stops 4 call value=0
{"nodes":4,"faulty":1,"epochs":1,"stops":[{"node":1,"actor":2,"call":1,"leave":"new"} | ,{"node":1,"actor":2,"call":9,"leave":"old"} | 10000 | ]} | refused 7 OutOfRange stops 4 actor value=5
{"nodes":4,"faulty":1,"epochs":1,"liars":[{"node":1,"name":"silent"}],"faults":[ | {"node":1,"actor":4,"call":1}, | 4 | 7]} | refused 3 WrongKind faults 4 -
{"nodes":4,"faulty":1,"epochs":1,"liars":[{"node":1,"name":"silent"}],"faults":[ | {"node":1,"actor":4,"call":1}, | 5 | 7]} | refused 7 OutOfRange faults 4 actor value=5"#;
