//! A small cave: a jetty, a boathouse and a cistern without light.

/// Its places, ways, words, objects and messages.
pub const DATABASE: &[u8] =
    b"1\n1 You are on a jetty.\n3 You are in a boathouse.\n4 You are in a cistern.\n-1\n\
3\n1 3 19\n3 1 11\n3 4 30\n4 3 29\n-1\n\
4\n11 OUT\n19 IN\n29 UP\n30 DOWN\n1002 LAMP\n1050 AMBER\n2001 TAKE\n2002 DROP\n2007 ON\n-1\n\
5\n2 Lamp\n0 A lamp is here.\n100 A lamp shines here.\n50 Amber\n0 There is amber here!\n-1\n\
6\n1 OK.\n2 It is dark.\n-1\n\
7\n2 1\n50 4\n-1\n\
9\n0 1 3\n-1\n\
0\n";

/// What its messages are for.
pub const BINDINGS: &[u8] = b"msg.ok 1\nmsg.dark 2\n";

/// A log that brings the amber to the boathouse.
pub const LOG: &[u8] = b"no\ntake lamp\nin\ndown\ntake amber\nup\ndrop amber\n";
