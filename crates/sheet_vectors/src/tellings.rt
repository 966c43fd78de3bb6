//! Words, and what is told of them.

/// Words, the bytes of a word that is cut off after them, and the text that tells of them.
// Names of the three fields in each of 20 rows would be no plainer.
#[derive(Clone, Copy)]
pub struct Telling(pub &'static [u32], pub &'static [u8], pub &'static str);

/// Each rule once, but for the 4,096 links, and words that are whole, cut off and missing.
pub const TELLINGS: [Telling; 20] = [
    Telling(
        &[0x1000_0001, 0xf000_0001],
        &[],
        "nodes 1\nlinks 0\norder words 0\n1 :\n",
    ),
    Telling(
        &[
            0x1000_0004,
            0x2000_0402,
            0x2000_0803,
            0x2000_0c04,
            0x3000_0004,
            0x3000_0003,
            0x3000_0002,
            0x3000_0001,
            0xf000_0008,
        ],
        &[],
        "nodes 4\nlinks 3\norder words 4\n1 : 2\n2 : 1 3\n3 : 2 4\n4 : 3\norder : 4 3 2 1\n",
    ),
    Telling(
        &[0x1000_0001],
        &[0x0f],
        "fault 1 word 1\nword 1 is 0x0f: a word has 4 bytes\n",
    ),
    Telling(
        &[0x1000_0001],
        &[0x0f, 0xa0],
        "fault 1 word 1\nword 1 is 0xa00f: a word has 4 bytes\n",
    ),
    Telling(
        &[0x1000_0001],
        &[0x00, 0x01, 0xf9],
        "fault 1 word 1\nword 1 is 0xf90100: a word has 4 bytes\n",
    ),
    Telling(
        &[0x89ab_cdef],
        &[],
        "fault 2 word 0\nword 0 is 0x89abcdef: its kind is not 1, 2, 3 or 15\n",
    ),
    Telling(
        &[0x1000_0401],
        &[],
        "fault 3 word 0\nword 0 is 0x10000401: a spare bit is set\n",
    ),
    Telling(
        &[],
        &[],
        "fault 4 sheet 0\nword 0 is missing: a sheet begins with a head\n",
    ),
    Telling(
        &[0xf000_0000],
        &[],
        "fault 4 sheet 0\nword 0 is 0xf0000000: a sheet begins with a head\n",
    ),
    Telling(
        &[0x1000_0201],
        &[],
        "fault 4 sheet 0\nword 0 is 0x10000201: a head counts 1 to 512 nodes\n",
    ),
    Telling(
        &[0x1000_0001, 0x1000_0001],
        &[],
        "fault 5 sheet 1\nword 1 is 0x10000001: a sheet has one head\n",
    ),
    Telling(
        &[0x1000_0002, 0x3000_0001, 0x2000_0402],
        &[],
        "fault 5 sheet 2\nword 2 is 0x20000402: links stand before order words\n",
    ),
    Telling(
        &[0x1000_0001, 0xf000_0001, 0x1000_0001],
        &[],
        "fault 5 sheet 2\nword 2 is 0x10000001: nothing follows the end\n",
    ),
    Telling(
        &[0x1000_0001, 0xf000_0002],
        &[],
        "fault 7 sheet 1\nword 1 is 0xf0000002: the end counts the words before it\n",
    ),
    Telling(
        &[0x1000_0200],
        &[],
        "fault 7 sheet 1\nword 1 is missing: a sheet ends with an end word\n",
    ),
    Telling(
        &[0x1000_0002, 0x3000_0001, 0xf000_0002],
        &[],
        "fault 8 sheet 2\nword 2 is 0xf0000002: order words name every node or none\n",
    ),
    Telling(
        &[0x1000_0002, 0x2000_0403],
        &[],
        "fault 9 record 1\nword 1 is 0x20000403: a label is not one of the nodes\n",
    ),
    Telling(
        &[0x1000_0002, 0x2000_0802],
        &[],
        "fault 10 record 1\nword 1 is 0x20000802: a link joins two different nodes\n",
    ),
    Telling(
        &[0x1000_0002, 0x2000_0402, 0x2000_0801],
        &[],
        "fault 11 record 2\nword 2 is 0x20000801: its nodes are linked already\n",
    ),
    Telling(
        &[0x1000_0002, 0x3000_0001, 0x3000_0001],
        &[],
        "fault 12 record 2\nword 2 is 0x30000001: its node has a place in the order already\n",
    ),
];
