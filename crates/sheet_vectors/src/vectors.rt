//! Words, and what they are read as.
use crate::outcomes::{Counts, Outcome, Told};
use sheet::faults::Layer::{Records, Sheets, Words};

/// A sheet, with its numbers of nodes, links and order words.
macro_rules! held {
    ($nodes:expr, $links:expr, $order:expr) => {
        Ok(Counts {
            nodes: $nodes,
            links: $links,
            order: $order,
        })
    };
}

/// A fault, with its number, its layer and its place.
macro_rules! refused {
    ($number:expr, $layer:expr, $place:expr) => {
        Err(Told {
            number: $number,
            layer: $layer,
            place: $place,
        })
    };
}

/// A name, words, the bytes of a word that is cut off after them, and what they are read as.
// Names of the four fields in each of 75 rows would be no plainer.
#[derive(Clone, Copy)]
pub struct Vector(
    pub &'static str,
    pub &'static [u32],
    pub &'static [u8],
    pub Outcome,
);

/// Sheets, and words with one fault.
pub const SINGLE: [Vector; 32] = [
    Vector("one node", &[0x1000_0001, 0xf000_0001], &[], held!(1, 0, 0)),
    Vector(
        "512 nodes",
        &[0x1000_0200, 0xf000_0001],
        &[],
        held!(512, 0, 0),
    ),
    Vector(
        "one node in order",
        &[0x1000_0001, 0x3000_0001, 0xf000_0002],
        &[],
        held!(1, 0, 1),
    ),
    Vector(
        "a ring",
        &[
            0x1000_0004,
            0x2000_0402,
            0x2000_0803,
            0x2000_0c04,
            0x2000_1001,
            0xf000_0005,
        ],
        &[],
        held!(4, 4, 0),
    ),
    Vector("no bytes", &[], &[], refused!(4, Sheets, 0)),
    Vector("a head alone", &[0x1000_0200], &[], refused!(7, Sheets, 1)),
    Vector(
        "one byte of a word",
        &[0x1000_0001],
        &[0x01],
        refused!(1, Words, 1),
    ),
    Vector(
        "two bytes of a word",
        &[0x1000_0001],
        &[0x01, 0x00],
        refused!(1, Words, 1),
    ),
    Vector(
        "three bytes of a word",
        &[0x1000_0001],
        &[0x01, 0x00, 0x00],
        refused!(1, Words, 1),
    ),
    Vector(
        "kind 0",
        &[0x1000_0001, 0x0000_0000],
        &[],
        refused!(2, Words, 1),
    ),
    Vector(
        "kind 4",
        &[0x1000_0001, 0x4000_0000],
        &[],
        refused!(2, Words, 1),
    ),
    Vector(
        "kind 14",
        &[0x1000_0001, 0xe000_0001],
        &[],
        refused!(2, Words, 1),
    ),
    Vector(
        "a head's lowest spare bit",
        &[0x1000_0401],
        &[],
        refused!(3, Words, 0),
    ),
    Vector(
        "a head's highest spare bit",
        &[0x1800_0001],
        &[],
        refused!(3, Words, 0),
    ),
    Vector(
        "a link's lowest spare bit",
        &[0x1000_0002, 0x2010_0402],
        &[],
        refused!(3, Words, 1),
    ),
    Vector(
        "an order word's lowest spare bit",
        &[0x1000_0002, 0x3000_0401],
        &[],
        refused!(3, Words, 1),
    ),
    Vector("a link first", &[0x2000_0402], &[], refused!(4, Sheets, 0)),
    Vector(
        "a head of no nodes",
        &[0x1000_0000],
        &[],
        refused!(4, Sheets, 0),
    ),
    Vector(
        "a head of 513 nodes",
        &[0x1000_0201],
        &[],
        refused!(4, Sheets, 0),
    ),
    Vector(
        "a second head",
        &[0x1000_0001, 0x1000_0001],
        &[],
        refused!(5, Sheets, 1),
    ),
    Vector(
        "a link after an order word",
        &[0x1000_0002, 0x3000_0001, 0x2000_0402],
        &[],
        refused!(5, Sheets, 2),
    ),
    Vector(
        "an end after the end",
        &[0x1000_0001, 0xf000_0001, 0xf000_0002],
        &[],
        refused!(5, Sheets, 2),
    ),
    Vector(
        "an end that counts itself",
        &[0x1000_0001, 0xf000_0002],
        &[],
        refused!(7, Sheets, 1),
    ),
    Vector(
        "some order words and no end",
        &[0x1000_0002, 0x3000_0001],
        &[],
        refused!(7, Sheets, 2),
    ),
    Vector(
        "some order words",
        &[0x1000_0002, 0x3000_0001, 0xf000_0002],
        &[],
        refused!(8, Sheets, 2),
    ),
    Vector(
        "a link's first label past n",
        &[0x1000_0002, 0x2000_0c01],
        &[],
        refused!(9, Records, 1),
    ),
    Vector(
        "a link's second label past n",
        &[0x1000_0002, 0x2000_0403],
        &[],
        refused!(9, Records, 1),
    ),
    Vector(
        "an order label 0",
        &[0x1000_0002, 0x3000_0000],
        &[],
        refused!(9, Records, 1),
    ),
    Vector(
        "a link of one node",
        &[0x1000_0002, 0x2000_0401],
        &[],
        refused!(10, Records, 1),
    ),
    Vector(
        "a link again",
        &[0x1000_0002, 0x2000_0402, 0x2000_0402, 0xf000_0003],
        &[],
        refused!(11, Records, 2),
    ),
    Vector(
        "a link turned round",
        &[0x1000_0002, 0x2000_0402, 0x2000_0801, 0xf000_0003],
        &[],
        refused!(11, Records, 2),
    ),
    Vector(
        "an order label again",
        &[0x1000_0002, 0x3000_0001, 0x3000_0001],
        &[],
        refused!(12, Records, 2),
    ),
];

/// Words with two faults, of which the one that is looked for first is told.
///
/// These are all that can meet at one word, but for 6, which takes 4,096 links and has a table of its own. A word of no known
/// kind has no spare bits, and is no link, order word or end. An end has no spare bits either. Where an end follows the end,
/// the first one had all order words. And a link or a label that is there already was in order when it came, so that 11 and
/// 12 meet neither 9 nor 10.
pub const DOUBLE: [Vector; 31] = [
    Vector("1 before 4", &[], &[0x01], refused!(1, Words, 0)),
    Vector(
        "1 before 5",
        &[0x1000_0001, 0xf000_0001],
        &[0x02, 0x00, 0x00],
        refused!(1, Words, 2),
    ),
    Vector("2 before 4", &[0x0000_0001], &[], refused!(2, Words, 0)),
    Vector(
        "2 before 5",
        &[0x1000_0001, 0xf000_0001, 0x4000_0000],
        &[],
        refused!(2, Words, 2),
    ),
    Vector(
        "3 before 4: a head's count",
        &[0x1000_0400],
        &[],
        refused!(3, Words, 0),
    ),
    Vector(
        "3 before 4: no head",
        &[0x2010_0402],
        &[],
        refused!(3, Words, 0),
    ),
    Vector(
        "3 before 5: a second head",
        &[0x1000_0001, 0x1000_0401],
        &[],
        refused!(3, Words, 1),
    ),
    Vector(
        "3 before 5: a late link",
        &[0x1000_0002, 0x3000_0001, 0x2010_0402],
        &[],
        refused!(3, Words, 2),
    ),
    Vector(
        "3 before 5: after the end",
        &[0x1000_0001, 0xf000_0001, 0x3000_0401],
        &[],
        refused!(3, Words, 2),
    ),
    Vector(
        "3 before 9",
        &[0x1000_0002, 0x2010_0403],
        &[],
        refused!(3, Words, 1),
    ),
    Vector(
        "3 before 9: an order word",
        &[0x1000_0002, 0x3000_0400],
        &[],
        refused!(3, Words, 1),
    ),
    Vector(
        "3 before 10",
        &[0x1000_0002, 0x2010_0401],
        &[],
        refused!(3, Words, 1),
    ),
    Vector(
        "3 before 11",
        &[0x1000_0002, 0x2000_0402, 0x2010_0402],
        &[],
        refused!(3, Words, 2),
    ),
    Vector(
        "3 before 12",
        &[0x1000_0002, 0x3000_0001, 0x3000_0401],
        &[],
        refused!(3, Words, 2),
    ),
    Vector("4 before 7", &[0xf000_0001], &[], refused!(4, Sheets, 0)),
    Vector("4 before 9", &[0x2000_0001], &[], refused!(4, Sheets, 0)),
    Vector(
        "4 before 9: an order word",
        &[0x3000_0000],
        &[],
        refused!(4, Sheets, 0),
    ),
    Vector("4 before 10", &[0x2000_0401], &[], refused!(4, Sheets, 0)),
    Vector(
        "5 before 4: a second head's count",
        &[0x1000_0001, 0x1000_0000],
        &[],
        refused!(5, Sheets, 1),
    ),
    Vector(
        "5 before 7",
        &[0x1000_0001, 0xf000_0001, 0xf000_0007],
        &[],
        refused!(5, Sheets, 2),
    ),
    Vector(
        "5 before 9: a late link",
        &[0x1000_0002, 0x3000_0001, 0x2000_0403],
        &[],
        refused!(5, Sheets, 2),
    ),
    Vector(
        "5 before 9: after the end",
        &[0x1000_0001, 0xf000_0001, 0x3000_0009],
        &[],
        refused!(5, Sheets, 2),
    ),
    Vector(
        "5 before 10",
        &[0x1000_0002, 0x3000_0001, 0x2000_0401],
        &[],
        refused!(5, Sheets, 2),
    ),
    Vector(
        "5 before 11",
        &[0x1000_0002, 0x2000_0402, 0x3000_0001, 0x2000_0402],
        &[],
        refused!(5, Sheets, 3),
    ),
    Vector(
        "5 before 12",
        &[0x1000_0001, 0x3000_0001, 0xf000_0002, 0x3000_0001],
        &[],
        refused!(5, Sheets, 3),
    ),
    Vector(
        "7 before 8",
        &[0x1000_0002, 0x3000_0001, 0xf000_0007],
        &[],
        refused!(7, Sheets, 2),
    ),
    Vector(
        "9 before 10",
        &[0x1000_0002, 0x2000_2409],
        &[],
        refused!(9, Records, 1),
    ),
    Vector(
        "9 before 10: label 0",
        &[0x1000_0002, 0x2000_0000],
        &[],
        refused!(9, Records, 1),
    ),
    Vector(
        "the first of two words",
        &[0x1000_0002, 0x2000_0401, 0x4000_0000],
        &[],
        refused!(10, Records, 1),
    ),
    Vector(
        "a fault before the cut",
        &[0x1000_0002, 0x2000_0403],
        &[0x01],
        refused!(9, Records, 1),
    ),
    Vector(
        "a fault before a wrong end",
        &[0x1000_0002, 0x3000_0001, 0x3000_0001, 0xf000_0001],
        &[],
        refused!(12, Records, 2),
    ),
];

/// What follows a head of 512 nodes and 4,096 links, each label to the next eight.
pub const AFTER_MOST_LINKS: [Vector; 12] = [
    Vector("the end", &[0xf000_1001], &[], held!(512, 4096, 0)),
    Vector(
        "a link more",
        &[0x2000_040a],
        &[],
        refused!(6, Sheets, 4097),
    ),
    Vector(
        "a cut word",
        &[],
        &[0x0a, 0x04, 0x00],
        refused!(1, Words, 4097),
    ),
    Vector("3 before 6", &[0x2010_040a], &[], refused!(3, Words, 4097)),
    Vector(
        "5 before 6: a late link",
        &[0x3000_0001, 0x2000_040a],
        &[],
        refused!(5, Sheets, 4098),
    ),
    Vector(
        "5 before 6: after the end",
        &[0xf000_1001, 0x2000_040a],
        &[],
        refused!(5, Sheets, 4098),
    ),
    Vector("6 before 9", &[0x2000_0601], &[], refused!(6, Sheets, 4097)),
    Vector(
        "6 before 10",
        &[0x2000_0401],
        &[],
        refused!(6, Sheets, 4097),
    ),
    Vector(
        "6 before 11",
        &[0x2000_0402],
        &[],
        refused!(6, Sheets, 4097),
    ),
    Vector(
        "6 before 11: turned round",
        &[0x2000_0801],
        &[],
        refused!(6, Sheets, 4097),
    ),
    Vector(
        "an end that counts a word too few",
        &[0xf000_1000],
        &[],
        refused!(7, Sheets, 4097),
    ),
    Vector("no end", &[], &[], refused!(7, Sheets, 4097)),
];
