//! The rules of a sheet, in words.
ghost use Rattle.std.specs.Prelude.{◌≡◌};
ghost use Rattle.report.specs.Refusals.{word_rule, record_rule, rule_text};

use sheet::reading::Fault;
use sheet::records::RecordFault;
use sheet::words::WordFault;

/// The rule that a fault breaks.
pub fn rule(fault: Fault) -> &'static str
    ensures { result.now ≡ rule_text fault }
{
    match fault {
        Fault::InRecord(e) => record_rule(e),
        Fault::NoHead(_) => "a sheet begins with a head",
        Fault::HeadCount(_) => "a head counts 1 to 512 nodes",
        Fault::SecondHead(_) => "a sheet has one head",
        Fault::LateLink(_) => "links stand before order words",
        Fault::AfterEnd(_) => "nothing follows the end",
        Fault::TooManyLinks(_) => "a sheet has at most 4096 links",
        Fault::EndCount(_) => "the end counts the words before it",
        Fault::NoEnd(_) => "a sheet ends with an end word",
        Fault::OrderShort(_) => "order words name every node or none",
    }
}

fn record_rule(fault: RecordFault) -> &'static str
    ensures { result.now ≡ record_rule fault }
{
    match fault {
        RecordFault::InWord(e) => word_rule(e),
        RecordFault::NoSuchLabel(_) => "a label is not one of the nodes",
        RecordFault::SelfLink(_) => "a link joins two different nodes",
        RecordFault::LinkedTwice(_) => "its nodes are linked already",
        RecordFault::OrderedTwice(_) => "its node has a place in the order already",
    }
}

fn word_rule(fault: WordFault) -> &'static str
    ensures { result.now ≡ word_rule fault }
{
    match fault {
        WordFault::Cut(_) => "a word has 4 bytes",
        WordFault::UnknownKind(_) => "its kind is not 1, 2, 3 or 15",
        WordFault::SpareBits(_) => "a spare bit is set",
    }
}
