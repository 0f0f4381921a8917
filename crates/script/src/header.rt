ghost use Rattle.std.specs.Prelude.{◌≡◌};
ghost use Rattle.text.specs.Cursors.{ahead};
ghost use Rattle.script.specs.Headers.{rule_word, kind_word, rule_numbers, rule_rest, rule_text};
ghost use Rattle.script.specs.Headers.{header_rest, header_of};

use crate::fault::TextFault;
use crate::words::number_in;
use figure::{DigOrder, FigureKind, Tide};
use text::{FieldCursor, is_text, is_word};

/// The kind of figure that a register holds.
#[derive(Clone, Copy)]
pub enum Kind {
    Tide,
    Order,
}

/// The rule of a register, as the header says it.
#[derive(Clone, Copy)]
pub enum RuleText {
    Count {
        size: u32,
        faults: u32,
    },
    Grid {
        rows: u32,
        columns: u32,
    },
    /// A lead over a count.
    Lead {
        lead: u32,
        size: u32,
        faults: u32,
    },
    /// A count of groups, each a count of places.
    Groups {
        groups: u32,
        group_faults: u32,
        places: u32,
        place_faults: u32,
    },
}

/// What the first line of a script says.
#[derive(Clone, Copy)]
pub struct Header {
    pub kind: Kind,
    pub readers: u32,
    pub rule: RuleText,
}

// The word of a rule.
#[derive(Clone, Copy)]
enum RuleWord {
    Count,
    Grid,
    Lead,
    Groups,
}

/// What the first line of a script says: `plant`, the kind, the readers, the rule's word and its numbers.
pub fn read_header(line: &[u8]) -> Result<Header, TextFault>
    ensures { result ≡ header_of line.now }
{
    if !is_text(line) {
        return Err(TextFault::NotText);
    }
    let mut fields = FieldCursor::over(line);
    let count = fields.count();
    let plant = fields.next_field();
    let kind = fields.next_field();
    let readers = fields.next_field();
    let word = fields.next_field();
    // one word alone, from which nothing is chosen: so no match
    if !is_word(plant, "plant") {
        return Err(TextFault::UnknownWord { field: 0 });
    }
    if count < 4 {
        return Err(TextFault::FieldCount);
    }
    let rule = rule_word(word).ok_or(TextFault::UnknownWord { field: 3 })?;
    if count != 4 + rule_numbers(rule) {
        return Err(TextFault::FieldCount);
    }
    header_rest(kind, readers, rule, fields)
}

// The rule that a word names. An `Option`, and no `TryFrom`: which field is at fault is the caller's to say.
#[tactic(auto, unfolding(crate::specs::Headers::rule_word))]
fn rule_word(word: &[u8]) -> Option<RuleWord>
    ensures { result ≡ rule_word word.now }
{
    match word {
        b"count" => Some(RuleWord::Count),
        b"grid" => Some(RuleWord::Grid),
        b"lead" => Some(RuleWord::Lead),
        b"groups" => Some(RuleWord::Groups),
        _ => None,
    }
}

// The kind of figure that a word names. An `Option`, and no `TryFrom`: which field is at fault is the caller's to say.
#[tactic(auto, unfolding(crate::specs::Headers::kind_word))]
fn kind_word(word: &[u8]) -> Option<Kind>
    ensures { result ≡ kind_word word.now }
{
    if is_word(word, Tide::word()) {
        Some(Kind::Tide)
    } else if is_word(word, DigOrder::word()) {
        Some(Kind::Order)
    } else {
        None
    }
}

// How many numbers follow a rule's word.
fn rule_numbers(rule: RuleWord) -> usize
    ensures { result ≡ rule_numbers rule }
{
    match rule {
        RuleWord::Count | RuleWord::Grid => 2,
        RuleWord::Lead => 3,
        RuleWord::Groups => 4,
    }
}

// The kind, the readers and the numbers of the rule.
#[tactic(auto, unfolding(crate::specs::Headers::header_rest))]
fn header_rest(
    kind: &[u8],
    readers: &[u8],
    rule: RuleWord,
    numbers: FieldCursor<'_>,
) -> Result<Header, TextFault>
    ensures { result ≡ header_rest kind.now readers.now rule (ahead numbers.entry) }
{
    let kind = kind_word(kind).ok_or(TextFault::UnknownWord { field: 1 })?;
    let readers = number_in(readers, 2)?;
    let rule = rule_text(rule, numbers)?;
    Ok(Header {
        kind,
        readers,
        rule,
    })
}

// The numbers of a rule, which begin at field 4 of the line.
#[tactic(auto, unfolding(crate::specs::Headers::rule_text))]
fn rule_text(rule: RuleWord, mut numbers: FieldCursor<'_>) -> Result<RuleText, TextFault>
    ensures { result ≡ rule_text rule (ahead numbers.entry) }
{
    let first = number_in(numbers.next_field(), 4)?;
    let second = number_in(numbers.next_field(), 5)?;
    rule_rest(rule, first, second, numbers)
}

// The numbers of a rule after its first two.
fn rule_rest(
    rule: RuleWord,
    first: u32,
    second: u32,
    mut numbers: FieldCursor<'_>,
) -> Result<RuleText, TextFault>
    ensures { result ≡ rule_rest rule first second (ahead numbers.entry) }
{
    match rule {
        RuleWord::Count => Ok(RuleText::Count {
            size: first,
            faults: second,
        }),
        RuleWord::Grid => Ok(RuleText::Grid {
            rows: first,
            columns: second,
        }),
        RuleWord::Lead => {
            let faults = number_in(numbers.next_field(), 6)?;
            Ok(RuleText::Lead {
                lead: first,
                size: second,
                faults,
            })
        }
        RuleWord::Groups => {
            let places = number_in(numbers.next_field(), 6)?;
            let place_faults = number_in(numbers.next_field(), 7)?;
            Ok(RuleText::Groups {
                groups: first,
                group_faults: second,
                places,
                place_faults,
            })
        }
    }
}
