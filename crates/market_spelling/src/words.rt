//! Words that stand for themselves, and pairs of names.

ghost use Rattle.std.specs.Prelude.{◌≡◌, ◌==◌, None, Some, MatchOption, position};
ghost use Rattle.market_spelling.specs.Words as words;

use order_kinds::{Phase, Side};
use zone_graph::is_name;

/// The first word of a line before the commands.
#[derive(Clone, Copy, Debug, PartialEq, Eq)]
pub enum Heading {
    /// `day`: the delivery day.
    Day,

    /// `zone`: a bidding zone.
    Zone,

    /// `border`: a border of two zones.
    Border,

    /// `trader`: a caller that trades.
    Trader,

    /// `operator`: a caller that offers capacity.
    Operator,

    /// `begin`: the commands follow.
    Begin,
}

/// The word after the caller's name in the line of a command.
#[derive(Clone, Copy, Debug, PartialEq, Eq)]
pub enum Verb {
    /// `buy` or `sell`: an order of that side is entered.
    Enter(Side),

    /// `buyblock` or `sellblock`: a block of that side is entered.
    EnterBlock(Side),

    /// `basket`: fill-or-kill orders are entered together.
    Basket,

    /// `cancel`: an order or a block is withdrawn.
    Cancel,

    /// `reduce`: what is left of an order is lowered.
    Reduce,

    /// `blocks`: the resting blocks of a period are matched.
    Blocks,

    /// `offer`: capacity is offered.
    Offer,

    /// `request`: capacity is asked for.
    Request,

    /// `halt`: a border is halted.
    Halt,

    /// `resume`: a border is resumed.
    Resume,

    /// `gate`: an hour moves to a later phase.
    Gate,

    /// `view`: resting orders are looked at.
    View,

    /// `clock`: the hours move to their phases at an instant.
    Clock,
}

/// A heading, by its word.
#[tactic(auto, unfolding(crate::specs::Words::heading_of))]
pub fn read_heading(bytes: &[u8]) -> Option<Heading>
    ensures { result ≡ words.heading_of bytes.now }
{
    if bytes == b"day".as_slice() {
        Some(Heading::Day)
    } else if bytes == b"zone".as_slice() {
        Some(Heading::Zone)
    } else if bytes == b"border".as_slice() {
        Some(Heading::Border)
    } else if bytes == b"trader".as_slice() {
        Some(Heading::Trader)
    } else if bytes == b"operator".as_slice() {
        Some(Heading::Operator)
    } else if bytes == b"begin".as_slice() {
        Some(Heading::Begin)
    } else {
        None
    }
}

/// A verb, by its word.
#[tactic(auto, unfolding(crate::specs::Words::verb_of))]
pub fn read_verb(bytes: &[u8]) -> Option<Verb>
    ensures { result ≡ words.verb_of bytes.now }
{
    if let Some(side) = read_side(bytes) {
        return Some(Verb::Enter(side));
    }
    if let Some(verb) = read_block_verb(bytes) {
        return Some(verb);
    }
    if let Some(verb) = read_capacity_verb(bytes) {
        return Some(verb);
    }
    if bytes == b"cancel".as_slice() {
        Some(Verb::Cancel)
    } else if bytes == b"reduce".as_slice() {
        Some(Verb::Reduce)
    } else if bytes == b"gate".as_slice() {
        Some(Verb::Gate)
    } else if bytes == b"view".as_slice() {
        Some(Verb::View)
    } else if bytes == b"clock".as_slice() {
        Some(Verb::Clock)
    } else {
        None
    }
}

// A verb of blocks and baskets.
#[tactic(auto, unfolding(crate::specs::Words::block_verb_of))]
fn read_block_verb(bytes: &[u8]) -> Option<Verb>
    ensures { result ≡ words.block_verb_of bytes.now }
{
    if bytes == b"buyblock".as_slice() {
        Some(Verb::EnterBlock(Side::Buy))
    } else if bytes == b"sellblock".as_slice() {
        Some(Verb::EnterBlock(Side::Sell))
    } else if bytes == b"blocks".as_slice() {
        Some(Verb::Blocks)
    } else if bytes == b"basket".as_slice() {
        Some(Verb::Basket)
    } else {
        None
    }
}

// A verb of capacity and borders.
#[tactic(auto, unfolding(crate::specs::Words::capacity_verb_of))]
fn read_capacity_verb(bytes: &[u8]) -> Option<Verb>
    ensures { result ≡ words.capacity_verb_of bytes.now }
{
    if bytes == b"offer".as_slice() {
        Some(Verb::Offer)
    } else if bytes == b"request".as_slice() {
        Some(Verb::Request)
    } else if bytes == b"halt".as_slice() {
        Some(Verb::Halt)
    } else if bytes == b"resume".as_slice() {
        Some(Verb::Resume)
    } else {
        None
    }
}

/// A side: `buy` or `sell`.
#[tactic(auto, unfolding(crate::specs::Words::side_of))]
pub fn read_side(bytes: &[u8]) -> Option<Side>
    ensures { result ≡ words.side_of bytes.now }
{
    if bytes == b"buy".as_slice() {
        Some(Side::Buy)
    } else if bytes == b"sell".as_slice() {
        Some(Side::Sell)
    } else {
        None
    }
}

/// A phase: `open`, `local` or `closed`.
#[tactic(auto, unfolding(crate::specs::Words::phase_of))]
pub fn read_phase(bytes: &[u8]) -> Option<Phase>
    ensures { result ≡ words.phase_of bytes.now }
{
    if bytes == b"open".as_slice() {
        Some(Phase::Open)
    } else if bytes == b"local".as_slice() {
        Some(Phase::Local)
    } else if bytes == b"closed".as_slice() {
        Some(Phase::Closed)
    } else {
        None
    }
}

/// An arc: the name of the zone that it leads from, `>`, and the name of the zone that it leads
/// to.
#[tactic(auto, unfolding(crate::specs::Words::arc_of))]
pub fn read_arc(bytes: &[u8]) -> Option<(&[u8], &[u8])>
    ensures { MatchOption result (words.arc_of bytes.now ≡ None) (λ ends. words.arc_of bytes.now ≡ Some (ends.0.now, ends.1.now)) }
{
    let (from, to) = split_at_byte(bytes, b'>')?;
    if !are_names(from, to) {
        return None;
    }
    Some((from, to))
}

// Whether both are names.
fn are_names(one: &[u8], other: &[u8]) -> bool
    ensures { result ≡ words.are_names (one.now, other.now) }
{
    spells_name(one) && spells_name(other)
}

/// Whether bytes are a name: 1 to 16 letters, digits, underscores and hyphens of ASCII.
pub fn spells_name(bytes: &[u8]) -> bool
    ensures { result ≡ words.is_name bytes.now }
{
    is_name(bytes)
}

// What stands before the first such byte, and what stands after it.
#[tactic(auto, unfolding(crate::specs::Words::parts_around))]
pub(crate) fn split_at_byte(bytes: &[u8], byte: u8) -> Option<(&[u8], &[u8])>
    ensures { MatchOption result (words.parts_around byte bytes.now ≡ None) (λ parts. words.parts_around byte bytes.now ≡ Some (parts.0.now, parts.1.now)) }
{
    let place = find_byte(bytes, byte)?;
    Some((&bytes[..place], &bytes[place + 1..]))
}

// The place of the first such byte.
fn find_byte(bytes: &[u8], byte: u8) -> Option<usize>
    ensures { result ≡ position (λ other. other == byte) bytes.now }
{
    bytes.iter().position(|other| *other == byte)
}
