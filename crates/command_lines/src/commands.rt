//! The command for which the words of a line stand that follow the caller's name.

ghost use Rattle.std.specs.Prelude.{◌≡◌, ◌*◌, ◌≤◌, drop, length, map, IfSome};
ghost use Rattle.command_lines.specs.CommandLines as lines;
ghost use Rattle.command_lines.specs.Fault.{Answers};
ghost use Rattle.command_lines.specs.Names.{zone_number, zone_of, ends_of};

use crate::fault::LineFault;
use crate::names::NameTable;
use market_model::{BlockOrder, Command, Kind, Order, Orders, Side};
use market_spelling::{
    Verb, read_arc, read_cents, read_contract, read_hour, read_order_name, read_phase, read_price,
    read_quantity, read_quarter, read_side, spells_name,
};
use std::alloc::Global;

// The words of an item of a basket.
const ITEM_WORDS: usize = 5;

// The most items of a basket.
const MOST_ITEMS: usize = 8;

/// The command for which a verb and the words after it stand; a clock line stands for none of its
/// own.
pub fn command_of_words(
    alloc: Global,
    zones: &NameTable,
    verb: Verb,
    words: &[&[u8]],
) -> Result<Command, LineFault>
    requires { length zones.now ≤ 64 }
    ensures { Answers (lines.command_of verb zones.now (map (λ word. word.now) words.now)) result }
{
    if let Verb::Basket = verb {
        return read_basket(alloc, zones, words);
    }
    match read_plain_command(zones, verb, words) {
        Some(command) => Ok(command),
        None => Err(LineFault::Bad),
    }
}

// The command of a verb of one command.
fn read_plain_command(zones: &NameTable, verb: Verb, words: &[&[u8]]) -> Option<Command>
    requires { length zones.now ≤ 64 }
    ensures { result ≡ lines.plain_command_of verb zones.now (map (λ word. word.now) words.now) }
{
    match verb {
        Verb::Enter(side) => read_enter(zones, side, words),
        Verb::EnterBlock(side) => read_block(zones, side, words),
        Verb::Cancel => read_cancel(words),
        Verb::Reduce => read_reduce(words),
        Verb::Blocks => read_blocks(words),
        Verb::Offer => read_offer(zones, words),
        Verb::Request => read_request(zones, words),
        Verb::Halt => read_halt(zones, words),
        Verb::Resume => read_resume(zones, words),
        Verb::Gate => read_gate(words),
        Verb::View => read_view(zones, words),
        Verb::Basket | Verb::Clock => None,
    }
}

// `CONTRACT ZONE QUANTITY PRICE`, and a kind or nothing.
#[tactic(auto, unfolding(crate::specs::CommandLines::enter_of))]
fn read_enter(zones: &NameTable, side: Side, words: &[&[u8]]) -> Option<Command>
    requires { length zones.now ≤ 64 }
    ensures { result ≡ lines.enter_of side zones.now (map (λ word. word.now) words.now) }
{
    let [contract, zone, quantity, price, kind @ ..] = words else {
        return None;
    };
    let kind = read_kind(kind)?;
    let order = read_order(zones, side, kind, *contract, *zone, *quantity, *price)?;
    Some(Command::Enter { order })
}

// The kind of an order: nothing, `ioc`, `fok`, or `iceberg` with a peak and a delta.
#[tactic(auto, unfolding(crate::specs::CommandLines::kind_of))]
fn read_kind(words: &[&[u8]]) -> Option<Kind>
    ensures { result ≡ lines.kind_of (map (λ word. word.now) words.now) }
{
    match words {
        [] => Some(Kind::Limit),
        [word] => read_short_kind(*word),
        [word, peak, delta] => read_iceberg(*word, *peak, *delta),
        _ => None,
    }
}

// `ioc` or `fok`.
#[tactic(auto, unfolding(crate::specs::CommandLines::short_kind_of))]
fn read_short_kind(word: &[u8]) -> Option<Kind>
    ensures { result ≡ lines.short_kind_of word.now }
{
    if word == b"ioc".as_slice() {
        Some(Kind::Ioc)
    } else if word == b"fok".as_slice() {
        Some(Kind::Fok)
    } else {
        None
    }
}

// `iceberg PEAK DELTA`.
#[tactic(auto, unfolding(crate::specs::CommandLines::iceberg_of))]
fn read_iceberg(word: &[u8], peak: &[u8], delta: &[u8]) -> Option<Kind>
    ensures { result ≡ lines.iceberg_of word.now peak.now delta.now }
{
    if word != b"iceberg".as_slice() {
        return None;
    }
    let peak = read_quantity(peak)?;
    let delta = read_cents(delta)?;
    Some(Kind::Iceberg { peak, delta })
}

// An order of this side and kind.
#[tactic(auto, unfolding(crate::specs::CommandLines::order_of))]
fn read_order(
    zones: &NameTable,
    side: Side,
    kind: Kind,
    contract: &[u8],
    zone: &[u8],
    quantity: &[u8],
    price: &[u8],
) -> Option<Order>
    requires { length zones.now ≤ 64 }
    ensures { result ≡ lines.order_of side kind zones.now contract.now zone.now quantity.now price.now }
{
    let contract = read_contract(contract)?;
    let zone = read_zone(zones, zone)?;
    let quantity = read_quantity(quantity)?;
    let price = read_price(price)?;
    Some(Order {
        contract,
        zone,
        side,
        price,
        quantity,
        kind,
    })
}

// `HOUR HOUR ZONE QUANTITY PRICE`.
#[tactic(auto, unfolding(crate::specs::CommandLines::block_of))]
fn read_block(zones: &NameTable, side: Side, words: &[&[u8]]) -> Option<Command>
    requires { length zones.now ≤ 64 }
    ensures { result ≡ lines.block_of side zones.now (map (λ word. word.now) words.now) }
{
    let [first, last, zone, quantity, price] = words else {
        return None;
    };
    let first = read_hour(*first)?;
    let last = read_hour(*last)?;
    let zone = read_zone(zones, *zone)?;
    let quantity = read_quantity(*quantity)?;
    let price = read_price(*price)?;
    Some(Command::EnterBlock {
        order: BlockOrder {
            first,
            last,
            zone,
            side,
            price,
            quantity,
        },
    })
}

// One to eight items of five words.
fn read_basket(alloc: Global, zones: &NameTable, words: &[&[u8]]) -> Result<Command, LineFault>
    requires { length zones.now ≤ 64 }
    ensures { Answers (lines.basket_of zones.now (map (λ word. word.now) words.now)) result }
{
    let Some(count) = count_items(words.len()) else {
        return Err(LineFault::Bad);
    };
    match read_items(alloc, zones, words, count) {
        Ok(orders) => Ok(Command::EnterBasket { orders }),
        Err(fault) => Err(fault),
    }
}

// How many items so many words are, one to eight.
#[tactic(auto, unfolding(crate::specs::CommandLines::item_count))]
fn count_items(words: usize) -> Option<usize>
    ensures value { result ≡ lines.item_count words }
    ensures there { IfSome result (λ count. 5 * count ≤ words) }
    ensures most { IfSome result (λ count. count ≤ 8) }
{
    let count = words / ITEM_WORDS;
    if words != ITEM_WORDS * count || count < 1 || count > MOST_ITEMS {
        return None;
    }
    Some(count)
}

// So many items of five words.
fn read_items(
    alloc: Global,
    zones: &NameTable,
    words: &[&[u8]],
    count: usize,
) -> Result<Orders, LineFault>
    requires few { length zones.now ≤ 64 }
    requires there { 5 * count ≤ length words.now }
    requires most { count ≤ 8 }
    ensures { Answers (lines.items_of count zones.now (map (λ word. word.now) words.now)) result }
{
    let mut orders = Orders::new(alloc);
    for item in 0..count {
        match read_item_at(zones, words, item) {
            Some(order) => orders.push(order)?,
            None => return Err(LineFault::Bad),
        }
    }
    Ok(orders)
}

// The item of this place, counted from 0.
fn read_item_at(zones: &NameTable, words: &[&[u8]], item: usize) -> Option<Order>
    requires few { length zones.now ≤ 64 }
    requires most { item ≤ 8 }
    requires there { 5 * item ≤ length words.now }
    ensures { result ≡ lines.item_of zones.now (drop (5 * item) (map (λ word. word.now) words.now)) }
{
    read_item(zones, words.split_at(ITEM_WORDS * item).1)
}

// The item with which words begin: `SIDE CONTRACT ZONE QUANTITY PRICE`, of a fill-or-kill order.
#[tactic(auto, unfolding(crate::specs::CommandLines::item_of))]
fn read_item(zones: &NameTable, words: &[&[u8]]) -> Option<Order>
    requires { length zones.now ≤ 64 }
    ensures { result ≡ lines.item_of zones.now (map (λ word. word.now) words.now) }
{
    let [side, contract, zone, quantity, price, ..] = words else {
        return None;
    };
    let side = read_side(*side)?;
    read_order(zones, side, Kind::Fok, *contract, *zone, *quantity, *price)
}

// `ORDER`.
#[tactic(auto, unfolding(crate::specs::CommandLines::cancel_of))]
fn read_cancel(words: &[&[u8]]) -> Option<Command>
    ensures { result ≡ lines.cancel_of (map (λ word. word.now) words.now) }
{
    let [name] = words else {
        return None;
    };
    let name = read_order_name(*name)?;
    Some(Command::Cancel { name })
}

// `ORDER QUANTITY`.
#[tactic(auto, unfolding(crate::specs::CommandLines::reduce_of))]
fn read_reduce(words: &[&[u8]]) -> Option<Command>
    ensures { result ≡ lines.reduce_of (map (λ word. word.now) words.now) }
{
    let [name, quantity] = words else {
        return None;
    };
    let name = read_order_name(*name)?;
    let to = read_quantity(*quantity)?.0;
    Some(Command::Reduce { name, to })
}

// `HOUR HOUR`.
#[tactic(auto, unfolding(crate::specs::CommandLines::blocks_of))]
fn read_blocks(words: &[&[u8]]) -> Option<Command>
    ensures { result ≡ lines.blocks_of (map (λ word. word.now) words.now) }
{
    let [first, last] = words else {
        return None;
    };
    let first = read_hour(*first)?;
    let last = read_hour(*last)?;
    Some(Command::Blocks { first, last })
}

// `ARC QUARTER QUARTER QUANTITY`, of an offer.
#[tactic(auto, unfolding(crate::specs::CommandLines::offer_of))]
fn read_offer(zones: &NameTable, words: &[&[u8]]) -> Option<Command>
    requires { length zones.now ≤ 64 }
    ensures { result ≡ lines.offer_of zones.now (map (λ word. word.now) words.now) }
{
    let [arc, first, last, quantity] = words else {
        return None;
    };
    let (from, to) = read_ends(zones, *arc)?;
    let first = read_quarter(*first)?;
    let last = read_quarter(*last)?;
    let lots = read_quantity(*quantity)?.0;
    Some(Command::Offer {
        from,
        to,
        first,
        last,
        lots,
    })
}

// `ARC QUARTER QUARTER QUANTITY`, of a request.
#[tactic(auto, unfolding(crate::specs::CommandLines::request_of))]
fn read_request(zones: &NameTable, words: &[&[u8]]) -> Option<Command>
    requires { length zones.now ≤ 64 }
    ensures { result ≡ lines.request_of zones.now (map (λ word. word.now) words.now) }
{
    let [arc, first, last, quantity] = words else {
        return None;
    };
    let (from, to) = read_ends(zones, *arc)?;
    let first = read_quarter(*first)?;
    let last = read_quarter(*last)?;
    let lots = read_quantity(*quantity)?.0;
    Some(Command::Request {
        from,
        to,
        first,
        last,
        lots,
    })
}

// `ARC HOUR HOUR`, of a halt.
#[tactic(auto, unfolding(crate::specs::CommandLines::halt_of))]
fn read_halt(zones: &NameTable, words: &[&[u8]]) -> Option<Command>
    requires { length zones.now ≤ 64 }
    ensures { result ≡ lines.halt_of zones.now (map (λ word. word.now) words.now) }
{
    let [arc, first, last] = words else {
        return None;
    };
    let (from, to) = read_ends(zones, *arc)?;
    let first = read_hour(*first)?;
    let last = read_hour(*last)?;
    Some(Command::Halt {
        from,
        to,
        first,
        last,
    })
}

// `ARC HOUR HOUR`, of a resumption.
#[tactic(auto, unfolding(crate::specs::CommandLines::resume_of))]
fn read_resume(zones: &NameTable, words: &[&[u8]]) -> Option<Command>
    requires { length zones.now ≤ 64 }
    ensures { result ≡ lines.resume_of zones.now (map (λ word. word.now) words.now) }
{
    let [arc, first, last] = words else {
        return None;
    };
    let (from, to) = read_ends(zones, *arc)?;
    let first = read_hour(*first)?;
    let last = read_hour(*last)?;
    Some(Command::Resume {
        from,
        to,
        first,
        last,
    })
}

// `HOUR PHASE`.
#[tactic(auto, unfolding(crate::specs::CommandLines::gate_line_of))]
fn read_gate(words: &[&[u8]]) -> Option<Command>
    ensures { result ≡ lines.gate_line_of (map (λ word. word.now) words.now) }
{
    let [hour, phase] = words else {
        return None;
    };
    let hour = read_hour(*hour)?;
    let phase = read_phase(*phase)?;
    Some(Command::Gate { hour, phase })
}

// `CONTRACT SIDE ZONE`.
#[tactic(auto, unfolding(crate::specs::CommandLines::view_of))]
fn read_view(zones: &NameTable, words: &[&[u8]]) -> Option<Command>
    requires { length zones.now ≤ 64 }
    ensures { result ≡ lines.view_of zones.now (map (λ word. word.now) words.now) }
{
    let [contract, side, zone] = words else {
        return None;
    };
    let contract = read_contract(*contract)?;
    let side = read_side(*side)?;
    let zone = read_zone(zones, *zone)?;
    Some(Command::View {
        contract,
        side,
        zone,
    })
}

// The number of a zone, by a word that is a name.
#[tactic(auto, unfolding(crate::specs::Names::zone_of))]
fn read_zone(zones: &NameTable, word: &[u8]) -> Option<u32>
    requires { length zones.now ≤ 64 }
    ensures { result ≡ zone_of zones.now word.now }
{
    if !spells_name(word) {
        return None;
    }
    Some(number_of_zone(zones, word))
}

// The numbers of the zones that an arc leads from and to.
#[tactic(auto, unfolding(crate::specs::Names::ends_of))]
fn read_ends(zones: &NameTable, word: &[u8]) -> Option<(u32, u32)>
    requires { length zones.now ≤ 64 }
    ensures { result ≡ ends_of zones.now word.now }
{
    let (from, to) = read_arc(word)?;
    Some((number_of_zone(zones, from), number_of_zone(zones, to)))
}

// The number of a zone; of a name that no zone has, the number of zones.
fn number_of_zone(zones: &NameTable, name: &[u8]) -> u32
    requires { length zones.now ≤ 64 }
    ensures { result ≡ zone_number zones.now name.now }
{
    zones.place(name).unwrap_or(zones.len()) as u32
}
