//! Cards as tables.

ghost use Rattle.std.specs.Prelude.{◌≡◌, ◌↔◌, ◌<◌, List, length, IfOk, IfErr, IfSome, IfNone, IsTrue, true, false};
ghost use Rattle.csv.specs.Records.{fields_of};
ghost use Rattle.lft_tables.specs.Records.{records_of};
ghost use Rattle.lft_record.specs.{CardTables.{CardTable, CardsFail, FaultAt, IsCard, IsContent, cards_header}, CardFaults.is_told};
ghost use Rattle.lft_record.specs.{inner.Seen.{FieldFault, IsCardOf, card_fields}, declared.cards.{card.Card.Card as TheCard, Script.Script}};

use crate::cards::Cards;
use crate::cards::card::{Card, CardEntry, CardStep, CardValue};
use crate::cards::expression::{Sum, read_expression};
use crate::cards::fault::CardFault;
use crate::cards::fields::CardFields;
use crate::cards::kind::{CardKind, read_card_kind};
use csv::ByteRecord;
use lft_ir::{Name, Program};
use lft_tables::{Records, Unread};
use lft_tag::{MAX_TIME, NoMemory};
use lft_trace::LAST_LINE;
use lft_trace::names::{read_reaction, read_thing};
use lft_trace::number::{read_number, read_number_or_zero};
use std::alloc::Global;

/// The greatest number of bodies that a card may give a reaction.
const MAX_BODIES: u64 = 1_000_000;

/// The cards of a table. Line n of a fault is the n-th record.
///
/// `BadHeader` comes before the fault of the least line; at one line the order is field count, kind,
/// number, name, field in place, value, given before; `TooManyRows` comes only where no row within
/// the limit has a fault. `NotCsv` and `NoMemory` may come before any other.
pub fn read_cards(alloc: Global, program: &Program, text: &[u8]) -> Result<Cards, CardFault>
    ensures table { IfOk result (λ cards. CardTable program.now (records_of text.now) cards) }
    ensures one { IfOk result (λ cards. (other : List Script) → CardTable program.now (records_of text.now) other → other ≡ cards) }
    ensures fault { IfErr result (λ e. is_told e ≡ true → CardsFail program.now (records_of text.now) e × ((cards : List Script) → CardTable program.now (records_of text.now) cards → ⊥)) }
{
    // Asked for what every program keeps: no two of its things have one name, and no reaction has
    // an input twice.
    program.keeps();
    read_records(alloc, program, text)
}

// The fault of a table whose records stop. Only that of too many tells something of the text.
fn stopped(unread: Unread) -> CardFault
    ensures { is_told result ≡ true → (unread ≡ Unread.TooMany) × (result ≡ CardFault.TooManyRows) }
{
    match unread {
        Unread::TooMany => CardFault::TooManyRows,
        Unread::NotCsv => CardFault::NotCsv,
        Unread::NoMemory => CardFault::NoMemory,
    }
}

fn read_records(alloc: Global, program: &Program, text: &[u8]) -> Result<Cards, CardFault>
    ensures table { IfOk result (λ cards. CardTable program.now (records_of text.now) cards) }
    ensures fault { IfErr result (λ e. is_told e ≡ true → CardsFail program.now (records_of text.now) e) }
{
    let mut records = Records::new(alloc, text, LAST_LINE);
    match records.next() {
        Ok(true) => {}
        Ok(false) => return Err(CardFault::BadHeader),
        Err(stop) => return Err(stopped(stop)),
    }
    if !is_header(records.fields()) {
        return Err(CardFault::BadHeader);
    }
    let Ok(mut cards) = Cards::new(alloc, program) else {
        return Err(CardFault::NoMemory);
    };
    'lines: loop {
        match records.next() {
            Ok(true) => {}
            Ok(false) => return Ok(cards),
            Err(stop) => return Err(stopped(stop)),
        }
        let card = match read_card(alloc, program, records.fields(), records.line) {
            Ok(card) => card,
            Err(fault) => return Err(fault),
        };
        match cards.add(card) {
            Ok(true) => {}
            Ok(false) => return Err(CardFault::GivenTwice(records.line)),
            Err(_) => return Err(CardFault::NoMemory),
        }
    }
}

// Whether the record is the header.
fn is_header(fields: &ByteRecord) -> bool
    ensures { IsTrue result ↔ (fields_of fields.now ≡ cards_header) }
{
    match CardFields::of(fields) {
        Some(fields) => fields.is_header(),
        None => false,
    }
}

// The card of a record, or the first fault that it has.
fn read_card(
    alloc: Global,
    program: &Program,
    fields: &ByteRecord,
    line: u32,
) -> Result<Card, CardFault>
    ensures card { IfOk result (IsCard program.now (fields_of fields.now)) }
    ensures within { IfOk result (λ card. card.reaction < length program.now.reactions) }
    ensures fault { (before : List TheCard) → IfErr result (λ e. is_told e ≡ true → FaultAt program.now before line (fields_of fields.now) e) }
{
    match CardFields::of(fields) {
        Some(fields) => match read_card_kind(fields.kind) {
            Some(kind) => read_fields(alloc, program, kind, &fields, line),
            None => Err(CardFault::BadKind(line)),
        },
        None => Err(CardFault::BadFieldCount(line)),
    }
}

// The card of a record of this kind, or the first fault that it has beside its kind.
fn read_fields(
    alloc: Global,
    program: &Program,
    kind: CardKind,
    fields: &CardFields,
    line: u32,
) -> Result<Card, CardFault>
    ensures card { IfOk result (IsCardOf program.now kind (card_fields fields.now)) }
    ensures within { IfOk result (λ card. card.reaction < length program.now.reactions) }
    ensures fault { IfErr result (λ e. is_told e ≡ true → FieldFault program.now kind line (card_fields fields.now) e) }
{
    match kind {
        CardKind::Bodies => read_bodies(program, fields, line),
        CardKind::Write => read_write(alloc, program, fields, line),
        CardKind::Schedule => read_schedule(alloc, program, fields, line),
        CardKind::Stop => read_stop(program, fields, line),
        CardKind::State => read_state(alloc, program, fields, line),
    }
}

fn read_bodies(program: &Program, fields: &CardFields, line: u32) -> Result<Card, CardFault>
    ensures card { IfOk result (IsCardOf program.now CardKind.Bodies (card_fields fields.now)) }
    ensures within { IfOk result (λ card. card.reaction < length program.now.reactions) }
    ensures fault { IfErr result (λ e. FieldFault program.now CardKind.Bodies line (card_fields fields.now) e) }
{
    let Some(count) = read_number(fields.value, MAX_BODIES) else {
        return Err(CardFault::BadNumber(line));
    };
    let Some(reaction) = read_reaction(program, None, fields.reaction) else {
        return Err(CardFault::UnknownName(line));
    };
    if fields.is_filled(CardKind::Bodies) {
        return Err(CardFault::FieldInPlace(line));
    }
    let entry = CardEntry::Bodies(count as u32);
    Ok(Card { reaction, entry })
}

fn read_write(
    alloc: Global,
    program: &Program,
    fields: &CardFields,
    line: u32,
) -> Result<Card, CardFault>
    ensures card { IfOk result (IsCardOf program.now CardKind.Write (card_fields fields.now)) }
    ensures within { IfOk result (λ card. card.reaction < length program.now.reactions) }
    ensures fault { IfErr result (λ e. is_told e ≡ true → FieldFault program.now CardKind.Write line (card_fields fields.now) e) }
{
    let Some(reaction) = read_reaction(program, None, fields.reaction) else {
        return Err(CardFault::UnknownName(line));
    };
    let Some(name) = read_thing(program, fields.name) else {
        return Err(CardFault::UnknownName(line));
    };
    if fields.is_filled(CardKind::Write) {
        return Err(CardFault::FieldInPlace(line));
    }
    match read_content(alloc, program, reaction, fields.value) {
        Ok(Some(content)) => {
            let entry = CardEntry::Step(CardStep::Write(name, content));
            Ok(Card { reaction, entry })
        }
        Ok(None) => Err(CardFault::BadValue(line)),
        Err(_) => Err(CardFault::NoMemory),
    }
}

fn read_schedule(
    alloc: Global,
    program: &Program,
    fields: &CardFields,
    line: u32,
) -> Result<Card, CardFault>
    ensures card { IfOk result (IsCardOf program.now CardKind.Schedule (card_fields fields.now)) }
    ensures within { IfOk result (λ card. card.reaction < length program.now.reactions) }
    ensures fault { IfErr result (λ e. is_told e ≡ true → FieldFault program.now CardKind.Schedule line (card_fields fields.now) e) }
{
    let Some(delay) = read_number_or_zero(fields.delay, MAX_TIME) else {
        return Err(CardFault::BadNumber(line));
    };
    let Some(reaction) = read_reaction(program, None, fields.reaction) else {
        return Err(CardFault::UnknownName(line));
    };
    let Some(name) = read_thing(program, fields.name) else {
        return Err(CardFault::UnknownName(line));
    };
    // No field of such a card has to be empty, so none is asked for.
    match read_content(alloc, program, reaction, fields.value) {
        Ok(Some(content)) => {
            let entry = CardEntry::Step(CardStep::Schedule(name, content, delay));
            Ok(Card { reaction, entry })
        }
        Ok(None) => Err(CardFault::BadValue(line)),
        Err(_) => Err(CardFault::NoMemory),
    }
}

fn read_stop(program: &Program, fields: &CardFields, line: u32) -> Result<Card, CardFault>
    ensures card { IfOk result (IsCardOf program.now CardKind.Stop (card_fields fields.now)) }
    ensures within { IfOk result (λ card. card.reaction < length program.now.reactions) }
    ensures fault { IfErr result (λ e. FieldFault program.now CardKind.Stop line (card_fields fields.now) e) }
{
    let Some(reaction) = read_reaction(program, None, fields.reaction) else {
        return Err(CardFault::UnknownName(line));
    };
    if fields.is_filled(CardKind::Stop) {
        return Err(CardFault::FieldInPlace(line));
    }
    let entry = CardEntry::Step(CardStep::Stop);
    Ok(Card { reaction, entry })
}

fn read_state(
    alloc: Global,
    program: &Program,
    fields: &CardFields,
    line: u32,
) -> Result<Card, CardFault>
    ensures card { IfOk result (IsCardOf program.now CardKind.State (card_fields fields.now)) }
    ensures within { IfOk result (λ card. card.reaction < length program.now.reactions) }
    ensures fault { IfErr result (λ e. is_told e ≡ true → FieldFault program.now CardKind.State line (card_fields fields.now) e) }
{
    let Some(reaction) = read_reaction(program, None, fields.reaction) else {
        return Err(CardFault::UnknownName(line));
    };
    if fields.is_filled(CardKind::State) {
        return Err(CardFault::FieldInPlace(line));
    }
    match read_expression(alloc, program, reaction, fields.value) {
        Ok(Some(expression)) => {
            let entry = CardEntry::State(expression);
            Ok(Card { reaction, entry })
        }
        Ok(None) => Err(CardFault::BadValue(line)),
        Err(_) => Err(CardFault::NoMemory),
    }
}

// What a text writes or schedules for a reaction, if it spells anything.
fn read_content(
    alloc: Global,
    program: &Program,
    reaction: u32,
    text: &[u8],
) -> Result<Option<CardValue>, NoMemory>
    requires { reaction < length program.now.reactions }
    ensures some { IfOk result (λ found. IfSome found (IsContent program.now reaction text.now)) }
    ensures none { IfOk result (λ found. IfNone found ((content : CardValue) → IsContent program.now reaction text.now content → ⊥)) }
{
    if text == b"bare".as_slice() {
        return Ok(Some(CardValue::Bare));
    }
    match read_expression(alloc, program, reaction, text) {
        Ok(Some(expression)) => Ok(Some(CardValue::Int(expression))),
        Ok(None) => Ok(None),
        Err(refused) => Err(refused),
    }
}
