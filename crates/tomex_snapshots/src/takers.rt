//! The takers of a result that is sent.

ghost use Rattle.std.specs.Prelude.{◌≡◌, ◌<◌, ◌++◌, IfOk, OnOk, string_bytes};
ghost use Rattle.std.specs.List.{flat_map};
ghost use Rattle.tomex_snapshots.specs.Entries.{history_of};
ghost use Rattle.tomex_snapshots.specs.Takers.{awaits, operand_takers, register_takers, same_name, same_tag, takers};
ghost use Rattle.tomex_snapshots.specs.Takers.{takers_text, takers_to};

use crate::entries::Entry;
use crate::view::View;
use std::alloc::{AllocError, Allocator, Global};
use std::fmt::{self, Write};
use tomex_timing::{Busy, Field, Tag};

/// A taker of a result: an operand in a station, or a register.
#[derive(Clone, Copy)]
pub enum Taker {
    J(Tag),
    K(Tag),
    Register(u8),
}

impl fmt::Display for Taker {
    ghost use Rattle.std.specs.Prelude.{Some};
    ghost use Rattle.tomex_snapshots.specs.Takers.{taker_text};

    ghost output = { λ taker. Some (taker_text taker) };

    fn fmt<W: fmt::Write>(&self, f: &mut fmt::Formatter<W>) -> fmt::Result {
        match *self {
            Taker::J(Tag { pool, number }) => write!(f, "{pool}{number} Vj"),
            Taker::K(Tag { pool, number }) => write!(f, "{pool}{number} Vk"),
            Taker::Register(register) => write!(f, "x{register}"),
        }
    }
}

fn same_tag(a: Tag, b: Tag) -> bool
    ensures { result ≡ same_tag a b }
{
    a.pool.place() == b.pool.place() && a.number == b.number
}

/// True if both are the same station, or both are none.
pub fn same_name(a: Option<Tag>, b: Option<Tag>) -> bool
    ensures { result ≡ same_name a b }
{
    match (a, b) {
        (None, None) => true,
        (Some(a), Some(b)) => same_tag(a, b),
        _ => false,
    }
}

/// True if an operand waits for this station's result.
fn awaits(tag: Tag, field: Field) -> bool
    ensures { result ≡ awaits tag field }
{
    match field {
        Field::Waits(other) => same_tag(other, tag),
        Field::Value(_) | Field::Unread => false,
    }
}

/// Adds the operands in a station that wait for the station `tag`.
fn push_operands(takers: &mut Vec<Taker>, tag: Tag, station: Option<Busy>) -> Result<(), AllocError>
    ensures { OnOk result (takers.new.items ≡ takers.old.items ++ operand_takers tag station) }
{
    let Some(busy) = station else {
        return Ok(());
    };
    if awaits(tag, busy.j) {
        takers.push(Taker::J(busy.tag))?;
    }
    if awaits(tag, busy.k) {
        takers.push(Taker::K(busy.tag))?;
    }
    Ok(())
}

/// Adds the operands in all stations that wait for the station `tag`.
fn push_all_operands(
    takers: &mut Vec<Taker>,
    tag: Tag,
    stations: &[Option<Busy>; 96],
) -> Result<(), AllocError>
    ensures { OnOk result (takers.new.items
        ≡ takers.old.items ++ flat_map (operand_takers tag) stations.now) }
{
    for station in stations {
        push_operands(takers, tag, *station)?;
    }
    Ok(())
}

/// Adds a register, if the station was its Qi and it has no Qi now.
fn push_register(
    takers: &mut Vec<Taker>,
    tag: Tag,
    register: u8,
    was: Option<Tag>,
    now: Option<Tag>,
) -> Result<(), AllocError>
    ensures { OnOk result (takers.new.items
        ≡ takers.old.items ++ register_takers tag register was now) }
{
    if let (Some(was), None) = (was, now) {
        if same_tag(was, tag) {
            takers.push(Taker::Register(register))?;
        }
    }
    Ok(())
}

/// The takers of what a station sends to a register in a view's cycle.
fn takers_to(
    heap: Global,
    view: &View<'_>,
    tag: Tag,
    register: u8,
) -> Result<Vec<Taker>, AllocError>
    requires { register < 32 }
    ensures { IfOk result (λ v. v.items
        ≡ takers_to view.now.cycle (history_of view.now.entries.now) tag register) }
{
    let snapshots = &view.snapshots;
    let was = snapshots.before.registers[register as usize];
    let now = snapshots.now.registers[register as usize];
    let mut takers = Vec::new(heap);
    push_all_operands(&mut takers, tag, &snapshots.taking.stations)?;
    push_register(&mut takers, tag, register, was, now)?;
    Ok(takers)
}

/// The takers of a step's result in a view's cycle, if it has a station and a register.
#[tactic(auto, unfolding(crate::specs::Takers::takers))]
fn takers_of(heap: Global, view: &View<'_>, entry: &Entry) -> Result<Vec<Taker>, AllocError>
    ensures { IfOk result (λ v. v.items ≡ takers view.now.cycle view.now.entries.now entry.now) }
{
    match (entry.station(), entry.step.dest()) {
        (Some(tag), Some(register)) => takers_to(heap, view, tag, register),
        _ => Ok(Vec::new(heap)),
    }
}

/// Adds takers, with commas between them.
fn push_list<A: Allocator>(text: &mut String<A>, takers: &[Taker]) -> Result<(), AllocError>
    ensures { OnOk result (string_bytes text.new ≡ string_bytes text.old ++ takers_text takers.now) }
{
    let Some((first, rest)) = takers.split_first() else {
        return text.push_str("none");
    };
    let first = *first;
    write!(text, "{first}")?;
    for taker in rest {
        let taker = *taker;
        write!(text, ", {taker}")?;
    }
    Ok(())
}

/// Adds the takers of a step's result in the cycle in which it is sent.
pub fn push_takers<A: Allocator>(
    text: &mut String<A>,
    heap: Global,
    view: &View<'_>,
    entry: &Entry,
) -> Result<(), AllocError>
    ensures { OnOk result (string_bytes text.new ≡ string_bytes text.old
        ++ takers_text (takers view.now.cycle view.now.entries.now entry.now)) }
{
    let takers = takers_of(heap, view, entry)?;
    push_list(text, takers.as_slice())
}
