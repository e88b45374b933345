//! The text of the tables after a cycle.

ghost use Rattle.std.specs.Prelude.{◌≡◌, IfOk, OnOk};
ghost use Rattle.std.specs.List.{filter_map, flat_map};
ghost use Rattle.tomex_layout.specs.Growth.{Appends};
ghost use Rattle.tomex_texts.specs.TablesText.{register_line, register_lines, station_line, tables_text_of};

use std::alloc::{AllocError, Allocator};
use std::fmt::{self, Write};
use tomex_timing::{Busy, Field, Tables, Tag};

/// Shows a station's name.
#[derive(Clone, Copy)]
struct Station(Tag);

impl fmt::Display for Station {
    ghost use Rattle.std.specs.Prelude.{Some};
    ghost use Rattle.tomex_texts.specs.TablesText.{tag_text};

    ghost output = { λ station. Some (tag_text station.0) };

    fn fmt<W: fmt::Write>(&self, f: &mut fmt::Formatter<W>) -> fmt::Result {
        let Tag { pool, number } = self.0;
        write!(f, "{pool}{number}")
    }
}

/// Shows V of an operand.
#[derive(Clone, Copy)]
struct V(Field);

impl fmt::Display for V {
    ghost use Rattle.std.specs.Prelude.{Some};
    ghost use Rattle.tomex_texts.specs.TablesText.{v_text};

    ghost output = { λ v. Some (v_text v.0) };

    fn fmt<W: fmt::Write>(&self, f: &mut fmt::Formatter<W>) -> fmt::Result {
        match self.0 {
            Field::Value(value) => write!(f, "{value:08x}"),
            Field::Waits(_) | Field::Unread => write!(f, "-"),
        }
    }
}

/// Shows Q of an operand.
#[derive(Clone, Copy)]
struct Q(Field);

impl fmt::Display for Q {
    ghost use Rattle.std.specs.Prelude.{Some};
    ghost use Rattle.tomex_texts.specs.TablesText.{q_text};

    ghost output = { λ q. Some (q_text q.0) };

    fn fmt<W: fmt::Write>(&self, f: &mut fmt::Formatter<W>) -> fmt::Result {
        match self.0 {
            Field::Waits(tag) => {
                let station = Station(tag);
                write!(f, "{station}")
            }
            Field::Value(_) | Field::Unread => write!(f, "-"),
        }
    }
}

/// Shows A of a load or store.
#[derive(Clone, Copy)]
struct Address(Option<u32>);

impl fmt::Display for Address {
    ghost use Rattle.std.specs.Prelude.{Some};
    ghost use Rattle.tomex_texts.specs.TablesText.{a_text};

    ghost output = { λ a. Some (a_text a.0) };

    fn fmt<W: fmt::Write>(&self, f: &mut fmt::Formatter<W>) -> fmt::Result {
        match self.0 {
            Some(address) => write!(f, "{address:08x}"),
            None => write!(f, "-"),
        }
    }
}

/// Adds the line of a busy station.
fn push_station<A: Allocator>(text: &mut String<A>, busy: &Busy) -> Result<(), AllocError>
    ensures { OnOk result (Appends (station_line busy.now) text.old text.new) }
{
    let name = busy.instr.op().name();
    let (station, a) = (Station(busy.tag), Address(busy.a));
    let (vj, vk, qj, qk) = (V(busy.j), V(busy.k), Q(busy.j), Q(busy.k));
    write!(
        text,
        "{station} {name} Vj={vj} Vk={vk} Qj={qj} Qk={qk} A={a}\n"
    )?;
    Ok(())
}

/// Adds the lines of the busy stations.
fn push_stations<A: Allocator>(
    text: &mut String<A>,
    places: &[Option<Busy>],
) -> Result<(), AllocError>
    ensures { OnOk result (Appends (flat_map station_line (filter_map (λ b. b) places.now)) text.old text.new) }
{
    for place in places {
        if let Some(busy) = place {
            push_station(text, busy)?;
        }
    }
    Ok(())
}

/// Adds the line of a register that waits.
fn push_register<A: Allocator>(
    text: &mut String<A>,
    register: usize,
    qi: Tag,
) -> Result<(), AllocError>
    ensures { OnOk result (Appends (register_line register (Some qi)) text.old text.new) }
{
    let station = Station(qi);
    write!(text, "x{register} Qi={station}\n")?;
    Ok(())
}

/// Adds the lines of the registers that wait.
fn push_registers<A: Allocator>(
    text: &mut String<A>,
    registers: &[Option<Tag>],
) -> Result<(), AllocError>
    ensures { OnOk result (Appends (register_lines 0 registers.now) text.old text.new) }
{
    for (register, qi) in registers.iter().enumerate() {
        if let Some(qi) = qi {
            push_register(text, register, *qi)?;
        }
    }
    Ok(())
}

/// The text of the tables after a cycle: a line `cycle N`, then one for each busy station in the
/// order of pools and numbers, as `mul0 mul Vj=00000005 Vk=- Qj=- Qk=alu1 A=-`, and one for each
/// register that waits for a station, as `x3 Qi=mul0`. A missing V, Q or A is `-`; V and A are
/// hexadecimal. Every line ends with a line feed.
pub fn tables_text<A: Allocator>(alloc: A, tables: &Tables) -> Result<Vec<u8, A>, AllocError>
    ensures { IfOk result (λ text. text.items ≡ tables_text_of tables.now) }
{
    let mut text = String::new(alloc);
    let cycle = tables.cycle();
    write!(&mut text, "cycle {cycle}\n")?;
    push_stations(&mut text, tables.busy())?;
    push_registers(&mut text, tables.registers())?;
    Ok(text.into_bytes())
}
