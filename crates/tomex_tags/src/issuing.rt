//! The issue of an instruction to a free station.

ghost use Rattle.std.specs.Prelude.{◌≡◌, ◌<◌, Some, None, IfSome, slice_set};
ghost use Rattle.tomex_rvdec.specs.Operands.{sources_of, dest_of, pool_of};
ghost use Rattle.tomex_bus.specs.Sets.{IsWith};
ghost use Rattle.tomex_tags.specs.Places.{place_of_tag};
ghost use Rattle.tomex_tags.specs.Contents.{slot};
ghost use Rattle.tomex_tags.specs.Registers.{station_from, tags_with};

use crate::places::place;
use crate::pools::Pools;
use crate::register_status::RegStatus;
use crate::station::Station;
use tomex_rvdec::Instr;
use tomex_timing::Tag;

/// Issues an instruction to the station of a tag, which is free. `issue_number` instructions have issued before it.
///
/// A source whose register has no Qi gives its value, any other gives the tag of the station that
/// will send it. From now on the destination waits for the new tag.
#[inline(always)]
pub fn issue(
    pools: &mut Pools,
    registers: &mut RegStatus,
    tag: Tag,
    instr: Instr,
    pc: u32,
    issue_number: u32,
)
    requires low { tag.number < 16 }
    requires own { pool_of instr.op ≡ Some tag.pool }
    requires open { slot pools.old.slots (place_of_tag tag) ≡ None }
    ensures slots { pools.new.slots
        ≡ slice_set pools.old.slots (place_of_tag tag) (Some (station_from registers.old instr pc)) }
    ensures busy { IsWith pools.old.busy (place_of_tag tag) pools.new.busy }
    ensures issue_numbers { pools.new.issue_numbers
        ≡ slice_set pools.old.issue_numbers (place_of_tag tag) issue_number }
    ensures values { registers.new.values ≡ registers.old.values }
    ensures sources { IfSome (sources_of instr).j (λ r. r < 32)
        × IfSome (sources_of instr).k (λ r. r < 32) }
    ensures dest { IfSome (dest_of instr) (λ r. r < 32) }
    ensures status { registers.new.tags ≡ tags_with registers.old.tags (dest_of instr) tag }
{
    let sources = instr.sources();
    let station = Station {
        instr,
        pc,
        j: registers.read(sources.j),
        k: registers.read(sources.k),
        address: None,
        value: 0,
        finish: None,
    };
    let dest = pools.take(place(tag), station, issue_number);
    registers.await_result(dest, tag);
}
