//! Laws of the instruction table. These functions do nothing: their contracts are the laws.

ghost use Rattle.std.specs.Prelude.{◌≡◌, ℕ, ◌<◌, ◌^◌, Some, slice_get, length};
ghost use Rattle.tomex_rvdec.specs.declared.pool.PoolId.{PoolId};
ghost use Rattle.tomex_rvdec.specs.declared.pool.UnitId.{UnitId};
ghost use Rattle.tomex_rvdec.specs.Places.{place_of_pool, place_of_unit};
ghost use Rattle.tomex_rvdec.specs.Instruction.{Instruction};
ghost use Rattle.tomex_rvdec.specs.Fits.{Fits};
ghost use Rattle.tomex_rvdec.specs.Meaning.{IsMeant, Means, form_of, meaning};

use crate::encoding::encode;
use crate::instr::Instr;
use crate::pool::{PoolId, UnitId};

/// The table as a relation and as a function agree: a word means an instruction exactly if the
/// function gives it.
#[tactic(auto, using(crate::proofs::Meaning::means_meaning, crate::proofs::Meaning::meaning_means))]
pub fn meaning_is_the_table()
    ensures function { (w : ℕ) (x : Instruction) → Means w x → meaning w ≡ Some x }
    ensures table { (w : ℕ) (x : Instruction) → w < 2 ^ 32 → meaning w ≡ Some x → Means w x }
{}

/// No word means two instructions.
pub fn word_means_one_instruction()
    ensures { (w : ℕ) (x y : Instruction) → Means w x → Means w y → x ≡ y }
{}

/// No `Instr` is meant by two words. (By its type, each `Instr` is meant by some word.)
pub fn instruction_has_one_word(instr: &Instr)
    ensures { (v w : ℕ) → Means v instr.now → Means w instr.now → v ≡ w }
{
    let _word = encode(instr);
}

/// Each instruction whose registers are below 32, whose other fields are zero and whose immediate fits its form is
/// meant by a word.
pub fn what_fits_is_an_instruction()
    ensures { (x : Instruction) → Fits (form_of x.op) x → IsMeant x }
{}

/// Each pool and each kind of unit is at its own place in `PoolId::ALL` and `UnitId::ALL`.
pub fn all_stand_at_their_places()
    ensures pools { (pool : PoolId) → slice_get PoolId.ALL (place_of_pool pool) ≡ Some pool }
    ensures units { (unit : UnitId) → slice_get UnitId.ALL (place_of_unit unit) ≡ Some unit }
    ensures no_more_pools { length PoolId.ALL ≡ 6 }
    ensures no_more_units { length UnitId.ALL ≡ 5 }
{}
