//! More columns of the stalls report by place.

ghost use Rattle.std.specs.Prelude.{◌≡◌, ◌++◌, ℕ, List, [], OnOk};
ghost use Rattle.csv.specs.Records.{fields_of, partial_of};
ghost use Rattle.tomex_rvexec.specs.declared.step.Step.{Step};

use csv::ByteRecord;
use std::alloc::{AllocError, Global};
use tomex_rvexec::Step;

/// Columns that say something of a step's place, such as its function.
pub trait StepColumns {
    /// These are the fields of a step.
    ghost shows: { Self → Step → List (List ℕ) → Type 0 };

    /// Adds the fields of a step.
    fn push_fields(
        &self,
        fields: &mut ByteRecord,
        heap: Global,
        step: &Step,
    ) -> Result<(), AllocError>
        requires { partial_of fields.old ≡ [] }
        ensures fields { OnOk result ((own : List (List ℕ)) → shows self.now step.now own
            → fields_of fields.new ≡ fields_of fields.old ++ own) }
        ensures whole { OnOk result (partial_of fields.new ≡ []) };
}

/// No more columns.
#[derive(Clone, Copy, Drop)]
pub struct NoColumns;

impl StepColumns for NoColumns {
    ghost shows = { λ _ _ own. own ≡ [] };

    fn push_fields(
        &self,
        _fields: &mut ByteRecord,
        _heap: Global,
        _step: &Step,
    ) -> Result<(), AllocError> {
        Ok(())
    }
}
