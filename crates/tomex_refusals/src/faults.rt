//! Refusals of programs whose runs fault.

ghost use Rattle.std.specs.Prelude.{◌≡◌};
ghost use Rattle.tomex_refusals.specs.Faults.{advice_of, form_of, words_of};

/// A fault of a program's run.
#[derive(Clone, Copy)]
pub enum FaultRefusal {
    /// An instruction is fetched from outside memory.
    Fetch,
    /// A word is not an instruction of RV32IM.
    Illegal,
    /// A jump to an address that is not a multiple of 4.
    MisalignedTarget,
    /// A load or store outside memory.
    Access,
}

const FETCH: &str = "The program ran to PC, which is outside memory. The usual causes: `_start`
returned (at the start the return address is 0, and there is nobody to return
to: end by EBREAK, or link examples/start.s), or a jump through a bad pointer.
";

const ILLEGAL: &str = "The word at PC is no instruction of RV32IM. The usual causes: code for more
than that, as compressed code, floating point or CSRs (compile with
`-march=rv32im -mabi=ilp32`; `llvm-objdump -d FILE` shows what is at PC), or
data that is run. At the first address it is mostly a file that is no program:
a text, a C source or a study is taken as a flat image.
Of an ELF file it is mostly one without `_start`: the linker warned of it, and
the file has no entry, or a wrong one. Link examples/start.s. `readelf -h FILE`
says the entry, `readelf -s FILE` where `_start` is.
";

const MISALIGNED_TARGET: &str =
    "A jump goes to an address that is no multiple of 4: mostly it is compressed
code (compile with `-march=rv32im`), or a jump through a bad pointer.
";

const ACCESS: &str = "The instruction at PC loads or stores outside memory. The usual causes: a bad
pointer; a stack that grew out of memory (more `--size`, or less recursion); or
a program of GNU ld whose start code loads no `gp` (link examples/start.s, or
use -Wl,--no-relax). `llvm-objdump -d FILE` shows the instruction.
";

impl FaultRefusal {
    /// The words that all such refusals have.
    pub fn words(self) -> &'static str
        ensures { result.now ≡ words_of self }
    {
        match self {
            FaultRefusal::Fetch => "fault: fetch",
            FaultRefusal::Illegal => "fault: illegal",
            FaultRefusal::MisalignedTarget => "fault: misaligned target",
            FaultRefusal::Access => "fault: access",
        }
    }

    /// Its form, with names in place of the parts that vary.
    pub fn form(self) -> &'static str
        ensures { result.now ≡ form_of self }
    {
        match self {
            FaultRefusal::Fetch => "fault: fetch at PC",
            FaultRefusal::Illegal => "fault: illegal at PC",
            FaultRefusal::MisalignedTarget => "fault: misaligned target at PC",
            FaultRefusal::Access => "fault: access at PC",
        }
    }

    /// The advice on it: its meaning, the usual causes, and what to do.
    pub fn advice(self) -> &'static str
        ensures { result.now ≡ advice_of self }
    {
        match self {
            FaultRefusal::Fetch => FETCH,
            FaultRefusal::Illegal => ILLEGAL,
            FaultRefusal::MisalignedTarget => MISALIGNED_TARGET,
            FaultRefusal::Access => ACCESS,
        }
    }
}
