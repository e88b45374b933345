//! Symbols, and the order of those at one address.
ghost use Rattle.std.specs.Prelude.{◌≡◌};
ghost use Rattle.tomex_symbols.specs.Functions.{holds, rank_of};

/// The kind of thing that a symbol names.
#[derive(Clone, Copy, PartialEq, Eq)]
pub enum Kind {
    /// A function: `STT_FUNC`.
    Function,
    /// A place in code without a type: `STT_NOTYPE`.
    Label,
}

/// A symbol's binding: `STB_GLOBAL`, `STB_WEAK`, or anything else.
#[derive(Clone, Copy, PartialEq, Eq)]
pub enum Binding {
    Global,
    Weak,
    Other,
}

/// A symbol of a file that names code. Addresses and sizes are in bytes.
#[derive(Clone, Copy, PartialEq, Eq)]
pub struct Symbol {
    /// Its number in the table, from 0.
    pub number: u32,
    /// `st_value`
    pub address: u32,
    /// `st_size`, 0 if the size isn't known
    pub size: u32,
    pub kind: Kind,
    pub binding: Binding,
    /// Where in the file its name begins. It ends before the first zero byte, or where the names end.
    pub name: usize,
    /// Where in the file the names end.
    pub names_end: usize,
}

impl Symbol {
    /// The symbol's rank among those at its address; the first to be chosen has 0.
    pub fn rank(&self) -> u8
        ensures { result ≡ rank_of self.now }
    {
        match (self.kind, self.binding) {
            (Kind::Function, Binding::Global) => 0,
            (Kind::Function, Binding::Weak) => 1,
            (Kind::Function, Binding::Other) => 2,
            (Kind::Label, Binding::Global) => 3,
            (Kind::Label, Binding::Weak) => 4,
            (Kind::Label, Binding::Other) => 5,
        }
    }

    /// True if the address is one of the symbol's bytes.
    pub fn holds(&self, pc: u32) -> bool
        ensures { result ≡ holds pc self.now }
    {
        self.address <= pc && u64::from(pc) < u64::from(self.address) + u64::from(self.size)
    }
}
