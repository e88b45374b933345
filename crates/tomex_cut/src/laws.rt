//! Laws of parts of runs, and of the files that are made of them.
//!
//! These functions do nothing: their contracts are the laws.

ghost use Rattle.std.specs.Prelude.{◌≡◌, ◌≢◌, ◌<◌, ◌≤◌, ◌^◌, ℕ, List, Ok, length, slice_index};
ghost use Rattle.tomex_cut.specs.declared.error.CutError.{CutError};
ghost use Rattle.tomex_cut.specs.Cut.{IsCut, IsCutWithSymbols, IsRefused};
ghost use Rattle.tomex_cut.specs.Laws.{AreAlike, EndsFirst, EntersAt, HaveSameFunctions, IsImageOf, IsPrologueAndPart};
ghost use Rattle.tomex_cut.specs.Laws.{RunsAs};
ghost use Rattle.tomex_cut.specs.Part.{Part, part_of};
ghost use Rattle.tomex_image.specs.Image.{IsLoaded, Loaded};
ghost use Rattle.tomex_image.specs.Window.{IsWindow};
ghost use Rattle.tomex_symbols.specs.Symbols.{has_symbols, symbols_of};

/// A part ends at its first end: after none of its earlier steps, from step number `least` on, was there one. At its
/// end no step of it has the word as pc, or reads or writes a byte of it.
pub fn part_ends_at_its_first_end()
    ensures { (i : Loaded) (from least : ℕ) (p : Part) → part_of i from least ≡ Ok p → EndsFirst i from least p }
{}

/// A run either has such a file or is refused, and for one reason; only memory may be short in either case.
pub fn file_is_made_or_refused()
    ensures made { (i : Loaded) (from least : ℕ) (file : List ℕ) (e : CutError)
        → IsCut i from least file → IsRefused i from least e → e ≡ CutError.Memory }
    ensures refused { (i : Loaded) (from least : ℕ) (e f : CutError) → e ≢ CutError.Memory → f ≢ CutError.Memory
        → IsRefused i from least e → IsRefused i from least f → e ≡ f }
{}

/// The file is an ordinary image: it is loaded into the same window. Its memory is that before the part with the
/// prologue in it, and its entry is the place.
pub fn file_loads_into_the_same_window()
    ensures { (i : Loaded) (from least : ℕ) (file : List ℕ)
        → IsWindow i.window.base i.window.size → IsLoaded i.window i.memory i.entry
        → (c : IsCut i from least file) → IsImageOf file i.window c.memory.bytes c.place }
{}

/// With symbols, too: the file is loaded exactly as the one without. So all that is said of the image below holds of
/// it, with `c.cut` for the cut.
pub fn file_with_symbols_loads_as_the_one_without()
    ensures { (i : Loaded) (bytes : List ℕ) (from least : ℕ) (file : List ℕ)
        → IsWindow i.window.base i.window.size → IsLoaded i.window i.memory i.entry
        → (c : IsCutWithSymbols i bytes from least file)
        → IsImageOf file i.window c.cut.memory.bytes c.cut.place }
{}

/// The symbols of such a file that name code are those of the image's own file, in their order: the same names for the
/// same code. So each address has the same function in both, and a command that groups by function takes the one if it
/// takes the other.
pub fn functions_are_those_of_the_image()
    ensures symbols { (i : Loaded) (bytes : List ℕ) (from least : ℕ) (file : List ℕ)
        → IsWindow i.window.base i.window.size → IsLoaded i.window i.memory i.entry
        → length bytes ≤ 2 ^ 28 → ((k : ℕ) → slice_index bytes k < 256)
        → IsCutWithSymbols i bytes from least file → AreAlike bytes (symbols_of bytes) file (symbols_of file) }
    ensures functions { (i : Loaded) (bytes : List ℕ) (from least : ℕ) (file : List ℕ)
        → IsWindow i.window.base i.window.size → IsLoaded i.window i.memory i.entry
        → length bytes ≤ 2 ^ 28 → ((k : ℕ) → slice_index bytes k < 256)
        → IsCutWithSymbols i bytes from least file → HaveSameFunctions bytes file }
    ensures some { (i : Loaded) (bytes : List ℕ) (from least : ℕ) (file : List ℕ)
        → IsWindow i.window.base i.window.size → IsLoaded i.window i.memory i.entry
        → length bytes ≤ 2 ^ 28 → ((k : ℕ) → slice_index bytes k < 256)
        → IsCutWithSymbols i bytes from least file → has_symbols file ≡ has_symbols bytes }
{}

/// From the part's first pc on, with the registers before the part, the file's image takes the part's steps, one by
/// one: the same pcs, instructions, operand values and bytes. Then it ends as the part does, or by the EBREAK at its
/// end.
pub fn image_runs_as_the_part()
    ensures { (i : Loaded) (from least : ℕ) (file : List ℕ)
        → IsWindow i.window.base i.window.size → IsLoaded i.window i.memory i.entry → (c : IsCut i from least file)
        → RunsAs c.part (record { window = i.window; memory = c.memory.bytes; entry = c.place }) }
{}

/// The image's first 64 steps, its prologue, lead to the part's first pc, with the registers before the part and the
/// image's memory as it was loaded.
pub fn prologue_leads_to_the_part()
    ensures { (i : Loaded) (from least : ℕ) (file : List ℕ)
        → IsWindow i.window.base i.window.size → IsLoaded i.window i.memory i.entry
        → ((k : ℕ) → slice_index i.memory k < 256) → (c : IsCut i from least file)
        → EntersAt c.part (record { window = i.window; memory = c.memory.bytes; entry = c.place }) }
{}

/// The file is an ordinary program: its run is the prologue's 64 steps and then the part's, one by one, and it ends
/// within the limit of a study.
pub fn run_is_the_prologue_and_the_part()
    ensures { (i : Loaded) (from least : ℕ) (file : List ℕ)
        → IsWindow i.window.base i.window.size → IsLoaded i.window i.memory i.entry
        → ((k : ℕ) → slice_index i.memory k < 256) → (c : IsCut i from least file)
        → IsPrologueAndPart c.part (record { window = i.window; memory = c.memory.bytes; entry = c.place }) }
{}
