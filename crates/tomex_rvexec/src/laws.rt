//! Laws of a run, for machines that carry values by tags: what a step computes from its operands,
//! and where operands come from. Last, a law of the texts that show addresses and bytes.
//!
//! These functions do nothing: their contracts are the laws.

ghost use Rattle.std.specs.Prelude.{◌≡◌, ℕ, ◌+◌, ◌-◌, ◌^◌, ◌<◌, ◌≤◌, ◌||◌, IfSome, IsSome, List, ◌∷◌, ◌++◌};
ghost use Rattle.std.specs.Prelude.{None, Ok, Some, false, is_some, length, reverse, slice_index, true};
ghost use Rattle.std.specs.List.{list_any};
ghost use Rattle.tomex_image.specs.Image.{Loaded, IsLoaded};
ghost use Rattle.tomex_image.specs.Window.{IsWindow};
ghost use Rattle.tomex_rvdec.specs.declared.pool.PoolId.TheVariants as pools;
ghost use Rattle.tomex_rvexec.specs.declared.outcome.EndKind.{EndKind};
ghost use Rattle.tomex_rvexec.specs.declared.outcome.FaultKind.{FaultKind};
ghost use Rattle.tomex_rvexec.specs.declared.step.Step.{Step};
ghost use Rattle.tomex_rvexec.specs.Fetch.{instruction_at};
ghost use Rattle.tomex_rvexec.specs.Flow.{Changes, HasWords, IsAllowed, IsState, end_of};
ghost use Rattle.tomex_rvexec.specs.Results.{covers, overwrites, result_of, stored_byte};
ghost use Rattle.tomex_rvexec.specs.History.{Follows, HasBytesAfter, IsFlow, Leaves, byte_after, history, pc_after};
ghost use Rattle.tomex_rvexec.specs.History.{register_after, state_after, step_after};
ghost use Rattle.tomex_rvexec.specs.Machine.{State, Ends, Goes, coming_of, step_of};
ghost use Rattle.tomex_rvexec.specs.Run.{EndsWithin, Leads, RunEnds, RunFaults, start_of};
ghost use Rattle.tomex_rvexec.specs.Steps.{bytes_of, is_in, is_store, j_of, k_of, step_dest};
ghost use Rattle.tomex_rvexec.specs.Steps.{step_pool, step_unit, is_number};
ghost use Rattle.tomex_rvdec.specs.Text.{hex8};
ghost use Rattle.tomex_rvexec.specs.Texts.{hex2, last_digits};
ghost use Rattle.tomex_rvexec.specs.Trace.{steps_from};

/// A step changes the pc, its destination and the bytes of its store, and nothing else. Its target
/// is a multiple of 4 and its bytes lie in memory. The result depends only on the bytes of the
/// step's own access.
pub fn step_changes_its_destination_and_bytes()
    ensures changes { (s t : State) (x : Step)
        → IsState s → coming_of s ≡ Some x → step_of s ≡ Goes t → Changes s x t }
    ensures allowed { (s t : State) (x : Step)
        → IsState s → coming_of s ≡ Some x → step_of s ≡ Goes t → IsAllowed s.image x }
    ensures state { (s t : State) (x : Step)
        → IsState s → coming_of s ≡ Some x → step_of s ≡ Goes t → IsState t }
    ensures result { (x : Step) (f g : ℕ → ℕ)
        → ((a : ℕ) → covers x a ≡ true → f a ≡ g a) → result_of x f ≡ result_of x g }
{}

/// A step that doesn't fault is that of an instruction; it ends the program exactly if the
/// instruction is ECALL or EBREAK, which write nothing.
pub fn step_is_of_an_instruction()
    ensures goes { (s t : State) → step_of s ≡ Goes t → IsSome (coming_of s) }
    ensures ends { (s : State) (kind : EndKind) → step_of s ≡ Ends kind → IsSome (coming_of s) }
    ensures kind { (s : State) (x : Step) (kind : EndKind)
        → coming_of s ≡ Some x → step_of s ≡ Ends kind → end_of x ≡ Some kind }
    ensures end { (s : State) (x : Step) (kind : EndKind)
        → coming_of s ≡ Some x → end_of x ≡ Some kind → step_of s ≡ Ends kind }
    ensures dest { (x : Step) (kind : EndKind) → end_of x ≡ Some kind → step_dest x ≡ None }
    ensures store { (x : Step) (kind : EndKind) → end_of x ≡ Some kind → is_store x ≡ false }
{}

/// The state after `k` steps of a run is what their history leaves: each register holds the result
/// of the youngest step that writes it, or the start's value, each byte of memory what the youngest
/// store on it left, or the image's, and the next step has its operands from there.
pub fn run_is_its_history()
    ensures leaves { (i : Loaded) (k : ℕ) (s : State)
        → IsLoaded i.window i.memory i.entry → Leads (start_of i) k s → Leaves i (history i k) s }
    ensures state { (i : Loaded) (k : ℕ) (s : State)
        → IsLoaded i.window i.memory i.entry → Leads (start_of i) k s → IsState s }
    ensures flow { (i : Loaded) (k : ℕ) (s : State)
        → IsLoaded i.window i.memory i.entry → Leads (start_of i) k s → IsFlow i (history i k) }
    ensures follows { (i : Loaded) (k : ℕ) (s : State) (x : Step)
        → IsLoaded i.window i.memory i.entry → Leads (start_of i) k s → coming_of s ≡ Some x
        → Follows i (history i k) x }
    ensures words { (k : ℕ) (i : Loaded) (s : State)
        → IsWindow i.window.base i.window.size → IsLoaded i.window i.memory i.entry
        → ((k : ℕ) → slice_index i.memory k < 256) → Leads (start_of i) k s → HasWords s }
{}

/// The youngest step that writes a register gives its value, and the youngest store on a byte the
/// byte; if there is none, the register has the start's value, and the byte is the image's.
pub fn youngest_writer_gives_the_value()
    ensures writer { (i : Loaded) (newer older : List Step) (x : Step) (r : ℕ)
        → list_any (λ y. is_number (step_dest y) r) newer ≡ false → is_number (step_dest x) r ≡ true
        → register_after i (newer ++ x ∷ older) r ≡ result_of x (byte_after i older) }
    ensures start { (i : Loaded) (steps : List Step) (r : ℕ)
        → list_any (λ y. is_number (step_dest y) r) steps ≡ false
        → register_after i steps r ≡ slice_index (start_of i).regs r }
    ensures store { (i : Loaded) (newer older : List Step) (x : Step) (a : ℕ)
        → list_any (λ y. overwrites y a) newer ≡ false → overwrites x a ≡ true
        → byte_after i (newer ++ x ∷ older) a ≡ stored_byte x a }
    ensures image { (i : Loaded) (steps : List Step) (a : ℕ)
        → list_any (λ y. overwrites y a) steps ≡ false
        → byte_after i steps a ≡ slice_index i.memory (a - i.window.base) }
{}

/// What follows from a step agrees: it has a unit exactly if it has a pool; it touches bytes, at
/// least one, exactly if it is a load or a store; and a store, or a step without a pool, writes no
/// register.
pub fn step_says_one_thing_of_itself()
    ensures unit { (x : Step) → is_some (step_unit x) ≡ is_some (step_pool x) }
    ensures memory { (x : Step)
        → is_some (bytes_of x) ≡ (is_in pools.Load (step_pool x) || is_store x) }
    ensures bytes { (x : Step) → IfSome (bytes_of x) (λ b. b.from < b.to) }
    ensures pool { (x : Step) → step_pool x ≡ None → step_dest x ≡ None }
    ensures store { (x : Step) → is_store x ≡ true → step_dest x ≡ None }
{}

/// A history leaves one list of registers and one memory. x0 is zero after any steps, and an
/// operand that an instruction with a station doesn't read is zero.
pub fn history_leaves_one_state()
    ensures registers { (i : Loaded) (steps : List Step) (s : State) (regs : List ℕ)
        → Leaves i steps s → IsState s → length regs ≡ 32
        → ((r : ℕ) → r < 32 → slice_index regs r ≡ register_after i steps r) → regs ≡ s.regs }
    ensures memory { (i : Loaded) (steps : List Step) (s : State) (bytes : List ℕ)
        → Leaves i steps s → IsState s → HasBytesAfter i steps bytes → bytes ≡ s.memory }
    ensures zero { (i : Loaded) (steps : List Step) → register_after i steps 0 ≡ 0 }
    ensures j { (i : Loaded) (older : List Step) (x : Step)
        → Follows i older x → IsSome (step_pool x) → j_of x ≡ None → x.vj ≡ 0 }
    ensures k { (i : Loaded) (older : List Step) (x : Step) → Follows i older x → k_of x ≡ None
        → x.vk ≡ 0 }
{}

/// A history determines the step that follows it, whose instruction is the one at the history's pc.
pub fn history_determines_the_next_step()
    ensures fetched { (i : Loaded) (older : List Step) (x : Step)
        → Follows i older x → instruction_at i (pc_after i older) ≡ Ok x.instr }
    ensures once { (i : Loaded) (older : List Step) (x y : Step)
        → Follows i older x → Follows i older y → x ≡ y }
{}

/// A run has one state after `k` steps, and a run that leads to one leads to each before it; its
/// list of steps is its history, the oldest first.
pub fn run_has_one_state_a_step()
    ensures once { (k : ℕ) (old s t : State) → Leads old k s → Leads old k t → s ≡ t }
    ensures after { (i : Loaded) (k : ℕ) (s : State) → Leads (start_of i) k s
        → s ≡ state_after i k }
    ensures before { (k : ℕ) (i : Loaded) (s : State) (j : ℕ)
        → j ≤ k → Leads (start_of i) k s → Leads (start_of i) j (state_after i j) }
    ensures steps { (i : Loaded) (k : ℕ) (s : State)
        → Leads (start_of i) k s → steps_from k (start_of i) ≡ reverse (history i k) }
{}

/// Two ends of one run are one, so are two faults, and no run both ends and faults.
pub fn run_has_one_end()
    ensures end { (i : Loaded) (k j : ℕ) (s t : State) (kind other : EndKind)
        → RunEnds i k s kind → RunEnds i j t other → (k ≡ j) × (s ≡ t) × (kind ≡ other) }
    ensures fault { (i : Loaded) (k j : ℕ) (s t : State) (kind other : FaultKind)
        → RunFaults i k s kind → RunFaults i j t other → (k ≡ j) × (s ≡ t) × (kind ≡ other) }
    ensures apart { (i : Loaded) (k j : ℕ) (s t : State) (kind : EndKind) (fault : FaultKind)
        → RunEnds i k s kind → RunFaults i j t fault → ⊥ }
{}

/// A run that ends within a limit ends within a higher one, by the same list of steps: its history
/// to the end, the oldest first.
pub fn limit_changes_no_run_that_ends()
    ensures more { (i : Loaded) (limit more : ℕ) → limit ≤ more → EndsWithin i limit
        → EndsWithin i more }
    ensures same { (i : Loaded) (limit more : ℕ)
        → limit ≤ more → EndsWithin i limit
        → steps_from more (start_of i) ≡ steps_from limit (start_of i) }
    ensures steps { (i : Loaded) (k limit : ℕ) (s : State) (kind : EndKind)
        → RunEnds i k s kind → k < limit
        → steps_from limit (start_of i) ≡ reverse (history i (k + 1)) }
{}

/// Each step of a run that ends: it follows those before it, it joins the history, and it continues
/// or, after all others, ends the run in the state that its history leaves.
pub fn run_that_ends_is_a_flow_of_steps()
    ensures comes { (i : Loaded) (n k : ℕ) (s : State) (kind : EndKind)
        → RunEnds i n s kind → k ≤ n → IsSome (step_after i k) }
    ensures joins { (i : Loaded) (k : ℕ) (x : Step)
        → step_after i k ≡ Some x → history i (k + 1) ≡ x ∷ history i k }
    ensures follows { (i : Loaded) (n k : ℕ) (s : State) (kind : EndKind) (x : Step)
        → IsLoaded i.window i.memory i.entry → RunEnds i n s kind → k ≤ n → step_after i k ≡ Some x
        → Follows i (history i k) x }
    ensures on { (i : Loaded) (n k : ℕ) (s : State) (kind : EndKind) (x : Step)
        → IsLoaded i.window i.memory i.entry → RunEnds i n s kind → k < n → step_after i k ≡ Some x
        → IsAllowed i x }
    ensures allowed { (i : Loaded) (n k : ℕ) (s : State) (kind : EndKind) (x : Step)
        → IsLoaded i.window i.memory i.entry → RunEnds i n s kind → k ≤ n
        → step_after i k ≡ Some x → end_of x ≡ None → IsAllowed i x }
    ensures kind { (i : Loaded) (n : ℕ) (s : State) (kind : EndKind) (x : Step)
        → RunEnds i n s kind → step_after i n ≡ Some x → end_of x ≡ Some kind }
    ensures end { (i : Loaded) (n : ℕ) (s : State) (kind : EndKind)
        → IsLoaded i.window i.memory i.entry → RunEnds i n s kind → Leaves i (history i n) s }
{}

/// An address or a register's value is shown by its eight digits in base 16, and a byte by its two.
#[tactic(auto, using(crate::proofs::Hexadecimal::eight_digits, crate::proofs::Hexadecimal::two_digits))]
pub fn hexadecimal_texts_are_digits()
    ensures word { (n : ℕ) → n < 2 ^ 32 → hex8 n ≡ last_digits 8 n }
    ensures byte { (n : ℕ) → n < 2 ^ 8 → hex2 n ≡ last_digits 2 n }
{}
