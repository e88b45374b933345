//! The section headers of an ELF file (System V ABI, "Sections"), and the tables of symbols and names among them.
ghost use Rattle.std.specs.Prelude.{◌≡◌, ◌≤◌, ◌<◌, ◌+◌, ◌*◌, IfSome, length, true, Some, None, if◌then◌else◌};
ghost use Rattle.tomex_image.specs.Loading.{is_elf};
ghost use Rattle.tomex_symbols.specs.Sections.{can_be_read, first_symbol_table, has_code, has_sections};
ghost use Rattle.tomex_symbols.specs.Sections.{is_string_table, is_symbol_table, lies_in_file, section, section_at};
ghost use Rattle.tomex_symbols.specs.Sections.{section_count, sections_from, tables_of};

use tomex_image::{read_half, read_word};

/// The size of the file header, in bytes.
const FILE_HEADER_SIZE: usize = 52;

/// The size of a section header, in bytes.
const SECTION_HEADER_SIZE: usize = 40;

/// The size of an entry of a symbol table, in bytes.
pub const SYMBOL_SIZE: u32 = 16;

// Where the fields of the file header are, in bytes, by the standard's names.
const E_SHOFF: usize = 32;

const E_SHENTSIZE: usize = 46;

const E_SHNUM: usize = 48;

// Types of sections, and the flag of those that have code.
const SHT_SYMTAB: u32 = 2;

const SHT_STRTAB: u32 = 3;

const SHF_EXECINSTR: u32 = 4;

/// The fields of a section header that matter here. The size and the offset in the file are in
/// bytes.
#[derive(Clone, Copy, PartialEq, Eq)]
pub struct Section {
    /// `sh_type`
    pub kind: u32,
    /// `sh_flags`
    pub flags: u32,
    /// `sh_offset`
    pub offset: u32,
    /// `sh_size`
    pub size: u32,
    /// `sh_link`
    pub link: u32,
    /// `sh_entsize`
    pub entry_size: u32,
}

/// A symbol table, and the table of its names.
#[derive(Clone, Copy, PartialEq, Eq)]
pub struct Tables {
    pub symbols: Section,
    pub names: Section,
}

impl Section {
    fn is_symbol_table(&self) -> bool
        ensures { result ≡ is_symbol_table self.now }
    {
        self.kind == SHT_SYMTAB
    }

    fn is_string_table(&self) -> bool
        ensures { result ≡ is_string_table self.now }
    {
        self.kind == SHT_STRTAB
    }

    /// True if the section has instructions.
    pub fn has_code(&self) -> bool
        ensures { result ≡ has_code self.now }
    {
        self.flags / SHF_EXECINSTR % 2 == 1
    }

    fn lies_in(&self, bytes: &[u8]) -> bool
        ensures { result ≡ lies_in_file bytes.now self.now }
    {
        u64::from(self.offset) + u64::from(self.size) <= bytes.len() as u64
    }
}

fn read_section_at(bytes: &[u8], offset: usize) -> Section
    requires { offset + 40 ≤ length bytes.now }
    ensures { result ≡ section_at bytes.now offset }
{
    Section {
        kind: read_word(bytes, offset + 4),
        flags: read_word(bytes, offset + 8),
        offset: read_word(bytes, offset + 16),
        size: read_word(bytes, offset + 20),
        link: read_word(bytes, offset + 24),
        entry_size: read_word(bytes, offset + 36),
    }
}

/// The number of sections: `e_shnum`.
pub fn read_section_count(bytes: &[u8]) -> usize
    requires { has_sections bytes.now ≡ true }
    ensures { result ≡ section_count bytes.now }
{
    usize::from(read_half(bytes, E_SHNUM))
}

/// The section of that number.
pub fn read_section(bytes: &[u8], number: usize) -> Section
    requires there { has_sections bytes.now ≡ true }
    requires within { number < section_count bytes.now }
    ensures { result ≡ section bytes.now number }
{
    read_section_at(
        bytes,
        read_word(bytes, E_SHOFF) as usize + SECTION_HEADER_SIZE * number,
    )
}

/// True if the file is an ELF file with section headers.
fn has_section_headers(bytes: &[u8]) -> bool
    ensures { result ≡ has_sections bytes.now }
{
    bytes.starts_with(b"\x7fELF")
        && bytes.len() >= FILE_HEADER_SIZE
        && usize::from(read_half(bytes, E_SHENTSIZE)) == SECTION_HEADER_SIZE
        && u64::from(read_word(bytes, E_SHOFF))
            + (SECTION_HEADER_SIZE as u64) * u64::from(read_half(bytes, E_SHNUM))
            <= bytes.len() as u64
}

/// The first symbol table of the file.
fn find_symbol_table(bytes: &[u8]) -> Option<Section>
    requires { has_sections bytes.now ≡ true }
    ensures { result ≡ first_symbol_table (sections_from bytes.now 0 (section_count bytes.now)) }
{
    for number in 0..read_section_count(bytes) {
        let section = read_section(bytes, number);
        if section.is_symbol_table() {
            return Some(section);
        }
    }
    None
}

/// The table of a symbol table's names, if both can be read.
fn find_names(bytes: &[u8], symbols: &Section) -> Option<Section>
    requires { has_sections bytes.now ≡ true }
    ensures { result ≡ (if can_be_read bytes.now symbols.now
        then Some (section bytes.now symbols.now.link) else None) }
{
    let is_table = symbols.entry_size == SYMBOL_SIZE && symbols.lies_in(bytes);
    if !is_table || symbols.link as usize >= read_section_count(bytes) {
        return None;
    }
    let names = read_section(bytes, symbols.link as usize);
    if names.is_string_table() && names.lies_in(bytes) {
        Some(names)
    } else {
        None
    }
}

/// The symbol table of the file and the table of its names, if there are two that can be read.
pub fn find_tables(bytes: &[u8]) -> Option<Tables>
    ensures value { result ≡ tables_of bytes.now }
    ensures sections { IfSome result (λ t. has_sections bytes.now ≡ true) }
    ensures symbols { IfSome result (λ t. t.symbols.offset + t.symbols.size ≤ length bytes.now) }
    ensures names { IfSome result (λ t. t.names.offset + t.names.size ≤ length bytes.now) }
{
    if !has_section_headers(bytes) {
        return None;
    }
    let symbols = find_symbol_table(bytes)?;
    let names = find_names(bytes, &symbols)?;
    Some(Tables { symbols, names })
}
