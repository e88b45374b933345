//! A column of a table.

ghost use Rattle.std.specs.Prelude.{◌≡◌, [], OnErr, OnOk, string_bytes};
ghost use Rattle.tomex_layout.specs.Growth.{Appends};
ghost use Rattle.tomex_layout.specs.Table.{aligned_in, has_line, with_entry};

use crate::aligned::push_aligned;
use std::alloc::{AllocError, Allocator, Global};
use std::marker::Model;

/// A column: a name, and an entry for each line.
#[derive(Drop)]
pub struct Column {
    name: String,
    entries: Vec<String>,
    /// The length of the longest of these texts, in bytes.
    width: usize,
}

/// A line of a table.
#[derive(Clone, Copy)]
pub(crate) enum Line {
    Names,
    /// The entries at this place in the columns.
    Entries(usize),
}

impl Model for Column {
    ghost use Rattle.std.specs.Prelude.{◌≡◌, map, string_bytes};
    ghost use Rattle.tomex_layout.specs.Table.{TableColumn, width_of};

    ghost Value = { TableColumn };

    ghost view = { λ c. record { name = string_bytes c.name; entries = map string_bytes c.entries.items } };

    ghost invariant = { λ c. c.width
        ≡ width_of (record { name = string_bytes c.name; entries = map string_bytes c.entries.items }) };
}

impl Column {
    /// A column of that name, without entries.
    pub fn new(heap: Global, name: String) -> Self
        ensures { result ≡ record { name = string_bytes name; entries = [] } }
    {
        let width = name.as_bytes().len();
        Self {
            name,
            entries: Vec::new(heap),
            width,
        }
    }

    /// Adds an entry.
    pub fn push(&mut self, entry: String) -> Result<(), AllocError>
        ensures one { OnOk result (self.new ≡ with_entry self.old (string_bytes entry)) }
        ensures refused { OnErr result (self.new ≡ self.old) }
    {
        let width = entry.as_bytes().len();
        self.entries.push(entry)?;
        self.width = self.width.max(width);
        Ok(())
    }

    /// Adds the column's text in a line, aligned to the right.
    #[tactic(auto, unfolding(crate::specs::Table::aligned_in))]
    pub(crate) fn push_line<A: Allocator>(
        &self,
        text: &mut String<A>,
        line: Line,
    ) -> Result<(), AllocError>
        requires { has_line line self.now }
        ensures { OnOk result (Appends (aligned_in line self.now) text.old text.new) }
    {
        match line {
            Line::Names => push_aligned(text, self.width, self.name.as_str()),
            Line::Entries(place) => push_aligned(text, self.width, self.entries[place].as_str()),
        }
    }
}
