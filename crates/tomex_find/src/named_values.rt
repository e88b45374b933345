//! Choices, as they are written, and the rows that have them. No call here keeps what it is given as `text`: that is
//! only memory for the choices that are compared.

ghost use Rattle.std.specs.Prelude.{◌≡◌, ◌<◌, length, map, IfOk, OnOk, string_bytes};
ghost use Rattle.tomex_layout.specs.Growth.{Appends};
ghost use Rattle.tomex_find.specs.Find.{choice_text, has_all, has_choice, is_choice, is_had, is_of_setting};

use crate::property::Property;
use std::alloc::{AllocError, Allocator};
use std::fmt::Write;
use tomex_config::Setting;
use tomex_study::Study;

/// Adds a row's choice of a property: `NAME=NUMBER`.
fn push_choice<A: Allocator>(
    text: &mut String,
    study: &Study<A>,
    row: usize,
    property: Property,
) -> Result<(), AllocError>
    requires { row < length study.now.rows }
    ensures { OnOk result (Appends (choice_text study.now row property) text.old text.new) }
{
    property.push_name(text)?;
    let value = property.value(study, row);
    write!(text, "={value}")
}

/// True if a word is a row's choice of a property.
fn is_choice<A: Allocator>(
    text: &mut String,
    study: &Study<A>,
    row: usize,
    property: Property,
    word: &str,
) -> Result<bool, AllocError>
    requires { row < length study.now.rows }
    ensures { IfOk result (λ is. is ≡ is_choice study.now row word.now property) }
{
    text.clear();
    push_choice(text, study, row, property)?;
    Ok(text.as_str() == word)
}

/// True if a word is a row's choice of a setting.
fn is_of_setting<A: Allocator>(
    text: &mut String,
    study: &Study<A>,
    row: usize,
    word: &str,
) -> Result<bool, AllocError>
    requires { row < length study.now.rows }
    ensures { IfOk result (λ is. is ≡ is_of_setting study.now row word.now) }
{
    for setting in Setting::ALL {
        if is_choice(text, study, row, Property::Setting(setting), word)? {
            return Ok(true);
        }
    }
    Ok(false)
}

/// True if a row has a choice.
#[tactic(auto, unfolding(crate::specs::Find::has_choice))]
pub fn has_choice<A: Allocator>(
    text: &mut String,
    study: &Study<A>,
    row: usize,
    word: &str,
) -> Result<bool, AllocError>
    requires { row < length study.now.rows }
    ensures { IfOk result (λ has. has ≡ has_choice study.now row word.now) }
{
    if is_choice(text, study, row, Property::Row, word)? {
        return Ok(true);
    }
    if is_choice(text, study, row, Property::Cost, word)? {
        return Ok(true);
    }
    is_of_setting(text, study, row, word)
}

/// True if a row has all choices.
#[tactic(auto, unfolding(crate::specs::Find::has_all))]
pub fn has_all<A: Allocator>(
    text: &mut String,
    study: &Study<A>,
    row: usize,
    words: &[String],
) -> Result<bool, AllocError>
    requires { row < length study.now.rows }
    ensures { IfOk result (λ has. has ≡ has_all study.now (map string_bytes words.now) row) }
{
    for word in words {
        if !has_choice(text, study, row, word.as_str())? {
            return Ok(false);
        }
    }
    Ok(true)
}

/// True if some row has a choice.
#[tactic(auto, unfolding(crate::specs::Find::is_had))]
pub fn is_had<A: Allocator>(
    text: &mut String,
    study: &Study<A>,
    word: &str,
) -> Result<bool, AllocError>
    ensures { IfOk result (λ had. had ≡ is_had study.now word.now) }
{
    for row in 0..study.rows().len() {
        if has_choice(text, study, row, word)? {
            return Ok(true);
        }
    }
    Ok(false)
}
